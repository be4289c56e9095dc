//! Records, one after another, as csv writes them.
ghost use Rattle.std.specs.Prelude.{◌≡◌};

use csv::{ByteRecord, Writer, WriterBuilder};
use std::alloc::{AllocError, Global};
use std::marker::Model;

/// Records that were written behind a line end, each of any number of fields; after a refusal there
/// are no more.
#[derive(Drop)]
pub(crate) struct Records {
    writer: Writer<Vec<u8>>,
    refused: bool,
}

impl Model for Records {
    ghost use Rattle.std.specs.Prelude.{◌≡◌, ◌++◌, false};
    ghost use Rattle.csv.specs.Writing.{writer_under, writer_pending};
    ghost use Rattle.parts.specs.Written.{RecordsView, IsBetweenRecords};

    ghost Value = { RecordsView };

    ghost view = { λ a.
        record {
          text = (writer_under a.writer).items ++ writer_pending a.writer;
          refused = a.refused;
        } };

    ghost invariant = { λ a. a.refused ≡ false → IsBetweenRecords a.writer };
}

impl Records {
    ghost use Rattle.std.specs.Prelude.{◌≡◌, ◌++◌, ◌∷◌, [], IfOk, OnOk, false};
    ghost use Rattle.csv.specs.Records.{fields_of};
    ghost use Rattle.parts.specs.Part.{blank_fields};
    ghost use Rattle.parts.specs.Written.{record_text, written};

    /// A line end, and no record.
    pub(crate) fn new(alloc: Global) -> Result<Records, AllocError>
        ensures { IfOk result (λ records. records ≡ written (10 ∷ [])) }
    {
        let mut text = Vec::new(alloc);
        text.push(b'\n')?;
        let writer = WriterBuilder::new().flexible(true).from_writer(text);
        Ok(Records {
            writer,
            refused: false,
        })
    }

    /// Writes a record behind the others.
    pub(crate) fn push(&mut self, row: &ByteRecord) -> Result<(), AllocError>
        requires { self.old.refused ≡ false }
        ensures { OnOk result
            (self.new ≡ written (self.old.text ++ record_text (fields_of row.now))) }
    {
        self.refused = true;
        match self.writer.write_byte_record(row) {
            Ok(()) => {
                self.refused = false;
                Ok(())
            }
            Err(_) => Err(AllocError),
        }
    }

    /// Writes a record of one blank field behind the others: a space, in two bytes with its line end.
    pub(crate) fn push_blank(&mut self) -> Result<(), AllocError>
        requires { self.old.refused ≡ false }
        ensures { OnOk result (self.new ≡ written (self.old.text ++ record_text blank_fields)) }
    {
        self.refused = true;
        match self.writer.write_fields(&[b" ".as_slice()]) {
            Ok(()) => {
                self.refused = false;
                Ok(())
            }
            Err(_) => Err(AllocError),
        }
    }

    /// Their text.
    pub(crate) fn into_text(self) -> Result<Vec<u8>, AllocError>
        ensures { IfOk result (λ text. text.items ≡ self.text) }
    {
        match self.writer.into_inner() {
            Ok(text) => Ok(text),
            Err(_) => Err(AllocError),
        }
    }
}
