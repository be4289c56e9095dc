//! Records, one after another, as csv writes them.
ghost use Rattle.std.specs.Prelude.{◌≡◌};

use csv::{Writer, WriterBuilder};
use std::alloc::{AllocError, Global};
use std::marker::Model;

/// Records that were written, each of any number of fields; after a refusal there are no more.
#[derive(Drop)]
pub(crate) struct Records {
    writer: Writer<Vec<u8>>,
    refused: bool,
}

impl Model for Records {
    ghost use Rattle.std.specs.Prelude.{◌≡◌, ◌++◌, false};
    ghost use Rattle.csv.specs.Writing.{writer_under, writer_pending};
    ghost use Rattle.writer.specs.Written.{RecordsView, IsBetweenRecords};

    ghost Value = { RecordsView };

    ghost view = { λ a.
        record {
          text = (writer_under a.writer).items ++ writer_pending a.writer;
          refused = a.refused;
        } };

    ghost invariant = { λ a. a.refused ≡ false → IsBetweenRecords a.writer };
}

impl Records {
    ghost use Rattle.std.specs.Prelude.{◌≡◌, ◌++◌, [], IfOk, OnOk, false, map};
    ghost use Rattle.writer.specs.Records.{record_text};
    ghost use Rattle.writer.specs.Written.{written};

    /// No record.
    pub(crate) fn new(alloc: Global) -> Records
        ensures { result ≡ written [] }
    {
        let writer = WriterBuilder::new()
            .flexible(true)
            .from_writer(Vec::new(alloc));
        Records {
            writer,
            refused: false,
        }
    }

    /// Writes a record behind the others.
    pub(crate) fn push(&mut self, fields: &[&[u8]]) -> Result<(), AllocError>
        requires { self.old.refused ≡ false }
        ensures { OnOk result (self.new ≡ written (self.old.text
            ++ record_text (map (λ f. f.now) fields.now))) }
    {
        self.refused = true;
        match self.writer.write_fields(fields) {
            Ok(()) => {
                self.refused = false;
                Ok(())
            }
            Err(_) => Err(AllocError),
        }
    }

    /// Their text.
    pub(crate) fn into_text(self) -> Result<Vec<u8>, AllocError>
        ensures { IfOk result (λ text. text.items ≡ self.text) }
    {
        match self.writer.into_inner() {
            Ok(text) => Ok(text),
            Err(_) => Err(AllocError),
        }
    }
}
