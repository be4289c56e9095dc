//! The records of a file, as they stand in its bytes.
ghost use Rattle.std.specs.Prelude.{◌≡◌};
ghost use Rattle.csv.specs.Reading.{records, default_config};
ghost use Rattle.mfcsv.specs.Rows.{field, without_marks};
ghost use Rattle.mfcsv.specs.Unread.{IsBetweenRows, cells};
ghost use Rattle.parts.specs.Raw.{ReadsRaw, raw_left};

use csv::{ByteRecord, Error, Reader, ReaderBuilder};
use mfcsv::without_marks;
use std::alloc::{AllocError, Global};
use words::cut;

/// A reader of the records of a file.
pub(crate) fn read_rows(alloc: Global, bytes: &[u8]) -> Reader<&[u8]>
    ensures between { IsBetweenRows result }
    ensures rows { raw_left result ≡ records default_config (without_marks bytes.now) }
{
    ReaderBuilder::new()
        .has_headers(false)
        .flexible(true)
        .from_reader(alloc, without_marks(bytes))
}

/// Memory ran out: the bytes are in memory and records may have any length, so nothing else fails.
fn want_of(_: Error) -> AllocError {
    AllocError
}

/// Reads the next record into `row`: whether there was one.
pub(crate) fn next_row(reader: &mut Reader<&[u8]>, row: &mut ByteRecord) -> Result<bool, AllocError>
    requires { IsBetweenRows reader.old }
    ensures { ReadsRaw result reader.old reader.new row.new }
{
    match reader.read_byte_record(row) {
        Ok(found) => Ok(found),
        Err(error) => Err(want_of(error)),
    }
}

/// The first field of a record, cut; blank where there is none.
pub(crate) fn first_field(row: &ByteRecord) -> &[u8]
    ensures { result.now ≡ field (cells row.now) 0 }
{
    match row.get(0) {
        Some(text) => cut(text),
        None => b"",
    }
}
