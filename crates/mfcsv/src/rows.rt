//! The records of a file, one at a time, and their fields.
ghost use Rattle.std.specs.Prelude.{◌≡◌, ◌≤◌, length};
ghost use Rattle.mfcsv.specs.Rows.{field, has_mark, rows_of, same_word, without_marks};
ghost use Rattle.mfcsv.specs.Unread.{IsBetweenRows, MayFail, ReadsRow, bytes_left, cells, fault_of, rows_left};
ghost use Rattle.csv.specs.Reading.{error_kind};
ghost use Rattle.std.specs.Prelude.{IfOk};

use crate::{Code, Text};
use csv::{Error, ErrorKind, Reader, ReaderBuilder, StringRecord};
use std::alloc::{AllocError, AllocFailed, Global};
use words::cut_text;

/// Why a record was not taken in.
#[derive(Clone, Copy)]
pub(crate) enum RowFault {
    Refused(Code),
    Memory,
}

impl From<AllocError> for RowFault {
    ghost use Rattle.mfcsv.specs.declared.rows.RowFault.{RowFault};

    ghost from_gives = { λ e r. r ≡ RowFault.Memory };

    fn from(_: AllocError) -> RowFault {
        RowFault::Memory
    }
}

impl<T: Drop> From<AllocFailed<T>> for RowFault {
    ghost use Rattle.mfcsv.specs.declared.rows.RowFault.{RowFault};

    ghost from_gives = { λ e r. r ≡ RowFault.Memory };

    fn from(_: AllocFailed<T>) -> RowFault {
        RowFault::Memory
    }
}

fn has_mark(bytes: &[u8]) -> bool
    ensures { result ≡ has_mark bytes.now }
{
    bytes.len() >= 3 && bytes[0] == 0xEF && bytes[1] == 0xBB && bytes[2] == 0xBF
}

/// The bytes without the byte order marks at their very start.
pub fn without_marks(bytes: &[u8]) -> &[u8]
    ensures { result.now ≡ without_marks bytes.now }
{
    let mut rest = bytes;
    while has_mark(rest) {
        rest = &rest[3..];
    }
    rest
}

/// A reader of the records of a file.
pub(crate) fn read_rows(alloc: Global, bytes: &[u8]) -> Reader<&[u8]>
    ensures between { IsBetweenRows result }
    ensures rows { rows_left result ≡ rows_of bytes.now }
    ensures within { length (bytes_left result) ≤ length bytes.now }
{
    ReaderBuilder::new()
        .has_headers(false)
        .flexible(true)
        .from_reader(alloc, without_marks(bytes))
}

/// The fault that an error of the reader is. The bytes are in memory, so but for a field that is no
/// text it is want of memory.
fn fault_of(error: Error) -> RowFault
    requires { MayFail (error_kind error) }
    ensures { result ≡ fault_of (error_kind error) }
{
    match error.into_kind() {
        ErrorKind::Utf8 { .. } => RowFault::Refused(Code::F1),
        ErrorKind::Io(_) | ErrorKind::OutOfMemory => RowFault::Memory,
        ErrorKind::UnequalLengths { .. }
        | ErrorKind::Serialize(_)
        | ErrorKind::Deserialize { .. } => unreachable!(),
    }
}

/// Reads the next record into `row`: whether there was one.
pub(crate) fn next_row(reader: &mut Reader<&[u8]>, row: &mut StringRecord) -> Result<bool, RowFault>
    requires { IsBetweenRows reader.old }
    ensures { ReadsRow result reader.old reader.new row.new }
{
    match reader.read_record(row) {
        Ok(found) => Ok(found),
        Err(error) => Err(fault_of(error)),
    }
}

/// The field at a place, cut; blank where there is none.
pub(crate) fn field_at(row: &StringRecord, place: usize) -> &str
    ensures { result.now ≡ field (cells row.now) place }
{
    match row.get(place) {
        Some(text) => cut_text(text),
        None => "",
    }
}

/// Whether a text is a word, but for the case of ASCII letters.
pub(crate) fn is_word(text: &str, word: &str) -> bool
    ensures { result ≡ same_word text.now word.now }
{
    text.eq_ignore_ascii_case(word)
}

/// A copy of the field at a place.
pub(crate) fn copy_of(alloc: Global, row: &StringRecord, place: usize) -> Result<Text, AllocError>
    ensures { IfOk result (λ t. t ≡ field (cells row.now) place) }
{
    Ok(Text::from(String::from_str(alloc, field_at(row, place))?))
}
