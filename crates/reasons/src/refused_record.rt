//! A record of a file, and what the header lines before it say.
ghost use Rattle.std.specs.Prelude.{◌<◌};

use crate::fields::field_at;
use crate::sentence::Sentence;
use csv::{ByteRecord, Reader, ReaderBuilder};
use mfcsv::{unit_of, without_marks};
use std::alloc::AllocError;
use timebase::{Ms, Unit, read_instant};

/// What the header lines before a record say of it.
#[derive(Clone, Copy)]
pub(crate) struct Heads {
    /// The line of the file on which `@stboundedby` stands, from 1; 0 where there is none.
    pub(crate) bounds_line: u64,
    /// Whether a position has 3 coordinates, and not 2.
    has_height: bool,
    pub(crate) unit: Unit,
    pub(crate) start: Option<Ms>,
    /// The line of the file on which `@columns` stands, from 1; 0 where there is none.
    pub(crate) columns_line: u64,
    /// How many attribute columns there are.
    pub(crate) column_count: usize,
}

/// A record of a file.
#[derive(Drop)]
pub(crate) struct Found {
    /// Its line of the file, from 1; 0 where the file has no such record.
    pub(crate) line: u64,
    pub(crate) row: ByteRecord,
    pub(crate) heads: Heads,
}

/// Whether a record is a header line of that tag.
pub(crate) fn has_tag(row: &ByteRecord, tag: &str) -> bool {
    field_at(row, 0).eq_ignore_ascii_case(tag)
}

/// Whether a record is a header line of any tag.
pub(crate) fn is_header(row: &ByteRecord) -> bool {
    field_at(row, 0).starts_with('@')
}

/// Whether the name and the type of an attribute column are both blank.
fn is_blank_pair(row: &ByteRecord, place: usize) -> bool {
    field_at(row, place).is_empty() && field_at(row, place.saturating_add(1)).is_empty()
}

/// How many attribute columns a line `@columns` has, without the blank pairs at its end.
pub(crate) fn column_count(row: &ByteRecord) -> usize {
    let pairs = row.len().saturating_sub(2) / 2;
    for count in (0..pairs).rev() {
        if !is_blank_pair(row, count.saturating_mul(2).saturating_add(3)) {
            return count.saturating_add(1);
        }
    }
    0
}

impl Heads {
    /// No header line.
    fn none() -> Heads {
        Heads {
            bounds_line: 0,
            has_height: false,
            unit: Unit::Sec,
            start: None,
            columns_line: 0,
            column_count: 0,
        }
    }

    /// How many coordinates a position has: 2 or 3.
    pub(crate) fn coordinates(&self) -> u64
        ensures { 0 < result }
    {
        if self.has_height { 3 } else { 2 }
    }

    /// Notes what a header line of a text says, which is read from that place on. The line is counted for the two tags
    /// alone, each of which stands once: other header lines may be many.
    fn note(&mut self, row: &ByteRecord, text: &[u8], place: usize) {
        if has_tag(row, "@stboundedby") {
            self.bounds_line = line_at(text, place);
            self.has_height = !field_at(row, 2).eq_ignore_ascii_case("2d");
            self.unit = unit_of(field_at(row, 7)).unwrap_or(Unit::Sec);
            self.start = read_instant(field_at(row, 5)).ok();
        } else if has_tag(row, "@columns") {
            self.columns_line = line_at(text, place);
            self.column_count = column_count(row);
        }
    }
}

/// The line of a text on which a record begins that is read from that place on. Empty lines in front of it, and the
/// rest of the last line's end, are passed over.
fn line_at(text: &[u8], place: usize) -> u64 {
    let mut line: u64 = 1;
    for at in 0..text.len() {
        let byte = text[at];
        if at >= place && byte != b'\r' && byte != b'\n' {
            break;
        }
        if byte == b'\n' {
            line = line.saturating_add(1);
        }
    }
    line
}

/// Reads on to the record of that number, from 1, and notes the header lines before it. Refused where memory runs out.
fn seek(
    reader: &mut Reader<&[u8]>,
    text: &[u8],
    number: u64,
    found: &mut Found,
) -> Result<(), AllocError> {
    for at in 1..u64::MAX {
        let place = reader.position().byte() as usize;
        match reader.read_byte_record(&mut found.row) {
            Ok(true) => {}
            Ok(false) => break,
            Err(_) => return Err(AllocError),
        }
        if at == number {
            found.line = line_at(text, place);
            break;
        }
        if is_header(&found.row) {
            found.heads.note(&found.row, text, place);
        }
    }
    Ok(())
}

/// The record of that number, from 1, and the header lines before it: those of the whole file where there is no such
/// record. The sentence notes whether memory ran out.
pub(crate) fn find(said: &mut Sentence, bytes: &[u8], number: u64) -> Found {
    let alloc = said.alloc();
    let text = without_marks(bytes);
    let mut reader = ReaderBuilder::new()
        .has_headers(false)
        .flexible(true)
        .from_reader(alloc, text);
    let mut found = Found {
        line: 0,
        row: ByteRecord::new(alloc),
        heads: Heads::none(),
    };
    said.note(seek(&mut reader, text, number, &mut found));
    found
}
