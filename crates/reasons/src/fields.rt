//! The fields of a record, and the words of a text.
use csv::ByteRecord;
use std::str;
use words::{Separator, cut, next_word};

/// Bytes as a text; a blank one where they are not UTF-8.
pub(crate) fn text_of(bytes: &[u8]) -> &str {
    str::from_utf8(bytes).unwrap_or("")
}

/// The field at a place, cut; blank where there is none, or one that is not UTF-8.
pub(crate) fn field_at(row: &ByteRecord, place: usize) -> &str {
    text_of(cut(row.get(place).unwrap_or(b"".as_slice())))
}

/// The first word of a text, and what stands behind it; both are blank where there is no word.
pub(crate) fn first_word(text: &str, between: Separator) -> (&str, &str) {
    next_word(text, between).unwrap_or(("", ""))
}

/// The word at a place, from 0, of a line; blank where there is none.
pub(crate) fn word_at(line: &str, place: usize) -> &str {
    let mut rest = line;
    for _ in 0..place {
        rest = first_word(rest, Separator::Blank).1;
    }
    first_word(rest, Separator::Blank).0
}

/// How many words a text has.
pub(crate) fn word_count(text: &str, between: Separator) -> u64 {
    let mut count: u64 = 0;
    let mut is_behind = true;
    for byte in text.as_bytes() {
        let separates = between.separates(*byte);
        if is_behind && !separates {
            count = count.saturating_add(1);
        }
        is_behind = separates;
    }
    count
}
