//! Why a data record of a file is refused. Nothing is said where no reason is found.
use crate::fields::{field_at, first_word, word_count};
use crate::line_reasons::{coordinate_fault, instant_fault, say_fault};
use crate::moments::say_beside;
use crate::refused_record::Heads;
use crate::sentence::Sentence;
use csv::ByteRecord;
use mfcsv::{Record, read_file};
use std::str;
use timebase::{Ms, TimeFault, Unit, read_time};
use words::Separator;

/// Whether the field at a place is UTF-8.
fn is_text(row: &ByteRecord, place: usize) -> bool {
    str::from_utf8(row.get(place).unwrap_or(b"".as_slice())).is_ok()
}

/// A field that is not UTF-8.
pub(crate) fn no_text(said: &mut Sentence, row: &ByteRecord) {
    for place in 0..row.len() {
        if !is_text(row, place) {
            return said.number("field {} is not UTF-8", (place as u64).saturating_add(1));
        }
    }
}

/// The first field past the attribute columns that is not blank.
fn say_first_past(said: &mut Sentence, row: &ByteRecord, columns: usize) {
    for place in columns.saturating_add(4)..row.len() {
        let value = field_at(row, place);
        if !value.is_empty() {
            let number = (place as u64).saturating_add(1);
            return said.numbered(
                "field {}, '{}', is past the last attribute column",
                number,
                value,
            );
        }
    }
}

/// Too few fields, or too many.
pub(crate) fn wrong_fields(said: &mut Sentence, row: &ByteRecord, columns: usize) {
    let count = row.len();
    if count < 4 {
        said.number("it has {} fields, and at least 4 are needed", count as u64);
    } else {
        say_first_past(said, row, columns);
    }
}

/// A feature's name that is empty or too long.
pub(crate) fn wrong_name(said: &mut Sentence, row: &ByteRecord) {
    let name = "the feature's name, mfidref,";
    let len = field_at(row, 0).len();
    said.text(name);
    if len == 0 {
        said.text(" is empty");
    } else {
        said.number(" has {} bytes, and at most 255 are allowed", len as u64);
    }
}

/// Why a time is not read; blank where it is.
fn time_fault(heads: &Heads, start: Ms, text: &str) -> &'static str {
    match read_time(heads.unit, start, text) {
        Ok(_) | Err(TimeFault::Memory) => "",
        Err(TimeFault::OutOfRange) => "is out of range, or names a moment that is",
        Err(TimeFault::Unreadable) if heads.unit == Unit::Absolute => instant_fault(text),
        Err(TimeFault::Unreadable) => "is no plain decimal number",
    }
}

/// A time that is not read, of a file with that start.
fn wrong_time_from(said: &mut Sentence, row: &ByteRecord, heads: &Heads, start: Ms) {
    let (begin, end) = (field_at(row, 1), field_at(row, 2));
    let begin_fault = time_fault(heads, start, begin);
    let end_fault = time_fault(heads, start, end);
    if !begin_fault.is_empty() {
        say_fault(said, "the start time", begin, begin_fault);
    } else if !end_fault.is_empty() {
        say_fault(said, "the end time", end, end_fault);
    }
}

/// A time that is not read.
pub(crate) fn wrong_time(said: &mut Sentence, row: &ByteRecord, heads: &Heads) {
    if let Some(start) = heads.start {
        wrong_time_from(said, row, heads, start);
    }
}

/// An end that is not after the start.
pub(crate) fn no_duration(said: &mut Sentence, row: &ByteRecord) {
    let (start, end) = (field_at(row, 1), field_at(row, 2));
    said.values(
        "the end time '{}' is not after the start time '{}'",
        end,
        start,
    );
}

/// A coordinate that is not read.
pub(crate) fn wrong_coordinate(said: &mut Sentence, row: &ByteRecord) {
    let mut rest = field_at(row, 3);
    for number in 1..u64::MAX {
        let (word, behind) = first_word(rest, Separator::BlankOrLineEnd);
        if word.is_empty() {
            break;
        }
        let fault = coordinate_fault(word);
        if !fault.is_empty() {
            said.numbered("coordinate {}, '{}', ", number, word);
            return said.text(fault);
        }
        rest = behind;
    }
}

/// A trajectory without a position, or with one that is not whole.
pub(crate) fn wrong_positions(said: &mut Sentence, row: &ByteRecord, heads: &Heads) {
    let count = word_count(field_at(row, 3), Separator::BlankOrLineEnd);
    if count == 0 {
        said.text("its trajectory has no position");
    } else {
        said.numbers(
            "its trajectory has {} coordinates, no multiple of {}",
            count,
            heads.coordinates(),
        );
    }
}

/// The milliseconds from a record's start to its end; 0 where these are not read.
fn duration_of(row: &ByteRecord, unit: Unit, start: Ms) -> u64 {
    let t0 = read_time(unit, start, field_at(row, 1)).unwrap_or(start);
    let t1 = read_time(unit, start, field_at(row, 2)).unwrap_or(t0);
    t1.millis().saturating_sub(t0.millis()).max(0) as u64
}

/// Fewer milliseconds than legs.
pub(crate) fn short_duration(said: &mut Sentence, row: &ByteRecord, heads: &Heads) {
    let words = word_count(field_at(row, 3), Separator::BlankOrLineEnd);
    let positions = words / heads.coordinates();
    let millis = match heads.start {
        Some(start) => duration_of(row, heads.unit, start),
        None => 0,
    };
    if millis > 0 {
        let legs = positions.saturating_sub(1).max(1);
        said.numbers(
            "it lasts {} milliseconds, fewer than its {} legs",
            millis,
            legs,
        );
    }
}

/// When the last of these records ends that is of the feature of that name; else that other end.
fn last_end(records: &[Record], name: &str, other: Option<Ms>) -> Option<Ms> {
    for place in (0..records.len()).rev() {
        let record = &records[place];
        if record.mfidref.as_str() == name {
            return Some(record.t1);
        }
    }
    other
}

/// A start before that end of the feature's last leg.
fn early_words(said: &mut Sentence, start: Ms, last: Option<Ms>) {
    said.text("begins at ");
    said.instant(start, 0);
    match last {
        Some(end) if end.millis() > start.millis() => {
            said.text(", before its last leg ends at ");
            say_beside(said, end, start);
        }
        _ => said.text(", before its last leg in the store ends"),
    }
}

/// A start of the record of that number before the end of the feature's last leg, which ends so in the store.
fn early_among(said: &mut Sentence, records: &[Record], number: u64, stored: Option<Ms>) {
    for place in 0..records.len() {
        let late = &records[place];
        if late.number == number {
            let last = last_end(&records[..place], late.mfidref.as_str(), stored);
            return early_words(said, late.t0, last);
        }
    }
}

/// A start before the end of the feature's last leg, which ends so in the store.
pub(crate) fn early_start(said: &mut Sentence, bytes: &[u8], number: u64, stored: Option<Ms>) {
    if let Ok(file) = read_file(said.alloc(), bytes) {
        early_among(said, file.records.as_slice(), number, stored);
    }
}

/// Legs for which the store has no room.
pub(crate) fn too_many_legs(said: &mut Sentence, most: Option<u64>) {
    if let Some(most) = most {
        said.number("with its legs the store would have more than {}", most);
        said.text("; load it into a new store with more --most-legs, or into the parts of a fleet");
    }
}

/// A feature for which the store has no room.
pub(crate) fn too_many_features(said: &mut Sentence, most: Option<u32>) {
    if let Some(most) = most {
        said.number(
            "with it the store would have more than {} features",
            u64::from(most),
        );
        said.text(
            "; load it into a new store with more --most-features, or into the parts of a fleet",
        );
    }
}
