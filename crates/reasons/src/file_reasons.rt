//! Why a file is refused.
use crate::codes::Code;
use crate::fields::field_at;
use crate::header_reasons::{
    early_end, early_record, other_columns, other_reference, second, short_bounds, wrong_columns,
    wrong_dimension, wrong_start, wrong_unit,
};
use crate::known_of_store::{Known, LastEnds};
use crate::record_reasons::{
    early_start, no_duration, no_text, short_duration, too_many_features, too_many_legs,
    wrong_coordinate, wrong_fields, wrong_name, wrong_positions, wrong_time,
};
use crate::refusal::Refusal;
use crate::refused_record::{Found, find, is_header};
use crate::sentence::Sentence;
use csv::ByteRecord;
use legs::BookHead;

/// Says the reason for a code of a header line.
fn say_header_reason(said: &mut Sentence, code: Code, found: &Found, head: Option<&BookHead>) {
    let (row, heads) = (&found.row, &found.heads);
    match code {
        Code::F2 => second(said, row, heads),
        Code::F3 => short_bounds(said, row),
        Code::F4 => wrong_dimension(said, row),
        Code::F5 => wrong_start(said, row),
        Code::F6 => wrong_unit(said, row),
        Code::F7 => wrong_columns(said, row),
        Code::F8 => early_record(said, row, heads),
        Code::F9 => other_reference(said, row, head),
        Code::F10 => other_columns(said, row, head),
        _ => {}
    }
}

/// Says the reason for a code of a data record, or of a header line.
fn say_record_reason(said: &mut Sentence, code: Code, found: &Found, head: Option<&BookHead>) {
    let (row, heads) = (&found.row, &found.heads);
    match code {
        Code::F1 => no_text(said, row),
        Code::F11 => wrong_fields(said, row, heads.column_count),
        Code::F12 => wrong_name(said, row),
        Code::F13 => wrong_time(said, row, heads),
        Code::F14 => no_duration(said, row),
        Code::F15 => wrong_coordinate(said, row),
        Code::F16 => wrong_positions(said, row, heads),
        Code::F17 => short_duration(said, row, heads),
        _ => say_header_reason(said, code, found, head),
    }
}

/// Says the reason for a code of a record that was found; nothing where there is none.
fn say_reason<E: LastEnds>(
    said: &mut Sentence,
    bytes: &[u8],
    refusal: Refusal,
    found: &Found,
    known: &Known<'_, E>,
) {
    match refusal.code {
        Code::F18 => {
            let stored = known.last_end(field_at(&found.row, 0));
            early_start(said, bytes, refusal.number, stored);
        }
        Code::F19 => too_many_legs(said, known.most_legs),
        Code::F20 => too_many_features(said, known.most_features),
        code => say_record_reason(said, code, found, known.head),
    }
}

/// Says of which feature a data record is.
fn say_feature(said: &mut Sentence, row: &ByteRecord) {
    let name = field_at(row, 0);
    if !is_header(row) && !name.is_empty() {
        said.value(", feature {}", name);
    }
}

/// Says the line and the number of a record, and the feature where it is one's; nothing where there is no such record.
fn say_place(said: &mut Sentence, number: u64, found: &Found) {
    if found.line > 0 {
        said.numbers(" line {}, record {}", found.line, number);
        say_feature(said, &found.row);
    }
    said.text(": ");
}

/// Says the rule of a code where nothing was said from that byte on, and the code.
fn say_code(said: &mut Sentence, code: Code, begin: usize) {
    if said.len() == begin {
        said.text(code.rule());
    }
    said.value(" ({})", code.as_str());
}

/// Says why a file of that name, with those bytes, is refused: the line of the file, the record, the feature where it is
/// one's, and the reason, with what the store knows.
pub fn say_file<E: LastEnds>(
    said: &mut Sentence,
    name: &str,
    bytes: &[u8],
    refusal: Refusal,
    known: &Known<'_, E>,
) {
    let found = find(said, bytes, refusal.number);
    say_refusal(said, name, bytes, refusal, &found, known);
}

/// Says why a file is refused, of which that record was found.
fn say_refusal<E: LastEnds>(
    said: &mut Sentence,
    name: &str,
    bytes: &[u8],
    refusal: Refusal,
    found: &Found,
    known: &Known<'_, E>,
) {
    said.value("{}", name);
    say_place(said, refusal.number, found);
    let begin = said.len();
    if found.line > 0 {
        say_reason(said, bytes, refusal, found, known);
    } else if matches!(refusal.code, Code::F8) {
        early_end(said, &found.heads);
    }
    say_code(said, refusal.code, begin);
}
