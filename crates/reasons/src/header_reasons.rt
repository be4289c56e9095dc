//! Why a header line of a file is refused. Nothing is said where no reason is found.
use crate::fields::field_at;
use crate::foreign_files::source_of;
use crate::line_reasons::{instant_fault, say_fault};
use crate::refused_record::{Heads, column_count, has_tag};
use crate::sentence::Sentence;
use csv::ByteRecord;
use legs::BookHead;
use mfcsv::{Column, Dimension};

/// A second header line of one tag.
pub(crate) fn second(said: &mut Sentence, row: &ByteRecord, heads: &Heads) {
    if has_tag(row, "@columns") {
        said.number(
            "a second @columns; the first is on line {}",
            heads.columns_line,
        );
    } else {
        said.number(
            "a second @stboundedby; the first is on line {}",
            heads.bounds_line,
        );
    }
}

/// `@stboundedby` with too few fields.
pub(crate) fn short_bounds(said: &mut Sentence, row: &ByteRecord) {
    let count = row.len() as u64;
    said.number(
        "@stboundedby has {} fields, and at least 7 are needed",
        count,
    );
}

/// A dimension that no file may have.
pub(crate) fn wrong_dimension(said: &mut Sentence, row: &ByteRecord) {
    let dimension = field_at(row, 2);
    said.value("the dimension '{}' is neither 2D nor 3D", dimension);
}

/// A start instant that is not read.
pub(crate) fn wrong_start(said: &mut Sentence, row: &ByteRecord) {
    let text = field_at(row, 5);
    let fault = instant_fault(text);
    let said_fault = if fault.is_empty() {
        "is not read"
    } else {
        fault
    };
    say_fault(said, "the start instant", text, said_fault);
}

/// A time unit that no file may have.
pub(crate) fn wrong_unit(said: &mut Sentence, row: &ByteRecord) {
    let unit = field_at(row, 7);
    said.value(
        "the time unit '{}' is none of sec, minute and absolute",
        unit,
    );
}

/// `@columns` that begins otherwise.
pub(crate) fn wrong_columns(said: &mut Sentence, row: &ByteRecord) {
    let (first, second) = (field_at(row, 1), field_at(row, 2));
    said.values(
        "@columns is followed by '{}' and '{}', not by mfidref and trajectory",
        first,
        second,
    );
}

/// The header lines that are missing.
fn missing(heads: &Heads) -> &'static str {
    if heads.bounds_line == 0 && heads.columns_line > 0 {
        "the line @stboundedby"
    } else if heads.bounds_line > 0 && heads.columns_line == 0 {
        "the line @columns"
    } else {
        "the lines @stboundedby and @columns"
    }
}

/// A data record before both header lines.
pub(crate) fn early_record(said: &mut Sentence, row: &ByteRecord, heads: &Heads) {
    said.text("a data record before ");
    said.text(missing(heads));
    let source = source_of(row);
    if !source.is_empty() {
        said.text("; ");
        said.text(source);
    }
}

/// A file that ends without both header lines.
pub(crate) fn early_end(said: &mut Sentence, heads: &Heads) {
    said.text("the file ends without ");
    said.text(missing(heads));
}

/// The text of a dimension, in lower case.
fn dimension_text(dimension: Dimension) -> &'static str {
    match dimension {
        Dimension::Two => "2d",
        Dimension::Three => "3d",
    }
}

/// A CRS name or a dimension that is not that of a store.
fn other_than(said: &mut Sentence, row: &ByteRecord, head: &BookHead) {
    let (crs, dimension) = (field_at(row, 1), field_at(row, 2));
    let ours = head.crs.as_str();
    if ours != crs {
        said.values("the CRS '{}' is not that of the store, '{}'", crs, ours);
    } else if !dimension.eq_ignore_ascii_case(dimension_text(head.dimension)) {
        said.value("the dimension '{}' is not that of the store", dimension);
    }
}

/// A CRS name or a dimension that is not the store's.
pub(crate) fn other_reference(said: &mut Sentence, row: &ByteRecord, head: Option<&BookHead>) {
    if let Some(head) = head {
        other_than(said, row, head);
    }
}

/// Says that an attribute column is not the store's of its place.
fn say_differing(said: &mut Sentence, name: &str, kind: &str, ours: &Column) {
    said.values(" is '{}' of type '{}', and the store's is ", name, kind);
    said.values("'{}' of type '{}'", ours.name.as_str(), ours.kind.as_str());
}

/// Where the name of an attribute column stands in a line `@columns`, behind which its type stands.
fn place_of(column: usize) -> usize {
    column.saturating_mul(2).saturating_add(3)
}

/// Whether an attribute column, counted from 0, is that one of a store.
fn is_column(row: &ByteRecord, column: usize, ours: &Column) -> bool {
    let place = place_of(column);
    ours.name.as_str() == field_at(row, place)
        && ours.kind.as_str() == field_at(row, place.saturating_add(1))
}

/// The first of so many attribute columns, counted from 0, that is not the store's; their number where all are.
fn first_other(row: &ByteRecord, count: usize, columns: &[Column]) -> usize {
    for column in 0..count {
        if column >= columns.len() || !is_column(row, column, &columns[column]) {
            return column;
        }
    }
    count
}

/// Says that an attribute column, counted from 0, is not the store's.
fn say_column(said: &mut Sentence, row: &ByteRecord, column: usize, columns: &[Column]) {
    let place = place_of(column);
    let name = field_at(row, place);
    let number = (column as u64).saturating_add(1);
    if column < columns.len() {
        let kind = field_at(row, place.saturating_add(1));
        said.number("attribute column {}", number);
        say_differing(said, name, kind, &columns[column]);
    } else {
        said.numbered(
            "attribute column {}, '{}', is none of the store's",
            number,
            name,
        );
    }
}

/// Attribute columns that are not these of a store.
fn other_columns_than(said: &mut Sentence, row: &ByteRecord, columns: &[Column]) {
    let count = column_count(row);
    let column = first_other(row, count, columns);
    if column < count {
        say_column(said, row, column, columns);
    } else {
        said.numbers(
            "there are {} attribute columns, and the store has {}",
            count as u64,
            columns.len() as u64,
        );
    }
}

/// Attribute columns that are not the store's.
pub(crate) fn other_columns(said: &mut Sentence, row: &ByteRecord, head: Option<&BookHead>) {
    if let Some(head) = head {
        other_columns_than(said, row, head.columns.as_slice());
    }
}
