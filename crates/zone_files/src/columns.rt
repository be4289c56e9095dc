//! The columns of a zone file.
use csv::ByteRecord;
use words::cut;

/// Where the two columns that count stand.
#[derive(Clone, Copy)]
pub(crate) struct Columns {
    pub(crate) name: usize,
    pub(crate) wkt: usize,
}

/// A field of a record without the blanks at its ends; empty if the record has fewer fields.
pub(crate) fn field_at(row: &ByteRecord, place: usize) -> &[u8] {
    match row.get(place) {
        Some(field) => cut(field),
        None => b"",
    }
}

/// The place of the one column of a name, in ASCII letters of any case.
fn place_of(header: &ByteRecord, name: &[u8]) -> Option<usize> {
    let mut found = None;
    for place in 0..header.len() {
        if field_at(header, place).eq_ignore_ascii_case(name) {
            if found.is_some() {
                return None;
            }
            found = Some(place);
        }
    }
    found
}

/// The columns of a header line; `None` if it has not exactly one of each name.
pub(crate) fn columns_of(header: &ByteRecord) -> Option<Columns> {
    Some(Columns {
        name: place_of(header, b"name")?,
        wkt: place_of(header, b"wkt")?,
    })
}
