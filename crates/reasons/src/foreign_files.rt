//! Files of other forms, by how they begin, and what makes a file of ours of them.
use crate::fields::field_at;
use crate::refused_record::find;
use crate::sentence::Sentence;
use csv::ByteRecord;

/// How a shapefile begins.
const SHAPEFILE: [u8; 4] = [0, 0, 0x27, 0x0a];

/// Whether a record has a field of that text, in upper or lower case.
fn has_field(row: &ByteRecord, name: &str) -> bool {
    for place in 0..row.len() {
        if field_at(row, place).eq_ignore_ascii_case(name) {
            return true;
        }
    }
    false
}

/// Whether a record begins as GPX does.
fn begins_as_gpx(row: &ByteRecord) -> bool {
    let first = field_at(row, 0);
    first.starts_with("<?xml") || first.starts_with("<gpx")
}

/// What a file looks like that begins by such a record, and what makes a file of ours of it; blank where that is not
/// known.
pub(crate) fn source_of(row: &ByteRecord) -> &'static str {
    if has_field(row, "mmsi") {
        "it looks like AIS reports, of which tools/from_ais makes a file to load"
    } else if has_field(row, "location-long") || has_field(row, "location_long") {
        "it looks like a Movebank download, of which tools/from_movebank makes a file to load"
    } else if begins_as_gpx(row) {
        "it looks like GPX, of which tools/from_gpx makes a file to load"
    } else {
        ""
    }
}

/// Says of a file of that name that is of another form which form that is, and of any other file nothing.
pub fn say_source(said: &mut Sentence, name: &str, bytes: &[u8]) {
    let found = find(said, bytes, 1);
    let source = source_of(&found.row);
    if !source.is_empty() {
        said.value("{}: ", name);
        said.text(source);
    }
}

/// The form of a text, by its first character that is no blank; blank where that does not tell it.
fn text_form(bytes: &[u8]) -> &'static str {
    for byte in bytes {
        if *byte == b'{' {
            return "GeoJSON";
        }
        if *byte == b'<' {
            return "KML or GML";
        }
        if !byte.is_ascii_whitespace() {
            return "";
        }
    }
    ""
}

/// The form of a file of shapes that is no zone file, by its first bytes; blank where these do not tell it.
fn shapes_form(bytes: &[u8]) -> &'static str {
    if bytes.starts_with(SHAPEFILE.as_slice()) {
        "a shapefile"
    } else if bytes.starts_with(b"SQLite format 3".as_slice()) {
        "a GeoPackage"
    } else {
        text_form(bytes)
    }
}

/// Says of a file of that name that is of another form than a zone file which form that is, and of any other file nothing.
pub fn say_zone_source(said: &mut Sentence, name: &str, bytes: &[u8]) {
    let form = shapes_form(bytes);
    if !form.is_empty() {
        said.values(
            "{}: it looks like {}, of which tools/zones_from makes a zone file",
            name,
            form,
        );
    }
}
