//! Reading a zone file record by record.
use crate::codes::Code;
use crate::columns::{Columns, columns_of, field_at};
use crate::drawing::{Spot, read_shape};
use crate::faults::{Flaw, Refusal, ZoneFault};
use crate::shapes::{Zone, ZoneFile};
use csv::{ByteRecord, Reader, ReaderBuilder};
use std::alloc::{AllocError, Global};
use std::collections::BTreeSet;
use std::str;

/// The most bytes of a name.
const LONGEST_NAME: usize = 255;

/// The most bytes that a refusal shows of a value.
const SHOWN: usize = 60;

/// A record with its number, from 1.
#[derive(Drop)]
struct Row {
    number: u64,
    fields: ByteRecord,
}

/// Reads the next record that is not one blank field: whether there was one.
fn next_row(reader: &mut Reader<&[u8]>, row: &mut Row) -> Result<bool, ZoneFault> {
    'rows: for _ in 0..u64::MAX {
        match reader.read_byte_record(&mut row.fields) {
            Ok(true) => row.number = row.number.saturating_add(1),
            Ok(false) => return Ok(false),
            // The bytes are in memory and records may have any length.
            Err(_) => return Err(ZoneFault::Memory),
        }
        if row.fields.len() != 1 || !field_at(&row.fields, 0).is_empty() {
            return Ok(true);
        }
    }
    Ok(false)
}

/// A refusal of a whole record.
fn refused(code: Code, record: u64) -> ZoneFault {
    ZoneFault::Refused(Refusal {
        code,
        record,
        ring: None,
        value: None,
    })
}

/// What a refusal shows of a value; `None` if that is nothing.
fn shown(alloc: Global, value: &[u8]) -> Result<Option<String>, AllocError> {
    if value.is_empty() {
        return Ok(None);
    }
    let mut text = String::new(alloc);
    for letter in str::from_utf8(value).unwrap_or("").chars().take(SHOWN) {
        text.push(letter)?;
    }
    Ok(Some(text))
}

/// A refusal of a shape.
fn refused_shape(alloc: Global, record: u64, spot: Spot<'_>) -> ZoneFault {
    match spot.flaw {
        Flaw::Memory => ZoneFault::Memory,
        Flaw::Wrong(code, value) => match shown(alloc, value) {
            Ok(value) => ZoneFault::Refused(Refusal {
                code,
                record,
                ring: spot.ring,
                value,
            }),
            Err(_) => ZoneFault::Memory,
        },
    }
}

/// Whether all fields of a record are UTF-8.
fn is_text(fields: &ByteRecord) -> bool {
    for place in 0..fields.len() {
        if str::from_utf8(field_at(fields, place)).is_err() {
            return false;
        }
    }
    true
}

/// The columns that the header line names.
fn read_header(reader: &mut Reader<&[u8]>, row: &mut Row) -> Result<Columns, ZoneFault> {
    if !next_row(reader, row)? {
        return Err(refused(Code::Z2, 0));
    }
    if !is_text(&row.fields) {
        return Err(refused(Code::Z1, row.number));
    }
    match columns_of(&row.fields) {
        Some(columns) => Ok(columns),
        None => Err(refused(Code::Z2, row.number)),
    }
}

/// The name of a zone, which no zone before it has.
fn read_name(
    alloc: Global,
    names: &mut BTreeSet<String>,
    row: &Row,
    columns: &Columns,
) -> Result<String, ZoneFault> {
    let name = field_at(&row.fields, columns.name);
    let text = str::from_utf8(name).unwrap_or("");
    if text.is_empty() || text.len() > LONGEST_NAME {
        return Err(refused(Code::Z3, row.number));
    }
    if !names.insert(String::from_str(alloc, text)?)? {
        return Err(refused(Code::Z3, row.number));
    }
    Ok(String::from_str(alloc, text)?)
}

/// The zone of a record.
fn read_zone(
    alloc: Global,
    names: &mut BTreeSet<String>,
    row: &Row,
    columns: &Columns,
) -> Result<Zone, ZoneFault> {
    if !is_text(&row.fields) {
        return Err(refused(Code::Z1, row.number));
    }
    let name = read_name(alloc, names, row, columns)?;
    match read_shape(alloc, field_at(&row.fields, columns.wkt)) {
        Ok(shape) => Ok(Zone { name, shape }),
        Err(spot) => Err(refused_shape(alloc, row.number, spot)),
    }
}

/// The zones of a file, or the first record with a fault and its first fault.
pub fn read_zones(alloc: Global, bytes: &[u8]) -> Result<ZoneFile, ZoneFault> {
    let mut reader = ReaderBuilder::new()
        .has_headers(false)
        .flexible(true)
        .from_reader(alloc, bytes);
    let mut row = Row {
        number: 0,
        fields: ByteRecord::new(alloc),
    };
    let columns = read_header(&mut reader, &mut row)?;
    let mut names = BTreeSet::new(alloc);
    let mut zones = Vec::new(alloc);
    'rows: for _ in 0..u64::MAX {
        if !next_row(&mut reader, &mut row)? {
            break;
        }
        zones.push(read_zone(alloc, &mut names, &row, &columns)?)?;
    }
    Ok(ZoneFile { zones })
}
