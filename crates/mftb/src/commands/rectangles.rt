//! Rectangles, one of the command line or those of a file.
use crate::commands::bounds::{hold_words, rect_of};
use arguments::{Corners, Where};
use csv::{ByteRecord, Reader, ReaderBuilder};
use legs::Rect;
use mfcsv::without_marks;
use sessions::{Fault, MOST_BYTES, Named, RectsFault, read_named};
use std::alloc::{AllocError, Global};
use std::collections::BTreeMap;
use std::{rt, str};
use trajdb::RunFault;
use words::cut;

/// The most bytes that a name has.
const MOST_NAME: usize = 255;

/// A rectangle, and its name, which is empty of the one of the command line.
#[derive(Drop)]
pub(crate) struct NamedRect {
    pub(crate) name: String,
    pub(crate) rect: Rect,
}

/// Where the columns of a file of rectangles stand.
#[derive(Clone, Copy)]
struct Columns {
    name: usize,
    corners: [usize; 4],
}

/// The bytes of the field at a place, without the blanks at its ends; none where there is no such field.
fn bytes_at(record: &ByteRecord, place: usize) -> &[u8] {
    cut(record.get(place).unwrap_or(b"".as_slice()))
}

/// The text of the field at a place; empty where it is not UTF-8.
fn text_at(record: &ByteRecord, place: usize) -> &str {
    str::from_utf8(bytes_at(record, place)).unwrap_or("")
}

/// Refuses a record of which the field at one of these places is not UTF-8.
fn hold_utf8(record: &ByteRecord, places: &[usize]) -> Result<(), RectsFault> {
    for place in places {
        if str::from_utf8(bytes_at(record, *place)).is_err() {
            return Err(RectsFault::NotUtf8);
        }
    }
    Ok(())
}

/// Where the column of a name stands.
fn column_of(head: &ByteRecord, name: &str) -> Result<usize, RectsFault> {
    for place in 0..head.len() {
        hold_utf8(head, &[place])?;
        if text_at(head, place).eq_ignore_ascii_case(name) {
            return Ok(place);
        }
    }
    Err(RectsFault::NoColumns)
}

/// Where the columns stand that the first line of a file names.
fn columns_of(head: &ByteRecord) -> Result<Columns, RectsFault> {
    Ok(Columns {
        name: column_of(head, "name")?,
        corners: [
            column_of(head, "x1")?,
            column_of(head, "y1")?,
            column_of(head, "x2")?,
            column_of(head, "y2")?,
        ],
    })
}

/// Refuses a record without a name, or with one that is too long.
fn hold_name(record: &ByteRecord, columns: &Columns) -> Result<(), RectsFault> {
    hold_utf8(record, &[columns.name])?;
    let name = text_at(record, columns.name);
    if name.is_empty() || name.len() > MOST_NAME {
        return Err(RectsFault::Name);
    }
    Ok(())
}

/// The rectangle in a record.
fn rect_in(record: &ByteRecord, columns: &Columns) -> Result<Rect, RectsFault> {
    hold_utf8(record, &columns.corners)?;
    let [x1, y1, x2, y2] = columns.corners;
    let corners = Corners {
        x1: text_at(record, x1),
        y1: text_at(record, y1),
        x2: text_at(record, x2),
        y2: text_at(record, y2),
    };
    match rect_of(&corners) {
        Ok(rect) => Ok(rect),
        Err(code) => Err(RectsFault::Corner(code)),
    }
}

/// What was made of the record of that number, or its fault.
fn at<T>(number: u64, made: Result<T, RectsFault>) -> Result<T, Fault> {
    match made {
        Ok(made) => Ok(made),
        Err(why) => Err(Fault::Rects(number, why)),
    }
}

/// The rectangles of a file so far.
#[derive(Drop)]
struct Rects {
    alloc: Global,
    columns: Option<Columns>,
    rects: Vec<NamedRect>,
    names: BTreeMap<String, ()>,
}

impl Rects {
    /// None so far.
    fn new(alloc: Global) -> Rects {
        Rects {
            alloc,
            columns: None,
            rects: Vec::new(alloc),
            names: BTreeMap::new(alloc),
        }
    }

    /// Takes a name in.
    fn add_name(&mut self, name: &str) -> Result<(), AllocError> {
        self.names.insert(String::from_str(self.alloc, name)?, ())?;
        Ok(())
    }

    /// Takes a rectangle of a name in.
    fn add(&mut self, name: &str, rect: Rect) -> Result<(), AllocError> {
        self.add_name(name)?;
        let name = String::from_str(self.alloc, name)?;
        Ok(self.rects.push(NamedRect { name, rect })?)
    }

    /// Whether a rectangle has that name.
    fn has_name(&self, name: &str) -> bool {
        self.names.contains_key(name)
    }

    /// Takes the first record in, which names the columns.
    fn take_columns(&mut self, record: &ByteRecord) -> Result<(), RectsFault> {
        self.columns = Some(columns_of(record)?);
        Ok(())
    }

    /// The rectangle in a record of which the name is new.
    fn new_rect_in(&self, record: &ByteRecord, columns: &Columns) -> Result<Rect, RectsFault> {
        hold_name(record, columns)?;
        let rect = rect_in(record, columns)?;
        if self.has_name(text_at(record, columns.name)) {
            return Err(RectsFault::Twice);
        }
        Ok(rect)
    }

    /// Takes the record of that number in.
    fn take(&mut self, number: u64, record: &ByteRecord) -> Result<(), Fault> {
        let Some(columns) = self.columns else {
            return at(number, self.take_columns(record));
        };
        let rect = at(number, self.new_rect_in(record, &columns))?;
        Ok(self.add(text_at(record, columns.name), rect)?)
    }

    /// Takes the records of a reader in, numbered from 1, the one that names the columns included.
    fn take_each(
        &mut self,
        reader: &mut Reader<&[u8]>,
        record: &mut ByteRecord,
    ) -> Result<(), Fault> {
        for number in 1..u64::MAX {
            match reader.read_byte_record(record) {
                Ok(true) => self.take(number, record)?,
                Ok(false) => break,
                Err(_) => return Err(Fault::Run(RunFault::Memory)),
            }
        }
        Ok(())
    }

    /// Takes the records of a file in.
    fn take_all(&mut self, bytes: &[u8]) -> Result<(), Fault> {
        let mut reader = ReaderBuilder::new()
            .has_headers(false)
            .flexible(true)
            .from_reader(self.alloc, without_marks(bytes));
        let mut record = ByteRecord::new(self.alloc);
        self.take_each(&mut reader, &mut record)
    }
}

/// The rectangles of a file, in its order.
fn rects_in(alloc: Global, bytes: &[u8]) -> Result<Vec<NamedRect>, Fault> {
    let mut rects = Rects::new(alloc);
    rects.take_all(bytes)?;
    match rects.columns {
        Some(_) => Ok(rects.rects),
        None => Err(Fault::Rects(1, RectsFault::NoColumns)),
    }
}

/// The rectangle of the command line, which has no name.
fn alone(alloc: Global, rect: Rect) -> Result<Vec<NamedRect>, AllocError> {
    let name = String::from_str(alloc, "")?;
    let mut rects = Vec::new(alloc);
    rects.push(NamedRect { name, rect })?;
    Ok(rects)
}

/// The rectangle of the words of the command line.
fn rect_of_words(corners: &Corners<'_>) -> Result<Rect, Fault> {
    hold_words(&[corners.x1, corners.y1, corners.x2, corners.y2])?;
    match rect_of(corners) {
        Ok(rect) => Ok(rect),
        Err(code) => Err(Fault::Bounds(code)),
    }
}

/// The rectangles that are asked of.
pub(crate) fn rects_of<R: rt::Files + AllocGlobal>(
    rt: &R,
    place: &Where<'_>,
) -> Result<Vec<NamedRect>, Fault> {
    match place {
        Where::Rects(file) => rects_in(
            rt.alloc(),
            &read_named(rt, Named::Areas, *file, MOST_BYTES)?,
        ),
        Where::Rect(corners) => Ok(alone(rt.alloc(), rect_of_words(corners)?)?),
    }
}
