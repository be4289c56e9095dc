//! The text of a Moving Features file: this project's profile of OGC 14-084r2, read from bytes.
//!
//! [`read_file`] gives the file that the bytes say, or its first fault. The definition of both is
//! in `specs/FileText.antt`.
#![tactic(auto)]

ghost use Rattle.std.specs.Prelude.{◌≡◌};

mod data_record;
mod header;
mod read;
mod reader;
mod rows;

use fixedpoint::Coord;
pub use header::unit_of;
pub use read::read_file;
pub use reader::FileReader;
pub use rows::without_marks;
use std::fmt;
use std::marker::Model;
use thiserror::Error;
use timebase::Ms;

/// A rule of the file format that a record breaks.
#[derive(Clone, Copy, PartialEq, Eq, Debug)]
pub enum Code {
    /// A field is not UTF-8.
    F1,
    /// `@stboundedby` or `@columns` a second time.
    F2,
    /// `@stboundedby` with fewer than 7 fields.
    F3,
    /// The dimension is neither `2D` nor `3D`.
    F4,
    /// The start instant is not read, or is out of range.
    F5,
    /// The time unit is none of `sec`, `minute` and `absolute`.
    F6,
    /// The second and third field of `@columns` are not `mfidref` and `trajectory`.
    F7,
    /// A data record before both header lines, or the end of the file without both (number 0).
    F8,
    /// A data record with fewer than 4 fields, or with a field past the last attribute that is not
    /// blank.
    F11,
    /// The mfidref is empty or longer than 255 bytes.
    F12,
    /// The start or end time is not a number, or with the unit `absolute` not an instant; or it or its
    /// moment is out of range.
    F13,
    /// The end is not after the start.
    F14,
    /// A coordinate is not a number, or is out of range.
    F15,
    /// No position, or a number of coordinates that is no multiple of the dimension.
    F16,
    /// Fewer milliseconds than legs.
    F17,
}

impl Code {
    ghost use Rattle.mfcsv.specs.CodeText.{code_text};

    /// The code as it is printed, as `F11`.
    pub fn as_str(self) -> &'static str
        ensures { result.now ≡ code_text self }
    {
        match self {
            Code::F1 => "F1",
            Code::F2 => "F2",
            Code::F3 => "F3",
            Code::F4 => "F4",
            Code::F5 => "F5",
            Code::F6 => "F6",
            Code::F7 => "F7",
            Code::F8 => "F8",
            Code::F11 => "F11",
            Code::F12 => "F12",
            Code::F13 => "F13",
            Code::F14 => "F14",
            Code::F15 => "F15",
            Code::F16 => "F16",
            Code::F17 => "F17",
        }
    }
}

impl fmt::Display for Code {
    ghost use Rattle.std.specs.Prelude.{Some};
    ghost use Rattle.mfcsv.specs.CodeText.{code_text};

    ghost output = { λ c. Some (code_text c) };

    fn fmt<W: fmt::Write>(&self, f: &mut fmt::Formatter<W>) -> fmt::Result {
        f.write_str(self.as_str())
    }
}

/// Why a file was not read.
#[derive(Clone, Copy, PartialEq, Eq, Debug, Error)]
pub enum FileFault {
    /// The first record with a fault, counted from 1 (0 for the whole file), and of its faults the
    /// first in the order of the codes.
    #[error("the file is refused: {code} at {number}")]
    Refused { code: Code, number: u64 },
    /// Memory ran out.
    #[error("out of memory")]
    Memory,
}

/// A text of a file, seen by contracts as its bytes, which are UTF-8.
#[derive(Debug, Drop)]
pub struct Text {
    text: String,
}

impl Model for Text {
    ghost use Rattle.std.specs.Prelude.{List, ℕ};
    ghost use Rattle.std.specs.String.{string_bytes};

    ghost Value = { List ℕ };

    ghost view = { λ a. string_bytes a.text };
}

impl Text {
    ghost use Rattle.std.specs.String.{string_bytes};

    /// Lends the text.
    pub fn as_str(&self) -> &str
        ensures { result.now ≡ self.now }
    {
        self.text.as_str()
    }

    /// Gives the text.
    pub fn into_string(self) -> String
        ensures { string_bytes result ≡ self }
    {
        self.text
    }
}

impl From<String> for Text {
    ghost use Rattle.std.specs.String.{string_bytes};

    ghost from_gives = { λ text r. r ≡ string_bytes text };

    fn from(text: String) -> Text {
        Text { text }
    }
}

/// The attribute values of a record, seen by contracts as the list of their bytes.
///
/// Values that are missing at the end are counted, not kept: a file of many columns may leave them out of each record.
#[derive(Debug, Drop)]
pub struct Values {
    values: Vec<Text>,
    blanks: usize,
}

impl Model for Values {
    ghost use Rattle.std.specs.Prelude.{List, ℕ, ◌++◌, [], replicate};

    ghost Value = { List (List ℕ) };

    ghost view = { λ a. a.values.items ++ replicate a.blanks [] };
}

impl Values {
    ghost use Rattle.std.specs.Prelude.{◌++◌, [], replicate};

    /// These values, and that many blank ones behind them.
    pub fn with_blanks(values: Vec<Text>, blanks: usize) -> Values
        ensures { result ≡ values.items ++ replicate blanks [] }
    {
        Values { values, blanks }
    }

    /// The values that are kept, and how many blank ones stand behind them.
    pub fn parts(&self) -> (&[Text], usize)
        ensures { result.0.now ++ replicate result.1 [] ≡ self.now }
    {
        (self.values.as_slice(), self.blanks)
    }

    /// The values that are kept, and how many blank ones stand behind them.
    pub fn into_parts(self) -> (Vec<Text>, usize)
        ensures { result.0.items ++ replicate result.1 [] ≡ self }
    {
        (self.values, self.blanks)
    }
}

/// An attribute column: its name, and the text of its type.
#[derive(Debug, Drop)]
pub struct Column {
    pub name: Text,
    pub kind: Text,
}

/// The attribute columns of a file, seen by contracts as a list.
#[derive(Debug, Drop)]
pub struct Columns {
    columns: Vec<Column>,
}

impl Model for Columns {
    ghost use Rattle.std.specs.Prelude.{List};
    ghost use Rattle.mfcsv.specs.declared.Column.{Column};

    ghost Value = { List Column };

    ghost view = { λ a. a.columns.items };
}

impl Columns {
    /// Lends the list.
    pub fn as_slice(&self) -> &[Column]
        ensures { result.now ≡ self.now }
    {
        self.columns.as_slice()
    }

    /// Gives the list.
    pub fn into_vec(self) -> Vec<Column>
        ensures { result.items ≡ self }
    {
        self.columns
    }
}

impl From<Vec<Column>> for Columns {
    ghost from_gives = { λ columns r. r ≡ columns.items };

    fn from(columns: Vec<Column>) -> Columns {
        Columns { columns }
    }
}

/// How many coordinates the positions of a file have.
#[derive(Clone, Copy, PartialEq, Eq, Debug)]
pub enum Dimension {
    /// x and y: `2D`.
    Two,
    /// x, y and z: `3D`.
    Three,
}

/// A position: x, y and z in the order of the file; z is 0 in two dimensions.
#[derive(Clone, Copy, PartialEq, Eq, Debug)]
pub struct Position {
    pub x: Coord,
    pub y: Coord,
    pub z: Coord,
}

/// The positions of a record, seen by contracts as a list.
#[derive(Debug, Drop)]
pub struct Positions {
    positions: Vec<Position>,
}

impl Model for Positions {
    ghost use Rattle.std.specs.Prelude.{List};
    ghost use Rattle.mfcsv.specs.declared.Position.{Position};

    ghost Value = { List Position };

    ghost view = { λ a. a.positions.items };
}

impl Positions {
    /// Lends the list.
    pub fn as_slice(&self) -> &[Position]
        ensures { result.now ≡ self.now }
    {
        self.positions.as_slice()
    }

    /// Gives the list.
    pub fn into_vec(self) -> Vec<Position>
        ensures { result.items ≡ self }
    {
        self.positions
    }
}

impl From<Vec<Position>> for Positions {
    ghost from_gives = { λ positions r. r ≡ positions.items };

    fn from(positions: Vec<Position>) -> Positions {
        Positions { positions }
    }
}

/// A data record: where a feature was from one moment to another.
///
/// The end is after the start, by at least a millisecond for each leg; the mfidref has 1 to 255
/// bytes; there is a position.
#[derive(Debug, Drop)]
pub struct Record {
    /// The number of the record in the file, from 1.
    pub number: u64,
    /// The name of the feature.
    pub mfidref: Text,
    /// The start, in milliseconds since 1970-01-01T00:00:00Z.
    pub t0: Ms,
    /// The end, in the same milliseconds.
    pub t1: Ms,
    /// The positions in the order of the file, at least one.
    pub positions: Positions,
    /// One value for each attribute column of the file, in the order of the columns; a missing one
    /// is blank.
    pub attributes: Values,
}

impl Model for Record {
    ghost use Rattle.mfcsv.specs.Views.{RecordView, IsRecord};

    ghost Value = { RecordView };

    ghost view = { λ a.
        record {
          number = a.number;
          mfidref = a.mfidref;
          t0 = a.t0;
          t1 = a.t1;
          positions = a.positions;
          attributes = a.attributes;
        } };

    ghost invariant = { λ a. IsRecord
        (record {
          number = a.number;
          mfidref = a.mfidref;
          t0 = a.t0;
          t1 = a.t1;
          positions = a.positions;
          attributes = a.attributes;
        }) };
}

/// The data records of a file in their order, seen by contracts as a list.
#[derive(Debug, Drop)]
pub struct Records {
    records: Vec<Record>,
}

impl Model for Records {
    ghost use Rattle.std.specs.Prelude.{List};
    ghost use Rattle.mfcsv.specs.Views.{RecordView};

    ghost Value = { List RecordView };

    ghost view = { λ a. a.records.items };
}

impl Records {
    /// Lends the list.
    pub fn as_slice(&self) -> &[Record]
        ensures { result.now ≡ self.now }
    {
        self.records.as_slice()
    }

    /// Gives the list.
    pub fn into_vec(self) -> Vec<Record>
        ensures { result.items ≡ self }
    {
        self.records
    }
}

impl From<Vec<Record>> for Records {
    ghost from_gives = { λ records r. r ≡ records.items };

    fn from(records: Vec<Record>) -> Records {
        Records { records }
    }
}

/// What the two header lines of a file say.
#[derive(Debug, Drop)]
pub struct Head {
    /// The number of the record `@stboundedby`, from 1.
    pub number_bounds: u64,
    /// The number of the record `@columns`, from 1.
    pub number_columns: u64,
    /// The name of the coordinate reference system.
    pub crs: Text,
    /// How many coordinates each position has.
    pub dimension: Dimension,
    /// The start instant, from which the times of the records count.
    pub start: Ms,
    /// The attribute columns, without the blank ones at the end of the line.
    pub columns: Columns,
}

/// A file: its header lines, and its data records.
#[derive(Debug, Drop)]
pub struct File {
    pub head: Head,
    pub records: Records,
}
