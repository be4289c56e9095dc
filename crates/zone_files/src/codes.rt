//! The rules of the format of zone files.
use std::fmt;

/// A rule of the format that a record breaks.
#[derive(Clone, Copy, PartialEq, Eq, Debug)]
pub enum Code {
    /// A field is not UTF-8.
    Z1,
    /// The header line has not exactly one column `name` and one column `wkt`.
    Z2,
    /// The name is empty, over 255 bytes, or there a second time.
    Z3,
    /// The text is not WKT of a polygon, or of a line of two positions.
    Z4,
    /// A coordinate is not a number, or is out of range.
    Z5,
    /// A ring is not closed or has fewer than three corners, or a gate has no length.
    Z6,
    /// The shape is `EMPTY`, or has a third ordinate.
    Z7,
}

impl Code {
    /// The code as it is printed, as `Z5`.
    pub fn as_str(self) -> &'static str {
        match self {
            Code::Z1 => "Z1",
            Code::Z2 => "Z2",
            Code::Z3 => "Z3",
            Code::Z4 => "Z4",
            Code::Z5 => "Z5",
            Code::Z6 => "Z6",
            Code::Z7 => "Z7",
        }
    }

    /// What is wrong, in words.
    pub fn words(self) -> &'static str {
        match self {
            Code::Z1 => "a field is not UTF-8",
            Code::Z2 => "the header line needs one column `name` and one column `wkt`",
            Code::Z3 => "the name is empty, over 255 bytes, or there a second time",
            Code::Z4 => "the shape is not WKT of a polygon, or of a line of two positions",
            Code::Z5 => "a coordinate is not a number, or is above 100000000 in size",
            Code::Z6 =>
                "a ring is not closed or has fewer than three corners, or a gate has no length",
            Code::Z7 => "the shape is EMPTY, or has a third ordinate",
        }
    }
}

impl fmt::Display for Code {
    fn fmt<W: fmt::Write>(&self, f: &mut fmt::Formatter<W>) -> fmt::Result {
        f.write_str(self.as_str())
    }
}
