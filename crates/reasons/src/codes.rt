//! The codes of refusals, and the rule that stands behind each.
use std::fmt;

/// The code of a refusal: of a file, as `F18`, or of a line of a script, as `Q4`.
#[derive(Clone, Copy)]
pub enum Code {
    /// A field is not UTF-8.
    F1,
    /// `@stboundedby` or `@columns` a second time.
    F2,
    /// `@stboundedby` with fewer than 7 fields.
    F3,
    /// The dimension is neither `2D` nor `3D`.
    F4,
    /// The start instant is not read, or out of range.
    F5,
    /// The time unit is none of `sec`, `minute` and `absolute`.
    F6,
    /// `@columns` does not begin with `mfidref` and `trajectory`.
    F7,
    /// A data record before both header lines, or the end of the file without both.
    F8,
    /// The CRS name or the dimension is not the database's.
    F9,
    /// The attribute columns are not the database's.
    F10,
    /// A data record with fewer than 4 fields, or with a field past the last attribute that is not blank.
    F11,
    /// The feature's name is empty, or longer than 255 bytes.
    F12,
    /// The start or end time is not read, or out of range.
    F13,
    /// The end is not after the start.
    F14,
    /// A coordinate is not a number, or out of range.
    F15,
    /// No position, or a number of coordinates that is no multiple of the dimension.
    F16,
    /// Fewer milliseconds than legs.
    F17,
    /// The start lies before the end of the feature's last accepted leg.
    F18,
    /// The record passes the limit of legs.
    F19,
    /// The record passes the limit of features.
    F20,
    /// The line is not UTF-8.
    Q1,
    /// The command is unknown.
    Q2,
    /// The number of words is wrong, or there is no name.
    Q3,
    /// The predicate is unknown.
    Q4,
    /// A coordinate is not read, or out of range.
    Q5,
    /// The first corner is above the second, in x or in y.
    Q6,
    /// An instant is not read, or out of range.
    Q7,
    /// The first instant is after the second.
    Q8,
    /// No file of that name.
    Q9,
    /// `write` before any accepted file.
    Q10,
}

/// The codes of lines and of files.
const CODES: [Code; 30] = [
    Code::F1,
    Code::F2,
    Code::F3,
    Code::F4,
    Code::F5,
    Code::F6,
    Code::F7,
    Code::F8,
    Code::F9,
    Code::F10,
    Code::F11,
    Code::F12,
    Code::F13,
    Code::F14,
    Code::F15,
    Code::F16,
    Code::F17,
    Code::F18,
    Code::F19,
    Code::F20,
    Code::Q1,
    Code::Q2,
    Code::Q3,
    Code::Q4,
    Code::Q5,
    Code::Q6,
    Code::Q7,
    Code::Q8,
    Code::Q9,
    Code::Q10,
];

/// The codes as they are printed.
const NAMES: [&str; 30] = [
    "F1", "F2", "F3", "F4", "F5", "F6", "F7", "F8", "F9", "F10", "F11", "F12", "F13", "F14", "F15",
    "F16", "F17", "F18", "F19", "F20", "Q1", "Q2", "Q3", "Q4", "Q5", "Q6", "Q7", "Q8", "Q9", "Q10",
];

/// The rule that stands behind each code.
const RULES: [&str; 30] = [
    "a field is not UTF-8",
    "a header line stands there a second time",
    "the line @stboundedby has fewer than 7 fields",
    "the dimension is neither 2D nor 3D",
    "the start instant is not read, or out of range",
    "the time unit is none of sec, minute and absolute",
    "the line @columns does not begin with mfidref and trajectory",
    "both header lines come before the first data record",
    "the CRS name or the dimension is not the store's",
    "the attribute columns are not the store's",
    "a data record has too few fields, or too many",
    "the feature's name is empty, or longer than 255 bytes",
    "a time is not read, or out of range",
    "the end is not after the start",
    "a coordinate is not read, or out of range",
    "there is no position, or a last one that is not whole",
    "there are fewer milliseconds than legs",
    "it begins before the feature's last leg ends",
    "the store has no room for the legs up to this record",
    "the store has no room for the features up to this record",
    "the line is not UTF-8",
    "unknown command",
    "the number of words is wrong, or there is no name",
    "unknown predicate",
    "a coordinate is not read, or out of range",
    "the first corner is above the second",
    "an instant is not read, or out of range",
    "the first instant is after the second",
    "no file of that name on the command line",
    "there is nothing to write: no file was accepted",
];

impl Code {
    /// The code of a text, as `F18`; `None` where no code has that text.
    pub fn read(text: &str) -> Option<Code> {
        for code in CODES {
            if code.as_str() == text {
                return Some(code);
            }
        }
        None
    }

    /// The code as it is printed, as `F18`.
    pub fn as_str(self) -> &'static str {
        NAMES[self as usize]
    }

    /// The rule that is broken, in words.
    pub fn rule(self) -> &'static str {
        RULES[self as usize]
    }
}

impl fmt::Display for Code {
    fn fmt<W: fmt::Write>(&self, f: &mut fmt::Formatter<W>) -> fmt::Result {
        f.write_str(self.as_str())
    }
}
