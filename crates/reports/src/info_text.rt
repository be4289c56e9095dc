//! What a store holds, as lines for people.
use crate::draft::Draft;
use legs::{BookHead, Box3, Limits};
use mfcsv::{Column, Dimension};
use reasons::is_seen;
use trajdb::RunFault;

/// How many bytes a page has.
const PAGE_BYTES: u64 = 4096;

/// What is said of a store that is finished.
#[derive(Drop)]
pub struct StoreReport<'a> {
    /// The version of its format.
    pub version: u32,
    /// How many pages it has.
    pub pages: u32,
    /// What the first file said of all; `None` where none was accepted.
    pub head: Option<&'a BookHead>,
    /// How many legs the database has.
    pub legs: u64,
    /// How many features the database has.
    pub features: u64,
    /// How much the database may hold.
    pub limits: Limits,
    /// The box over all legs; `None` without a leg.
    pub extent: Option<Box3>,
}

/// How many coordinates a position has.
pub(crate) fn places(dimension: Dimension) -> u64 {
    match dimension {
        Dimension::Two => 2,
        Dimension::Three => 3,
    }
}

/// How many bytes so many pages have.
pub(crate) fn bytes_of(pages: u32) -> u64 {
    pages as u64 * PAGE_BYTES
}

impl Draft {
    /// Appends a character; one that commands a terminal, or is not seen, as its number.
    fn push_plain_char(self, c: char) -> Draft {
        if is_seen(c) {
            self.push_char(c)
        } else {
            self.push("\\u{").push_hex(c as u32).push("}")
        }
    }

    /// Appends a text on one line: a character that commands a terminal, or is not seen, stands there as its number.
    fn push_plain(self, said: &str) -> Draft {
        let mut lines = self;
        for c in said.chars() {
            lines = lines.push_plain_char(c);
        }
        lines
    }

    /// Appends a key and what stands between it and its value.
    fn push_line_key(self, key: &str) -> Draft {
        self.push(key).push(": ")
    }

    /// Appends a line of a text.
    fn push_plain_line(self, key: &str, said: &str) -> Draft {
        self.push_line_key(key).push_plain(said).push("\n")
    }

    /// Appends a line of a number.
    fn push_number_line(self, key: &str, number: u64) -> Draft {
        self.push_line_key(key).push_number(number).push("\n")
    }

    /// Appends a line of an instant, in milliseconds.
    fn push_moment_line(self, key: &str, millis: i64) -> Draft {
        self.push_line_key(key).push_moment(millis).push("\n")
    }

    /// Appends a line for each column.
    fn push_column_lines(self, columns: &[Column]) -> Draft {
        let mut lines = self;
        for column in columns {
            lines = lines
                .push("column: ")
                .push_plain(column.name.as_str())
                .push(" ")
                .push_plain(column.kind.as_str())
                .push("\n");
        }
        lines
    }

    /// Appends a line for each thing that the first file said of all; without one, none.
    fn push_file_lines(self, head: Option<&BookHead>) -> Draft {
        match head {
            Some(head) => self
                .push_plain_line("crs", head.crs.as_str())
                .push_number_line("dimension", places(head.dimension))
                .push_moment_line("start", head.base.millis())
                .push_column_lines(head.columns.as_slice()),
            None => self,
        }
    }

    /// Appends the lines of the moments and the places between which all legs lie; without a leg, none.
    fn push_box_lines(self, extent: Option<&Box3>) -> Draft {
        match extent {
            Some(bounds) => self
                .push_moment_line("first", bounds.t_min)
                .push_moment_line("last", bounds.t_max)
                .push("extent: ")
                .push_corners(bounds, " ")
                .push("\n"),
            None => self,
        }
    }
}

/// Appends a line for each thing that is said, `KEY: VALUE`; without a file, and without a leg, some are left out.
pub fn push_lines(text: &mut Vec<u8>, said: &StoreReport<'_>) -> Result<(), RunFault> {
    Draft::of(text)
        .push_number_line("version", said.version as u64)
        .push_plain_line("state", "finished")
        .push_number_line("pages", said.pages as u64)
        .push_number_line("bytes", bytes_of(said.pages))
        .push_file_lines(said.head)
        .push_number_line("legs", said.legs)
        .push_number_line("features", said.features)
        .push_number_line("most legs", said.limits.legs())
        .push_number_line("most features", said.limits.features() as u64)
        .push_box_lines(said.extent.as_ref())
        .give(text)
}
