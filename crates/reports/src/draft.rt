//! A text that grows piece by piece.
use crate::moments_text::{Frame, push_labelled, push_micros, push_position, push_stay_rest};
use crate::values_text::push_values;
use fixedpoint::{Coord, Offset, push_coord, push_offset};
use itoa::Buffer;
use legs::Box3;
use mfcsv::{Dimension, Position};
use moments::Stay;
use pages::PageStore;
use std::alloc::Global;
use std::io::Write;
use std::mem::replace;
use timebase::{Ms, push_instant};
use trajdb::{Db, RunFault};

/// A text that grows at its end. It remembers why it first stopped, and grows no more from there.
#[derive(Drop)]
pub(crate) struct Draft {
    text: Vec<u8>,
    so_far: Result<(), RunFault>,
}

impl Draft {
    /// Takes a text away to let it grow, until it is given back.
    pub(crate) fn of(text: &mut Vec<u8>) -> Draft {
        let alloc = *text.allocator();
        Draft {
            text: replace(text, Vec::new(alloc)),
            so_far: Ok(()),
        }
    }

    /// Gives the text back, and says why it stopped.
    pub(crate) fn give(self, text: &mut Vec<u8>) -> Result<(), RunFault> {
        let Draft {
            text: grown,
            so_far,
        } = self;
        *text = grown;
        so_far
    }

    /// Whether it has not stopped.
    fn grows(&self) -> bool {
        self.so_far.is_ok()
    }

    /// Stops it, unless it has stopped.
    fn stop(mut self, fault: RunFault) -> Draft {
        if self.grows() {
            self.so_far = Err(fault);
        }
        self
    }

    /// Appends bytes.
    pub(crate) fn push_bytes(mut self, bytes: &[u8]) -> Draft {
        if self.grows() && self.text.extend_from_slice(bytes).is_err() {
            self.so_far = Err(RunFault::Memory);
        }
        self
    }

    /// Appends a text.
    pub(crate) fn push(self, said: &str) -> Draft {
        self.push_bytes(said.as_bytes())
    }

    /// Appends a number.
    pub(crate) fn push_number(self, number: u64) -> Draft {
        let mut buffer = Buffer::new();
        self.push(buffer.format(number))
    }

    /// Appends a number that may be below 0.
    pub(crate) fn push_signed(self, number: i128) -> Draft {
        let mut buffer = Buffer::new();
        self.push(buffer.format(number))
    }

    /// Appends a number in hexadecimal digits.
    pub(crate) fn push_hex(mut self, number: u32) -> Draft {
        if self.grows() && write!(self.text, "{number:x}").is_err() {
            self.so_far = Err(RunFault::Memory);
        }
        self
    }

    /// Appends a number of which the low 18 digits are told apart from those before them.
    pub(crate) fn push_halves(mut self, high: u128, low: u128) -> Draft {
        if self.so_far.is_err() {
            return self;
        }
        let written = if high == 0 {
            write!(self.text, "{low}")
        } else {
            write!(self.text, "{high}{low:018}")
        };
        if written.is_err() {
            self.so_far = Err(RunFault::Memory);
        }
        self
    }

    /// Appends a character.
    pub(crate) fn push_char(self, c: char) -> Draft {
        self.push(c.encode_utf8(&mut [0; 4]))
    }

    /// Appends an instant.
    pub(crate) fn push_instant(mut self, at: Ms) -> Draft {
        if self.grows() && push_instant(&mut self.text, at).is_err() {
            self.so_far = Err(RunFault::Memory);
        }
        self
    }

    /// Appends a coordinate.
    fn push_coord(mut self, coord: Coord) -> Draft {
        if self.grows() && push_coord(&mut self.text, coord).is_err() {
            self.so_far = Err(RunFault::Memory);
        }
        self
    }

    /// Appends milliseconds as seconds.
    pub(crate) fn push_seconds(mut self, millis: i64) -> Draft {
        let Some(offset) = Offset::new(millis) else {
            return self.stop(RunFault::Failed);
        };
        if self.grows() && push_offset(&mut self.text, offset).is_err() {
            self.so_far = Err(RunFault::Memory);
        }
        self
    }

    /// Appends a bound of a box, in units of 10^-7, as a coordinate.
    fn push_bound(self, units: i64) -> Draft {
        match Coord::new(units) {
            Some(coord) => self.push_coord(coord),
            None => self.stop(RunFault::Failed),
        }
    }

    /// Appends a bound of a box, in milliseconds, as an instant.
    pub(crate) fn push_moment(self, millis: i64) -> Draft {
        match Ms::new(millis) {
            Some(at) => self.push_instant(at),
            None => self.stop(RunFault::Failed),
        }
    }

    /// Appends the bounds of x and y, with a text between two of them.
    pub(crate) fn push_corners(self, bounds: &Box3, between: &str) -> Draft {
        self.push_bound(bounds.x_min)
            .push(between)
            .push_bound(bounds.y_min)
            .push(between)
            .push_bound(bounds.x_max)
            .push(between)
            .push_bound(bounds.y_max)
    }

    /// Appends a comma and a word.
    pub(crate) fn push_word(self, word: &str) -> Draft {
        self.push(",").push(word)
    }

    /// Appends a comma and each coordinate of a position.
    pub(crate) fn push_position(mut self, dimension: Dimension, position: Position) -> Draft {
        if self.grows() && push_position(&mut self.text, dimension, position).is_err() {
            self.so_far = Err(RunFault::Memory);
        }
        self
    }

    /// Appends a comma and an instant to the microsecond.
    pub(crate) fn push_micros(mut self, micros: i64) -> Draft {
        if self.grows() {
            self.so_far = push_micros(&mut self.text, micros);
        }
        self
    }

    /// Appends the fields of a stay in a rectangle behind its feature.
    pub(crate) fn push_stay_rest(mut self, frame: &Frame<'_>, stay: &Stay) -> Draft {
        if self.grows() {
            self.so_far = push_stay_rest(&mut self.text, frame, stay);
        }
        self
    }

    /// Appends what stands before a record, and the name of a feature.
    pub(crate) fn push_labelled<S: PageStore>(
        mut self,
        alloc: Global,
        database: &Db<S>,
        label: &[u8],
        feature: u32,
    ) -> Draft {
        if self.grows() {
            self.so_far = push_labelled(alloc, &mut self.text, database, label, feature);
        }
        self
    }

    /// Appends the attribute values of the record of that number, each behind a comma.
    pub(crate) fn push_values<S: PageStore>(
        mut self,
        alloc: Global,
        database: &Db<S>,
        row: u32,
    ) -> Draft {
        if self.grows() {
            self.so_far = push_values(alloc, &mut self.text, database, row);
        }
        self
    }
}
