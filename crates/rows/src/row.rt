//! A row of values, borrowed.
ghost use Rattle.std.specs.Prelude.{◌≡◌, ◌≤◌, ◌++◌, length, take, get_or, replicate, []};

use csv::ByteRecord;
use std::marker::Model;
use std::str;

/// Where a row stands among the values of all rows.
#[derive(Clone, Copy, Drop)]
pub(crate) struct RowPlace {
    /// The number of its first value.
    pub(crate) first: usize,
    /// How many values are kept.
    pub(crate) count: u32,
    /// How many blank ones stand behind them.
    pub(crate) blanks: u32,
}

/// A row of attribute values, seen by contracts as the list of their bytes.
#[derive(Drop)]
pub struct Row<'a> {
    pub(crate) values: &'a ByteRecord,
    pub(crate) place: RowPlace,
}

impl<'a> Model for Row<'a> {
    ghost use Rattle.std.specs.Prelude.{List, ℕ};
    ghost use Rattle.csv.specs.Records.{fields_of};
    ghost use Rattle.rows.specs.Rows.{row_of, IsIn};

    ghost Value = { List (List ℕ) };

    ghost view = { λ a. row_of (fields_of a.values.now) a.place };

    ghost invariant = { λ a. IsIn (fields_of a.values.now) a.place };
}

impl<'a> Row<'a> {
    /// How many values there are, the blank ones among them.
    pub fn len(&self) -> usize
        ensures { result ≡ length self.now }
    {
        self.place.count as usize + self.place.blanks as usize
    }

    /// How many values are kept, and how many blank ones stand behind them.
    pub(crate) fn parts(&self) -> (usize, u32)
        ensures row { take result.0 self.now ++ replicate result.1 [] ≡ self.now }
        ensures kept { result.0 ≤ length self.now }
    {
        (self.place.count as usize, self.place.blanks)
    }

    /// The value of that number, counted from 0; no character for a number that is too great.
    pub fn value(&self, i: usize) -> &'a str
        ensures { result.now ≡ get_or self.now i [] }
    {
        if i >= self.place.count as usize {
            return "";
        }
        match self.values.get(self.place.first.saturating_add(i)) {
            Some(value) => match str::from_utf8(value) {
                Ok(text) => text,
                Err(_) => "",
            },
            None => "",
        }
    }
}
