//! Rows that grow value by value.
ghost use Rattle.std.specs.Prelude.{◌≡◌, ◌+◌, ◌≤◌, length, take, drop, IsTrue, IfSome};
ghost use Rattle.csv.specs.Records.{fields_of};
ghost use Rattle.rows.specs.Rows.{row_of, IsIn};

use crate::guesses::STEPS;
use crate::places::Places;
use crate::row::{Row, RowPlace};
use crate::rows::Rows;
use csv::ByteRecord;
use mfcsv::Text;
use std::alloc::{AllocError, Global};
use std::hash::{FoldHasher, Hasher};
use std::marker::Model;

/// Rows of attribute values, and the values so far of one row more, seen by contracts as both lists.
///
/// A value is copied once, from where it stands to where it is kept. The values of a row that equals
/// one before are let go of at its end: the row has that one's place.
#[derive(Drop)]
pub struct GrowingRows {
    values: ByteRecord,
    places: Places,
    /// The number of the first value of the row that is begun.
    first: usize,
    /// Whether no value was left half written, for want of memory.
    is_whole: bool,
}

impl Model for GrowingRows {
    ghost use Rattle.std.specs.Prelude.{◌≡◌, [], IsTrue};
    ghost use Rattle.csv.specs.Records.{fields_of, partial_of};
    ghost use Rattle.rows.specs.Rows.{grown, AreGrown, Grown};

    ghost Value = { Grown };

    ghost view = { λ a. grown (fields_of a.values) a.places a.first };

    ghost invariant = { λ a. AreGrown (fields_of a.values) a.places a.first
        × (IsTrue a.is_whole → partial_of a.values ≡ []) };
}

/// A hash of the values from a number on.
fn hash_of(values: &ByteRecord, first: usize) -> u32 {
    let mut state = FoldHasher::default();
    for i in first..values.len() {
        if let Some(value) = values.get(i) {
            state.write(value);
            state.write_u8(0xff);
        }
    }
    (state.finish() >> 32) as u32
}

/// Whether so many values from one number on are those from another on.
fn are_same(values: &ByteRecord, one: usize, other: usize, count: usize) -> bool
    requires one { one + count ≤ length (fields_of values.now) }
    requires other { other + count ≤ length (fields_of values.now) }
    ensures { IsTrue result → take count (drop one (fields_of values.now))
        ≡ take count (drop other (fields_of values.now)) }
{
    let _end = values.len();
    for i in 0..count {
        match (values.get(one + i), values.get(other + i)) {
            (Some(value), Some(next)) => {
                if *value != *next {
                    return false;
                }
            }
            _ => return false,
        }
    }
    true
}

/// Whether a place has as many values as another, and as many blank ones.
fn has_counts_of(known: RowPlace, place: RowPlace) -> bool
    ensures { IsTrue result → (known.count ≡ place.count) × (known.blanks ≡ place.blanks) }
{
    known.count == place.count && known.blanks == place.blanks
}

/// Whether a place ends where another begins, or before.
fn stands_before(known: RowPlace, place: RowPlace) -> bool
    ensures { IsTrue result → known.first + known.count ≤ place.first }
{
    known.first <= place.first && place.first - known.first >= known.count as usize
}

/// Whether a place stands before another, and has an equal row.
fn is_equal(values: &ByteRecord, known: RowPlace, place: RowPlace) -> bool
    requires { IsIn (fields_of values.now) place }
    ensures { IsTrue result → IsIn (take place.first (fields_of values.now)) known
        × (row_of (take place.first (fields_of values.now)) known ≡ row_of (fields_of values.now) place) }
{
    if !has_counts_of(known, place) {
        return false;
    }
    if !stands_before(known, place) {
        return false;
    }
    are_same(values, known.first, place.first, place.count as usize)
}

/// A place before that of a row, with an equal row.
fn find(values: &ByteRecord, places: &Places, place: RowPlace, hash: u32) -> Option<RowPlace>
    requires { IsIn (fields_of values.now) place }
    ensures { IfSome result (λ known. IsIn (take place.first (fields_of values.now)) known
        × (row_of (take place.first (fields_of values.now)) known ≡ row_of (fields_of values.now) place)) }
{
    for step in 0..STEPS {
        if let Some(known) = places.guess(hash, step) {
            if is_equal(values, known, place) {
                return Some(known);
            }
        }
    }
    None
}

impl GrowingRows {
    ghost use Rattle.std.specs.Prelude.{◌≡◌, ◌≤◌, ◌↔◌, ◌++◌, ◌∷◌, [], length, take, slice_get, replicate, OnOk, OnErr, IsTrue, All};
    ghost use Rattle.rows.specs.Rows.{with_row, with_value};

    /// No row, and no value of one.
    pub fn new(alloc: Global) -> GrowingRows
        ensures { result ≡ record { rows = []; row = [] } }
    {
        GrowingRows {
            values: ByteRecord::new(alloc),
            places: Places::new(alloc),
            first: 0,
            is_whole: true,
        }
    }

    /// Puts a value behind those of the row that is begun. If memory runs out, the rows, and the
    /// values so far, are as before, and every later call fails.
    pub fn push_value(&mut self, value: &str) -> Result<(), AllocError>
        // After `Ok` the value is the last one of the row that is begun.
        ensures pushed { OnOk result (self.new ≡ with_value self.old value.now) }
        // After an error the rows, and the values so far, are as before.
        ensures stays { OnErr result (self.new ≡ self.old) }
    {
        if !self.is_whole {
            return Err(AllocError);
        }
        self.is_whole = false;
        self.values.push_field(value.as_bytes())?;
        self.is_whole = true;
        Ok(())
    }

    /// Puts values behind those of the row that is begun; where memory runs out only some of them.
    pub(crate) fn push_texts(&mut self, texts: &[Text]) -> Result<(), AllocError>
        ensures pushed { OnOk result
            (self.new ≡ record self.old { row = self.old.row ++ texts.now }) }
        ensures rows { self.new.rows ≡ self.old.rows }
    {
        for text in texts {
            self.push_value(text.as_str())?;
        }
        Ok(())
    }

    /// Puts the first values of a row, so many, behind those of the row that is begun; where memory
    /// runs out only some of them.
    pub(crate) fn push_first(&mut self, row: &Row<'_>, count: usize) -> Result<(), AllocError>
        requires { count ≤ length row.now }
        ensures pushed { OnOk result
            (self.new ≡ record self.old { row = self.old.row ++ take count row.now }) }
        ensures rows { self.new.rows ≡ self.old.rows }
    {
        for i in 0..count {
            self.push_value(row.value(i))?;
        }
        Ok(())
    }

    /// Puts the row that is begun behind the others, and begins one without values. It is refused
    /// where memory runs out, and where the row has 2^32 values; then all is as before.
    pub fn end_row(&mut self) -> Result<(), AllocError>
        // After `Ok` the row that was begun is the last one, and a new one has no value.
        ensures ended { OnOk result (self.new ≡ with_row self.old) }
        // After an error the rows, and the values so far, are as before.
        ensures stays { OnErr result (self.new ≡ self.old) }
    {
        self.end_row_with(0)
    }

    /// As `end_row`, with so many blank values behind those that the row has.
    pub(crate) fn end_row_with(&mut self, blanks: u32) -> Result<(), AllocError>
        ensures ended { OnOk result (self.new
            ≡ with_row (record self.old { row = self.old.row ++ replicate blanks [] })) }
        ensures stays { OnErr result (self.new ≡ self.old) }
    {
        let (first, end) = (self.first, self.values.len());
        let Ok(count) = u32::try_from(end - first) else {
            return Err(AllocError);
        };
        let place = RowPlace {
            first,
            count,
            blanks,
        };
        let hash = hash_of(&self.values, first);
        if let Some(known) = find(&self.values, &self.places, place, hash) {
            self.places.push(known, hash)?;
            self.let_go();
            return Ok(());
        }
        self.places.push(place, hash)?;
        self.first = end;
        Ok(())
    }

    /// Lets go of the values of the row that is begun.
    fn let_go(&mut self)
        ensures { self.new ≡ record self.old { row = [] } }
    {
        self.values.truncate(self.first);
    }

    /// Lets go of the values of the row that is begun, also of one that was left half written. Where
    /// memory runs out all is as before.
    pub(crate) fn begin_row(&mut self) -> Result<(), AllocError>
        ensures begun { OnOk result (self.new ≡ record self.old { row = [] }) }
        ensures stays { OnErr result (self.new ≡ self.old) }
    {
        if !self.is_whole {
            self.values.push_field(&[])?;
        }
        self.values.truncate(self.first);
        self.is_whole = true;
        Ok(())
    }

    /// How many rows there are.
    pub(crate) fn len(&self) -> usize
        ensures { result ≡ length self.now.rows }
    {
        self.places.len()
    }

    /// The row of that number, counted from 0.
    pub(crate) fn row(&self, i: usize) -> Option<Row<'_>>
        ensures { result ≡ slice_get self.now.rows i }
    {
        let place = self.places.get(i)?;
        Some(Row {
            values: &self.values,
            place,
        })
    }

    /// Leaves so many rows, and the one that is begun.
    pub(crate) fn truncate(&mut self, len: usize)
        ensures { self.new ≡ record self.old { rows = take len self.old.rows } }
    {
        self.places.truncate(len);
    }

    /// The rows, without the one that is begun.
    pub fn into_rows(self) -> Rows
        ensures { result ≡ self.rows }
    {
        Rows { rows: self }
    }
}
