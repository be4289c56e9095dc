//! The rows.
use crate::growing::GrowingRows;
use crate::row::Row;
use mfcsv::Values;
use std::alloc::{AllocError, Global};
use std::marker::Model;

/// Rows of attribute values, seen by contracts as the list of these rows.
///
/// The values of equal rows are kept once, all in one text, one after another. Beside it there are 4
/// bytes for each row, and for each that differs 16 bytes, and 8 for each of its values. Blank values
/// that `Values` counts at a row's end are counted here too, not kept.
pub struct Rows {
    pub(crate) rows: GrowingRows,
}

// In one place, and not at each end of what owns it.
impl Drop for Rows {
    fn drop(self) {
        let Rows { rows } = self;
    }
}

impl Model for Rows {
    ghost use Rattle.std.specs.Prelude.{ℕ, List};

    ghost Value = { List (List (List ℕ)) };

    ghost view = { λ a. a.rows.rows };
}

impl Rows {
    ghost use Rattle.std.specs.Prelude.{ℕ, List, ◌≡◌, ◌↔◌, ◌++◌, ◌∷◌, [], length, slice_get, OnOk, OnErr, IsTrue, All};

    /// No row.
    pub fn new(alloc: Global) -> Rows
        ensures { result ≡ [] }
    {
        Rows {
            rows: GrowingRows::new(alloc),
        }
    }

    /// How many rows there are.
    pub fn len(&self) -> usize
        ensures { result ≡ length self.now }
    {
        self.rows.len()
    }

    /// The row of that number, counted from 0.
    pub fn row(&self, i: usize) -> Option<Row<'_>>
        ensures { result ≡ slice_get self.now i }
    {
        self.rows.row(i)
    }

    /// Puts a row behind the others. It is refused where memory runs out, and where the row has 2^32
    /// values that are kept, or as many blank ones; then the rows are as before.
    pub fn push(&mut self, row: &Values) -> Result<(), AllocError>
        // After `Ok` the row is the last one.
        ensures pushed { OnOk result (self.new ≡ self.old ++ row.now ∷ []) }
        // After an error the rows are as before.
        ensures stays { OnErr result (self.new ≡ self.old) }
    {
        let (texts, blanks) = row.parts();
        let Ok(blanks) = u32::try_from(blanks) else {
            return Err(AllocError);
        };
        self.rows.begin_row()?;
        self.rows.push_texts(texts)?;
        self.rows.end_row_with(blanks)
    }

    /// Puts a row of others behind the others.
    fn push_row(&mut self, row: &Row<'_>) -> Result<(), AllocError>
        ensures pushed { OnOk result (self.new ≡ self.old ++ row.now ∷ []) }
        ensures stays { OnErr result (self.new ≡ self.old) }
    {
        let (kept, blanks) = row.parts();
        self.rows.begin_row()?;
        self.rows.push_first(row, kept)?;
        self.rows.end_row_with(blanks)
    }

    /// Puts other rows behind these; where memory runs out only some of them.
    fn push_rows(&mut self, others: &Rows) -> Result<(), AllocError>
        ensures pushed { OnOk result (self.new ≡ self.old ++ others.now) }
        ensures more { (some : List (List (List ℕ))) × (self.new ≡ self.old ++ some) }
    {
        for i in 0..others.len() {
            match others.row(i) {
                Some(row) => self.push_row(&row)?,
                None => unreachable!(),
            }
        }
        Ok(())
    }

    /// Puts other rows behind these; where there is none yet they are taken as they are. The rows are
    /// as before where memory runs out.
    pub fn append(&mut self, other: Rows) -> Result<(), AllocError>
        // After `Ok` the other rows are at the end, in their order.
        ensures appended { OnOk result (self.new ≡ self.old ++ other) }
        // After an error the rows are as before.
        ensures stays { OnErr result (self.new ≡ self.old) }
    {
        let known = self.len();
        if known == 0 {
            *self = other;
            return Ok(());
        }
        match self.push_rows(&other) {
            Ok(()) => Ok(()),
            Err(memory) => {
                self.rows.truncate(known);
                Err(memory)
            }
        }
    }

    /// Whether each row has so many values.
    pub fn have(&self, count: usize) -> bool
        ensures { IsTrue result ↔ All (λ row. length row ≡ count) self.now }
    {
        for i in 0..self.len() {
            match self.row(i) {
                Some(row) => {
                    if row.len() != count {
                        return false;
                    }
                }
                None => unreachable!(),
            }
        }
        true
    }
}
