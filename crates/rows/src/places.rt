//! Where the rows stand.
ghost use Rattle.std.specs.Prelude.{◌≡◌, IfSome, Some, slice_get};

use crate::guesses::{Guess, Guesses, STEPS};
use crate::row::RowPlace;
use std::alloc::{AllocError, Global};
use std::marker::Model;

/// The places of rows, seen by contracts as the list of them.
///
/// A place is kept once, in 16 bytes, with its number, 4 bytes, for each row that stands there.
#[derive(Drop)]
pub(crate) struct Places {
    kept: Vec<RowPlace>,
    /// Of each row, the number of its place.
    numbers: Vec<u32>,
    guesses: Guesses,
}

impl Model for Places {
    ghost use Rattle.std.specs.Prelude.{List, ◌<◌, length, All};
    ghost use Rattle.rows.specs.Rows.{places_of};
    ghost use Rattle.rows.specs.declared.row.RowPlace.{RowPlace};

    ghost Value = { List RowPlace };

    ghost view = { λ a. places_of a.kept.items a.numbers.items };

    ghost invariant = { λ a. All (λ n. n < length a.kept.items) a.numbers.items };
}

/// The number under which a place is kept, where a guess has it.
fn number_of(guesses: &Guesses, kept: &[RowPlace], place: RowPlace, hash: u32) -> Option<u32>
    ensures { IfSome result (λ number. slice_get kept.now number ≡ Some place) }
{
    for step in 0..STEPS {
        if let Some(number) = guesses.guess(hash, step) {
            if let Some(known) = kept.get(number as usize) {
                if known.first == place.first
                    && known.count == place.count
                    && known.blanks == place.blanks
                {
                    return Some(number);
                }
            }
        }
    }
    None
}

impl Places {
    ghost use Rattle.std.specs.Prelude.{◌≡◌, ◌++◌, ◌∷◌, [], length, take, slice_get, OnOk, OnErr};

    /// None.
    pub(crate) fn new(alloc: Global) -> Places
        ensures { result ≡ [] }
    {
        Places {
            kept: Vec::new(alloc),
            numbers: Vec::new(alloc),
            guesses: Guesses::new(alloc),
        }
    }

    /// How many rows have a place.
    pub(crate) fn len(&self) -> usize
        ensures { result ≡ length self.now }
    {
        self.numbers.len()
    }

    /// The place of the row of that number, counted from 0.
    pub(crate) fn get(&self, i: usize) -> Option<RowPlace>
        ensures { result ≡ slice_get self.now i }
    {
        let number = self.numbers.get(i).copied()?;
        Some(self.kept[number as usize])
    }

    /// A place where a row of this hash may stand.
    pub(crate) fn guess(&self, hash: u32, step: usize) -> Option<RowPlace> {
        let number = self.guesses.guess(hash, step)?;
        self.kept.get(number as usize).copied()
    }

    /// Puts the place of a row of this hash behind the others. It is refused where memory runs out,
    /// and where 2^32 places are kept.
    pub(crate) fn push(&mut self, place: RowPlace, hash: u32) -> Result<(), AllocError>
        ensures pushed { OnOk result (self.new ≡ self.old ++ place ∷ []) }
        ensures stays { OnErr result (self.new ≡ self.old) }
    {
        if let Some(number) = number_of(&self.guesses, self.kept.as_slice(), place, hash) {
            self.numbers.push(number)?;
            return Ok(());
        }
        let Ok(number) = u32::try_from(self.kept.len()) else {
            return Err(AllocError);
        };
        self.guesses.note(Guess { hash, number })?;
        self.kept.push(place)?;
        self.numbers.push(number)?;
        Ok(())
    }

    /// Leaves so many.
    pub(crate) fn truncate(&mut self, len: usize)
        ensures { self.new ≡ take len self.old }
    {
        self.numbers.truncate(len);
    }
}
