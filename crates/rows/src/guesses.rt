//! Where an equal row may stand.
use std::alloc::{AllocError, Global};

/// How many slots are looked at for a hash, whatever was noted before.
pub(crate) const STEPS: usize = 8;
/// Past that many slots none are added: what is noted later takes the slots of what was noted before.
const MOST: usize = 1 << 21;

/// That a row of this hash may stand at the place of this number.
#[derive(Clone, Copy, Drop)]
pub(crate) struct Guess {
    pub(crate) hash: u32,
    pub(crate) number: u32,
}

/// Guesses by hash, without a promise: who asks for one looks whether it holds.
///
/// A guess stands in one of `STEPS` slots behind one another, so asking and noting take the same
/// time for all hashes.
#[derive(Drop)]
pub(crate) struct Guesses {
    slots: Vec<Option<Guess>>,
}

/// The slot at a step of a hash.
fn slot(slots: usize, hash: u32, step: usize) -> usize {
    (hash as usize).wrapping_add(step) & slots.wrapping_sub(1)
}

/// Puts a guess into the first slot that is free, or else into the first one.
fn put(slots: &mut Vec<Option<Guess>>, guess: Guess) {
    let mut found = slot(slots.len(), guess.hash, 0);
    for step in 0..STEPS {
        let next = slot(slots.len(), guess.hash, step);
        if let Some(None) = slots.get(next) {
            found = next;
            break;
        }
    }
    if let Some(place) = slots.get_mut(found) {
        *place = Some(guess);
    }
}

impl Guesses {
    /// None.
    pub(crate) fn new(alloc: Global) -> Guesses {
        Guesses {
            slots: Vec::new(alloc),
        }
    }

    /// The number that is guessed at a step of a hash.
    pub(crate) fn guess(&self, hash: u32, step: usize) -> Option<u32> {
        let guess = self
            .slots
            .get(slot(self.slots.len(), hash, step))
            .copied()??;
        if guess.hash == hash {
            Some(guess.number)
        } else {
            None
        }
    }

    /// Notes a guess. There are two slots or more for each number that was noted, up to `MOST`.
    pub(crate) fn note(&mut self, guess: Guess) -> Result<(), AllocError> {
        let slots = self.slots.len();
        if slots < MOST && guess.number as usize >= slots / 2 {
            self.grow()?;
        }
        put(&mut self.slots, guess);
        Ok(())
    }

    /// Doubles the slots.
    fn grow(&mut self) -> Result<(), AllocError> {
        let mut slots = Vec::new(*self.slots.allocator());
        slots.resize((self.slots.len().saturating_mul(2)).max(64), None)?;
        for slot in &self.slots {
            if let Some(guess) = slot {
                put(&mut slots, *guess);
            }
        }
        self.slots = slots;
        Ok(())
    }
}
