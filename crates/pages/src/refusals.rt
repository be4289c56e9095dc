//! How many calls failed.
ghost use Rattle.std.specs.Prelude.{◌≡◌, ◌≤◌, ◌+◌, ◌-◌, ◌^◌, min, OnErr, OnOk};

use std::marker::Model;

/// How many calls failed. The count never falls. 2^64 - 1 stands for any greater number.
#[derive(Drop, Debug)]
pub struct Refusals {
    calls: u64,
}

impl Model for Refusals {
    ghost use Rattle.std.specs.Prelude.{ℕ};

    ghost Value = { ℕ };

    ghost view = { λ r. r.calls };
}

impl Refusals {
    /// None so far.
    pub fn none() -> Refusals
        ensures { result ≡ 0 }
    {
        Refusals { calls: 0 }
    }

    /// Counts one more.
    pub fn add(&mut self)
        // One more is counted, up to 2^64 - 1.
        ensures counted { self.new ≡ min (self.old + 1) (2 ^ 64 - 1) }
        // The count never falls.
        ensures later { self.old ≤ self.new }
    {
        self.calls = self.calls.saturating_add(1);
    }

    /// Returns the result of a call as it is, and counts it if it is an error.
    pub fn count<T, E>(&mut self, answer: Result<T, E>) -> Result<T, E>
        // It returns what it was given.
        ensures same { result ≡ answer }
        // An error is counted, up to 2^64 - 1.
        ensures counted { OnErr result (self.new ≡ min (self.old + 1) (2 ^ 64 - 1)) }
        // `Ok` is not counted.
        ensures refuses_none { OnOk result (self.new ≡ self.old) }
        // The count never falls.
        ensures later { self.old ≤ self.new }
    {
        if answer.is_err() {
            self.add();
        }
        answer
    }
}
