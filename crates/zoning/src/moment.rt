//! Moments between milliseconds.
ghost use Rattle.std.specs.Prelude.{◌<◌, ◌≤◌, ◌+◌, ◌*◌, ◌^◌};
ghost use Rattle.std.specs.Int.{IsGcd};

use timebase::Ms;

/// A moment: whole milliseconds since 1970-01-01T00:00:00Z, and `rest` / `den` of one more, in lowest terms.
#[derive(Clone, Copy, PartialEq, Eq, Debug)]
pub struct Moment {
    /// The whole milliseconds, rounded down.
    pub whole: Ms,
    /// Below `den`.
    pub rest: u128,
    pub den: u128,
    ghost positive: { 0 < den },
    ghost proper: { rest < den },
    ghost small: { den < 2 ^ 103 },
    ghost lowest: { IsGcd rest den 1 },
}

/// How many whole thousandths `rest` / `den` has.
fn thousandths(rest: u128, den: u128) -> u128
    requires proper { rest < den }
    requires small { den < 2 ^ 103 }
    ensures few { result < 1000 }
    ensures whole { result * den ≤ rest * 1000 }
    ensures next { rest * 1000 < (result + 1) * den }
{
    rest * 1000 / den
}

impl Moment {
    ghost use Rattle.std.specs.Prelude.{◌<◌, ◌^◌, ◌≡◌, ◌↔◌, IsTrue, unsigned_abs};
    ghost use Rattle.zoning.specs.Ends.{IsMilli};
    ghost use Rattle.zoning.specs.Lengths.{micros_down, micros_up};

    /// Whether the moment is a whole millisecond.
    pub fn is_at(&self, at: Ms) -> bool
        ensures { IsTrue result ↔ IsMilli self.now at }
    {
        self.whole == at && self.rest == 0
    }

    /// The moment in microseconds since 1970-01-01T00:00:00Z, rounded down.
    pub fn micros_down(&self) -> i64
        // It is the moment in microseconds, rounded down.
        ensures value { result ≡ micros_down self.now }
        // The result is small, so that the difference of two fits.
        ensures small { unsigned_abs result < 2 ^ 58 }
    {
        self.whole.millis() * 1000 + thousandths(self.rest, self.den) as i64
    }

    /// The moment in microseconds since 1970-01-01T00:00:00Z, rounded up.
    pub fn micros_up(&self) -> i64
        // It is the moment in microseconds, rounded up.
        ensures value { result ≡ micros_up self.now }
        // The result is small, so that the difference of two fits.
        ensures small { unsigned_abs result < 2 ^ 58 }
    {
        let down = thousandths(self.rest, self.den);
        let floor = self.whole.millis() * 1000 + down as i64;
        if self.rest * 1000 == down * self.den {
            floor
        } else {
            floor + 1
        }
    }
}
