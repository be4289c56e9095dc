//! Numbers of more than 128 bits.
ghost use Rattle.std.specs.Prelude.{◌<◌, ◌≤◌, ◌^◌};

use crate::draft::Draft;

/// What the lower half of such a number is below: it has 18 digits.
const HALF: u128 = 1_000_000_000_000_000_000;

impl Draft {
    /// Appends `times * den + more`, in two halves where it has more than 18 digits.
    pub(crate) fn push_wide(self, times: u64, den: u128, more: u128) -> Draft
        requires times { times < 2 ^ 50 }
        requires small { den < 2 ^ 103 }
        requires more { more ≤ den }
    {
        let times = times as u128;
        let low = times * (den % HALF) + more % HALF;
        let high = times * (den / HALF) + more / HALF + low / HALF;
        self.push_halves(high, low % HALF)
    }
}
