//! A fraction of a number of units: whole units, and a rest.
ghost use Rattle.std.specs.Prelude.{◌≡◌, ◌<◌, ◌≤◌, ◌+◌, ◌*◌, ◌^◌, ℤ, ◌≤ℤ◌, unsigned_abs};

use crate::fraction::Fraction;

/// Whole units, and a rest of one unit in parts of a denominator.
#[derive(Clone, Copy, PartialEq, Eq, Debug)]
pub struct Share {
    pub whole: u64,
    pub rest: u128,
}

/// A share of as many units as the digits say that were taken so far.
#[derive(Clone, Copy)]
struct Running {
    whole: u128,
    rest: u128,
}

/// Takes one digit of 24 bits more: long division of its product with `num`.
fn step(so_far: Running, num: u128, den: u128, digit: u64) -> Running
    requires den_positive { 0 < den }
    requires den_small { den < 2 ^ 103 }
    requires part { num ≤ den }
    requires digit { digit < 2 ^ 24 }
    requires rest { so_far.rest < den }
    requires whole { so_far.whole < 2 ^ 100 }
    ensures product { result.whole * den + result.rest
        ≡ (so_far.whole * den + so_far.rest) * 2 ^ 24 + num * digit }
    ensures rest { result.rest < den }
    ensures whole { result.whole ≤ so_far.whole * 2 ^ 24 + 2 ^ 25 }
{
    let total = so_far.rest * 16777216 + num * digit as u128;
    Running {
        whole: so_far.whole * 16777216 + total / den,
        rest: total % den,
    }
}

/// A fraction from 0 to 1 of a number of units, exactly: the product may have 167 bits.
pub fn share_of(at: Fraction, units: u64) -> Share
    // The fraction is at most 1.
    requires part { unsigned_abs at.num ≤ unsigned_abs at.den }
    // Its denominator has 103 bits at most.
    requires small { unsigned_abs at.den < 2 ^ 103 }
    // num * units = whole * den + rest.
    ensures product { unsigned_abs at.num * units
        ≡ result.whole * unsigned_abs at.den + result.rest }
    // The rest is below the denominator.
    ensures rest { result.rest < unsigned_abs at.den }
    // The whole part is at most the units.
    ensures whole { result.whole ≤ units }
{
    let (num, den) = (at.num.unsigned_abs(), at.den.unsigned_abs());
    let none = Running { whole: 0, rest: 0 };
    let high = step(none, num, den, units / 281474976710656);
    let middle = step(high, num, den, units / 16777216 % 16777216);
    let all = step(middle, num, den, units % 16777216);
    Share {
        whole: all.whole as u64,
        rest: all.rest,
    }
}
