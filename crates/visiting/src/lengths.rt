//! How long it is from one moment to another, in whole microseconds.
ghost use Rattle.std.specs.Prelude.{◌≡◌, ◌<◌, ◌^◌, ◌-ℤ◌, unsigned_abs};
ghost use Rattle.visiting.specs.Lengths.{not_below_0};

/// A moment in whole microseconds, rounded down and rounded up.
#[derive(Clone, Copy, PartialEq, Eq, Debug)]
pub struct Micros {
    pub down: i64,
    pub up: i64,
    ghost down_small: { unsigned_abs down < 2 ^ 58 },
    ghost up_small: { unsigned_abs up < 2 ^ 58 },
}

/// A number, or 0 in the place of one below 0.
fn not_below_0(number: i64) -> u64
    ensures { result ≡ not_below_0 number }
{
    if number < 0 { 0 } else { number.unsigned_abs() }
}

/// How long it is from one moment to another: at least the first number and at most the second.
pub fn length(from: Micros, to: Micros) -> (u64, u64)
    // The first number is the length with both moments rounded inwards, and not below 0.
    ensures least { result.0 ≡ not_below_0 (to.down -ℤ from.up) }
    // The second number is the length with both moments rounded outwards.
    ensures most { result.1 ≡ not_below_0 (to.up -ℤ from.down) }
{
    let least = to.down - from.up;
    let most = to.up - from.down;
    (not_below_0(least), not_below_0(most))
}
