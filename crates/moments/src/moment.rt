//! Moments between milliseconds.
ghost use Rattle.std.specs.Prelude.{◌≡◌, ◌<◌, ◌*ℤ◌, pos, unsigned_abs};
ghost use Rattle.std.specs.Int.{IsGcd, ◌∣◌};
ghost use Rattle.moments.specs.Fractions.{IsInTime, IsLowest};

use timebase::Ms;

/// A moment: the fraction `num` / `den` of milliseconds since 1970-01-01T00:00:00Z, in lowest terms, not before the
/// first and not after the last whole millisecond that there is.
#[derive(Clone, Copy, PartialEq, Eq, Debug)]
pub struct Moment {
    pub num: i128,
    /// Above 0.
    pub den: u64,
    ghost positive: { 0 < den },
    ghost in_time: { IsInTime num den },
    ghost lowest: { IsLowest num den },
}

/// The greatest common divisor of two numbers.
fn common_divisor(a: u64, b: u64) -> u64
    ensures { IsGcd a b result }
{
    let (mut divisor, mut rest) = (a, b);
    while rest != 0 {
        (divisor, rest) = (rest, divisor % rest);
    }
    divisor
}

/// How often a number goes into one of which it is a divisor.
fn exact_quotient(num: i128, divisor: u64) -> i128
    requires positive { 0 < divisor }
    requires divides { divisor ∣ unsigned_abs num }
    ensures { result *ℤ pos divisor ≡ num }
{
    num / divisor as i128
}

impl Moment {
    ghost use Rattle.std.specs.Prelude.{◌<◌, ◌^◌, ◌≡◌, ◌-ℤ◌, ◌*ℤ◌, pos, unsigned_abs};
    ghost use Rattle.visiting.specs.Fractions.{IsCeiling, IsFloor};
    ghost use Rattle.moments.specs.Fractions.{IsInTime, IsLowest, IsSame};
    ghost use Rattle.moments.specs.Lengths.{micros_down, micros_up};
    ghost use Rattle.std.specs.Int.{int_div_euclid};
    ghost use Rattle.timebase.specs.Instant.{IsMoment};

    /// The moment `num` / `den`.
    pub(crate) fn new(num: i128, den: u64) -> Moment
        requires positive { 0 < den }
        requires in_time { IsInTime num den }
        ensures { IsSame result.num result.den num den }
    {
        let rest = num.unsigned_abs() % den as u128;
        let divisor = common_divisor(den, rest as u64);
        Moment {
            num: exact_quotient(num, divisor),
            den: den / divisor,
        }
    }

    /// The numerator of the moment since a base, over the same denominator: in milliseconds, in lowest terms.
    pub fn since(self, base: Ms) -> i128
        // It is the moment less the base, over the same denominator.
        ensures value { result ≡ self.num -ℤ base *ℤ pos self.den }
        // With that denominator it is in lowest terms.
        ensures lowest { IsLowest result self.den }
    {
        self.num - base.millis() as i128 * self.den as i128
    }

    /// The moment in microseconds since 1970-01-01T00:00:00Z, rounded down.
    pub fn micros_down(self) -> i64
        // It is the moment in microseconds, rounded down.
        ensures value { result ≡ micros_down self }
        // No greater whole number of microseconds is at most the moment.
        ensures floor { IsFloor (pos 1000) self.num self.den result }
        // It is below 2^58 in size.
        ensures small { unsigned_abs result < 2 ^ 58 }

        // The millisecond that it is in is a moment.
        ensures milli { IsMoment (int_div_euclid result (pos 1000)) }
    {
        (self.num * 1000).div_euclid(self.den as i128) as i64
    }

    /// The moment in microseconds since 1970-01-01T00:00:00Z, rounded up.
    pub fn micros_up(self) -> i64
        // It is the moment in microseconds, rounded up.
        ensures value { result ≡ micros_up self }
        // No smaller whole number of microseconds is at least the moment.
        ensures ceiling { IsCeiling (pos 1000) self.num self.den result }
        // It is below 2^58 in size.
        ensures small { unsigned_abs result < 2 ^ 58 }

        // The millisecond that it is in is a moment.
        ensures milli { IsMoment (int_div_euclid result (pos 1000)) }
    {
        -((-self.num * 1000).div_euclid(self.den as i128) as i64)
    }
}
