//! Lowest terms.
ghost use Rattle.std.specs.Prelude.{◌≡◌, ◌<◌, ◌≤◌, ◌*◌};
ghost use Rattle.std.specs.Int.{IsGcd};

/// A numerator and a denominator.
#[derive(Clone, Copy, PartialEq, Eq, Debug)]
pub struct Terms {
    pub num: u128,
    pub den: u128,
}

/// The greatest common divisor, by the Euclidean algorithm.
fn common_divisor(mut a: u128, mut b: u128) -> u128
    ensures { IsGcd a b result }
{
    while b != 0 {
        (a, b) = (b, a % b);
    }
    a
}

/// A fraction in lowest terms.
pub fn lowest_terms(num: u128, den: u128) -> Terms
    // The denominator is above 0.
    requires positive { 0 < den }
    // The two fractions are equal.
    ensures same { num * result.den ≡ result.num * den }
    // The new terms have no common divisor but 1.
    ensures lowest { IsGcd result.num result.den 1 }
    // The new denominator is above 0.
    ensures positive { 0 < result.den }
    // It is at most the old one.
    ensures small { result.den ≤ den }
{
    let divisor = common_divisor(num, den);
    Terms {
        num: num / divisor,
        den: den / divisor,
    }
}
