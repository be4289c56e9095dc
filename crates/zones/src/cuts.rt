//! Places on a course, and cuts of it.
ghost use Rattle.std.specs.Prelude.{◌≡◌, ◌<◌, ◌^◌, ◌↔◌, IsTrue, ℤ, pos, ◌+ℤ◌, ◌*ℤ◌, ◌<ℤ◌, ◌≤ℤ◌, unsigned_abs};
ghost use Rattle.std.specs.Ordering.{int_cmp};

use fractions::{Fraction, compare, sign_at};
use std::cmp::Ordering;

const MOST: i128 = 1 << 103;

/// A place on a course: the fraction num / den of it.
#[derive(Clone, Copy, Debug)]
pub struct CoursePlace {
    pub num: i128,
    pub den: i128,
    ghost positive: { pos 0 <ℤ den },
    ghost small: { (unsigned_abs num < 2 ^ 103) × (unsigned_abs den < 2 ^ 103) },
}

impl CoursePlace {
    ghost use Rattle.std.specs.Prelude.{◌≡◌, IfSome};

    /// The place num / den; `None` where `den` is not above 0, or one of them has more than 103 bits.
    pub fn new(num: i128, den: i128) -> Option<CoursePlace>
        // The place has this numerator.
        ensures num { IfSome result (λ place. place.num ≡ num) }
        // It has this denominator.
        ensures den { IfSome result (λ place. place.den ≡ den) }
    {
        if den > 0 && den < MOST && num > -MOST && num < MOST {
            Some(CoursePlace { num, den })
        } else {
            None
        }
    }
}

/// The places from `lo` to `hi`, both among them.
#[derive(Clone, Copy, Debug)]
pub struct Cut {
    pub lo: CoursePlace,
    pub hi: CoursePlace,
    ghost ordered: { (lo.num *ℤ hi.den) ≤ℤ (hi.num *ℤ lo.den) },
}

/// The place as a fraction.
pub(crate) fn fraction_of(place: CoursePlace) -> Fraction
    ensures num { result.num ≡ place.num }
    ensures den { result.den ≡ place.den }
{
    Fraction {
        num: place.num,
        den: place.den,
    }
}

/// Whether one place is before another.
pub(crate) fn is_before(one: CoursePlace, other: CoursePlace) -> bool
    ensures { IsTrue result ↔ ((one.num *ℤ other.den) <ℤ (other.num *ℤ one.den)) }
{
    compare(fraction_of(one), fraction_of(other)).is_lt()
}

/// The sign of c0 + c1 * s at a place s.
pub(crate) fn sign_on(c0: i128, c1: i128, place: CoursePlace) -> Ordering
    requires small { unsigned_abs c0 < 2 ^ 103 }
    requires small_slope { unsigned_abs c1 < 2 ^ 103 }
    ensures { result ≡ int_cmp (c0 *ℤ place.den +ℤ c1 *ℤ place.num) (pos 0) }
{
    sign_at(c0, c1, fraction_of(place))
}

/// The fraction of the sums, which lies between the two.
pub(crate) fn mediant(one: CoursePlace, other: CoursePlace) -> Fraction
    ensures num { result.num ≡ one.num +ℤ other.num }
    ensures den { result.den ≡ one.den +ℤ other.den }
{
    Fraction {
        num: one.num + other.num,
        den: one.den + other.den,
    }
}
