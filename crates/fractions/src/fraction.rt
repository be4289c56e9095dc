//! Fractions with a denominator above 0.
ghost use Rattle.std.specs.Prelude.{◌≡◌, ◌<◌, ◌^◌, ℤ, pos, ◌+ℤ◌, ◌*ℤ◌, ◌<ℤ◌, unsigned_abs, FitsSigned, IfSome};
ghost use Rattle.std.specs.Int.{w64, w128};
ghost use Rattle.std.specs.Ordering.{int_cmp};

use crate::parts::compare_parts;
use std::cmp::Ordering;

/// A fraction of two whole numbers, in any terms.
#[derive(Clone, Copy, Debug)]
pub struct Fraction {
    pub num: i128,
    pub den: i128,
    ghost positive: { pos 0 <ℤ den },
}

/// One fraction against another.
pub fn compare(a: Fraction, b: Fraction) -> Ordering
    ensures { result ≡ int_cmp (a.num *ℤ b.den) (b.num *ℤ a.den) }
{
    let (a_size, a_den) = (a.num.unsigned_abs(), a.den.unsigned_abs());
    let (b_size, b_den) = (b.num.unsigned_abs(), b.den.unsigned_abs());
    if a.num < 0 {
        if b.num < 0 {
            compare_parts(b_size, b_den, a_size, a_den)
        } else {
            Ordering::Less
        }
    } else if b.num < 0 {
        Ordering::Greater
    } else {
        compare_parts(a_size, a_den, b_size, b_den)
    }
}

/// c0 * den + c1 * num; `None` if a product or the sum has more than 127 bits.
fn value_at(c0: i128, c1: i128, at: Fraction) -> Option<i128>
    ensures { IfSome result (λ value. value ≡ c0 *ℤ at.den +ℤ c1 *ℤ at.num) }
{
    let start = c0.checked_mul(at.den)?;
    let growth = c1.checked_mul(at.num)?;
    start.checked_add(growth)
}

/// The sign of c0 + c1 * s at a fraction s, by the order of s and of the fraction at which that is 0.
fn sign_by_root(c0: i128, c1: i128, at: Fraction) -> Ordering
    requires small { unsigned_abs c0 < 2 ^ 127 }
    requires small_slope { unsigned_abs c1 < 2 ^ 127 }
    ensures { result ≡ int_cmp (c0 *ℤ at.den +ℤ c1 *ℤ at.num) (pos 0) }
{
    if c1 > 0 {
        compare(at, Fraction { num: -c0, den: c1 })
    } else if c1 < 0 {
        compare(Fraction { num: c0, den: -c1 }, at)
    } else {
        c0.cmp(&0)
    }
}

/// A number as one of 64 bits, if it is one.
fn narrow(number: i128) -> Option<i64>
    ensures value { IfSome result (λ narrow. narrow ≡ number) }
    ensures range { IfSome result (λ narrow. FitsSigned w64 narrow) }
{
    match i64::try_from(number) {
        Ok(narrow) => Some(narrow),
        Err(_) => None,
    }
}

/// The product of two numbers of 64 bits.
fn product(a: i64, b: i64) -> i128
    ensures value { result ≡ a *ℤ b }
    ensures range { FitsSigned w128 result }
{
    a as i128 * b as i128
}

/// The product of two numbers; `None` if one has more than 64 bits.
fn narrow_product(a: i128, b: i128) -> Option<i128>
    ensures { IfSome result (λ value. value ≡ a *ℤ b) }
{
    let x = narrow(a)?;
    let y = narrow(b)?;
    Some(product(x, y))
}

/// c0 * den + c1 * num; `None` if one of the four has more than 64 bits, or the sum more than 127.
fn narrow_value_at(c0: i128, c1: i128, at: Fraction) -> Option<i128>
    ensures { IfSome result (λ value. value ≡ c0 *ℤ at.den +ℤ c1 *ℤ at.num) }
{
    let start = narrow_product(c0, at.den)?;
    let growth = narrow_product(c1, at.num)?;
    start.checked_add(growth)
}

/// The sign of c0 + c1 * s at a fraction s, by products of 128 bits or by the order of fractions.
fn wide_sign_at(c0: i128, c1: i128, at: Fraction) -> Ordering
    requires small { unsigned_abs c0 < 2 ^ 127 }
    requires small_slope { unsigned_abs c1 < 2 ^ 127 }
    ensures { result ≡ int_cmp (c0 *ℤ at.den +ℤ c1 *ℤ at.num) (pos 0) }
{
    match value_at(c0, c1, at) {
        Some(value) => value.cmp(&0),
        None => sign_by_root(c0, c1, at),
    }
}

/// The sign of c0 + c1 * s at a fraction s: of c0 * den + c1 * num, against 0.
pub fn sign_at(c0: i128, c1: i128, at: Fraction) -> Ordering
    // c0 is below 2^127 in size.
    requires small { unsigned_abs c0 < 2 ^ 127 }
    // So is c1.
    requires small_slope { unsigned_abs c1 < 2 ^ 127 }
    // The order of c0 * den + c1 * num and 0, as whole numbers without bound.
    ensures { result ≡ int_cmp (c0 *ℤ at.den +ℤ c1 *ℤ at.num) (pos 0) }
{
    match narrow_value_at(c0, c1, at) {
        Some(value) => value.cmp(&0),
        None => wide_sign_at(c0, c1, at),
    }
}
