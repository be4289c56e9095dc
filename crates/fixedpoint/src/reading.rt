//! Reading a number text, digit by digit.
ghost use Rattle.std.specs.Prelude.{◌≡◌, ◌≤◌, ◌<◌, ◌+◌, ◌*◌, ◌/◌, ◌^◌, min, take, length, true, false, IfOk, IfErr, IfSome, IfNone, MatchOption, Some, None, slice_index};
ghost use Rattle.std.specs.Char.{is_ascii_digit};
ghost use Rattle.std.specs.List.{list_all, before_first, after_first};
ghost use Rattle.std.specs.Str.Parse.{digits_value, digits_value_after};
ghost use Rattle.fixedpoint.specs.Number.{rounded, most, number_of, is_point, IsInRange, unsigned_text, is_negative, signed};
ghost use Rattle.fixedpoint.specs.Laws.{IsNearest};
ghost use Rattle.fixedpoint.specs.Steps.{AreParts, IsCut, IsMagnitude, IsRefused, point_tail};

use crate::{MOST_UNITS, NumberFault};

/// Where counting stops: from here on a number is out of range, whatever digits follow.
const CAP: u64 = MOST_UNITS + 1;

/// The longest number text, in bytes.
const LONGEST: usize = 40;

/// How many units 1 is: `factor` * 10^`places`.
#[derive(Clone, Copy)]
pub(crate) struct Scale {
    pub(crate) places: usize,
    pub(crate) factor: u64,
}

/// Digits at the front of a text.
#[derive(Clone, Copy)]
struct Digits {
    /// The number that they write behind the one they were read onto, or `CAP` where it is greater.
    value: u64,
    /// How many they are.
    count: usize,
}

/// Reads digits from the front of a text onto a number, up to the first byte that is none.
fn leading_digits(start: u64, text: &[u8]) -> Digits
    requires { start ≤ CAP }
    ensures count { result.count ≤ length text.now }
    ensures digits { list_all is_ascii_digit (take result.count text.now) ≡ true }
    ensures stops { result.count < length text.now
        → is_ascii_digit (slice_index text.now result.count) ≡ false }
    ensures value { result.value ≡ min CAP (digits_value_after 10 start
        (take result.count text.now)) }
{
    let mut value = start;
    let mut count = 0;
    while count < text.len() && text[count].is_ascii_digit() {
        let digit = text[count] - b'0';
        value = (value * 10 + digit as u64).min(CAP);
        count += 1;
    }
    Digits { value, count }
}

fn are_digits(text: &[u8]) -> bool
    ensures { result ≡ list_all is_ascii_digit text.now }
{
    text.iter().all(|byte| byte.is_ascii_digit())
}

/// An unsigned text, cut at its first point.
#[derive(Clone, Copy)]
struct Parts<'a> {
    /// The number before the point, or `CAP` where it is greater.
    whole: u64,
    /// How many digits it has.
    whole_digits: usize,
    /// What stands behind the point.
    fraction: &'a [u8],
}

/// What stands behind the whole digits: nothing, or what a point leads in.
fn behind_point(rest: &[u8]) -> Option<&[u8]>
    ensures { MatchOption result (point_tail rest.now ≡ None) (λ fraction. point_tail rest.now
        ≡ Some fraction.now) }
{
    match rest {
        [] => Some(rest),
        [b'.', fraction @ ..] => Some(fraction),
        _ => None,
    }
}

/// Cuts a text at its first point; `None` where something else than a digit stands before it.
fn cut_at_point(text: &[u8]) -> Option<Parts<'_>>
    ensures found { IfSome result
        (λ parts. AreParts text.now parts.whole parts.whole_digits parts.fraction.now) }
    ensures refused { IfNone result (list_all is_ascii_digit (before_first is_point text.now)
        ≡ false) }
{
    let digits = leading_digits(0, text);
    match behind_point(&text[digits.count..]) {
        Some(fraction) => Some(Parts {
            whole: digits.value,
            whole_digits: digits.count,
            fraction,
        }),
        None => None,
    }
}

/// A number, cut behind its places.
#[derive(Clone, Copy)]
struct Cut<'a> {
    /// The units of 10^-places in front of the cut; more than `MOST_UNITS` where they are more.
    units: u64,
    /// The digits behind it.
    dropped: &'a [u8],
}

/// Cuts an unsigned text behind so many places.
fn cut_behind(text: &[u8], places: usize) -> Result<Cut<'_>, NumberFault>
    requires { places ≤ 7 }
    ensures cut { IfOk result (λ cut. IsCut places text.now cut.units cut.dropped.now) }
    ensures refused { IfErr result (λ e. IsRefused text.now e) }
{
    let parts = match cut_at_point(text) {
        Some(parts) => parts,
        None => return Err(NumberFault::Shape),
    };
    let wanted = parts.fraction.len().min(places);
    let kept = leading_digits(parts.whole, &parts.fraction[..wanted]);
    let dropped = &parts.fraction[kept.count..];
    if !are_digits(dropped) {
        return Err(NumberFault::Shape);
    }
    if parts.whole_digits + parts.fraction.len() == 0 {
        return Err(NumberFault::Shape);
    }
    let missing = (places - kept.count) as u32;
    Ok(Cut {
        units: kept.value.saturating_mul(10u64.pow(missing)),
        dropped,
    })
}

/// The number that digits write.
fn value_of(digits: &[u8]) -> u128
    requires digits { list_all is_ascii_digit digits.now ≡ true }
    requires few { length digits.now ≤ 36 }
    ensures { result ≡ digits_value 10 digits.now }
{
    let mut value = 0;
    for byte in digits {
        value = value * 10 + (*byte - b'0') as u128;
    }
    value
}

/// The whole number nearest to `units / power`, half up.
fn nearest(units: u128, power: u128) -> u128
    requires units { units ≤ 60000000000000000000000000000000000000 }
    requires power { (0 < power) × (power ≤ 1000000000000000000000000000000000000) }
    ensures { result ≡ (2 * units + power) / (2 * power) }
{
    let halves = 2 * units + power;
    halves / (2 * power)
}

/// How many units the digits behind a cut are, rounded, where 1 in front of it is `factor` units.
fn round(dropped: &[u8], factor: u64) -> u64
    requires digits { list_all is_ascii_digit dropped.now ≡ true }
    requires few { length dropped.now ≤ 36 }
    requires factor { (1 ≤ factor) × (factor ≤ 60) }
    ensures { result ≡ rounded factor (length dropped.now) (digits_value 10 dropped.now) }
{
    if dropped.is_empty() {
        return 0;
    }
    if factor == 1 {
        // The first digit decides.
        let up = dropped[0] >= b'5';
        return up as u64;
    }
    let power = 10u128.pow(dropped.len() as u32);
    let units = value_of(dropped) * factor as u128;
    nearest(units, power) as u64
}

/// How many units an unsigned text writes, rounded; more than `MOST_UNITS` where that is out of range.
fn read_magnitude(text: &[u8], scale: Scale) -> Result<u64, NumberFault>
    requires short { length text.now ≤ 40 }
    requires places { (3 ≤ scale.places) × (scale.places ≤ 7) }
    requires factor { (1 ≤ scale.factor) × (scale.factor ≤ 60) }
    ensures value { IfOk result (λ m. IsMagnitude (scale.factor * 10 ^ scale.places) text.now m) }
    ensures refused { IfErr result (λ e. IsRefused text.now e) }
{
    let cut = cut_behind(text, scale.places)?;
    let front = cut.units.saturating_mul(scale.factor);
    Ok(front.saturating_add(round(cut.dropped, scale.factor)))
}

/// Whether a text has a '-' in front, and the text behind its sign.
fn without_sign(text: &[u8]) -> (bool, &[u8])
    ensures negative { result.0 ≡ is_negative text.now }
    ensures rest { result.1.now ≡ unsigned_text text.now }
{
    match text {
        [b'-', rest @ ..] => (true, rest),
        [b'+', rest @ ..] => (false, rest),
        _ => (false, text),
    }
}

fn with_sign(negative: bool, magnitude: u64) -> i64
    requires { magnitude ≤ most }
    ensures { result ≡ signed negative magnitude }
{
    let magnitude = magnitude as i64;
    if negative { -magnitude } else { magnitude }
}

/// What a number text reads as, in units.
pub(crate) fn read_number(text: &str, scale: Scale) -> Result<i64, NumberFault>
    requires places { (3 ≤ scale.places) × (scale.places ≤ 7) }
    requires factor { (1 ≤ scale.factor) × (scale.factor ≤ 60) }
    ensures value { result ≡ number_of (scale.factor * 10 ^ scale.places) text.now }
    ensures range { IfOk result IsInRange }
    ensures nearest { IfOk result (IsNearest (scale.factor * 10 ^ scale.places) text.now) }
{
    let bytes = text.as_bytes();
    if bytes.len() > LONGEST {
        return Err(NumberFault::Shape);
    }
    let (negative, unsigned) = without_sign(bytes);
    let magnitude = read_magnitude(unsigned, scale)?;
    if magnitude > MOST_UNITS {
        return Err(NumberFault::Range);
    }
    Ok(with_sign(negative, magnitude))
}
