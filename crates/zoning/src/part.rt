//! Moments and positions at a part of a leg.
ghost use Rattle.std.specs.Prelude.{◌≡◌, ◌<◌, ◌≤◌, ◌+◌, ◌*◌, pos, ◌+ℤ◌, ◌≤ℤ◌, unsigned_abs};
ghost use Rattle.std.specs.Int.{IsGcd};
ghost use Rattle.fixedpoint.specs.Number.{IsInRange};
ghost use Rattle.timebase.specs.Instant.{IsMoment};
ghost use Rattle.clipping.specs.Inside.{duration};
ghost use Rattle.zoning.specs.Parts.{IsAt, IsPart};

use crate::moment::Moment;
use fixedpoint::Coord;
use fractions::{Fraction, Share, Terms, lowest_terms, share_of};
use legs::Leg;
use mfcsv::Position;
use timebase::Ms;

/// How many milliseconds a leg takes.
fn duration_of(leg: &Leg) -> u64
    ensures { pos result ≡ duration leg.now }
{
    (leg.t1.millis() - leg.t0.millis()).unsigned_abs()
}

/// The moment so many milliseconds after one.
fn later(start: Ms, by: u64) -> Ms
    requires { IsMoment (start +ℤ pos by) }
    ensures { result ≡ start +ℤ pos by }
{
    match Ms::new(start.millis() + by as i64) {
        Some(moment) => moment,
        None => unreachable!(),
    }
}

/// The denominator of a part.
fn den_of(part: Fraction) -> u128
    ensures { result ≡ unsigned_abs part.den }
{
    part.den.unsigned_abs()
}

/// A part of so many units: quickly none of them, or all.
fn share_at(part: Fraction, units: u64) -> Share
    requires { IsPart part.num part.den }
    ensures product { unsigned_abs part.num * units
        ≡ result.whole * unsigned_abs part.den + result.rest }
    ensures rest { result.rest < unsigned_abs part.den }
    ensures whole { result.whole ≤ units }
{
    if part.num == 0 {
        return Share { whole: 0, rest: 0 };
    }
    if part.num == part.den {
        return Share {
            whole: units,
            rest: 0,
        };
    }
    share_of(part, units)
}

/// A proper fraction in lowest terms: quickly 0.
fn terms_of(rest: u128, den: u128) -> Terms
    requires { rest < den }
    ensures same { rest * result.den ≡ result.num * den }
    ensures lowest { IsGcd result.num result.den 1 }
    ensures positive { 0 < result.den }
    ensures small { result.den ≤ den }
{
    if rest == 0 {
        return Terms { num: 0, den: 1 };
    }
    lowest_terms(rest, den)
}

/// The moment at a part of a leg's duration.
pub(crate) fn moment_at(leg: &Leg, part: Fraction) -> Moment
    requires { IsPart part.num part.den }
    ensures { IsAt leg.now part.num part.den result }
{
    let share = share_at(part, duration_of(leg));
    let terms = terms_of(share.rest, den_of(part));
    Moment {
        whole: later(leg.t0, share.whole),
        rest: terms.num,
        den: terms.den,
    }
}

/// What goes evenly from `low` up to `high`, at a part of the way, rounded down to the unit.
fn up_from(low: i64, high: i64, part: Fraction) -> i64
    requires part { IsPart part.num part.den }
    requires low_in { IsInRange low }
    requires high_in { IsInRange high }
    requires up { low ≤ℤ high }
    ensures { IsInRange result }
{
    low + share_at(part, (high - low).unsigned_abs()).whole as i64
}

/// What is left of a part.
fn left_of(part: Fraction) -> Fraction
    requires { IsPart part.num part.den }
    ensures { IsPart result.num result.den }
{
    Fraction {
        num: part.den - part.num,
        den: part.den,
    }
}

/// What goes evenly from `a` to `b`, at a part of the way, rounded down to the unit.
fn units_at(a: i64, b: i64, part: Fraction) -> i64
    requires part { IsPart part.num part.den }
    requires a_in { IsInRange a }
    requires b_in { IsInRange b }
    ensures { IsInRange result }
{
    if a <= b {
        up_from(a, b, part)
    } else {
        up_from(b, a, left_of(part))
    }
}

fn coord_at(a: Coord, b: Coord, part: Fraction) -> Coord
    requires { IsPart part.num part.den }
{
    match Coord::new(units_at(a.units(), b.units(), part)) {
        Some(coord) => coord,
        None => unreachable!(),
    }
}

/// Where a leg is at a part of its duration, each coordinate rounded down to the unit.
pub(crate) fn position_at(leg: &Leg, part: Fraction) -> Position
    requires { IsPart part.num part.den }
{
    Position {
        x: coord_at(leg.x0, leg.x1, part),
        y: coord_at(leg.y0, leg.y1, part),
        z: coord_at(leg.z0, leg.z1, part),
    }
}
