//! The stay of one leg in a rectangle.
ghost use Rattle.std.specs.Prelude.{◌≡◌, ◌<◌, ◌^◌, ◌+ℤ◌, ◌*ℤ◌, ◌≤ℤ◌, ◌<ℤ◌, pos, unsigned_abs, MatchOption};
ghost use Rattle.clipping.specs.Inside.{HasMomentInside};
ghost use Rattle.moments.specs.Parts.{IsAt, IsPart, IsWhole};
ghost use Rattle.moments.specs.Stays.{IsStay};

use crate::edges::{edges_in, edges_out};
use crate::ends::{End, end_by};
use crate::moment::Moment;
use clipping::{Frac, clip};
use fixedpoint::Coord;
use legs::{Leg, Rect};
use mfcsv::Position;
use timebase::Period;

/// When and where a leg is inside a rectangle in a period: from `enters` to `leaves`, both included, and at each
/// moment between them.
#[derive(Clone, Copy, PartialEq, Eq, Debug)]
pub struct Stay {
    pub leg: Leg,
    /// The first moment.
    pub enters: Moment,
    /// The last moment, which may be the first.
    pub leaves: Moment,
    /// Where the leg is at the first moment, each coordinate rounded down to the unit.
    pub entry: Position,
    /// Where it is at the last, rounded likewise.
    pub exit: Position,
    /// What the first moment is.
    pub enters_by: End,
    /// What the last one is.
    pub leaves_by: End,
}

/// The product of two small numbers.
pub(crate) fn product(a: i64, b: i64) -> i128
    requires a_small { unsigned_abs a < 2 ^ 52 }
    requires b_small { unsigned_abs b < 2 ^ 52 }
    ensures value { result ≡ a *ℤ b }
    ensures small { unsigned_abs result < 2 ^ 104 }
{
    a as i128 * b as i128
}

/// The greatest whole number that is at most `n` / `d`.
fn floor(n: i128, d: i64) -> i128
    requires { pos 0 <ℤ d }
    ensures most { (result *ℤ d) ≤ℤ n }
    ensures next { n <ℤ ((result +ℤ pos 1) *ℤ d) }
{
    n.div_euclid(d as i128)
}

/// The moment at a part of a leg's duration.
fn moment_at(leg: &Leg, part: Frac) -> Moment
    requires { IsPart part }
    ensures at { IsAt leg.now part result.num result.den }
    ensures rises { leg.now.t0 <ℤ leg.now.t1 }
{
    let (t0, t1) = (leg.t0.millis(), leg.t1.millis());
    Moment::new(
        product(t0, part.den) + product(t1 - t0, part.num),
        part.den.unsigned_abs(),
    )
}

/// What goes evenly from `a` to `b`, at a part of the way, rounded down to the unit.
fn coord_at(a: Coord, b: Coord, part: Frac) -> Coord
    requires { IsPart part }
    ensures { IsWhole part a b result }
{
    let (a, b) = (a.units(), b.units());
    let units = floor(product(a, part.den) + product(b - a, part.num), part.den);
    match Coord::new(units as i64) {
        Some(coord) => coord,
        None => unreachable!(),
    }
}

/// Where a leg is at a part of its duration, each coordinate rounded down to the unit.
fn position_at(leg: &Leg, part: Frac) -> Position
    requires { IsPart part }
    ensures x { IsWhole part leg.now.x0 leg.now.x1 result.x }
    ensures y { IsWhole part leg.now.y0 leg.now.y1 result.y }
    ensures z { IsWhole part leg.now.z0 leg.now.z1 result.z }
{
    Position {
        x: coord_at(leg.x0, leg.x1, part),
        y: coord_at(leg.y0, leg.y1, part),
        z: coord_at(leg.z0, leg.z1, part),
    }
}

/// When and where a leg is inside a rectangle in a period; `None` where it is at no moment.
pub fn stay_of(leg: &Leg, rect: &Rect, period: &Period) -> Option<Stay>
    ensures { MatchOption result
        (HasMomentInside leg.now rect.now period.now → ⊥)
        (IsStay rect.now period.now leg.now) }
{
    let cut = clip(leg, rect, period)?;
    let (enters, leaves) = (moment_at(leg, cut.lo), moment_at(leg, cut.hi));
    Some(Stay {
        leg: *leg,
        enters,
        leaves,
        entry: position_at(leg, cut.lo),
        exit: position_at(leg, cut.hi),
        enters_by: end_by(enters, leg.t0, period.start(), edges_in(leg, rect, cut.lo)),
        leaves_by: end_by(leaves, leg.t1, period.end(), edges_out(leg, rect, cut.hi)),
    })
}
