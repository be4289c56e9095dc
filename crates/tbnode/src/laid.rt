//! A leg in 80 bytes.
ghost use Rattle.std.specs.Prelude.{ℕ, ◌≡◌, ◌&&◌, ◌+◌, ◌≤◌, length, IsTrue, Some};
ghost use Rattle.std.specs.Option.{is_some};
ghost use Rattle.fixedpoint.specs.Number.{units_within};
ghost use Rattle.timebase.specs.Instant.{some_moment};
ghost use Rattle.std.specs.Int.{int_max, int_min};
ghost use Rattle.legs.specs.Boxes.{intervals_meet, is_near};
ghost use Rattle.legs.specs.Legs.{is_live};
ghost use Rattle.tbnode.specs.Parts.{put, signed_at, signed_bytes};
ghost use Rattle.tbnode.specs.Steps.{LegReadsBack};
ghost use Rattle.tbnode.specs.Layout.{leg_bytes, leg_from_bytes, is_leg, has_moments, has_start, has_end};

use crate::fields::{i64_at, put_i64, put_u32, put_u64, u32_at, u64_at};
use fixedpoint::Coord;
use legs::{Leg, Rect};
use timebase::{Ms, Period};

/// Whether 80 bytes begin with an ordinal and two moments that rise.
#[tactic(auto, unfolding(crate::specs::Layout::leg_from_bytes, crate::specs::Layout::has_moments))]
fn has_moments(bytes: &[u8]) -> bool
    requires { length bytes.now ≡ 80 }
    ensures { result ≡ has_moments (leg_from_bytes 0 bytes.now) }
{
    let (t0, t1) = (i64_at(bytes, 8), i64_at(bytes, 16));
    t0 < t1 && Ms::new(t0).is_some() && Ms::new(t1).is_some()
}

/// Whether a coordinate is in range.
pub fn has_coord(bytes: &[u8], place: usize) -> bool
    // There are eight bytes at that place.
    requires { place + 8 ≤ length bytes.now }
    // It is true exactly if these say a coordinate in range.
    ensures { result ≡ is_some (units_within (signed_at place bytes.now)) }
{
    Coord::new(i64_at(bytes, place)).is_some()
}

#[tactic(auto, unfolding(crate::specs::Layout::leg_from_bytes, crate::specs::Layout::has_start))]
fn has_start(bytes: &[u8]) -> bool
    requires { length bytes.now ≡ 80 }
    ensures { result ≡ has_start (leg_from_bytes 0 bytes.now) }
{
    has_coord(bytes, 24) && has_coord(bytes, 32) && has_coord(bytes, 40)
}

#[tactic(auto, unfolding(crate::specs::Layout::leg_from_bytes, crate::specs::Layout::has_end))]
fn has_end(bytes: &[u8]) -> bool
    requires { length bytes.now ≡ 80 }
    ensures { result ≡ has_end (leg_from_bytes 0 bytes.now) }
{
    has_coord(bytes, 48) && has_coord(bytes, 56) && has_coord(bytes, 64)
}

/// Whether 80 bytes say a lawful leg.
#[tactic(auto, unfolding(crate::specs::Layout::is_leg))]
pub(crate) fn is_leg(bytes: &[u8]) -> bool
    requires { length bytes.now ≡ 80 }
    ensures { result ≡ is_leg bytes.now }
{
    has_moments(bytes) && has_start(bytes) && has_end(bytes) && u32_at(bytes, 76) == 0
}

/// The ordinal of the leg that 80 bytes say.
#[tactic(auto, unfolding(crate::specs::Layout::leg_from_bytes))]
pub(crate) fn ordinal_in(bytes: &[u8]) -> u64
    requires { length bytes.now ≡ 80 }
    ensures { result ≡ (leg_from_bytes 0 bytes.now).ordinal }
{
    u64_at(bytes, 0)
}

/// The coordinate at a place.
pub fn coord_at(bytes: &[u8], place: usize) -> Coord
    // There are eight bytes at that place.
    requires within { place + 8 ≤ length bytes.now }
    // They say a coordinate in range.
    requires lawful { IsTrue (is_some (units_within (signed_at place bytes.now))) }
    // It is that coordinate.
    ensures { result ≡ signed_at place bytes.now }
{
    Coord::new(i64_at(bytes, place)).unwrap()
}

/// The moment at a place.
pub fn moment_at(bytes: &[u8], place: usize) -> Ms
    // There are eight bytes at that place.
    requires within { place + 8 ≤ length bytes.now }
    // They say a moment in range.
    requires lawful { IsTrue (is_some (some_moment (signed_at place bytes.now))) }
    // It is that moment.
    ensures { result ≡ signed_at place bytes.now }
{
    Ms::new(i64_at(bytes, place)).unwrap()
}

/// The leg of a feature that 80 bytes say.
#[tactic(auto, using(crate::proofs::LawLemmas::lawful), unfolding(crate::specs::Layout::leg_from_bytes))]
pub(crate) fn leg_in(bytes: &[u8], feature: u32) -> Leg
    requires len { length bytes.now ≡ 80 }
    requires lawful { IsTrue (is_leg bytes.now) }
    ensures { result ≡ leg_from_bytes feature bytes.now }
{
    Leg {
        ordinal: u64_at(bytes, 0),
        feature,
        row: u32_at(bytes, 72),
        t0: moment_at(bytes, 8),
        t1: moment_at(bytes, 16),
        x0: coord_at(bytes, 24),
        y0: coord_at(bytes, 32),
        z0: coord_at(bytes, 40),
        x1: coord_at(bytes, 48),
        y1: coord_at(bytes, 56),
        z1: coord_at(bytes, 64),
    }
}

/// The moment at a place, if it is in range.
fn some_moment(bytes: &[u8], place: usize) -> Option<Ms>
    requires { place + 8 ≤ length bytes.now }
    ensures { result ≡ some_moment (signed_at place bytes.now) }
{
    Ms::new(i64_at(bytes, place))
}

/// The coordinate at a place, if it is in range.
fn some_coord(bytes: &[u8], place: usize) -> Option<Coord>
    requires { place + 8 ≤ length bytes.now }
    ensures { result ≡ units_within (signed_at place bytes.now) }
{
    Coord::new(i64_at(bytes, place))
}

/// The leg of a feature that 80 bytes say, where they say a lawful one; else a lawful leg, or none.
#[tactic(auto, using(crate::proofs::LawLemmas::lawful), unfolding(crate::specs::Layout::leg_from_bytes))]
pub(crate) fn some_leg(bytes: &[u8], feature: u32) -> Option<Leg>
    requires { length bytes.now ≡ 80 }
    ensures { IsTrue (is_leg bytes.now) → result ≡ Some (leg_from_bytes feature bytes.now) }
{
    let Some(t0) = some_moment(bytes, 8) else {
        return None;
    };
    let Some(t1) = some_moment(bytes, 16) else {
        return None;
    };
    let Some(x0) = some_coord(bytes, 24) else {
        return None;
    };
    let Some(y0) = some_coord(bytes, 32) else {
        return None;
    };
    let Some(z0) = some_coord(bytes, 40) else {
        return None;
    };
    let Some(x1) = some_coord(bytes, 48) else {
        return None;
    };
    let Some(y1) = some_coord(bytes, 56) else {
        return None;
    };
    let Some(z1) = some_coord(bytes, 64) else {
        return None;
    };
    if t1 <= t0 {
        return None;
    }
    if u32_at(bytes, 76) != 0 {
        return None;
    }
    Some(Leg {
        ordinal: u64_at(bytes, 0),
        feature,
        row: u32_at(bytes, 72),
        t0,
        t1,
        x0,
        y0,
        z0,
        x1,
        y1,
        z1,
    })
}

/// Whether the leg that 80 bytes say is live in a period, of whatever feature it is.
#[tactic(auto, unfolding(crate::specs::Layout::leg_from_bytes))]
pub(crate) fn is_live_in(bytes: &[u8], period: &Period) -> bool
    requires { length bytes.now ≡ 80 }
    ensures { (feature : ℕ) → result ≡ is_live period.now (leg_from_bytes feature bytes.now) }
{
    let first = i64_at(bytes, 8).max(period.start().millis());
    let last = i64_at(bytes, 16).min(period.end().millis());
    first <= last
}

/// Whether the closed interval between two numbers, in whichever order, meets the one from `least` to `most`.
fn meets(a: i64, b: i64, least: i64, most: i64) -> bool
    ensures { result ≡ intervals_meet (int_min a b) (int_max a b) least most }
{
    a.min(b) <= most && least <= a.max(b)
}

/// Whether the numbers at two places are not both below `least`, and not both above `most`.
fn meet_at(bytes: &[u8], first: usize, second: usize, least: i64, most: i64) -> bool
    requires first { first + 8 ≤ length bytes.now }
    requires second { second + 8 ≤ length bytes.now }
    ensures { result ≡ intervals_meet
        (int_min (signed_at first bytes.now) (signed_at second bytes.now))
        (int_max (signed_at first bytes.now) (signed_at second bytes.now)) least most }
{
    meets(i64_at(bytes, first), i64_at(bytes, second), least, most)
}

/// Whether the box of the leg that 80 bytes say, of whatever feature it is, meets a rectangle in the plane.
#[tactic(auto, unfolding(crate::specs::Layout::leg_from_bytes))]
pub(crate) fn is_near_in(bytes: &[u8], rect: &Rect) -> bool
    requires { length bytes.now ≡ 80 }
    ensures { (feature : ℕ) → result ≡ is_near rect.now (leg_from_bytes feature bytes.now) }
{
    meet_at(bytes, 24, 48, rect.x_min.units(), rect.x_max.units())
        && meet_at(bytes, 32, 56, rect.y_min.units(), rect.y_max.units())
}

fn put_moment(bytes: &mut [u8], place: usize, at: Ms)
    requires { place + 8 ≤ length bytes.old }
    ensures { bytes.new ≡ put place (signed_bytes at) bytes.old }
{
    put_i64(bytes, place, at.millis());
}

fn put_coord(bytes: &mut [u8], place: usize, coord: Coord)
    requires { place + 8 ≤ length bytes.old }
    ensures { bytes.new ≡ put place (signed_bytes coord) bytes.old }
{
    put_i64(bytes, place, coord.units());
}

/// The 80 bytes of a leg.
pub(crate) fn bytes_of(leg: &Leg) -> [u8; 80]
    ensures value { result ≡ leg_bytes leg.now }
    ensures reads_back { LegReadsBack leg.now }
{
    let (ordinal, row) = (leg.ordinal, leg.row);
    let mut bytes = [0; 80];
    put_u64(&mut bytes, 0, ordinal);
    put_moment(&mut bytes, 8, leg.t0);
    put_moment(&mut bytes, 16, leg.t1);
    put_coord(&mut bytes, 24, leg.x0);
    put_coord(&mut bytes, 32, leg.y0);
    put_coord(&mut bytes, 40, leg.z0);
    put_coord(&mut bytes, 48, leg.x1);
    put_coord(&mut bytes, 56, leg.y1);
    put_coord(&mut bytes, 64, leg.z1);
    put_u32(&mut bytes, 72, row);
    bytes
}
