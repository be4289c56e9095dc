//! Where a sign turns round along a course.
ghost use Rattle.std.specs.Prelude.{◌≡◌, ◌≢◌, ◌<◌, ◌^◌, ℤ, pos, false};
ghost use Rattle.std.specs.Prelude.{◌*ℤ◌, ◌<ℤ◌, ◌≤ℤ◌, unsigned_abs};
ghost use Rattle.zones.specs.Places.{point_at};
ghost use Rattle.zones.specs.Zones.{edges, zone_edges};
ghost use Rattle.zones.specs.Turns.{sign, at, is_opposite, side, height, width, Calm, AllCalm};

use crate::cuts::{CoursePlace, sign_on};
use crate::edges::{is_steep, slope_of, start_of};
use crate::places::{GridPoint, Ring, Segment};
use std::cmp::Ordering;

/// Whether one is below 0 and one above.
fn is_opposite(one: Ordering, other: Ordering) -> bool
    ensures { result ≡ is_opposite one other }
{
    match one {
        Ordering::Less => other.is_gt(),
        Ordering::Equal => false,
        Ordering::Greater => other.is_lt(),
    }
}

/// The place at which c0 + c1 * s is 0.
fn root(c0: i128, c1: i128) -> CoursePlace
    requires small { unsigned_abs c0 < 2 ^ 103 }
    requires small_slope { unsigned_abs c1 < 2 ^ 103 }
    requires slope { c1 ≢ pos 0 }
    ensures { at c0 c1 result.num result.den ≡ pos 0 }
{
    if c1 > 0 {
        return CoursePlace { num: -c0, den: c1 };
    }
    CoursePlace { num: c0, den: -c1 }
}

/// The place between two at which the sign of c0 + c1 * s turns round; the second if it does not.
pub(crate) fn turn(c0: i128, c1: i128, from: CoursePlace, to: CoursePlace) -> CoursePlace
    requires small { unsigned_abs c0 < 2 ^ 103 }
    requires small_slope { unsigned_abs c1 < 2 ^ 103 }
    requires order { (from.num *ℤ to.den) <ℤ (to.num *ℤ from.den) }
    ensures after { (from.num *ℤ result.den) <ℤ (result.num *ℤ from.den) }
    ensures up_to { (result.num *ℤ to.den) ≤ℤ (to.num *ℤ result.den) }
    ensures calm { is_opposite (sign (at c0 c1 from.num from.den))
        (sign (at c0 c1 result.num result.den)) ≡ false }
{
    if !is_opposite(sign_on(c0, c1, from), sign_on(c0, c1, to)) {
        return to;
    }
    root(c0, c1)
}

/// Where the course crosses an edge's line, between two places; the second where it does not.
fn turn_of_line(
    from: &GridPoint,
    to: &GridPoint,
    course: &Segment,
    first: CoursePlace,
    last: CoursePlace,
) -> CoursePlace
    requires order { (first.num *ℤ last.den) <ℤ (last.num *ℤ first.den) }
    ensures after { (first.num *ℤ result.den) <ℤ (result.num *ℤ first.den) }
    ensures up_to { (result.num *ℤ last.den) ≤ℤ (last.num *ℤ result.den) }
    ensures calm { is_opposite
        (side (record { from = from.now; to = to.now }) (point_at course.now first.num first.den))
        (side (record { from = from.now; to = to.now }) (point_at course.now result.num result.den))
        ≡ false }
{
    turn(
        start_of(from, to, course),
        slope_of(from, to, course),
        first,
        last,
    )
}

/// Where the course passes a corner's height.
fn turn_upwards(
    corner: &GridPoint,
    course: &Segment,
    first: CoursePlace,
    last: CoursePlace,
) -> CoursePlace
    requires order { (first.num *ℤ last.den) <ℤ (last.num *ℤ first.den) }
    ensures after { (first.num *ℤ result.den) <ℤ (result.num *ℤ first.den) }
    ensures up_to { (result.num *ℤ last.den) ≤ℤ (last.num *ℤ result.den) }
    ensures calm { is_opposite
        (height corner.now (point_at course.now first.num first.den))
        (height corner.now (point_at course.now result.num result.den)) ≡ false }
{
    turn(
        (course.y0 - corner.y) as i128,
        (course.y1 - course.y0) as i128,
        first,
        last,
    )
}

/// Where the course passes a corner in x.
fn turn_sideways(
    corner: &GridPoint,
    course: &Segment,
    first: CoursePlace,
    last: CoursePlace,
) -> CoursePlace
    requires order { (first.num *ℤ last.den) <ℤ (last.num *ℤ first.den) }
    ensures after { (first.num *ℤ result.den) <ℤ (result.num *ℤ first.den) }
    ensures up_to { (result.num *ℤ last.den) ≤ℤ (last.num *ℤ result.den) }
    ensures calm { is_opposite
        (width corner.now (point_at course.now first.num first.den))
        (width corner.now (point_at course.now result.num result.den)) ≡ false }
{
    turn(
        (course.x0 - corner.x) as i128,
        (course.x1 - course.x0) as i128,
        first,
        last,
    )
}

/// The first place between two, or the second, up to which no sign turns round that tells of an
/// edge.
fn turn_of_edge(
    from: &GridPoint,
    to: &GridPoint,
    course: &Segment,
    first: CoursePlace,
    last: CoursePlace,
) -> CoursePlace
    requires order { (first.num *ℤ last.den) <ℤ (last.num *ℤ first.den) }
    ensures after { (first.num *ℤ result.den) <ℤ (result.num *ℤ first.den) }
    ensures up_to { (result.num *ℤ last.den) ≤ℤ (last.num *ℤ result.den) }
    ensures calm { Calm (record { from = from.now; to = to.now })
        (point_at course.now first.num first.den)
        (point_at course.now result.num result.den) }
{
    let on_line = turn_of_line(from, to, course, first, last);
    let at_from = turn_upwards(from, course, first, on_line);
    let at_to = turn_upwards(to, course, first, at_from);
    if is_steep(from, to) {
        return at_to;
    }
    let over_from = turn_sideways(from, course, first, at_to);
    turn_sideways(to, course, first, over_from)
}

/// The same of all edges of a ring.
fn turn_round(ring: &Ring, course: &Segment, first: CoursePlace, last: CoursePlace) -> CoursePlace
    requires order { (first.num *ℤ last.den) <ℤ (last.num *ℤ first.den) }
    ensures after { (first.num *ℤ result.den) <ℤ (result.num *ℤ first.den) }
    ensures up_to { (result.num *ℤ last.den) ≤ℤ (last.num *ℤ result.den) }
    ensures calm { AllCalm (edges ring.now)
        (point_at course.now first.num first.den)
        (point_at course.now result.num result.den) }
{
    let corners = ring.corners();
    if corners.is_empty() {
        return last;
    }
    let mut from = corners[corners.len() - 1];
    let mut turn = last;
    for to in corners {
        turn = turn_of_edge(&from, to, course, first, turn);
        from = *to;
    }
    turn
}

/// The same of all edges of a zone: between the two places the course is in the zone at all
/// moments or at none.
pub(crate) fn next_turn(
    rings: &[Ring],
    course: &Segment,
    first: CoursePlace,
    last: CoursePlace,
) -> CoursePlace
    requires order { (first.num *ℤ last.den) <ℤ (last.num *ℤ first.den) }
    ensures after { (first.num *ℤ result.den) <ℤ (result.num *ℤ first.den) }
    ensures up_to { (result.num *ℤ last.den) ≤ℤ (last.num *ℤ result.den) }
    ensures calm { AllCalm (zone_edges rings.now)
        (point_at course.now first.num first.den)
        (point_at course.now result.num result.den) }
{
    let mut turn = last;
    for ring in rings {
        turn = turn_round(ring, course, first, turn);
    }
    turn
}
