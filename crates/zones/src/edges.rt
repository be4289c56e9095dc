//! Whether a course is on an edge of a ring, or has it to its right, at a fraction of it.
ghost use Rattle.std.specs.Prelude.{◌≡◌, ◌<◌, ◌≤◌, ◌^◌, ℤ, ◌+ℤ◌, ◌-ℤ◌, ◌*ℤ◌, unsigned_abs, int_lt};
ghost use Rattle.std.specs.Ordering.{int_cmp};
ghost use Rattle.zones.specs.Places.{IsCoordinate, point_at};
ghost use Rattle.zones.specs.Turns.{side_start, side_slope, sign, is_steep};
ghost use Rattle.zones.specs.Edges.{across, along, either, is_between_by, is_on_edge, is_crossed};

use crate::places::{Gate, GridPoint, Segment};
use fractions::{Fraction, sign_at};
use std::cmp::Ordering;

/// What goes evenly from `start` to `end` on a course against `mark`, at a fraction of the course.
fn against(start: i64, end: i64, mark: i64, at: Fraction) -> Ordering
    requires start { IsCoordinate start }
    requires end { IsCoordinate end }
    requires mark { IsCoordinate mark }
    ensures { result ≡ int_cmp (start *ℤ at.den +ℤ (end -ℤ start) *ℤ at.num) (mark *ℤ at.den) }
{
    sign_at((start - mark) as i128, (end - start) as i128, at)
}

/// The course's x against a corner's.
fn sideways(corner: &GridPoint, course: &Segment, at: Fraction) -> Ordering
    ensures { result
        ≡ int_cmp (point_at course.now at.num at.den).x (corner.now.x *ℤ at.den) }
{
    against(course.x0, course.x1, corner.x, at)
}

/// The course's y against a corner's.
fn upwards(corner: &GridPoint, course: &Segment, at: Fraction) -> Ordering
    ensures { result
        ≡ int_cmp (point_at course.now at.num at.den).y (corner.now.y *ℤ at.den) }
{
    against(course.y0, course.y1, corner.y, at)
}

/// Whether the second corner is higher than the first.
fn rises(from: &GridPoint, to: &GridPoint) -> bool
    ensures { result ≡ int_lt from.now.y to.now.y }
{
    from.y < to.y
}

/// Whether the corners have not one height.
pub(crate) fn is_steep(from: &GridPoint, to: &GridPoint) -> bool
    ensures { result ≡ is_steep (record { from = from.now; to = to.now }) }
{
    from.y != to.y
}

/// a * b - c * d.
fn cross(a: i64, b: i64, c: i64, d: i64) -> i128
    requires a_small { unsigned_abs a < 2 ^ 51 }
    requires b_small { unsigned_abs b < 2 ^ 51 }
    requires c_small { unsigned_abs c < 2 ^ 51 }
    requires d_small { unsigned_abs d < 2 ^ 51 }
    ensures value { result ≡ a *ℤ b -ℤ c *ℤ d }
    ensures small { unsigned_abs result < 2 ^ 103 }
{
    a as i128 * b as i128 - c as i128 * d as i128
}

/// The course's cross product with the edge's line at the course's start.
pub(crate) fn start_of(from: &GridPoint, to: &GridPoint, course: &Segment) -> i128
    ensures value { result ≡ side_start course.now (record { from = from.now; to = to.now }) }
    ensures small { unsigned_abs result < 2 ^ 103 }
{
    cross(
        course.x0 - from.x,
        to.y - from.y,
        course.y0 - from.y,
        to.x - from.x,
    )
}

/// How it grows along the course.
pub(crate) fn slope_of(from: &GridPoint, to: &GridPoint, course: &Segment) -> i128
    ensures value { result ≡ side_slope course.now (record { from = from.now; to = to.now }) }
    ensures small { unsigned_abs result < 2 ^ 103 }
{
    cross(
        course.x1 - course.x0,
        to.y - from.y,
        course.y1 - course.y0,
        to.x - from.x,
    )
}

/// How the course crosses a gate's line: `Less` to its left, `Greater` to its right, `Equal` if it runs along the line or
/// stands still.
pub fn heading(gate: &Gate, course: &Segment) -> Ordering
    ensures { result
        ≡ sign (side_slope course.now (record { from = gate.now.from; to = gate.now.to })) }
{
    slope_of(&gate.from, &gate.to, course).cmp(&0)
}

/// The two products that are equal where the course is on the edge's line.
fn side_of(from: &GridPoint, to: &GridPoint, course: &Segment, at: Fraction) -> Ordering
    ensures { result
        ≡ int_cmp
        (across (record { from = from.now; to = to.now }) (point_at course.now at.num at.den))
        (along (record { from = from.now; to = to.now }) (point_at course.now at.num at.den)) }
{
    sign_at(start_of(from, to, course), slope_of(from, to, course), at)
}

/// Whether what is compared so with two numbers is between them.
fn is_between(one: Ordering, other: Ordering) -> bool
    ensures { result ≡ is_between_by one other }
{
    match one {
        Ordering::Less => !other.is_lt(),
        Ordering::Equal => true,
        Ordering::Greater => !other.is_gt(),
    }
}

pub(crate) fn either(one: bool, other: bool) -> bool
    ensures { result ≡ either one other }
{
    if one { !other } else { other }
}

/// Whether the course is on the edge, or at one of its ends.
pub(crate) fn is_on_edge(from: &GridPoint, to: &GridPoint, course: &Segment, at: Fraction) -> bool
    ensures { result
        ≡ is_on_edge (record { from = from.now; to = to.now }) (point_at course.now at.num at.den) }
{
    if !side_of(from, to, course, at).is_eq() {
        return false;
    }
    let left = sideways(from, course, at);
    let right = sideways(to, course, at);
    if !is_between(left, right) {
        return false;
    }
    let below = upwards(from, course, at);
    let above = upwards(to, course, at);
    is_between(below, above)
}

/// Whether the edge is crossed by the ray from the course to greater x.
pub(crate) fn is_crossed(from: &GridPoint, to: &GridPoint, course: &Segment, at: Fraction) -> bool
    ensures { result
        ≡ is_crossed (record { from = from.now; to = to.now }) (point_at course.now at.num at.den) }
{
    let below = upwards(from, course, at).is_ge();
    let other_below = upwards(to, course, at).is_ge();
    if !either(below, other_below) {
        return false;
    }
    let side = side_of(from, to, course, at);
    if rises(from, to) {
        side.is_lt()
    } else {
        side.is_gt()
    }
}
