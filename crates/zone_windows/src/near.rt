//! A zone without corners that are far from a window, or on one side of a course's line.
ghost use Rattle.std.specs.Prelude.{◌≡◌, ◌++◌, ◌*ℤ◌, ◌-ℤ◌, IfOk, OnOk};
ghost use Rattle.std.specs.List.{list_all};
ghost use Rattle.zones.specs.Places.{IsCoordinate};
ghost use Rattle.zone_windows.specs.Near.{AgreeAlong, AgreeIn, across, along, are_above, are_below, are_left, are_right};
ghost use Rattle.zone_windows.specs.Near.{are_port, are_starboard, is_above, is_below, is_left, is_port, is_right, is_starboard};
ghost use Rattle.zone_windows.specs.Near.{is_far, is_needless, is_ring_far, near_ring, ring_kept};

use std::alloc::{AllocError, Global};
use zones::{GridPoint, Ring, Segment};

/// The points from `left` to `right` and from `low` to `high`, all four among them.
#[derive(Clone, Copy)]
pub(crate) struct Window {
    pub(crate) left: i64,
    pub(crate) right: i64,
    pub(crate) low: i64,
    pub(crate) high: i64,
}

/// A course that stands still: no corner is on a side of it.
const STILL: Segment = Segment {
    x0: 0,
    y0: 0,
    x1: 0,
    y1: 0,
};

/// Whether a corner is above the window.
fn is_above(window: Window, corner: &GridPoint) -> bool
    ensures { result ≡ is_above window corner.now }
{
    corner.y > window.high
}

/// Whether a corner is below the window.
fn is_below(window: Window, corner: &GridPoint) -> bool
    ensures { result ≡ is_below window corner.now }
{
    corner.y < window.low
}

/// Whether a corner is left of the window.
fn is_left(window: Window, corner: &GridPoint) -> bool
    ensures { result ≡ is_left window corner.now }
{
    corner.x < window.left
}

/// Whether a corner is right of the window.
fn is_right(window: Window, corner: &GridPoint) -> bool
    ensures { result ≡ is_right window corner.now }
{
    corner.x > window.right
}

/// Whether three corners are above the window.
#[tactic(auto, unfolding(crate::specs::Near::are_above))]
fn are_above(window: Window, one: &GridPoint, two: &GridPoint, three: &GridPoint) -> bool
    ensures { result ≡ are_above window one.now two.now three.now }
{
    is_above(window, one) && is_above(window, two) && is_above(window, three)
}

/// Whether three corners are below it.
#[tactic(auto, unfolding(crate::specs::Near::are_below))]
fn are_below(window: Window, one: &GridPoint, two: &GridPoint, three: &GridPoint) -> bool
    ensures { result ≡ are_below window one.now two.now three.now }
{
    is_below(window, one) && is_below(window, two) && is_below(window, three)
}

/// Whether three corners are left of it.
#[tactic(auto, unfolding(crate::specs::Near::are_left))]
fn are_left(window: Window, one: &GridPoint, two: &GridPoint, three: &GridPoint) -> bool
    ensures { result ≡ are_left window one.now two.now three.now }
{
    is_left(window, one) && is_left(window, two) && is_left(window, three)
}

/// Whether three corners are right of it.
#[tactic(auto, unfolding(crate::specs::Near::are_right))]
fn are_right(window: Window, one: &GridPoint, two: &GridPoint, three: &GridPoint) -> bool
    ensures { result ≡ are_right window one.now two.now three.now }
{
    is_right(window, one) && is_right(window, two) && is_right(window, three)
}

/// a - b.
fn difference(a: i64, b: i64) -> i64
    requires a_in { IsCoordinate a }
    requires b_in { IsCoordinate b }
    ensures { result ≡ a -ℤ b }
{
    a - b
}

/// a * b.
fn product(a: i64, b: i64) -> i128
    ensures { result ≡ a *ℤ b }
{
    a as i128 * b as i128
}

/// The greater of two products where a corner is left of the course's line.
fn along(course: &Segment, corner: &GridPoint) -> i128
    ensures { result ≡ along course.now corner.now }
{
    product(
        difference(course.x1, course.x0),
        difference(corner.y, course.y0),
    )
}

/// The greater where it is right.
fn across(course: &Segment, corner: &GridPoint) -> i128
    ensures { result ≡ across course.now corner.now }
{
    product(
        difference(course.y1, course.y0),
        difference(corner.x, course.x0),
    )
}

/// Whether a corner is left of the course's line.
fn is_port(course: &Segment, corner: &GridPoint) -> bool
    ensures { result ≡ is_port course.now corner.now }
{
    along(course, corner) > across(course, corner)
}

/// Whether a corner is right of it.
fn is_starboard(course: &Segment, corner: &GridPoint) -> bool
    ensures { result ≡ is_starboard course.now corner.now }
{
    along(course, corner) < across(course, corner)
}

/// Whether three corners are left of the course's line.
#[tactic(auto, unfolding(crate::specs::Near::are_port))]
fn are_port(course: &Segment, one: &GridPoint, two: &GridPoint, three: &GridPoint) -> bool
    ensures { result ≡ are_port course.now one.now two.now three.now }
{
    is_port(course, one) && is_port(course, two) && is_port(course, three)
}

/// Whether three corners are right of it.
#[tactic(auto, unfolding(crate::specs::Near::are_starboard))]
fn are_starboard(course: &Segment, one: &GridPoint, two: &GridPoint, three: &GridPoint) -> bool
    ensures { result ≡ are_starboard course.now one.now two.now three.now }
{
    is_starboard(course, one) && is_starboard(course, two) && is_starboard(course, three)
}

/// Whether three corners are all on one side of the window, or of the course's line.
fn is_far(
    window: Window,
    course: &Segment,
    one: &GridPoint,
    two: &GridPoint,
    three: &GridPoint,
) -> bool
    ensures { result ≡ is_far window course.now one.now two.now three.now }
{
    are_above(window, one, two, three)
        || are_below(window, one, two, three)
        || are_left(window, one, two, three)
        || are_right(window, one, two, three)
        || are_port(course, one, two, three)
        || are_starboard(course, one, two, three)
}

/// Whether a corner may be left out, between the one that stayed before it and the first of those behind it.
fn is_needless(
    window: Window,
    course: &Segment,
    before: &GridPoint,
    corner: &GridPoint,
    behind: &[GridPoint],
) -> bool
    ensures { result ≡ is_needless window course.now before.now corner.now behind.now }
{
    match behind {
        [next, ..] => is_far(window, course, before, corner, next),
        [] => false,
    }
}

/// The ring without corners that may be left out.
fn ring_near(
    alloc: Global,
    ring: &Ring,
    window: Window,
    course: &Segment,
) -> Result<Ring, AllocError>
    ensures { IfOk result (λ near. near ≡ near_ring window course.now ring.now) }
{
    let mut near = Vec::new(alloc);
    let corners = ring.corners();
    if corners.is_empty() {
        return Ok(Ring::new(near));
    }
    let mut before = corners[corners.len() - 1];
    let mut left = corners;
    'corners: while let [corner, behind @ ..] = left {
        left = behind;
        if is_needless(window, course, &before, corner, behind) {
            continue;
        }
        near.push(*corner)?;
        before = *corner;
    }
    Ok(Ring::new(near))
}

/// Whether all corners are above the window.
fn is_all_above(corners: &[GridPoint], window: Window) -> bool
    ensures { result ≡ list_all (is_above window) corners.now }
{
    corners.iter().all(|corner| is_above(window, corner))
}

/// Whether all corners are below it.
fn is_all_below(corners: &[GridPoint], window: Window) -> bool
    ensures { result ≡ list_all (is_below window) corners.now }
{
    corners.iter().all(|corner| is_below(window, corner))
}

/// Whether all corners are left of it.
fn is_all_left(corners: &[GridPoint], window: Window) -> bool
    ensures { result ≡ list_all (is_left window) corners.now }
{
    corners.iter().all(|corner| is_left(window, corner))
}

/// Whether all corners are right of it.
fn is_all_right(corners: &[GridPoint], window: Window) -> bool
    ensures { result ≡ list_all (is_right window) corners.now }
{
    corners.iter().all(|corner| is_right(window, corner))
}

/// Whether all corners of a ring are above the window, or all below it, left of it or right of it.
fn is_ring_far(ring: &Ring, window: Window) -> bool
    ensures { result ≡ is_ring_far window ring.now }
{
    let corners = ring.corners();
    is_all_above(corners, window)
        || is_all_below(corners, window)
        || is_all_left(corners, window)
        || is_all_right(corners, window)
}

/// Appends what stays of a ring.
fn push_ring_near(
    alloc: Global,
    near: &mut Vec<Ring>,
    ring: &Ring,
    window: Window,
    course: &Segment,
) -> Result<(), AllocError>
    ensures { OnOk result (near.new.items
        ≡ near.old.items ++ ring_kept window course.now ring.now) }
{
    if is_ring_far(ring, window) {
        return Ok(());
    }
    let kept = ring_near(alloc, ring, window, course)?;
    Ok(near.push(kept)?)
}

/// The rings without corners that do not count on the course's line in the window.
pub(crate) fn rings_along(
    alloc: Global,
    rings: &[Ring],
    window: Window,
    course: &Segment,
) -> Result<Vec<Ring>, AllocError>
    ensures { IfOk result (λ near. AgreeAlong window course.now near.items rings.now) }
{
    let mut near = Vec::new(alloc);
    for ring in rings {
        push_ring_near(alloc, &mut near, ring, window, course)?;
    }
    Ok(near)
}

/// The rings of a zone without corners that are far from the window.
pub(crate) fn rings_near(
    alloc: Global,
    rings: &[Ring],
    window: Window,
) -> Result<Vec<Ring>, AllocError>
    ensures { IfOk result (λ near. AgreeIn window near.items rings.now) }
{
    rings_along(alloc, rings, window, &STILL)
}
