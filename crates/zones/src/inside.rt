//! Whether a course is in a zone at a fraction of its duration.
ghost use Rattle.std.specs.Prelude.{◌≡◌};
ghost use Rattle.zones.specs.Places.{point_at};
ghost use Rattle.zones.specs.Edges.{either};
ghost use Rattle.zones.specs.Zones.{edges, zone_edges, is_on_some, is_odd, in_zone};

use crate::edges::{either, is_crossed, is_on_edge};
use crate::places::{GridPoint, Ring, Segment};
use fractions::Fraction;

/// Whether the course is on an edge of a ring.
fn is_on_ring(ring: &Ring, course: &Segment, at: Fraction) -> bool
    ensures { result ≡ is_on_some (edges ring.now) (point_at course.now at.num at.den) }
{
    let corners = ring.corners();
    if corners.is_empty() {
        return false;
    }
    let mut from = corners[corners.len() - 1];
    for to in corners {
        if is_on_edge(&from, to, course, at) {
            return true;
        }
        from = *to;
    }
    false
}

/// Whether the ray from the course to greater x crosses an odd number of a ring's edges.
fn is_odd_round(ring: &Ring, course: &Segment, at: Fraction) -> bool
    ensures { result ≡ is_odd (edges ring.now) (point_at course.now at.num at.den) }
{
    let corners = ring.corners();
    if corners.is_empty() {
        return false;
    }
    let mut from = corners[corners.len() - 1];
    let mut odd = false;
    for to in corners {
        odd = either(odd, is_crossed(&from, to, course, at));
        from = *to;
    }
    odd
}

/// Whether a course is in a zone at a fraction of its duration: on an edge of some ring, or with an odd number of edges to
/// its right.
pub fn is_inside(rings: &[Ring], course: &Segment, at: Fraction) -> bool
    ensures { result ≡ in_zone rings.now (point_at course.now at.num at.den) }
{
    let mut odd = false;
    for ring in rings {
        if is_on_ring(ring, course, at) {
            return true;
        }
        odd = either(odd, is_odd_round(ring, course, at));
    }
    odd
}
