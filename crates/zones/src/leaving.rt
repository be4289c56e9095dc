//! Where a course leaves a zone.
ghost use Rattle.std.specs.Prelude.{◌≡◌, true, ℤ, ◌*ℤ◌, ◌≤ℤ◌};
ghost use Rattle.zones.specs.Places.{point_at};
ghost use Rattle.zones.specs.Zones.{in_zone};
ghost use Rattle.zones.specs.Stays.{IsStay};

use crate::cuts::{CoursePlace, is_before, mediant};
use crate::inside::is_inside;
use crate::places::{Ring, Segment};
use crate::turns::next_turn;

/// The place up to which a course stays in a zone, and a later one up to which it is outside.
#[derive(Clone, Copy, Debug)]
pub(crate) struct Stay {
    pub(crate) end: CoursePlace,
    pub(crate) next: CoursePlace,
}

/// The place up to which a course that is in a zone at `first` stays in it without a break, up to `last` at most.
pub(crate) fn stay_from(
    rings: &[Ring],
    course: &Segment,
    first: CoursePlace,
    last: CoursePlace,
) -> Stay
    requires order { (first.num *ℤ last.den) ≤ℤ (last.num *ℤ first.den) }
    requires inside { in_zone rings.now (point_at course.now first.num first.den) ≡ true }
    ensures { IsStay rings.now course.now first last result }
{
    let mut at = first;
    'pieces: while is_before(at, last) {
        let next = next_turn(rings, course, at, last);
        if !is_inside(rings, course, mediant(at, next)) {
            return Stay { end: at, next };
        }
        at = next;
    }
    Stay { end: at, next: at }
}
