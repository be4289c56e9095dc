//! When a course enters a zone.
ghost use Rattle.std.specs.Prelude.{ℤ, ◌*ℤ◌, ◌≤ℤ◌};
ghost use Rattle.zones.specs.Entries.{IsNextEntry};

use crate::cuts::{CoursePlace, fraction_of, is_before};
use crate::inside::is_inside;
use crate::places::{Ring, Segment};
use crate::turns::next_turn;

/// Where a course is in a zone first.
#[derive(Clone, Copy, Debug)]
pub(crate) enum Entry {
    At(CoursePlace),
    Never,
}

/// Where a course is in a zone first, from `first` to `last`.
pub(crate) fn next_entry(
    rings: &[Ring],
    course: &Segment,
    first: CoursePlace,
    last: CoursePlace,
) -> Entry
    requires order { (first.num *ℤ last.den) ≤ℤ (last.num *ℤ first.den) }
    ensures { IsNextEntry rings.now course.now first last result }
{
    let mut at = first;
    'pieces: while is_before(at, last) {
        if is_inside(rings, course, fraction_of(at)) {
            return Entry::At(at);
        }
        at = next_turn(rings, course, at, last);
    }
    if is_inside(rings, course, fraction_of(at)) {
        return Entry::At(at);
    }
    Entry::Never
}
