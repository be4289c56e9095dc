//! Where a course is in a zone.
ghost use Rattle.std.specs.Prelude.{IfOk};
ghost use Rattle.zones.specs.Cuts.{IsStays};

use crate::cuts::{CoursePlace, Cut, is_before};
use crate::entries::{Entry, next_entry};
use crate::leaving::stay_from;
use crate::places::{Ring, Segment};
use std::alloc::{AllocError, Global};

/// The stays of a course in a zone from `first` to `last`: closed cuts that rise and do not touch. The course is in the
/// zone at exactly the places that they hold.
pub fn stays(
    rings: &[Ring],
    course: &Segment,
    first: CoursePlace,
    last: CoursePlace,
    alloc: Global,
) -> Result<Vec<Cut>, AllocError>
    ensures { IfOk result (λ cuts. IsStays rings.now course.now first last cuts.items) }
{
    let mut cuts = Vec::new(alloc);
    if is_before(last, first) {
        return Ok(cuts);
    }
    let mut from = first;
    'stays: loop {
        match next_entry(rings, course, from, last) {
            Entry::Never => return Ok(cuts),
            Entry::At(entry) => {
                let stay = stay_from(rings, course, entry, last);
                cuts.push(Cut {
                    lo: entry,
                    hi: stay.end,
                })?;
                if !is_before(stay.end, last) {
                    return Ok(cuts);
                }
                from = stay.next;
            }
        }
    }
}
