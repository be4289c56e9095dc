//! Where a course is in a zone, when a leg is in one, and which features it concerns.
ghost use Rattle.std.specs.Prelude.{IfOk, List};
ghost use Rattle.timebase.specs.Period.{PeriodView};
ghost use Rattle.legs.specs.Legs.{LegView};
ghost use Rattle.zones.specs.Cuts.{IsStays};
ghost use Rattle.zones.specs.Places.{Corner};
ghost use Rattle.zoning.specs.Holding.{AreCourses, AreHolding, AreNear, AreTallies};
ghost use Rattle.zoning.specs.Stays.{AreStays};

use legs::Leg;
use predicates::Predicate;
use std::alloc::{AllocError, Global};
use timebase::Period;
use zones::{CoursePlace, Cut, Ring, Segment};
use zoning::{Courses, Site, Stay, Tallies};

/// The stays of a course in a zone.
///
/// Wrong bodies: the last one is left out.
pub fn stays(
    rings: &[Ring],
    course: &Segment,
    first: CoursePlace,
    last: CoursePlace,
    alloc: Global,
) -> Result<Vec<Cut>, AllocError>
    ensures { IfOk result (λ cuts. IsStays rings.now course.now first last cuts.items) }
{
    zones::stays(rings, course, first, last, alloc)
}

/// The stays of a leg in a zone.
///
/// Wrong bodies: a leg of one millisecond is left out.
pub fn stays_of(
    site: &Site,
    alloc: Global,
    leg: &Leg,
    period: &Period,
) -> Result<Vec<Stay>, AllocError>
    ensures { IfOk result (λ stays. AreStays site.now leg.now period.now stays.items) }
{
    site.stays_of(alloc, leg, period)
}

/// The features of which a predicate holds with a zone.
///
/// Wrong bodies: `always` is answered by `ever`.
pub fn features_of(
    alloc: Global,
    predicate: Predicate,
    tallies: &Tallies,
    courses: &Courses,
) -> Result<Vec<u32>, AllocError>
    ensures { (rings : List (List Corner)) (period : PeriodView) (legs near : List LegView)
        → AreTallies period legs tallies.now → AreNear rings period legs near
        → AreCourses rings period near courses.now
        → IfOk result (λ features. AreHolding predicate rings legs period features.items) }
{
    zoning::features_of(alloc, predicate, tallies, courses)
}
