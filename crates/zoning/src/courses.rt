//! What a leg has to do with a zone.
ghost use Rattle.std.specs.Prelude.{◌≡◌, ◌∷◌, [], List};
ghost use Rattle.std.specs.List.{list_any};
ghost use Rattle.predicates.specs.Courses.{IsCourse};
ghost use Rattle.zones.specs.Places.{Corner};
ghost use Rattle.zoning.specs.Courses.{has_some, holds_first, holds_last, is_whole};
ghost use Rattle.zoning.specs.Stays.{AreStays, IsInZone};

use crate::stay::Stay;
use legs::Leg;
use predicates::Course;
use timebase::Period;

/// Whether one of the stays begins at the leg's first moment in the period.
fn holds_first(stays: &[Stay]) -> bool
    ensures { result ≡ list_any holds_first stays.now }
{
    stays.iter().any(|stay| stay.holds_first())
}

/// Whether one of them ends at the last.
fn holds_last(stays: &[Stay]) -> bool
    ensures { result ≡ list_any holds_last stays.now }
{
    stays.iter().any(|stay| stay.holds_last())
}

/// Whether one of them is all of the leg in the period.
fn is_whole(stays: &[Stay]) -> bool
    ensures { result ≡ list_any is_whole stays.now }
{
    stays.iter().any(|stay| stay.is_whole())
}

/// Whether there is a stay.
fn has_some(stays: &[Stay]) -> bool
    ensures { result ≡ has_some stays.now }
{
    match stays.first() {
        Some(_) => true,
        None => false,
    }
}

/// What a leg has to do with a zone over a period, by its stays there.
pub fn course_of_stays(leg: &Leg, period: &Period, stays: &[Stay]) -> Course
    // Where these are the leg's stays in a zone, it is the course of that leg alone with the zone.
    ensures { (rings : List (List Corner)) → AreStays rings leg.now period.now stays.now
        → IsCourse (IsInZone rings) result (leg.now ∷ []) period.now }
{
    if !leg.is_live(period) {
        return Course::empty();
    }
    Course {
        live: true,
        first: holds_first(stays),
        last: holds_last(stays),
        always: is_whole(stays),
        ever: has_some(stays),
    }
}
