//! Whether the legs of a feature stand in a predicate with a rectangle over a period, exactly: at
//! any fraction of a millisecond.
//!
//! A feature moves linearly along a leg. Where it has no leg it has no moment, so a gap is neither
//! inside nor outside. Where a leg ends and the next one begins elsewhere at once, the feature is
//! at both places at that moment.
#![tactic(auto)]

ghost use Rattle.std.specs.Prelude.{◌↔◌, IsTrue, List, filter};
ghost use Rattle.legs.specs.Legs.{LegView, is_live};
ghost use Rattle.predicates.specs.Predicates.{Holds};

mod courses;
mod near;
mod sieves;

pub use courses::Course;
use courses::{course_of, course_of_ends};
use legs::{Leg, Rect};
pub use near::search_box;
pub use sieves::sieve;
use timebase::Period;

/// What can be said of a feature, a rectangle, its edges included, and a period, its ends
/// included. A moment is one of the feature in the period, at any fraction of a millisecond. Where
/// there is none, all six are false.
#[derive(Clone, Copy, PartialEq, Eq, Debug)]
pub enum Predicate {
    /// At some moment it is inside.
    Ever,
    /// There is a moment, and at all moments it is inside.
    Always,
    /// At the first moment it is not inside, and at the last it is.
    Enters,
    /// At the first moment it is inside, and at the last it is not.
    Leaves,
    /// At the first and at the last moment it is not inside, and at some moment it is.
    Crosses,
    /// There is a moment, and at no moment it is inside.
    Bypasses,
}

/// Whether a predicate holds for a list of legs with a rectangle over a period. The first and the
/// last moment are those of the first and of the last leg that has one, so the legs are given in
/// the order of time.
pub fn holds(predicate: Predicate, legs: &[Leg], rect: &Rect, period: &Period) -> bool
    // It is true exactly if the predicate holds, by its definition over all fractions of all
    // moments.
    ensures holds { IsTrue result ↔ Holds predicate legs.now rect.now period.now }
    // Legs without a moment in the period may be left out.
    ensures live { (all : List LegView) → Holds predicate all rect.now period.now
        ↔ Holds predicate (filter (is_live period.now) all) rect.now period.now }
{
    match predicate {
        Predicate::Enters | Predicate::Leaves => {
            course_of_ends(legs, rect, period).answer(predicate)
        }
        _ => course_of(legs, rect, period).answer(predicate),
    }
}
