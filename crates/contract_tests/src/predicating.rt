//! Whether a predicate holds of a feature.
ghost use Rattle.std.specs.Prelude.{◌↔◌, IsTrue};
ghost use Rattle.predicates.specs.Predicates.{Holds};

use legs::{Leg, Rect};
use predicates::Predicate;
use timebase::Period;

/// Whether a predicate holds for a list of legs with a rectangle over a period.
///
/// Wrong bodies: the first leg decides; a jump is tested on one leg; the leg's end stands for the period's.
pub fn holds(predicate: Predicate, legs: &[Leg], rect: &Rect, period: &Period) -> bool
    ensures { IsTrue result ↔ Holds predicate legs.now rect.now period.now }
{
    predicates::holds(predicate, legs, rect, period)
}
