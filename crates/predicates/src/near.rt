//! Where legs are looked for.
ghost use Rattle.std.specs.Prelude.{◌≡◌, ◌∷◌, [], true};
ghost use Rattle.legs.specs.Legs.{LegView, IsLeg};
ghost use Rattle.legs.specs.Boxes.{box_of, boxes_meet};
ghost use Rattle.predicates.specs.Predicates.{Holds};
ghost use Rattle.predicates.specs.Near.{box_near, plane_over};

use crate::Predicate;
use fixedpoint::MOST_UNITS;
use legs::{Box3, Rect};
use timebase::Period;

/// The greatest coordinate, in units of 10^-7.
const MOST: i64 = MOST_UNITS as i64;

/// The box over a period, of all x and y.
fn plane_over(period: &Period) -> Box3
    ensures { result ≡ plane_over period.now }
{
    Box3 {
        x_min: -MOST,
        y_min: -MOST,
        t_min: period.start().millis(),
        x_max: MOST,
        y_max: MOST,
        t_max: period.end().millis(),
    }
}

/// A box that the box of each leg meets for which, taken alone, a predicate holds: over the rectangle and
/// the period; for `Bypasses` over all x and y and the period.
pub fn search_box(predicate: Predicate, rect: &Rect, period: &Period) -> Box3
    // It is the rectangle over the period; for `Bypasses` all of the plane over the period.
    ensures value { result ≡ box_near predicate rect.now period.now }
    // The box of a leg meets it if the predicate holds of that leg alone.
    ensures meets { (leg : LegView) → IsLeg leg → Holds predicate (leg ∷ []) rect.now period.now
        → boxes_meet (box_of leg) result ≡ true }
{
    match predicate {
        Predicate::Bypasses => plane_over(period),
        _ => Box3::new(rect, period),
    }
}
