//! Stays.
ghost use Rattle.std.specs.Prelude.{MatchOption};
ghost use Rattle.clipping.specs.Inside.{HasMomentInside};
ghost use Rattle.moments.specs.Stays.{IsStay};

use legs::{Leg, Rect};
use moments::Stay;
use timebase::Period;

/// When and where a leg is inside a rectangle.
///
/// Wrong bodies: a leg that touches is left out.
pub fn stay_of(leg: &Leg, rect: &Rect, period: &Period) -> Option<Stay>
    ensures { MatchOption result
        (HasMomentInside leg.now rect.now period.now → ⊥)
        (IsStay rect.now period.now leg.now) }
{
    moments::stay_of(leg, rect, period)
}
