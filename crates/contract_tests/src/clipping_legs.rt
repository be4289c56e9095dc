//! When a leg is inside a rectangle.
ghost use Rattle.clipping.specs.Clip.{Clips};

use clipping::Cut;
use legs::{Leg, Rect};
use timebase::Period;

/// The part of a leg's duration in which it is in a period and inside a rectangle.
///
/// Wrong bodies: a stay between two milliseconds is lost.
pub fn clip(leg: &Leg, rect: &Rect, period: &Period) -> Option<Cut>
    ensures { Clips leg.now rect.now period.now result }
{
    clipping::clip(leg, rect, period)
}
