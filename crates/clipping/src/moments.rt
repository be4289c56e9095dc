//! The moments of a leg in a period, and those of them at which it is inside a rectangle.
ghost use Rattle.std.specs.Prelude.{◌≡◌, ◌↔◌, IsSome};
ghost use Rattle.legs.specs.Legs.{HasMoment, first_moment, last_moment};
ghost use Rattle.clipping.specs.Inside.{live_ends};
ghost use Rattle.clipping.specs.Clip.{Clips};

use crate::line::Cut;
use legs::{Leg, Rect};
use timebase::{Ms, Period};

/// The later of two starts, and the earlier of two ends: those of a leg and of a period.
fn ends(leg: &Leg, period: &Period) -> (Ms, Ms)
    ensures start { result.0 ≡ first_moment leg.now period.now }
    ensures end { result.1 ≡ last_moment leg.now period.now }
{
    (leg.t0.max(period.start()), leg.t1.min(period.end()))
}

/// The first and the last moment of a leg in a period; `None` where it has none.
pub fn live(leg: &Leg, period: &Period) -> Option<(Ms, Ms)>
    // It is the later of the two starts and the earlier of the two ends.
    ensures ends { result ≡ live_ends leg.now period.now }
    // There are such moments exactly if some fraction of a millisecond is in both.
    ensures moment { IsSome result ↔ HasMoment leg.now period.now }
{
    let (start, end) = ends(leg, period);
    if start.millis() <= end.millis() {
        Some((start, end))
    } else {
        None
    }
}

/// The part of a leg's duration in which it is in a period and inside a rectangle, edges included;
/// `None` where there is no such moment.
pub fn clip(leg: &Leg, rect: &Rect, period: &Period) -> Option<Cut>
    ensures { Clips leg.now rect.now period.now result }
{
    let (t0, t1) = (leg.t0.millis(), leg.t1.millis());
    let (x0, x1) = (leg.x0.units(), leg.x1.units());
    let (y0, y1) = (leg.y0.units(), leg.y1.units());
    Cut::whole()
        .across(t0, t1, period.start().millis(), period.end().millis())?
        .across(x0, x1, rect.x_min.units(), rect.x_max.units())?
        .across(y0, y1, rect.y_min.units(), rect.y_max.units())
}
