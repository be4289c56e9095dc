//! Whether a leg is inside a rectangle at a whole millisecond.
ghost use Rattle.std.specs.Prelude.{◌↔◌, IsTrue, ◌≤ℤ◌, ◌<ℤ◌, ◌<◌, ◌^◌, pos, unsigned_abs};
ghost use Rattle.clipping.specs.Inside.{IsInside};
ghost use Rattle.clipping.specs.Line.{OnSide, IsAcross};

use legs::{Leg, Rect};
use timebase::Ms;

/// Whether p * s + q * d is not negative.
fn is_on_side(p: i64, q: i64, s: i64, d: i64) -> bool
    requires p_small { unsigned_abs p < 2 ^ 52 }
    requires q_small { unsigned_abs q < 2 ^ 52 }
    requires s_small { unsigned_abs s < 2 ^ 52 }
    requires d_small { unsigned_abs d < 2 ^ 52 }
    ensures { IsTrue result ↔ OnSide p q s d }
{
    p as i128 * s as i128 + q as i128 * d as i128 >= 0
}

/// Whether what goes evenly from `a` to `b` lies from `least` to `most` at the part s / d.
fn is_across(a: i64, b: i64, least: i64, most: i64, s: i64, d: i64) -> bool
    requires a_small { unsigned_abs a < 2 ^ 51 }
    requires b_small { unsigned_abs b < 2 ^ 51 }
    requires least_small { unsigned_abs least < 2 ^ 51 }
    requires most_small { unsigned_abs most < 2 ^ 51 }
    requires s_small { unsigned_abs s < 2 ^ 52 }
    requires d_small { unsigned_abs d < 2 ^ 52 }
    requires d_positive { pos 0 <ℤ d }
    ensures { IsTrue result ↔ IsAcross a b least most s d }
{
    is_on_side(b - a, a - least, s, d) && is_on_side(a - b, most - a, s, d)
}

/// Whether a leg is inside a rectangle, edges included, at one of its moments.
pub fn inside_at(leg: &Leg, rect: &Rect, at: Ms) -> bool
    // The leg has started by then.
    requires started { leg.now.t0 ≤ℤ at }
    // The leg has not ended before.
    requires lasts { at ≤ℤ leg.now.t1 }
    // It is true exactly if the leg's position at that millisecond is in the rectangle, edges
    // included.
    ensures { IsTrue result ↔ IsInside leg.now rect.now at 1 }
{
    let part = at.millis() - leg.t0.millis();
    let duration = leg.t1.millis() - leg.t0.millis();
    let (x0, x1) = (leg.x0.units(), leg.x1.units());
    let (y0, y1) = (leg.y0.units(), leg.y1.units());
    is_across(
        x0,
        x1,
        rect.x_min.units(),
        rect.x_max.units(),
        part,
        duration,
    ) && is_across(
        y0,
        y1,
        rect.y_min.units(),
        rect.y_max.units(),
        part,
        duration,
    )
}
