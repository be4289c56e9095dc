//! The stays of legs in a rectangle.
ghost use Rattle.std.specs.Prelude.{All, IfOk};
ghost use Rattle.moments.specs.Lengths.{IsNoLater};
ghost use Rattle.moments.specs.Stays.{AreStays};

use crate::stay::{Stay, stay_of};
use legs::{Leg, Rect};
use std::alloc::{AllocError, Global};
use timebase::Period;

/// The stays of legs in a rectangle in a period, in the order of the legs; those that are inside at no moment have none.
pub fn stays_of(
    alloc: Global,
    legs: &[Leg],
    rect: &Rect,
    period: &Period,
) -> Result<Vec<Stay>, AllocError>
    // Each leg that is inside at some moment has one stay, in the order of the legs, and no other
    // leg has one.
    ensures stays { IfOk result (λ stays. AreStays rect.now period.now legs.now stays.items) }

    // None ends before it begins.
    ensures ordered { IfOk result
        (λ stays. All (λ stay. IsNoLater stay.enters stay.leaves) stays.items) }
{
    let mut stays = Vec::new(alloc);
    for leg in legs {
        if let Some(stay) = stay_of(leg, rect, period) {
            stays.push(stay)?;
        }
    }
    Ok(stays)
}
