//! The stays that a database tells.
ghost use Rattle.std.specs.Prelude.{◌≡◌, All, Err, false, IfErr, IfOk, map, OnOk, true};
ghost use Rattle.legs.specs.Boxes.{box_over};
ghost use Rattle.legs.specs.Costs.{search_cost};
ghost use Rattle.pages.specs.Store.{Store};
ghost use Rattle.boxsearch.specs.Index.{words};
ghost use Rattle.trajdb.specs.Answers.{HoldsOfLeg};
ghost use Rattle.trajdb.specs.Calls.{Asks, IsRefused, LeavesBook};
ghost use Rattle.trajdb.specs.Db.{HasPages, IsSoundDb};
ghost use Rattle.trajdb.specs.Lasting.{IsIdle, IsSafe};
ghost use Rattle.trajdb.specs.Picks.{Picks};
ghost use Rattle.trajdb.specs.declared.RunFault.{RunFault};
ghost use Rattle.predicates.specs.declared.Predicate.{Predicate};
ghost use Rattle.moments.specs.Asking.{AreTold};
ghost use Rattle.moments.specs.Lengths.{IsNoLater};
ghost use Rattle.moments.specs.Stays.{AreStays};

use crate::listing::stays_of;
use crate::stay::Stay;
use legs::Rect;
use pages::PageStore;
use predicates::Predicate;
use std::alloc::Global;
use timebase::Period;
use trajdb::{Db, RunFault};

/// The stays of a database's legs in a rectangle in a period, in the order of `legs ever`.
///
/// Refused for want of memory, where the store fails, and where a page that is met is not what it is to be there.
pub fn stays<S: PageStore>(
    db: &mut Db<S>,
    alloc: Global,
    rect: &Rect,
    period: &Period,
) -> Result<Vec<Stay>, RunFault>
    // A sound database returns the stays of the legs of its book, each once, in order.
    ensures found { IfOk result (λ stays. IsSoundDb db.old
        → AreStays rect.now period.now db.old.book.legs stays.items) }

    // Each leg that `legs ever` tells is there once, in that order.
    ensures ever { IfOk result (λ stays. IsSoundDb db.old
        → Picks (HoldsOfLeg Predicate.Ever rect.now period.now) db.old.book.legs
        (map (λ stay. stay.leg) stays.items)) }

    // None ends before it begins.
    ensures ordered { IfOk result
        (λ stays. All (λ stay. IsNoLater stay.enters stay.leaves) stays.items) }

    // Be the database sound or not, they are the stays of what the pages that were met say, and a
    // page that is named is one that was met and is not what it is to be there, or the first one
    // that was met beyond as many as the store has.
    ensures says { IfOk result (λ stays. AreTold words db.old rect.now period.now stays.items) }
    // A sound database asks for exactly as many pages as a search of the rectangle over the period.
    ensures asks { OnOk result (Asks words db.old db.new
        (search_cost (box_over rect.now period.now))) }

    // What the index knew of the leaves of its features it knows afterwards.
    ensures leaves { LeavesBook words db.old db.new }
    // A sound database fails only if memory runs out or the store fails, and says the latter only
    // if it did.
    ensures refused { IfErr result (λ fault. db.old.failed ≡ false
        → IsRefused words db.old db.new fault) }
    // Page 0 of a database that has begun stays marked; in one that has not, no page is changed.
    ensures pages { HasPages db.old → HasPages db.new }
    // A database at rest stays at rest.
    ensures rests { IsIdle db.old → IsIdle db.new }
    // If it is given up, its store is refused as unfinished, or is the one that was there before.
    ensures safe { (was : Store) → IsSoundDb db.old → HasPages db.old → IsSafe was db.old
        → IsSafe was db.new }

    // A failed database does nothing.
    ensures was_failed { db.old.failed ≡ true → (result ≡ Err RunFault.Failed)
        × (db.new ≡ db.old) }
{
    let legs = db.legs(alloc, Predicate::Ever, rect, period)?;
    Ok(stays_of(alloc, legs.as_slice(), rect, period)?)
}
