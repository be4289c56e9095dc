//! The legs of a feature that are live in a period.
ghost use Rattle.std.specs.Prelude.{Some, IfOk, IsTrue};
ghost use Rattle.legs.specs.Sieves.{IsSieved};
ghost use Rattle.tbtree.specs.Nodes.{pages_of_cache};
ghost use Rattle.chains.specs.Chains.{chain_legs};
ghost use Rattle.chains.specs.Spans.{IsKnown};

use chains::{ChainFault, LeafSpan};
use legs::{Leg, Sieve};
use pagecache::PageCache;
use pages::PageStore;
use std::alloc::Global;
use tbtree::{Place, Shape};
use timebase::Period;

/// The legs of a feature that are live in a period; of these at least those that a sieve keeps.
///
/// Wrong bodies: the last live leg is left out.
pub fn trajectory_in<S: PageStore>(
    alloc: Global,
    cache: &mut PageCache<S>,
    shape: &Shape,
    feature: u32,
    place: &Place,
    period: &Period,
    sieve: &Sieve,
    spans: &mut Vec<LeafSpan>,
) -> Result<Vec<Leg>, ChainFault>
    requires known { IsTrue cache.old.store.is_faithful
        → IsKnown (pages_of_cache cache.old) shape.now feature place.now spans.old.items }
    ensures legs { IsTrue cache.old.store.is_faithful
        → IfOk result (λ found. IsSieved sieve.now period.now
        (chain_legs (pages_of_cache cache.old) (Some period.now) shape.now place.now)
        found.items) }
{
    chains::trajectory_in(alloc, cache, shape, feature, place, period, sieve, spans)
}
