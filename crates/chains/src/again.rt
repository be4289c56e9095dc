//! One leaf on the way back along a chain that is known, so that it is read without the test of its form.
//!
//! What is said of it is said where its page is a leaf, as it is where what is known is right.
ghost use Rattle.std.specs.Prelude.{◌≡◌, ◌+◌, ◌<◌, ◌≤◌, ◌↔◌, Some, OnOk, IfOk, IfErr, IsTrue};
ghost use Rattle.legs.specs.Legs.{LegView};
ghost use Rattle.pagecache.specs.Cache.{AsksOnce};
ghost use Rattle.tbnode.specs.Form.{OfLeaf};
ghost use Rattle.tbtree.specs.Faults.{IfNamed};
ghost use Rattle.tbtree.specs.Nodes.{pages_of_cache, LeafView, ALeaf};
ghost use Rattle.chains.specs.Links.{is_end, FitsLeaf, IsUnlinked};
ghost use Rattle.chains.specs.Reads.{Reads};
ghost use Rattle.chains.specs.Taking.{TakesLeaf, IsNodeFault};

use crate::kept::{Want, take_of};
use crate::leaves::{Link, Spot, head_fits};
use legs::Leg;
use pagecache::PageCache;
use pages::{PageStore, Payload};
use tbnode::UntestedLeaf;
use tbtree::TreeFault;
use timebase::Period;

/// Whether a leaf is the one that the link leads to.
fn fits(leaf: &UntestedLeaf<'_>, link: &Link, spot: &Spot) -> bool
    ensures { OfLeaf leaf.now (λ view. IsTrue result ↔ FitsLeaf view link.now spot.now) }
{
    head_fits(&leaf.head(), leaf.len(), link, spot)
}

/// Whether the first leg of a leaf starts before the period, where there is one; none where it has no such leg.
pub(crate) fn is_end(leaf: &UntestedLeaf<'_>, period: &Option<Period>) -> Option<bool>
    ensures { OfLeaf leaf.now (λ view. result ≡ Some (is_end period.now view.legs)) }
{
    prove!(leaf.len() > 0);
    match period {
        Some(period) => match leaf.leg(0) {
            Some(first) => Some(first.t0 < period.start()),
            None => None,
        },
        None => Some(false),
    }
}

/// Takes what is wanted of a payload's legs, and gives the link to the leaf before it; none where nothing before is
/// kept.
fn take_node(
    payload: &Payload,
    link: &Link,
    spot: &Spot,
    want: &Want,
    found: &mut Vec<Leg>,
) -> Result<Option<Link>, TreeFault>
    ensures taken { OfLeaf payload.now (λ leaf. IfOk result (TakesLeaf leaf link.now spot.now
        want.now.period want.now.sieve found.old.items found.new.items)) }
    ensures refused { IfErr result (IsNodeFault
        (OfLeaf payload.now (λ leaf. FitsLeaf leaf link.now spot.now → ⊥)) link.now.page) }
{
    let Some(leaf) = tbnode::untested(payload) else {
        return Err(TreeFault::Malformed(link.page));
    };
    if !fits(&leaf, link, spot) {
        return Err(TreeFault::Malformed(link.page));
    }
    if !take_of(&leaf, want, found)? {
        return Err(TreeFault::Malformed(link.page));
    }
    let head = leaf.head();
    let back = Link {
        page: head.previous,
        next: link.page,
        feature: head.feature,
    };
    match is_end(&leaf, &want.period) {
        Some(true) => Ok(None),
        Some(false) => Ok(Some(back)),
        None => Err(TreeFault::Malformed(link.page)),
    }
}

/// Takes what is wanted of the legs of the leaf that the link leads to, which is known to be there, and is to have that
/// spot, and gives the link to the leaf before it; none where nothing before is kept.
pub(crate) fn take_again<S: PageStore>(
    cache: &mut PageCache<S>,
    link: &Link,
    spot: &Spot,
    want: &Want,
    found: &mut Vec<Leg>,
) -> Result<Option<Link>, TreeFault>
    ensures taken { IsTrue cache.old.store.is_faithful → (leaf : LeafView LegView)
        → (pages_of_cache cache.old).at link.now.page ≡ Some (Some (ALeaf leaf))
        → IfOk result (TakesLeaf leaf link.now spot.now want.now.period want.now.sieve
        found.old.items found.new.items) }
    ensures named { IsTrue cache.old.store.is_faithful → (leaf : LeafView LegView)
        → (pages_of_cache cache.old).at link.now.page ≡ Some (Some (ALeaf leaf))
        → IfErr result (IfNamed (IsUnlinked (pages_of_cache cache.old) link.now spot.now)) }
    ensures reads { Reads cache.old cache.new result }
    ensures asked { OnOk result (AsksOnce cache.old cache.new) }
    ensures most { cache.new.asked ≤ cache.old.asked + 1 }
{
    if link.page == 0 {
        return Err(TreeFault::Malformed(0));
    }
    let payload = match cache.page(link.page) {
        Ok(payload) => payload,
        Err(fault) => return Err(TreeFault::of(fault, link.page)),
    };
    take_node(payload, link, spot, want, found)
}
