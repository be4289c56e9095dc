//! One leaf on the way back along a chain.
ghost use Rattle.std.specs.Prelude.{◌≡◌, ◌+◌, ◌-◌, ◌*◌, ◌<◌, ◌≤◌, ◌↔◌, Some, min, OnOk, OnErr, IfOk, IfErr, IsTrue};
ghost use Rattle.legs.specs.Legs.{LegView};
ghost use Rattle.pagecache.specs.Cache.{AsksOnce};
ghost use Rattle.tbnode.specs.Form.{node_of};
ghost use Rattle.tbtree.specs.Faults.{IfNamed};
ghost use Rattle.tbtree.specs.Nodes.{pages_of_cache, LeafView, ALeaf};
ghost use Rattle.chains.specs.Links.{spot_of, is_end, Fits, FitsLeaf, IsPlaced, IsUnlinked};
ghost use Rattle.chains.specs.Reads.{Reads};
ghost use Rattle.chains.specs.Taking.{TakesPage, IsNodeFault};

use crate::kept::{Want, take_legs};
use crate::spans::{LeafSpan, learn};
use legs::Leg;
use pagecache::PageCache;
use pages::{PageStore, Payload};
use tbnode::{Leaf, LeafHead};
use tbtree::{Place, TreeFault};
use timebase::Period;

/// A way to a leaf, from the one after it: its page, the page that it has as its next leaf (0 for the last leaf), and
/// its feature.
#[derive(Clone, Copy)]
pub(crate) struct Link {
    pub(crate) page: u32,
    pub(crate) next: u32,
    pub(crate) feature: u32,
}

/// How many legs the leaf has that is after `before` others of `most` legs, of a chain of that many legs.
pub(crate) fn legs_of_leaf(legs: u64, most: u64, before: u64) -> u64
    ensures { result ≡ min most (legs - before * most) }
{
    most.min(legs.saturating_sub(before.saturating_mul(most)))
}

/// What a chain has at one of its leaves.
#[derive(Clone, Copy)]
pub(crate) struct Spot {
    /// How many legs the leaf has.
    pub(crate) count: u64,
    /// How many leaves are before it.
    pub(crate) before: u64,
    /// The page of the first leaf.
    pub(crate) first: u32,
}

/// What the chain of a place has at the leaf with so many others before it, in leaves of `most` legs.
pub(crate) fn spot_of(place: &Place, most: u64, before: u64) -> Spot
    ensures { result ≡ spot_of most place.now.legs place.now.first before }
{
    Spot {
        count: legs_of_leaf(place.legs, most, before),
        before,
        first: place.first,
    }
}

/// Whether a leaf on a page, with that leaf before it, names one before it exactly where one is to be, and is the first
/// one where none is.
fn is_placed(previous: u32, page: u32, spot: &Spot) -> bool
    ensures { IsTrue result ↔ IsPlaced previous page spot.now }
{
    if spot.before == 0 {
        previous == 0 && page == spot.first
    } else {
        previous != 0
    }
}

/// Whether a leaf with that head and so many legs is the one that the link leads to.
pub(crate) fn head_fits(head: &LeafHead, count: usize, link: &Link, spot: &Spot) -> bool
    ensures { IsTrue result ↔ Fits head.now count link.now spot.now }
{
    head.feature == link.feature
        && count as u64 == spot.count
        && head.next == link.next
        && is_placed(head.previous, link.page, spot)
}

/// Whether a leaf is the one that the link leads to.
fn fits(leaf: &Leaf<'_>, link: &Link, spot: &Spot) -> bool
    ensures { IsTrue result ↔ FitsLeaf leaf.now link.now spot.now }
{
    head_fits(&leaf.head(), leaf.len(), link, spot)
}

/// Whether nothing before a leaf is kept: it starts before the period, where there is one.
fn is_end(leaf: &Leaf<'_>, period: &Option<Period>) -> bool
    ensures { result ≡ is_end period.now leaf.now.legs }
{
    prove!(leaf.len() > 0);
    match period {
        Some(period) => leaf.leg(0).t0 < period.start(),
        None => false,
    }
}

/// Takes what is wanted of a payload's legs, makes its span known, and gives the link to the leaf before it; none where
/// nothing before is kept.
fn take_node(
    payload: &Payload,
    link: &Link,
    spot: &Spot,
    want: &Want,
    found: &mut Vec<Leg>,
    spans: &mut Vec<LeafSpan>,
    passed: usize,
) -> Result<Option<Link>, TreeFault>
    requires above { 0 < link.now.page }
    ensures taken { IfOk result (TakesPage (Some (node_of payload.now)) link.now spot.now
        want.now.period want.now.sieve found.old.items found.new.items
        (record { old = spans.old.items; new = spans.new.items; passed = passed })) }
    ensures forgets { OnErr result (spans.new.items ≡ spans.old.items) }
    ensures refused { IfErr result (IsNodeFault ((leaf : LeafView LegView)
        → node_of payload.now ≡ Some (ALeaf leaf) → FitsLeaf leaf link.now spot.now → ⊥)
        link.now.page) }
{
    let Some(leaf) = tbnode::leaf(payload) else {
        return Err(TreeFault::Malformed(link.page));
    };
    if !fits(&leaf, link, spot) {
        return Err(TreeFault::Malformed(link.page));
    }
    if !take_legs(payload, want, found)? {
        return Err(TreeFault::Malformed(link.page));
    }
    learn(spans, passed, &leaf, link.page)?;
    if is_end(&leaf, &want.period) {
        return Ok(None);
    }
    let head = leaf.head();
    Ok(Some(Link {
        page: head.previous,
        next: link.page,
        feature: head.feature,
    }))
}

/// Takes what is wanted of the legs of the leaf that the link leads to, which is to have that spot, makes its span known,
/// and gives the link to the leaf before it; none where nothing before is kept. So many leaves after it were passed. Other
/// leaves that are asked for soon may come into memory with it.
pub(crate) fn take<S: PageStore>(
    cache: &mut PageCache<S>,
    link: &Link,
    spot: &Spot,
    want: &Want,
    found: &mut Vec<Leg>,
    spans: &mut Vec<LeafSpan>,
    passed: usize,
    beside: &[u32],
) -> Result<Option<Link>, TreeFault>
    ensures taken { IsTrue cache.old.store.is_faithful
        → IfOk result (TakesPage ((pages_of_cache cache.old).at link.now.page) link.now spot.now
        want.now.period want.now.sieve found.old.items found.new.items
        (record { old = spans.old.items; new = spans.new.items; passed = passed })) }
    ensures forgets { OnErr result (spans.new.items ≡ spans.old.items) }
    ensures named { IsTrue cache.old.store.is_faithful
        → IfErr result (IfNamed (IsUnlinked (pages_of_cache cache.old) link.now spot.now)) }
    ensures reads { Reads cache.old cache.new result }
    ensures asked { OnOk result (AsksOnce cache.old cache.new) }
    ensures most { cache.new.asked ≤ cache.old.asked + 1 }
{
    if link.page == 0 {
        return Err(TreeFault::Malformed(0));
    }
    let payload = match cache.page_ahead(link.page, beside) {
        Ok(payload) => payload,
        Err(fault) => return Err(TreeFault::of(fault, link.page)),
    };
    take_node(payload, link, spot, want, found, spans, passed)
}
