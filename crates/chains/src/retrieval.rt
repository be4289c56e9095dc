//! The legs of a feature.
ghost use Rattle.std.specs.Prelude.{suc, ◌≡◌, ◌+◌, ◌-◌, ◌^◌, ◌<◌, ◌≤◌, ◌↔◌, Some, None, [], drop, OnErr, OnOk, IfOk, IfErr, IsTrue};
ghost use Rattle.legs.specs.Costs.{RisesBy, RisesAtMost};
ghost use Rattle.legs.specs.declared.sieve.Sieve.{Sieve};
ghost use Rattle.pagecache.specs.Cache.{AsksOnce};
ghost use Rattle.tbtree.specs.Faults.{IfNamed};
ghost use Rattle.tbtree.specs.Nodes.{pages_of_cache};
ghost use Rattle.tbtree.specs.Shape.{IsShape};
ghost use Rattle.chains.specs.Chains.{IsPlaceChain, IsOffPlaceChain, NamesNoneIfEmpty, chain_legs, chain_cost};
ghost use Rattle.chains.specs.Reads.{Reads};
ghost use Rattle.chains.specs.Links.{spot_of, IsUnlinked};
ghost use Rattle.chains.specs.Spans.{AreSpans, IsKnown};
ghost use Rattle.chains.specs.Taking.{HasTaken, TakesPage};
ghost use Rattle.chains.specs.Trajectory.{RetrievalCall};

use crate::again::take_again;
use crate::beside::beside;
use crate::kept::Want;
use crate::leaves::{Link, spot_of, take};
use crate::spans::{LeafSpan, Passing, pass};
use legs::{Leg, Sieve};
use pagecache::PageCache;
use pages::PageStore;
use std::alloc::Global;
use tbtree::{Place, Shape, TreeFault};
use timebase::Period;

/// Why the legs of a feature were not given: never that a tree is spent.
pub type ChainFault = TreeFault;

/// Whether a place names no page where it has no legs.
fn names_none_if_empty(place: &Place) -> bool
    ensures { IsTrue result ↔ NamesNoneIfEmpty place.now }
{
    place.legs != 0 || (place.first == 0 && place.last == 0)
}

/// Where a walk back along a chain is: the link to the leaf, how many leaves there are before it, and how many after it
/// were passed.
#[derive(Clone, Copy)]
struct Cursor {
    link: Link,
    left: u64,
    passed: usize,
}

/// The leaves of other features that are asked for soon, where the one at a cursor is not in memory and there is room for
/// the leaves of ten such features. A walk without a period is of one feature alone.
fn others<S: PageStore>(cache: &PageCache<S>, place: &Place, at: &Cursor, want: &Want) -> [u32; 7] {
    let leaves = at.left.saturating_add(at.passed as u64);
    let room = (cache.capacity() / 10) as u64;
    if want.period.is_none() || leaves >= room || cache.peek(at.link.page).is_some() {
        return [u32::MAX; 7];
    }
    beside(cache, place.last, at.passed, &want.period)
}

/// Takes what is wanted of the leaf at a cursor, of the chain of a place in leaves of `most` legs, and gives the link to
/// the leaf before it; none where nothing before is kept. A leaf that is known to be off the period is not read, another
/// one that is known is read without the test of its form, and each that is read is known from then on.
fn step<S: PageStore>(
    cache: &mut PageCache<S>,
    place: &Place,
    most: u64,
    at: &Cursor,
    want: &Want,
    found: &mut Vec<Leg>,
    spans: &mut Vec<LeafSpan>,
) -> Result<Option<Link>, TreeFault>
    requires known { IsTrue cache.old.store.is_faithful
        → AreSpans (pages_of_cache cache.old) most place.now.legs place.now.first
        (drop at.now.passed spans.old.items) (suc at.now.left) at.now.link }
    requires room { at.now.passed < 2 ^ 64 - 1 }
    ensures taken { IsTrue cache.old.store.is_faithful
        → IfOk result (TakesPage ((pages_of_cache cache.old).at at.now.link.page) at.now.link
        (spot_of most place.now.legs place.now.first at.now.left) want.now.period
        want.now.sieve found.old.items found.new.items
        (record { old = spans.old.items; new = spans.new.items; passed = at.now.passed })) }
    ensures forgets { OnErr result (spans.new.items ≡ spans.old.items) }
    ensures named { IsTrue cache.old.store.is_faithful
        → IfErr result (IfNamed (IsUnlinked (pages_of_cache cache.old) at.now.link
        (spot_of most place.now.legs place.now.first at.now.left))) }
    ensures reads { Reads cache.old cache.new result }
    ensures asked { want.now.period ≡ None → OnOk result (AsksOnce cache.old cache.new) }
    ensures most { cache.new.asked ≤ cache.old.asked + 1 }
{
    match pass(spans.as_slice(), at.passed, at.left, &want.period) {
        Passing::End => Ok(None),
        Passing::Over(back) => Ok(Some(back)),
        Passing::Into => {
            let spot = spot_of(place, most, at.left);
            if at.passed < spans.len() {
                take_again(cache, &at.link, &spot, want, found)
            } else {
                let others = others(cache, place, at, want);
                take(
                    cache, &at.link, &spot, want, found, spans, at.passed, &others,
                )
            }
        }
    }
}

/// What is wanted of a chain, from the last leaf back to the first, or to one that starts before the period; in reverse.
///
/// What is known of its last leaves is used, and more of them are known after it.
#[tactic(auto, using(crate::proofs::ReadLemmas::reading))]
fn walk_back<S: PageStore>(
    alloc: Global,
    cache: &mut PageCache<S>,
    shape: &Shape,
    feature: u32,
    place: &Place,
    want: &Want,
    spans: &mut Vec<LeafSpan>,
) -> Result<Vec<Leg>, TreeFault>
    requires known { IsTrue cache.old.store.is_faithful
        → IsKnown (pages_of_cache cache.old) shape.now feature place.now spans.old.items }
    ensures found { IsTrue cache.old.store.is_faithful
        → IfOk result (λ found. HasTaken want.now.period want.now.sieve
        (chain_legs (pages_of_cache cache.old) want.now.period shape.now place.now)
        [] found.items) }
    ensures chain { IsTrue cache.old.store.is_faithful
        → OnOk result (IsPlaceChain (pages_of_cache cache.old) want.now.period shape.now feature
        place.now) }
    ensures named { IsTrue cache.old.store.is_faithful
        → IfErr result (IfNamed (IsOffPlaceChain (pages_of_cache cache.old) want.now.period
        shape.now feature place.now)) }
    ensures reads { Reads cache.old cache.new result }
    ensures asked { IsTrue cache.old.store.is_faithful → want.now.period ≡ None
        → OnOk result (RisesBy cache.old.asked cache.new.asked
        (chain_cost (pages_of_cache cache.old) want.now.period shape.now place.now)) }
    ensures within { IsTrue cache.old.store.is_faithful
        → OnOk result (RisesAtMost cache.old.asked cache.new.asked
        (chain_cost (pages_of_cache cache.old) want.now.period shape.now place.now)) }
    ensures learns { IsTrue cache.old.store.is_faithful
        → IsKnown (pages_of_cache cache.old) shape.now feature place.now spans.new.items }
    ensures shape { IsShape shape.now }
{
    let most = u64::from(shape.leaf());
    if !names_none_if_empty(place) {
        return Err(TreeFault::Malformed(0));
    }
    let mut left = place.legs.div_ceil(most);
    let mut passed = 0;
    let mut link = Link {
        page: place.last,
        next: 0,
        feature,
    };
    let mut found = Vec::new(alloc);
    'leaves: while left > 0 {
        left -= 1;
        let at = Cursor { link, left, passed };
        let Some(back) = step(cache, place, most, &at, want, &mut found, spans)? else {
            return Ok(found);
        };
        link = back;
        passed += 1;
    }
    Ok(found)
}

/// What is wanted of a chain, in the order in which the legs were accepted.
fn retrieve<S: PageStore>(
    alloc: Global,
    cache: &mut PageCache<S>,
    shape: &Shape,
    feature: u32,
    place: &Place,
    want: &Want,
    spans: &mut Vec<LeafSpan>,
) -> Result<Vec<Leg>, TreeFault>
    requires known { IsTrue cache.old.store.is_faithful
        → IsKnown (pages_of_cache cache.old) shape.now feature place.now spans.old.items }
    ensures { RetrievalCall want.now.period want.now.sieve shape.now feature place.now cache.old
        cache.new spans.new.items (λ found. found.items) result }
{
    let mut found = walk_back(alloc, cache, shape, feature, place, want, spans)?;
    found.reverse();
    Ok(found)
}

/// The legs of the feature at a place of a tree of that shape, in the order in which they were accepted.
///
/// A leaf of another feature, with another count of legs than its place in the chain has, whose `next` is not the
/// chain's, or that lacks a `previous` or goes on past the first leaf, is `Malformed`, and so is a page that is named
/// and is not there. What is `Malformed` is met on the way from the last leaf back. It is page 0 where a place without
/// legs names a page. What else the cache refuses is `Cache`, and so is want of memory for the legs.
pub fn trajectory<S: PageStore>(
    alloc: Global,
    cache: &mut PageCache<S>,
    shape: &Shape,
    feature: u32,
    place: &Place,
    spans: &mut Vec<LeafSpan>,
) -> Result<Vec<Leg>, ChainFault>
    // What the caller knows of the chain's last leaves is true.
    requires known { IsTrue cache.old.store.is_faithful
        → IsKnown (pages_of_cache cache.old) shape.now feature place.now spans.old.items }
    // It gives exactly the feature's legs, and asks once for each of its leaves; of any pages, those of a whole chain.
    ensures { RetrievalCall None Sieve.All shape.now feature place.now cache.old cache.new
        spans.new.items (λ found. found.items) result }
{
    let want = Want {
        period: None,
        sieve: Sieve::All,
    };
    retrieve(alloc, cache, shape, feature, place, &want, spans)
}

/// The legs of the feature at a place of a tree of that shape that are live in a period, in the order in which they
/// were accepted; of these at least those that a sieve keeps.
///
/// Leaves are read from the last one back to the first, or to one whose first leg starts before the period does. The
/// faults are those of `trajectory`, in the leaves that are read. Of the one that is read last it is seen whether it
/// names a leaf before it, where one is to be; that leaf is not read.
pub fn trajectory_in<S: PageStore>(
    alloc: Global,
    cache: &mut PageCache<S>,
    shape: &Shape,
    feature: u32,
    place: &Place,
    period: &Period,
    sieve: &Sieve,
    spans: &mut Vec<LeafSpan>,
) -> Result<Vec<Leg>, ChainFault>
    // What the caller knows of the chain's last leaves is true.
    requires known { IsTrue cache.old.store.is_faithful
        → IsKnown (pages_of_cache cache.old) shape.now feature place.now spans.old.items }
    // It gives what the sieve keeps of the feature's legs that are live in the period, and asks for few of its leaves; of
    // any pages, those of a chain, as far as it is read.
    ensures { RetrievalCall (Some period.now) sieve.now shape.now feature place.now cache.old
        cache.new spans.new.items (λ found. found.items) result }
{
    let want = Want {
        period: Some(*period),
        sieve: *sieve,
    };
    retrieve(alloc, cache, shape, feature, place, &want, spans)
}
