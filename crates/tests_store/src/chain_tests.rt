//! The legs of a feature by its leaves: the pages that are asked for, and pages that lie.
use crate::samples::leg;
use crate::trees::{Sample, grown};
use chains::{ChainFault, trajectory, trajectory_in};
use legs::{Leg, Sieve};
use pagecache::{CacheFault, PageCache};
use pages::{Fuse, Kind, MemStore, PageStore, Payload, seal};
use std::alloc::Global;
use tbnode::{init_leaf, leaf, push_leg, set_next};
use tbtree::Shape;
use timebase::{Ms, Period};

/// All legs of a tree, or those that are live in a period.
fn found(alloc: Global, sample: &mut Sample, period: Option<&Period>) -> Option<Vec<Leg>> {
    let (shape, mut spans) = (Shape::new(2, 2)?, Vec::new(alloc));
    let Sample { cache, place, .. } = sample;
    match period {
        Some(period) => {
            trajectory_in(
                alloc,
                cache,
                &shape,
                0,
                place,
                period,
                &Sieve::All,
                &mut spans,
            )
            .ok()
        }
        None => trajectory(alloc, cache, &shape, 0, place, &mut spans).ok(),
    }
}

/// The ordinals of some legs.
fn ordinals(alloc: Global, legs: &[Leg]) -> Option<Vec<u64>> {
    let mut ordinals = Vec::new(alloc);
    for leg in legs {
        ordinals.push(leg.ordinal).ok()?;
    }
    Some(ordinals)
}

/// The ordinals of all of five legs, or of those that are live in the last half second, and how many pages were
/// asked for through a cache of so many.
fn read(alloc: Global, pages: usize, last: bool) -> Option<(Vec<u64>, u64)> {
    let period = Period::new(Ms::new(4500)?, Ms::new(5000)?)?;
    let mut sample = grown(alloc, pages, 5, u64::MAX)?;
    let before = sample.cache.asked();
    let period = if last { Some(&period) } else { None };
    let legs = found(alloc, &mut sample, period)?;
    let asked = sample.cache.asked().saturating_sub(before);
    Some((ordinals(alloc, legs.as_slice())?, asked))
}

#[test]
fn five_legs_are_read_in_three_pages(rt: HostRuntime) {
    let (all, live) = ([0, 1, 2, 3, 4], [4]);
    for (last, ordinals, most) in [(false, all.as_slice(), 3), (true, live.as_slice(), 2)] {
        let Some((found, asked)) = read(rt.alloc(), 1, last) else {
            assert!(rt; false, "nothing was read");
            continue;
        };
        assert_eq!(rt; found.as_slice(), ordinals);
        assert!(rt; asked <= most, "{asked} pages were asked for");
        assert!(rt; last || asked == most);
        let wide = read(rt.alloc(), 256, last);
        assert!(rt; wide.is_some_and(|(more, all)| more == found && all == asked));
    }
}

/// A leaf that is written over a page: its neighbours, and the feature, the first ordinal and the number of its legs.
#[derive(Clone, Copy)]
struct Forged {
    page: u32,
    previous: u32,
    next: u32,
    feature: u32,
    first: u32,
    legs: u32,
}

/// Makes a payload that leaf.
fn forge(payload: &mut Payload, forged: &Forged) -> Option<()> {
    init_leaf(
        payload,
        forged.previous,
        &leg(forged.first, forged.feature, 0)?,
    );
    for more in 1..forged.legs {
        let leg = leg(forged.first.wrapping_add(more), forged.feature, 0)?;
        if !leaf(payload)?.takes(&leg) {
            return None;
        }
        push_leg(payload, &leg);
    }
    leaf(payload)?;
    set_next(payload, forged.next);
    Some(())
}

/// The pages below a cache, with that leaf, under its own seal, in place of one of them.
fn written(
    alloc: Global,
    mut cache: PageCache<Fuse<MemStore>>,
    forged: &Forged,
) -> Option<PageCache<Fuse<MemStore>>> {
    cache.flush().ok()?;
    let mut store = cache.into_store();
    if forged.page >= store.len() {
        return None;
    }
    let mut payload = Payload::zero(Kind::Leaf);
    forge(&mut payload, forged)?;
    store.write(forged.page, &seal(forged.page, &payload)).ok()?;
    PageCache::new(alloc, store, 2).ok()
}

/// What is answered where one page of that many legs is forged: how many legs there are, or why there are none. That
/// is to be the same for all legs and for those of a period that has all.
fn told(alloc: Global, legs: u32, forged: &Forged) -> Option<Result<usize, ChainFault>> {
    let Sample { cache, place, .. } = grown(alloc, 2, legs, u64::MAX)?;
    let mut cache = written(alloc, cache, forged)?;
    let shape = Shape::new(2, 2)?;
    let period = Period::new(Ms::new(0)?, Ms::new(9000)?)?;
    let (mut none, mut other) = (Vec::new(alloc), Vec::new(alloc));
    let all = trajectory(alloc, &mut cache, &shape, 0, &place, &mut none).map(|found| found.len());
    let live = trajectory_in(
        alloc,
        &mut cache,
        &shape,
        0,
        &place,
        &period,
        &Sieve::All,
        &mut other,
    )
    .map(|found| found.len());
    if all == live { Some(all) } else { None }
}

/// A forged leaf, by its page, its neighbours and its feature, the first ordinal and the number of its legs.
fn leaf_over(page: u32, [previous, next]: [u32; 2], [feature, first, legs]: [u32; 3]) -> Forged {
    Forged {
        page,
        previous,
        next,
        feature,
        first,
        legs,
    }
}

/// How many legs there are, which leaf is forged over which page, and the page that is named. Of five legs the leaves
/// are the pages 1, 2 and 4, of four legs the pages 1 and 2; page 3 is the root over the first two, and of four legs
/// there is no page 4.
const LIES: [(u32, u32, [u32; 2], [u32; 3], u32); 9] = [
    // A leaf that is its own next one, alone, and where a leg is to come.
    (2, 1, [0, 1], [0, 0, 2], 1),
    (3, 1, [0, 1], [0, 0, 2], 1),
    // A last leaf of another feature, a leaf of another one than the leaf after it, and one with another count.
    (5, 4, [2, 0], [1, 4, 1], 4),
    (5, 2, [1, 4], [1, 2, 2], 2),
    (5, 2, [1, 4], [0, 2, 1], 2),
    // A first leaf whose `next` is 0, and a last one whose `previous` is 0, with a leaf to come.
    (4, 1, [0, 0], [0, 0, 2], 1),
    (4, 2, [0, 0], [0, 2, 2], 2),
    // An inner page that is a `previous`, and a page that is one and is not there.
    (4, 2, [3, 0], [0, 2, 2], 3),
    (4, 2, [4, 0], [0, 2, 2], 4),
];

#[test]
fn a_forged_leaf_is_named(rt: HostRuntime) {
    // The middle leaf of five legs, as it was.
    let same = leaf_over(2, [1, 4], [0, 2, 2]);
    assert_eq!(rt; told(rt.alloc(), 5, &same), Some(Ok(5)));
    for (legs, over, neighbours, of, page) in LIES {
        let told = told(rt.alloc(), legs, &leaf_over(over, neighbours, of));
        let named = Some(Err(ChainFault::Malformed(page)));
        assert_eq!(rt; told, named, "at {over}, {neighbours:?}, {of:?}");
    }
}

/// Why five legs are not read where the store's call of that number fails, if they were inserted before.
fn fault(alloc: Global, calls: u64) -> Option<ChainFault> {
    let Sample {
        mut cache,
        place,
        ..
    } = grown(alloc, 2, 5, calls)?;
    trajectory(
        alloc,
        &mut cache,
        &Shape::new(2, 2)?,
        0,
        &place,
        &mut Vec::new(alloc),
    )
    .err()
}

#[test]
fn a_store_that_failed_is_said_to_have_failed(rt: HostRuntime) {
    let mut refused = false;
    for calls in 0..30 {
        if let Some(fault) = fault(rt.alloc(), calls) {
            assert_eq!(rt;
                fault,
                ChainFault::Cache(CacheFault::Store),
                "at call {calls}"
            );
            refused = true;
        }
    }
    assert!(rt; refused, "no call failed");
}
