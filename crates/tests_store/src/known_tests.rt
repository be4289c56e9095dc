//! What an index knows of the leaves that it read: they are not read again where they are off a period; and what a sieve
//! gives besides.
use crate::numbers::feed;
use crate::samples::{empty, leg};
use boxsearch::TreeIndex;
use fixedpoint::Coord;
use legs::{Box3, IndexFault, Leg, LegIndex, ListIndex, Rect, Sieve};
use pages::{Fuse, MemStore};
use std::alloc::Global;
use tbtree::Shape;
use timebase::{Ms, Period};

fn period(start: i64, end: i64) -> Option<Period> {
    Period::new(Ms::new(start)?, Ms::new(end)?)
}

/// How many legs of a feature are live in a period, and how many pages were asked for.
fn ask(
    index: &mut TreeIndex<Fuse<MemStore>>,
    feature: u32,
    period: &Period,
) -> Option<(usize, u64)> {
    let before = index.asked();
    let found = index.track_in(feature, period, &Sieve::All).ok()?.len();
    Some((found, index.asked().checked_sub(before)?))
}

/// Questions one after the other about legs of a second each, in leaves of two: the period in milliseconds, how many
/// legs are live in it, and how many leaves are read. There are five legs, and one more from the question on that is
/// marked, which ends what is known.
const QUESTIONS: [(i64, i64, bool, usize, u64); 11] = [
    (4_500, 5_000, false, 1, 1),
    (0, 500, false, 1, 3),
    (0, 500, false, 1, 1),
    (2_000, 2_000, false, 2, 2),
    (2_500, 2_600, false, 1, 1),
    (5_001, 7_000, false, 0, 0),
    (-20, -10, false, 0, 0),
    (0, 5_000, false, 5, 3),
    (0, 500, true, 1, 3),
    (5_500, 5_600, false, 1, 1),
    (0, 500, false, 1, 1),
];

/// The first question that is not answered so, if any.
fn wrong(alloc: Global) -> Option<Option<i64>> {
    let mut index = empty(alloc, Shape::new(2, 2)?, u64::MAX, true)?;
    for ordinal in 0..5 {
        index.add(leg(ordinal, 0, 0)?).ok()?;
    }
    for (start, end, more, found, asked) in &QUESTIONS {
        if *more {
            index.add(leg(5, 0, 0)?).ok()?;
        }
        if ask(&mut index, 0, &period(*start, *end)?)? != (*found, *asked) {
            return Some(Some(*start));
        }
    }
    Some(None)
}

#[test]
fn leaves_that_are_known_are_not_read_again(rt: HostRuntime) {
    assert_eq!(rt; wrong(rt.alloc()), Some(None));
}

/// How many leaves of a feature, of three legs each, may have a leg in a period.
fn met(legs: &[Leg], period: &Period) -> Option<u64> {
    let mut met = 0u64;
    for block in legs.chunks(3) {
        let (first, last) = (block.first()?, block.last()?);
        let meets = first.t0 <= period.end() && last.t1 >= period.start();
        met = met.wrapping_add(u64::from(meets));
    }
    Some(met)
}

/// Whether an index gives of a feature's legs in a period no more than two a leaf that a sieve does not want.
fn gives_few(
    index: &mut TreeIndex<Fuse<MemStore>>,
    list: &mut ListIndex,
    feature: u32,
    period: &Period,
) -> Option<bool> {
    let (low, high) = (Coord::new(200_000)?, Coord::new(600_000)?);
    let rect = Rect::new(low, low, high, high)?;
    let ends = index.track_in(feature, period, &Sieve::Ends).ok()?;
    let near = index.track_in(feature, period, &Sieve::Near(rect)).ok()?;
    let most = met(list.track(feature).ok()?.as_slice(), period)?.checked_mul(2)?;
    let query = Box3::new(&rect, period);
    let off = near
        .iter()
        .filter(|leg| !Box3::of(leg).meets(&query))
        .count();
    Some(ends.len() as u64 <= most && off as u64 <= most)
}

/// Whether it does so of each feature in periods all over, while random legs come file by file.
fn is_sieved(alloc: Global, features: u32) -> Option<bool> {
    let legs = feed(alloc, 300, features)?;
    let mut index = empty(alloc, Shape::new(3, 5)?, u64::MAX, true)?;
    let mut list = ListIndex::new(alloc);
    for file in legs.chunks(100) {
        index.add_all(file).ok()?;
        list.add_all(file).ok()?;
        for number in 0..20u32 {
            let start = i64::from(number.wrapping_mul(7_919) % 320).wrapping_mul(1_000);
            let period = period(start, start.wrapping_add(50_000))?;
            if !gives_few(&mut index, &mut list, number % features.max(1), &period)? {
                return Some(false);
            }
        }
    }
    Some(true)
}

#[test]
fn a_sieve_gives_two_legs_a_leaf_besides_at_most(rt: HostRuntime) {
    for features in [1, 7] {
        let is_sieved = is_sieved(rt.alloc(), features);
        assert_eq!(rt; is_sieved, Some(true), "{features} features");
    }
}

/// What is answered to a question whose call of the store fails, and how many legs are found when it is asked again;
/// `None` where no call fails.
fn failed(alloc: Global, calls: u64) -> Option<(IndexFault, usize)> {
    let mut index = empty(alloc, Shape::new(2, 2)?, calls, true)?;
    for ordinal in 0..9 {
        index.add(leg(ordinal, 0, 0)?).ok()?;
    }
    let all = period(0, 500)?;
    let fault = index.track_in(0, &all, &Sieve::All).err()?;
    Some((fault, index.track_in(0, &all, &Sieve::All).ok()?.len()))
}

#[test]
fn a_walk_that_the_store_failed_is_made_anew(rt: HostRuntime) {
    let mut refused = false;
    for calls in 0..80 {
        if let Some(told) = failed(rt.alloc(), calls) {
            assert_eq!(rt; told, (IndexFault::Store, 1), "at call {calls}");
            refused = true;
        }
    }
    assert!(rt; refused, "no call failed");
}
