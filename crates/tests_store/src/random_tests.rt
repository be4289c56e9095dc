//! Legs drawn by chance in an index over pages: the same pages whatever its cache holds and however they are put in, and
//! searches beside a list and a count of pages that is made from the legs alone.
use crate::numbers::{Numbers, feed};
use crate::samples::over;
use boxsearch::TreeIndex;
use legs::{Box3, Leg, LegIndex, ListIndex};
use pages::{MemStore, PageStore};
use std::alloc::Global;
use tbtree::Shape;

/// An index of these legs through a cache of so many pages, put in as files of so many legs, or, of one, leg by leg.
fn index_of(
    alloc: Global,
    shape: Shape,
    legs: &[Leg],
    (pages, each): (usize, usize),
) -> Option<TreeIndex<MemStore>> {
    let mut index = over(alloc, MemStore::new(alloc, 30_000), shape, pages)?;
    for file in legs.chunks(each.max(1)) {
        match file {
            [leg] => index.add(*leg).ok()?,
            _ => index.add_all(file).ok()?,
        }
    }
    Some(index)
}

/// All that is in the store of an index.
fn bytes_of(alloc: Global, index: TreeIndex<MemStore>) -> Option<Vec<u8>> {
    let mut cache = index.into_cache();
    cache.flush().ok()?;
    let mut store = cache.into_store();
    let mut bytes = Vec::new(alloc);
    for number in 0..store.len() {
        let mut page = [0; 4096];
        if number >= store.len() {
            return None;
        }
        store.read(number, &mut page).ok()?;
        bytes.extend_from_slice(&page).ok()?;
    }
    Some(bytes)
}

/// How many pages a cache holds, and how many legs are put in at once.
const WAYS: [(usize, usize); 4] = [(1, 1), (2, 7), (1, 60), (256, 25)];

/// Whether random legs of so many features make the same pages in each way: page 0, four leaves and a root at least.
fn is_same(alloc: Global, (leaf, inner): (u16, u16), features: u32) -> Option<bool> {
    let shape = Shape::new(leaf, inner)?;
    let legs = feed(alloc, 60, features)?;
    let wide = bytes_of(alloc, index_of(alloc, shape, legs.as_slice(), (256, 1))?)?;
    for way in WAYS {
        let bytes = bytes_of(alloc, index_of(alloc, shape, legs.as_slice(), way)?)?;
        if bytes.as_slice() != wide.as_slice() {
            return Some(false);
        }
    }
    Some(wide.len() > 5 * 4096)
}

#[test]
fn pages_are_the_same_however_legs_are_put_in(rt: HostRuntime) {
    for (shape, features) in [((2, 2), 7), ((3, 5), 4), ((50, 72), 7)] {
        let same = is_same(rt.alloc(), shape, features);
        assert!(rt; same == Some(true), "{features} features at {shape:?}");
    }
}

/// How many of some legs are of a feature.
fn count_of(legs: &[Leg], feature: u32) -> usize {
    let mut count = 0usize;
    for leg in legs {
        count = count.wrapping_add(usize::from(leg.feature == feature));
    }
    count
}

/// The box of the first of some legs and of those of its feature behind it, so many at most.
fn run_box(legs: &[Leg], most: u16) -> Option<Box3> {
    let first = legs.first()?;
    let (mut bounds, mut room) = (Box3::of(first), most);
    for leg in legs {
        if leg.feature == first.feature && room > 0 {
            bounds = bounds.cover(&Box3::of(leg));
            room = room.wrapping_sub(1);
        }
    }
    Some(bounds)
}

/// The boxes of the runs of so many legs that each feature's legs are cut into, in the order of their first legs.
fn run_boxes(alloc: Global, legs: &[Leg], most: u16) -> Option<Vec<Box3>> {
    let mut runs = Vec::new(alloc);
    for place in 0..legs.len() {
        let leg = legs[place];
        let before = count_of(&legs[..place], leg.feature);
        if before % usize::from(most.max(1)) == 0 {
            runs.push(run_box(&legs[place..], most)?).ok()?;
        }
    }
    Some(runs)
}

/// The boxes of the groups of so many of these.
fn group_boxes(alloc: Global, level: &[Box3], most: u16) -> Option<Vec<Box3>> {
    let mut groups = Vec::new(alloc);
    for group in level.chunks(usize::from(most.max(1))) {
        let mut bounds = *group.first()?;
        for other in group {
            bounds = bounds.cover(other);
        }
        groups.push(bounds).ok()?;
    }
    Some(groups)
}

/// The boxes of all runs and groups, level by level, but for the last level, which is one.
fn boxes_below(alloc: Global, shape: Shape, legs: &[Leg]) -> Option<Vec<Box3>> {
    let mut level = run_boxes(alloc, legs, shape.leaf())?;
    let mut below = Vec::new(alloc);
    for _ in 0..32 {
        if level.len() < 2 {
            return Some(below);
        }
        below.extend_from_slice(level.as_slice()).ok()?;
        level = group_boxes(alloc, level.as_slice(), shape.inner())?;
    }
    None
}

/// One page, and one for each of these boxes that meets another one.
fn count_meeting(below: &[Box3], query: &Box3) -> u64 {
    let mut count = 1u64;
    for bounds in below {
        count = count.wrapping_add(u64::from(bounds.meets(query)));
    }
    count
}

/// How many legs an index finds, if they are those of a list, and it asks for as many pages as are counted.
fn found(
    index: &mut TreeIndex<MemStore>,
    list: &mut ListIndex,
    below: &[Box3],
    query: &Box3,
) -> Option<usize> {
    let before = index.asked();
    let found = index.search(query).ok()?;
    let asked = index.asked().checked_sub(before)?;
    let wanted = list.search(query).ok()?;
    if found.as_slice() == wanted.as_slice() && asked == count_meeting(below, query) {
        Some(found.len())
    } else {
        None
    }
}

/// Whether 50 random boxes are answered so over 100 random legs, and find some.
fn are_found(alloc: Global, (leaf, inner): (u16, u16), features: u32) -> Option<bool> {
    let shape = Shape::new(leaf, inner)?;
    let legs = feed(alloc, 100, features)?;
    let below = boxes_below(alloc, shape, legs.as_slice())?;
    let mut index = index_of(alloc, shape, legs.as_slice(), (256, 100))?;
    let mut list = ListIndex::new(alloc);
    list.add_all(legs.as_slice()).ok()?;
    let mut numbers = Numbers::new(2);
    let mut count = 0usize;
    for _ in 0..50 {
        let query = numbers.query(legs.as_slice())?;
        let more = found(&mut index, &mut list, below.as_slice(), &query)?;
        count = count.wrapping_add(more);
    }
    Some(count > 20)
}

#[test]
fn random_boxes_are_answered_at_their_cost(rt: HostRuntime) {
    for (shape, features) in [((2, 2), 1), ((2, 2), 7), ((3, 5), 7)] {
        let found = are_found(rt.alloc(), shape, features);
        assert!(rt; found == Some(true), "{features} features at {shape:?}");
    }
}
