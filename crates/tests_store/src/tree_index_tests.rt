//! An index of legs over pages, of which a call fails in turn, and what it asks for where legs are put in at once.
use crate::numbers::feed;
use crate::samples::{empty, leg};
use boxsearch::TreeIndex;
use legs::{Box3, IndexFault, Leg, LegIndex, Sieve};
use pages::{Fuse, MemStore};
use std::alloc::Global;
use tbtree::Shape;
use timebase::Period;

/// Whether each question of an index, and the leg, is refused since the index is spent, and what it counts stays.
fn is_spent(index: &mut TreeIndex<Fuse<MemStore>>, leg: Leg) -> Option<bool> {
    let spent = Some(IndexFault::Spent);
    let period = Period::new(leg.t0, leg.t1)?;
    let before = (index.len(), index.asked());
    let refused = index.add(leg).err() == spent
        && index.search(&Box3::everything()).err() == spent
        && index.track(0).err() == spent
        && index.track_in(0, &period, &Sieve::All).err() == spent;
    Some(refused && index.spent() && (index.len(), index.asked()) == before)
}

/// Whether the store's failure of the call of that number refuses one of 40 legs, says that the store failed, and
/// leaves the index spent with the legs before.
fn is_refused(alloc: Global, calls: u64, once: bool) -> Option<bool> {
    let mut index = empty(alloc, Shape::new(2, 2)?, calls, once)?;
    for leg in &feed(alloc, 40, 2)? {
        if let Err(fault) = index.add(*leg) {
            let told = fault == IndexFault::Store && index.len() == leg.ordinal;
            return Some(told && is_spent(&mut index, *leg)?);
        }
    }
    None
}

/// The same where they are put in at once, and none is there then.
fn is_refused_at_once(alloc: Global, calls: u64, once: bool) -> Option<bool> {
    let mut index = empty(alloc, Shape::new(2, 2)?, calls, once)?;
    let legs = feed(alloc, 40, 2)?;
    let fault = index.add_all(legs.as_slice()).err()?;
    let again = index.add_all(legs.as_slice()).err();
    let told = fault == IndexFault::Store && again == Some(IndexFault::Spent);
    Some(told && is_spent(&mut index, *legs.first()?)?)
}

#[test]
fn a_leg_that_the_store_refuses_spends_the_index(rt: HostRuntime) {
    for calls in 1..31 {
        for once in [false, true] {
            let one = is_refused(rt.alloc(), calls, once);
            let all = is_refused_at_once(rt.alloc(), calls, once);
            assert!(rt; (one, all) == (Some(true), Some(true)), "at call {calls}");
        }
    }
}

/// How many pages a file of eight legs of one feature asks for, in leaves of four and inner pages of two.
fn asked_by_file(alloc: Global) -> Option<u64> {
    let mut index = empty(alloc, Shape::new(4, 2)?, u64::MAX, false)?;
    let mut legs = Vec::new(alloc);
    for ordinal in 0..8 {
        legs.push(leg(ordinal, 0, 0)?).ok()?;
    }
    let before = index.asked();
    index.add_all(legs.as_slice()).ok()?;
    index.asked().checked_sub(before)
}

#[test]
fn a_leaf_is_asked_for_once_for_the_legs_that_go_on_it(rt: HostRuntime) {
    // A page that is added is asked for once, with all that it has. The first leaf is added with its
    // four legs, and is the root: one. The second is added with the other four, the leaf before it is
    // linked to it, the old root, which is that leaf, is looked at for its box, and the new root is
    // added with both: four more.
    assert_eq!(rt; asked_by_file(rt.alloc()), Some(5));
}

/// Whether an index over a store that fails each call from that one on is marked, and, if it is, whether it is again.
fn marked_twice(alloc: Global, calls: u64) -> Option<[bool; 2]> {
    let mut index = empty(alloc, Shape::new(2, 2)?, calls, false)?;
    let first = index.mark().is_ok();
    Some([first, first && index.mark().is_ok()])
}

#[test]
fn a_marked_store_is_not_written_again(rt: HostRuntime) {
    // Page 0 is added, then written and synced with its mark; no call passes after that.
    for (calls, marked) in [(1, false), (2, false), (3, true)] {
        let told = marked_twice(rt.alloc(), calls);
        assert!(rt; told == Some([marked, marked]), "at {calls}: {told:?}");
    }
}
