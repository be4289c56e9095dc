//! The legs of a store of version 1, brought into an index.
ghost use Rattle.std.specs.Prelude.{◌≤◌};

use crate::samples::leg;
use legs::{IndexFault, Leg, LegIndex, ListIndex, Track, Tracks};
use pages::{Kind, MemStore, PageStore, Payload, seal};
use std::alloc::Global;
use std::hash::RandomState;
use std::test::Fail;
use tbnode::fields::{put_i64, put_u16, put_u32, put_u64};
use tbtree::Place;
use timebase::Ms;
use version1::take_old_legs;

/// Writes that leg at a place of a payload, over 64 bytes.
fn put_leg(payload: &mut Payload, place: usize, ordinal: u32)
    requires { place ≤ 3990 }
{
    let n = i64::from(ordinal);
    put_u64(&mut payload.bytes, place, u64::from(ordinal));
    put_i64(&mut payload.bytes, place + 8, n.wrapping_mul(1000));
    put_i64(
        &mut payload.bytes,
        place + 16,
        n.wrapping_add(1).wrapping_mul(1000),
    );
    put_i64(&mut payload.bytes, place + 24, n);
    put_i64(&mut payload.bytes, place + 40, n.wrapping_add(1));
    put_u32(&mut payload.bytes, place + 56, ordinal);
}

/// A leaf of version 1 of a feature, with so many of two legs.
fn leaf(feature: u32, previous: u32, next: u32, count: u16, legs: [u32; 2]) -> Payload {
    let mut payload = Payload::zero(Kind::Leaf);
    put_u32(&mut payload.bytes, 0, feature);
    put_u32(&mut payload.bytes, 4, previous);
    put_u32(&mut payload.bytes, 8, next);
    put_u16(&mut payload.bytes, 12, count);
    put_leg(&mut payload, 16, legs[0]);
    put_leg(&mut payload, 80, legs[1]);
    payload
}

/// Five legs of two features in turn: feature 0 on the pages 1 and 3, feature 1 on page 2.
fn old_store(alloc: Global, next: u32) -> Option<MemStore> {
    let mut store = MemStore::new(alloc, 10);
    let header = Payload {
        kind: Kind::Header,
        bytes: [0; 4056],
    };
    store.write(0, &seal(0, &header)).ok()?;
    store.write(1, &seal(1, &leaf(0, 0, next, 2, [0, 2]))).ok()?;
    store.write(2, &seal(2, &leaf(1, 0, 0, 2, [1, 3]))).ok()?;
    store.write(3, &seal(3, &leaf(0, 1, 0, 1, [4, 0]))).ok()?;
    Some(store)
}

fn places() -> [Place; 2] {
    [
        Place {
            first: 1,
            last: 3,
            last_index: 2,
            legs: 3,
        },
        Place {
            first: 2,
            last: 2,
            last_index: 1,
            legs: 2,
        },
    ]
}

/// Adds a feature of so many legs, which end so many milliseconds after 1970.
fn add(alloc: Global, tracks: &mut Tracks, name: &str, end: i64, legs: u64) -> Option<()> {
    let end = Ms::new(end)?;
    let name = String::from_str(alloc, name).ok()?;
    tracks.add(name, Track { end, legs }).ok()?;
    Some(())
}

fn tracks(alloc: Global, keys: RandomState) -> Option<Tracks> {
    let mut tracks = Tracks::new(alloc, keys).ok()?;
    add(alloc, &mut tracks, "a", 5000, 3)?;
    add(alloc, &mut tracks, "b", 4000, 2)?;
    match tracks.set_rows(5) {
        true => Some(tracks),
        false => None,
    }
}

/// What bringing is answered with, and how many legs are brought.
fn brought(
    alloc: Global,
    keys: RandomState,
    store: &mut MemStore,
) -> Option<(Option<IndexFault>, u64)> {
    let mut index = ListIndex::new(alloc);
    let tracks = tracks(alloc, keys)?;
    let fault = take_old_legs(alloc, keys, store, 2, &places(), &tracks, 5, &mut index).err();
    Some((fault, index.len()))
}

/// A store of which the leaf behind the first is said to be that page, and one with a byte altered.
fn broken(
    alloc: Global,
    keys: RandomState,
    next: u32,
    altered: bool,
) -> Option<Option<IndexFault>> {
    let mut store = old_store(alloc, next)?;
    if altered && store.len() > 3 {
        store.set_byte(3, 100, 1);
    }
    let (fault, legs) = brought(alloc, keys, &mut store)?;
    if legs == 0 { Some(fault) } else { None }
}

#[test]
fn a_chain_that_fails_is_damaged(rt: HostRuntime) -> Result<(), Fail> {
    let keys = RandomState::new(&rt)?;
    for (next, altered, page) in [(2, false, 2), (0, false, 1), (3, true, 3)] {
        let told = broken(rt.alloc(), keys, next, altered);
        assert!(rt;
            told == Some(Some(IndexFault::Damaged(page))),
            "{next}: {told:?}"
        );
    }
    Ok(())
}

/// How many legs of one feature a leaf of version 1 has here.
const FULL: u32 = 63;

/// A leaf of version 1 of feature 0, with so many legs from that one on.
fn long_leaf(first: u32, count: u32, previous: u32, next: u32) -> Payload
    requires { count ≤ 63 }
{
    let mut payload = leaf(0, previous, next, count as u16, [0, 0]);
    for i in 0..count {
        put_leg(&mut payload, 16 + 64 * i as usize, first.wrapping_add(i));
    }
    payload
}

/// So many legs of one feature, in leaves on the pages from 1 on.
fn long_store(alloc: Global, legs: u32) -> Option<MemStore> {
    let leaves = legs.div_ceil(FULL);
    let mut store = MemStore::new(alloc, leaves.saturating_add(1));
    for page in 0..=leaves {
        if page > store.len() || page >= store.most() {
            return None;
        }
        let first = page.saturating_sub(1).saturating_mul(FULL);
        let count = legs.saturating_sub(first).min(FULL);
        let next = if page < leaves { page + 1 } else { 0 };
        let payload = if page == 0 {
            Payload::zero(Kind::Header)
        } else {
            long_leaf(first, count, page.saturating_sub(1), next)
        };
        store.write(page, &seal(page, &payload)).ok()?;
    }
    Some(store)
}

/// Where so many legs of one feature stand there.
fn long_place(legs: u32) -> Place {
    let last = legs.div_ceil(FULL);
    Place {
        first: 1,
        last,
        last_index: last.saturating_sub(1),
        legs: u64::from(legs),
    }
}

/// The tracks of one feature of so many legs, each with a row of its own.
fn long_tracks(alloc: Global, keys: RandomState, legs: u32) -> Option<Tracks> {
    let mut tracks = Tracks::new(alloc, keys).ok()?;
    let end = i64::from(legs).wrapping_mul(1000);
    add(alloc, &mut tracks, "a", end, u64::from(legs))?;
    match tracks.set_rows(u64::from(legs)) {
        true => Some(tracks),
        false => None,
    }
}

/// What is brought of so many legs of one feature.
fn brought_long(alloc: Global, keys: RandomState, legs: u32) -> Option<ListIndex> {
    let tracks = long_tracks(alloc, keys, legs)?;
    let mut store = long_store(alloc, legs)?;
    let mut index = ListIndex::new(alloc);
    let (places, rows) = ([long_place(legs)], u64::from(legs));
    match take_old_legs(
        alloc, keys, &mut store, 63, &places, &tracks, rows, &mut index,
    ) {
        Ok(()) => Some(index),
        Err(_) => None,
    }
}

/// Whether these are so many legs of one feature, each the right one.
fn are_all(found: &[Leg], legs: u32) -> bool {
    for ordinal in 0..legs {
        if found.get(ordinal as usize).copied() != leg(ordinal, 0, ordinal) {
            return false;
        }
    }
    found.len() == legs as usize
}

/// Whether so many legs of one feature are brought, each the right one.
fn brings(alloc: Global, keys: RandomState, legs: u32) -> Option<bool> {
    let mut index = brought_long(alloc, keys, legs)?;
    let count = index.len();
    let found = index.track(0).ok()?;
    Some(are_all(found.as_slice(), legs) && count == u64::from(legs))
}

#[test]
fn as_many_legs_as_wait_at_most_are_brought_and_one_more(rt: HostRuntime) -> Result<(), Fail> {
    let keys = RandomState::new(&rt)?;
    for legs in [65_536, 65_537] {
        let told = brings(rt.alloc(), keys, legs);
        assert!(rt; told == Some(true), "{legs}: {told:?}");
    }
    Ok(())
}
