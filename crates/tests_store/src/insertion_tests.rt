//! Insertion into a tree: its pages as the worked trees have them, and stores that fail.
use crate::samples::{example, leg};
use crate::trees::{Sample, grown};
use pagecache::{CacheFault, PageCache};
use pages::{Fuse, Kind, MemStore};
use std::alloc::Global;
use tbtree::{Place, Shape, TbTree, TreeFault, insert};

/// A cache of three pages over a store with a page 0, which fails the call of that number for good.
fn cache(alloc: Global, calls: u64) -> Option<PageCache<Fuse<MemStore>>> {
    let store = Fuse::new(MemStore::new(alloc, 100), calls, false);
    match PageCache::new(alloc, store, 3) {
        Ok(mut cache) => {
            cache.add_page(Kind::Header).ok()?;
            Some(cache)
        }
        Err(_) => None,
    }
}

/// After that many legs of one feature, two a leaf: how many leaves, levels and pages there are, and how many legs the
/// feature has, and the number of its last leaf.
fn numbers_of(alloc: Global, legs: u32) -> Option<((u32, u32, u32), (u64, u32))> {
    let Sample { cache, tree, place } = grown(alloc, 2, legs, u64::MAX)?;
    let counts = (tree.leaves, tree.levels, cache.count());
    Some((counts, (place.legs, place.last_index)))
}

#[test]
fn five_legs_make_three_leaves(rt: HostRuntime) {
    for (legs, wanted) in [(2, ((1, 1, 2), (2, 0))), (5, ((3, 3, 7), (5, 2)))] {
        assert_eq!(rt; numbers_of(rt.alloc(), legs), Some(wanted));
    }
}

/// Ten legs of two features in turn over a store whose calls fail from that one on: whether all were inserted, or
/// the first one refused says that the store failed, and leaves the tree spent.
fn fails(alloc: Global, calls: u64) -> Option<bool> {
    let mut cache = cache(alloc, calls)?;
    let mut tree = TbTree::new(Shape::new(2, 2)?);
    let mut places = [Place::new(), Place::new()];
    for ordinal in 0..10 {
        let place = &mut places[ordinal as usize % 2];
        match insert(&mut tree, &mut cache, place, leg(ordinal, ordinal % 2, 0)?) {
            Ok(()) => {}
            Err(fault) => return Some(fault == TreeFault::Cache(CacheFault::Store) && tree.spent),
        }
    }
    Some(!tree.spent)
}

#[test]
fn a_failed_store_spends_the_tree(rt: HostRuntime) {
    for calls in 2..60 {
        assert_eq!(rt; fails(rt.alloc(), calls), Some(true), "at call {calls}");
    }
}

/// The first page of the example's tree: its head and its first leg.
fn first_page(alloc: Global) -> Option<([u8; 16], [u8; 80])> {
    let mut cache = cache(alloc, u64::MAX)?;
    let mut tree = TbTree::new(Shape::new(50, 72)?);
    let mut places = [Place::new(); 3];
    for leg in example()? {
        insert(
            &mut tree,
            &mut cache,
            &mut places[leg.feature as usize % 3],
            leg,
        )
        .ok()?;
    }
    let bytes = &cache.page(1).ok()?.bytes;
    let (mut head, mut first) = ([0; 16], [0; 80]);
    head.copy_from_slice(&bytes[..16]);
    first.copy_from_slice(&bytes[16..96]);
    Some((head, first))
}

#[test]
fn the_example_begins_with_the_leaf_of_its_first_feature(rt: HostRuntime) {
    let head = [0, 0, 0, 0, 0, 0, 0, 0, 0, 0, 0, 0, 0, 2, 0, 0];
    let leg = [
        0, 0, 0, 0, 0, 0, 0, 0, 0, 0, 0x01, 0x34, 0xeb, 0xa8, 0xbb, 0x98, 0, 0, 0x01, 0x34, 0xeb,
        0xaa, 0xde, 0x78, 0, 0, 0, 0, 0x06, 0x8e, 0x77, 0x80, 0, 0, 0, 0, 0x01, 0x31, 0x2d, 0x00,
        0, 0, 0, 0, 0, 0, 0, 0, 0, 0, 0, 0, 0x07, 0x27, 0x0e, 0x00, 0, 0, 0, 0, 0x01, 0xc9, 0xc3,
        0x80, 0, 0, 0, 0, 0, 0, 0, 0, 0, 0, 0, 0, 0, 0, 0, 0,
    ];
    assert!(rt; first_page(rt.alloc()) == Some((head, leg)));
}
