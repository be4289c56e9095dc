//! An index that is checked: the page that is named of pages that lie.
use crate::samples::leg_in_turn;
use boxsearch::TreeIndex;
use legs::{IndexFault, LegIndex, Track, Tracks};
use pagecache::PageCache;
use pages::{Kind, MemStore};
use std::alloc::Global;
use std::hash::RandomState;
use std::test::Fail;
use tbnode::fields::put_u32;
use tbtree::Shape;
use timebase::Ms;
use treecheck::check;

/// An index of six legs in leaves of two under inner pages of two, whose page 0 says that the store is not finished.
///
/// The leaves of feature 0 are the pages 1, of its legs 0 and 2, and 4, of its leg 4; those of feature 1 are the pages
/// 2, of its legs 1 and 3, and 7, of its leg 5. Page 3 is above 1 and 2, page 5 above 4 and 7, and the root, page 6,
/// above both.
fn grown(alloc: Global) -> Option<TreeIndex<MemStore>> {
    let Ok(mut cache) = PageCache::new(alloc, MemStore::new(alloc, 100), 2) else {
        return None;
    };
    cache.add_page(Kind::Header).ok()?;
    let mut index = TreeIndex::new(alloc, cache, Shape::new(2, 2)?);
    index.mark().ok()?;
    for ordinal in 0..6 {
        index.add(leg_in_turn(ordinal)?).ok()?;
    }
    Some(index)
}

/// The tracks that are kept beside these pages: of each feature its name, its end in milliseconds, and three legs.
fn tracks(alloc: Global, keys: RandomState) -> Option<Tracks> {
    let mut tracks = Tracks::new(alloc, keys).ok()?;
    for (name, end) in [("a", 5000), ("b", 6000)] {
        let end = Ms::new(end)?;
        let track = Track { end, legs: 3 };
        tracks.add(String::from_str(alloc, name).ok()?, track).ok()?;
    }
    if tracks.set_rows(6) {
        Some(tracks)
    } else {
        None
    }
}

/// What the six legs are refused with, twice, where pages have other values: of each a page, and the place and the
/// value of four bytes of its payload.
fn told_twice(
    alloc: Global,
    keys: RandomState,
    lies: &[(u32, usize, u32)],
) -> Option<[Option<IndexFault>; 2]> {
    let mut index = grown(alloc)?;
    for (page, place, value) in lies {
        let payload = index.cache_mut().page_mut(*page).ok()?;
        if *place > 4000 {
            return None;
        }
        put_u32(&mut payload.bytes, *place, *value);
    }
    let tracks = tracks(alloc, keys)?;
    let first = check(&mut index, &tracks, 6, true).err();
    let second = check(&mut index, &tracks, 6, true).err();
    Some([first, second])
}

/// Lies, and the page that is named, if any.
const LIES: [(&[(u32, usize, u32)], Option<u32>); 17] = [
    (&[], None),
    // The state of page 0, its letters and its version; what stands behind them is not looked at.
    (&[(0, 8, 1)], Some(0)),
    (&[(0, 0, 0x4d46_5443)], Some(0)),
    (&[(0, 4, 1)], Some(0)),
    (&[(0, 12, 77)], None),
    // A first leaf has no next one, or a previous one; a last leaf has a next one; a leaf is of the other feature.
    (&[(1, 8, 0)], Some(1)),
    (&[(2, 4, 1)], Some(2)),
    (&[(4, 8, 7)], Some(4)),
    (&[(4, 0, 1)], Some(4)),
    // A leg begins before the one before it ends, and one has a row too many.
    (&[(1, 108, 999)], Some(1)),
    (&[(4, 88, 6)], Some(4)),
    // Two legs have one ordinal.
    (&[(7, 20, 4)], Some(0)),
    // A box of the root is too wide by one unit; a page above the leaves says that it is of two levels above them.
    (&[(6, 52, 5)], Some(6)),
    (&[(3, 0, 0x0002_0002)], Some(3)),
    // The state comes before the chains, and these, and the list that they hold, before the tree.
    (&[(0, 8, 1), (1, 0, 1)], Some(0)),
    (&[(7, 4, 1), (6, 52, 5)], Some(7)),
    (&[(7, 20, 4), (6, 52, 5)], Some(0)),
];

#[test]
fn a_page_that_lies_is_named(rt: HostRuntime) -> Result<(), Fail> {
    let keys = RandomState::new(&rt)?;
    for (lies, page) in LIES {
        let fault = page.map(IndexFault::Damaged);
        let told = told_twice(rt.alloc(), keys, lies);
        assert!(rt; told == Some([fault, fault]), "{lies:?}: {told:?}");
    }
    Ok(())
}
