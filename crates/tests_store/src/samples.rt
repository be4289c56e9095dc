//! Legs that the tests of several files are about, and an index for them.
use boxsearch::TreeIndex;
use fixedpoint::Coord;
use legs::Leg;
use mfcsv::Position;
use pagecache::PageCache;
use pages::{Fuse, Kind, MemStore, PageStore};
use std::alloc::Global;
use tbtree::Shape;
use timebase::Ms;

/// An index without legs through a cache of two pages. The store fails the call of that number, once or for good; the
/// first call adds page 0.
pub(crate) fn empty(
    alloc: Global,
    shape: Shape,
    calls: u64,
    once: bool,
) -> Option<TreeIndex<Fuse<MemStore>>> {
    let store = Fuse::new(MemStore::new(alloc, 30_000), calls, once);
    over(alloc, store, shape, 2)
}

/// An index without legs over a store without pages, behind a page 0, through a cache of so many pages, one at least.
pub(crate) fn over<S: PageStore + Drop>(
    alloc: Global,
    store: S,
    shape: Shape,
    pages: usize,
) -> Option<TreeIndex<S>> {
    let Ok(mut cache) = PageCache::new(alloc, store, pages.max(1)) else {
        return None;
    };
    cache.add_page(Kind::Header).ok()?;
    Some(TreeIndex::new(alloc, cache, shape))
}

/// A point of the x axis.
pub(crate) fn point(x: u32) -> Option<Position> {
    let zero = Coord::new(0)?;
    Some(Position {
        x: Coord::new(i64::from(x))?,
        y: zero,
        z: zero,
    })
}

/// A leg of a second, from its ordinal's place on the x axis to the next.
pub(crate) fn leg(ordinal: u32, feature: u32, row: u32) -> Option<Leg> {
    let start = i64::from(ordinal).wrapping_mul(1000);
    let (t0, t1) = (Ms::new(start)?, Ms::new(start.wrapping_add(1000))?);
    let (from, to) = (point(ordinal)?, point(ordinal.wrapping_add(1))?);
    Leg::new(u64::from(ordinal), feature, t0, t1, from, to, row)
}

/// Such a leg of one of two features in turn, with a row of its own.
pub(crate) fn leg_in_turn(ordinal: u32) -> Option<Leg> {
    leg(ordinal, ordinal % 2, ordinal)
}

/// A leg of the example of the standard, by its seconds and its ends in whole degrees.
fn worked(numbers: (u64, u32, u32), times: (i64, i64), ends: [i64; 4]) -> Option<Leg> {
    let degrees = |n: i64| Coord::new(n.wrapping_mul(10_000_000));
    let at = |n: i64| Ms::new(n.wrapping_mul(1000).wrapping_add(1_326_803_621_000));
    let [x0, y0, x1, y1] = ends;
    let z = degrees(0)?;
    let (x, y) = (degrees(x0)?, degrees(y0)?);
    let from = Position { x, y, z };
    let (x, y) = (degrees(x1)?, degrees(y1)?);
    let to = Position { x, y, z };
    let (ordinal, feature, row) = numbers;
    Leg::new(ordinal, feature, at(times.0)?, at(times.1)?, from, to, row)
}

/// The five legs of the example, which has three features.
pub(crate) fn example() -> Option<[Leg; 5]> {
    Some([
        worked((0, 0, 0), (10, 150), [11, 2, 12, 3])?,
        worked((1, 1, 1), (10, 190), [10, 2, 11, 3])?,
        worked((2, 0, 2), (150, 190), [12, 3, 10, 3])?,
        worked((3, 2, 3), (10, 100), [12, 1, 10, 2])?,
        worked((4, 2, 3), (100, 190), [10, 2, 11, 3])?,
    ])
}
