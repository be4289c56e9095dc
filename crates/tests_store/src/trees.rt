//! A tree of legs of one feature.
use crate::samples::point;
use legs::Leg;
use pagecache::{CacheFault, PageCache};
use pages::{Fuse, Kind, MemStore};
use std::alloc::Global;
use tbtree::{Place, Shape, TbTree, TreeFault, insert};
use timebase::Ms;

/// A leg of a second of feature 0, ten units long on the x axis, behind those of lower ordinals.
fn long_leg(ordinal: u32) -> Option<Leg> {
    let start = i64::from(ordinal).wrapping_mul(1000);
    let (t0, t1) = (Ms::new(start)?, Ms::new(start.wrapping_add(1000))?);
    let from = point(ordinal.wrapping_mul(10))?;
    let to = point(ordinal.wrapping_mul(10).wrapping_add(10))?;
    Leg::new(u64::from(ordinal), 0, t0, t1, from, to, 0)
}

/// A tree of such legs, in a cache, behind a page 0.
#[derive(Drop)]
pub(crate) struct Sample {
    pub(crate) cache: PageCache<Fuse<MemStore>>,
    pub(crate) tree: TbTree,
    pub(crate) place: Place,
}

/// That many legs inserted, two a leaf and two entries an inner page, through a cache of that many pages, one at
/// least. The store fails the call of that number for good.
pub(crate) fn grow(
    alloc: Global,
    pages: usize,
    legs: u32,
    calls: u64,
) -> Result<Sample, TreeFault> {
    let store = Fuse::new(MemStore::new(alloc, 100), calls, false);
    let Ok(mut cache) = PageCache::new(alloc, store, pages.max(1)) else {
        return Err(TreeFault::Cache(CacheFault::Memory));
    };
    cache.add_page(Kind::Header)?;
    let mut tree = TbTree::new(Shape::new(2, 2).ok_or(TreeFault::Spent)?);
    let mut place = Place::new();
    for ordinal in 0..legs {
        let leg = long_leg(ordinal).ok_or(TreeFault::Spent)?;
        insert(&mut tree, &mut cache, &mut place, leg)?;
    }
    Ok(Sample { cache, tree, place })
}

/// The same; `None` where it is refused.
pub(crate) fn grown(alloc: Global, pages: usize, legs: u32, calls: u64) -> Option<Sample> {
    grow(alloc, pages, legs, calls).ok()
}
