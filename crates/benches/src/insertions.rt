//! Legs of features in turn, put into a tree one by one.
use crate::command_line::Words;
use crate::feed::{leg, places};
use anyhow::{Result, bail};
use pagecache::PageCache;
use pages::{Kind, MemStore};
use std::alloc::Global;
use tbtree::{Shape, TbTree, insert};

/// How many pages there are after so many legs, and how often one was asked for.
fn filled(alloc: Global, features: u32, capacity: usize, legs: u32) -> Option<(u32, u64)> {
    let store = MemStore::new(alloc, 1_000_000);
    let Ok(mut cache) = PageCache::new(alloc, store, capacity.max(1)) else {
        return None;
    };
    cache.add_page(Kind::Header).ok()?;
    let mut tree = TbTree::new(Shape::new(50, 72)?);
    let mut places = places(alloc, features.max(1))?;
    for ordinal in 0..legs {
        let feature = ordinal % features.max(1);
        let place = places.get_mut(feature as usize)?;
        insert(&mut tree, &mut cache, place, leg(ordinal, feature, 1)?).ok()?;
    }
    Some((cache.count(), cache.asked()))
}

/// `FEATURES CAPACITY LEGS`: prints the number of pages, and how often one was asked for.
pub(crate) fn run(rt: &HostRuntime, mut words: Words) -> Result<()> {
    let features = words.number("number of features")?;
    let capacity = words.number("capacity")?;
    let legs = words.number("number of legs")?;
    let Some((pages, asked)) = filled(rt.alloc(), features, capacity as usize, legs) else {
        bail!("no tree");
    };
    println!(rt; "{pages} {asked}")?;
    Ok(())
}
