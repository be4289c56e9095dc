//! The legs of 1,000 features in turn, of 1,000,000 legs, each by its leaves.
use crate::command_line::Words;
use crate::feed::{leg, places};
use anyhow::{Result, bail};
use chains::{trajectory, trajectory_in};
use legs::Sieve;
use pagecache::PageCache;
use pages::{Kind, MemStore};
use std::alloc::Global;
use tbtree::{Place, Shape, TbTree, insert};
use timebase::{Ms, Period};

fn filled(alloc: Global, shape: Shape) -> Option<(PageCache<MemStore>, Vec<Place>)> {
    let Ok(mut cache) = PageCache::new(alloc, MemStore::new(alloc, 1_000_000), 32_768) else {
        return None;
    };
    cache.add_page(Kind::Header).ok()?;
    let mut tree = TbTree::new(shape);
    let mut places = places(alloc, 1_000)?;
    for ordinal in 0..1_000_000 {
        let feature = ordinal % 1_000;
        let place = places.get_mut(feature as usize)?;
        insert(&mut tree, &mut cache, place, leg(ordinal, feature, 1000)?).ok()?;
    }
    cache.flush().ok()?;
    Some((cache, places))
}

fn period(question: &str) -> Option<Option<Period>> {
    let start = match question {
        "ever" => return Some(None),
        "middle" => 500_000,
        "last" => 991_000,
        _ => return None,
    };
    let period = Period::new(Ms::new(start)?, Ms::new(start.wrapping_add(9_999))?)?;
    Some(Some(period))
}

fn given(
    alloc: Global,
    cache: &mut PageCache<MemStore>,
    shape: &Shape,
    feature: u32,
    place: &Place,
    period: &Option<Period>,
) -> Option<u64> {
    let mut spans = Vec::new(alloc);
    let found = match period {
        Some(period) => {
            trajectory_in(
                alloc,
                cache,
                shape,
                feature,
                place,
                period,
                &Sieve::All,
                &mut spans,
            )
            .ok()?
        }
        None => trajectory(alloc, cache, shape, feature, place, &mut spans).ok()?,
    };
    Some(found.len() as u64)
}

fn held(
    alloc: Global,
    mut cache: PageCache<MemStore>,
    shape: &Shape,
    places: &[Place],
    period: &Option<Period>,
    count: u32,
) -> Option<(u64, u64)> {
    let before = cache.asked();
    let mut legs = 0u64;
    for i in 0..count {
        let feature = i % 1_000;
        let place = places.get(feature as usize)?;
        legs = legs.wrapping_add(given(alloc, &mut cache, shape, feature, place, period)?);
    }
    Some((legs, cache.asked().wrapping_sub(before)))
}

fn fresh(
    alloc: Global,
    cache: PageCache<MemStore>,
    shape: &Shape,
    places: &[Place],
    period: &Option<Period>,
    count: u32,
) -> Option<(u64, u64)> {
    let mut store = cache.into_store();
    let (mut legs, mut asked) = (0u64, 0u64);
    for i in 0..count {
        let Ok(mut cache) = PageCache::new(alloc, store, 256) else {
            return None;
        };
        let feature = i % 1_000;
        let place = places.get(feature as usize)?;
        legs = legs.wrapping_add(given(alloc, &mut cache, shape, feature, place, period)?);
        asked = asked.wrapping_add(cache.asked());
        store = cache.into_store();
    }
    Some((legs, asked))
}

fn answered(alloc: Global, question: &str, kind: &str, count: u32) -> Option<(u64, u64)> {
    let shape = Shape::new(50, 72)?;
    let period = period(question)?;
    let (cache, places) = filled(alloc, shape)?;
    if kind == "held" {
        held(alloc, cache, &shape, places.as_slice(), &period, count)
    } else {
        fresh(alloc, cache, &shape, places.as_slice(), &period, count)
    }
}

/// `QUESTION CACHE COUNT`: prints how many legs were given, and how often a page was asked for. With
/// the cache `held` all pages are in memory; else each question has a fresh cache of 256 pages.
pub(crate) fn run(rt: &HostRuntime, mut words: Words) -> Result<()> {
    let question = words.text("question")?;
    let kind = words.text("cache")?;
    let count = words.number("number of questions")?;
    let Some((legs, asked)) = answered(rt.alloc(), question.as_str(), kind.as_str(), count) else {
        bail!("no answer");
    };
    println!(rt; "{legs} {asked}")?;
    Ok(())
}
