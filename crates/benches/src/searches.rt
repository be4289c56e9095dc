//! The legs in a box, in an index over pages and in a list, of legs of 1,000 features in turn.
use crate::command_line::Words;
use crate::feed::{places, position};
use anyhow::{Context, Result, bail};
use boxsearch::{TreeIndex, search};
use fixedpoint::Coord;
use legs::{Box3, Leg, LegIndex, ListIndex, Rect};
use pagecache::PageCache;
use pages::{FileStore, Kind, MemStore, PageStore};
use std::alloc::Global;
use std::fs::File;
use std::rt::Files;
use std::time::{Clock, Instant};
use tbtree::{Shape, TbTree, insert};
use timebase::{Ms, Period};

const FILE: &str = "search.mftb";

/// A leg of a feature that stays in its lane of the plane.
fn leg(ordinal: u32) -> Option<Leg> {
    let feature = ordinal % 1000;
    let x = i64::from(feature).wrapping_mul(10);
    let y = i64::from(ordinal / 1000);
    let start = i64::from(ordinal);
    let (t0, t1) = (Ms::new(start)?, Ms::new(start.wrapping_add(1000))?);
    let (from, to) = (
        position(x, y)?,
        position(x.wrapping_add(9), y.wrapping_add(1))?,
    );
    Leg::new(u64::from(ordinal), feature, t0, t1, from, to, ordinal)
}

/// The box of the first features' lanes from the beginning to a moment.
fn lanes(features: u32, end: i64) -> Option<Box3> {
    let right = i64::from(features).wrapping_mul(10).wrapping_sub(1);
    let zero = Coord::new(0)?;
    let rect = Rect::new(zero, zero, Coord::new(right)?, Coord::new(10_000_000)?)?;
    let period = Period::new(Ms::new(0)?, Ms::new(end.wrapping_sub(1))?)?;
    Some(Box3::new(&rect, &period))
}

fn fill<I: LegIndex>(index: &mut I, legs: u32) -> Option<()> {
    for ordinal in 0..legs {
        index.add(leg(ordinal)?).ok()?;
    }
    Some(())
}

/// What is printed.
#[derive(Clone, Copy)]
struct Told {
    found: usize,
    asked: u64,
    micros: u128,
}

fn searches<C: Clock, I: LegIndex>(
    clock: &C,
    index: &mut I,
    query: &Box3,
    count: u32,
) -> Option<Told> {
    let start = Instant::now(clock).ok()?;
    let (mut found, mut asked) = (0, 0);
    for _ in 0..count {
        let before = index.asked();
        found = index.search(query).ok()?.len();
        asked = index.asked().wrapping_sub(before);
    }
    let micros = start.elapsed(clock).ok()?.as_micros();
    Some(Told {
        found,
        asked,
        micros,
    })
}

fn listed<C: Clock>(clock: &C, alloc: Global, legs: u32, query: &Box3, count: u32) -> Option<Told> {
    let mut index = ListIndex::new(alloc);
    fill(&mut index, legs)?;
    searches(clock, &mut index, query, count)
}

fn warm<C: Clock>(clock: &C, alloc: Global, legs: u32, query: &Box3, count: u32) -> Option<Told> {
    let Ok(mut cache) = PageCache::new(alloc, MemStore::new(alloc, 1_000_000), 65_536) else {
        return None;
    };
    cache.add_page(Kind::Header).ok()?;
    let mut index = TreeIndex::new(alloc, cache, Shape::new(50, 72)?);
    fill(&mut index, legs)?;
    searches(clock, &mut index, query, count)
}

fn built<S: PageStore + Drop>(alloc: Global, store: S, legs: u32) -> Option<(TbTree, S)> {
    let Ok(mut cache) = PageCache::new(alloc, store, 65_536) else {
        return None;
    };
    cache.add_page(Kind::Header).ok()?;
    let mut tree = TbTree::new(Shape::new(50, 72)?);
    let mut places = places(alloc, 1000)?;
    for ordinal in 0..legs {
        let place = places.get_mut((ordinal % 1000) as usize)?;
        insert(&mut tree, &mut cache, place, leg(ordinal)?).ok()?;
    }
    cache.flush().ok()?;
    Some((tree, cache.into_store()))
}

fn cold<R: Files<File = File> + Clock>(
    rt: &R,
    alloc: Global,
    legs: u32,
    query: &Box3,
    count: u32,
) -> Option<Told> {
    let (tree, mut store) = built(alloc, FileStore::open(rt, FILE).ok()?, legs)?;
    let start = Instant::now(rt).ok()?;
    let (mut found, mut asked) = (0, 0);
    for _ in 0..count {
        let Ok(mut cache) = PageCache::new(alloc, store, 65_536) else {
            return None;
        };
        found = search(alloc, &mut cache, &tree, query).ok()?.len();
        asked = cache.asked();
        store = cache.into_store();
    }
    let micros = start.elapsed(rt).ok()?.as_micros();
    Some(Told {
        found,
        asked,
        micros,
    })
}

/// `INDEX LEGS FEATURES THOUSANDTHS COUNT`: prints how many legs the last search found, how many
/// pages it asked for, and the microseconds of all searches. The box is that of the first features,
/// from the beginning to so many thousandths of the time.
pub(crate) fn run(rt: &HostRuntime, mut words: Words) -> Result<()> {
    let kind = words.text("index")?;
    let legs = words.number("number of legs")?;
    let features = words.number("number of features")?;
    let thousandths = words.number("number of thousandths")?;
    let count = words.number("count")?;
    let end = i64::from(legs).wrapping_mul(i64::from(thousandths)) / 1000;
    let query = lanes(features, end).context("no box")?;
    let told = match kind.as_str() {
        "list" => listed(rt, rt.alloc(), legs, &query, count),
        "warm" => warm(rt, rt.alloc(), legs, &query, count),
        "cold" => cold(rt, rt.alloc(), legs, &query, count),
        _ => bail!("no such index"),
    };
    let Some(told) = told else {
        bail!("no index");
    };
    println!(rt; "{} {} {}", told.found, told.asked, told.micros)?;
    Ok(())
}
