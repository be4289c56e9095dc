//! A search of a tree: the pages that it asks for, pages that lie, and what is found where memory runs out.
use crate::trees::{Sample, grow, grown};
use boxsearch::{SearchFault, search};
use chains::{trajectory, trajectory_in};
use legs::{Box3, Sieve};
use pagecache::CacheFault;
use std::alloc::Global;
use std::test::Fail;
use tbnode::{Entry, init_inner};
use tbtree::{Shape, TreeFault};
use timebase::{Ms, Period};

/// A box from 45 to 50 on the x axis, at all times.
fn half_a_leg() -> Box3 {
    Box3 {
        x_min: 45,
        y_min: 0,
        t_min: i64::MIN,
        x_max: 50,
        y_max: 0,
        t_max: i64::MAX,
    }
}

/// Whether of five legs the last one alone meets the box, and how many pages were asked for through a cache of so many.
fn read(alloc: Global, pages: usize) -> Option<(bool, u64)> {
    let mut grown = grown(alloc, pages, 5, u64::MAX)?;
    let asked = grown.cache.asked();
    let found = search(alloc, &mut grown.cache, &grown.tree, &half_a_leg()).ok()?;
    let is_last = found.len() == 1 && found.first().is_some_and(|leg| leg.ordinal == 4);
    Some((is_last, grown.cache.asked().saturating_sub(asked)))
}

#[test]
fn the_last_of_five_legs_is_found_in_three_pages(rt: HostRuntime) {
    for pages in [1, 256] {
        assert_eq!(rt; read(rt.alloc(), pages), Some((true, 3)));
    }
}

/// Whether the root over two leaves is malformed where it has itself as its one child.
fn looped(alloc: Global) -> Option<bool> {
    let mut grown = grown(alloc, 2, 3, u64::MAX)?;
    let root = grown.tree.root;
    let entry = Entry {
        child: root,
        bounds: Box3::everything(),
    };
    let payload = grown.cache.page_mut(root).ok()?;
    init_inner(payload, 1, &entry);
    let fault = search(alloc, &mut grown.cache, &grown.tree, &half_a_leg()).err()?;
    Some(fault == SearchFault::Malformed(root))
}

#[test]
fn an_inner_page_that_is_its_own_child_is_malformed(rt: HostRuntime) {
    assert_eq!(rt; looped(rt.alloc()), Some(true));
}

/// Whether the last leaf is malformed where it says that it has 51 legs.
fn overfull(alloc: Global) -> Option<bool> {
    let mut grown = grown(alloc, 2, 5, u64::MAX)?;
    let last = grown.place.last;
    grown.cache.page_mut(last).ok()?.bytes[13] = 51;
    let fault = search(alloc, &mut grown.cache, &grown.tree, &half_a_leg()).err()?;
    Some(fault == SearchFault::Malformed(last))
}

#[test]
fn a_leaf_of_too_many_legs_is_malformed(rt: HostRuntime) {
    assert_eq!(rt; overfull(rt.alloc()), Some(true));
}

/// Why five legs are not searched where the store's call of that number fails, if they were inserted before.
fn fault(alloc: Global, calls: u64) -> Option<SearchFault> {
    let mut grown = grown(alloc, 2, 5, calls)?;
    search(alloc, &mut grown.cache, &grown.tree, &Box3::everything()).err()
}

#[test]
fn a_store_that_failed_is_said_to_have_failed(rt: HostRuntime) {
    let mut refused = false;
    for calls in 0..60 {
        if let Some(fault) = fault(rt.alloc(), calls) {
            assert_eq!(rt;
                fault,
                SearchFault::Cache(CacheFault::Store),
                "at call {calls}"
            );
            refused = true;
        }
    }
    assert!(rt; refused, "no call failed");
}

/// How many of five legs are found in the box, how many the feature has, and how many are live in a period.
fn counts(alloc: Global, shape: &Shape, period: &Period) -> Result<[usize; 3], TreeFault> {
    let Sample {
        mut cache,
        tree,
        place,
    } = grow(alloc, 1, 5, u64::MAX)?;
    let (mut none, mut other) = (Vec::new(alloc), Vec::new(alloc));
    let found = search(alloc, &mut cache, &tree, &half_a_leg())?.len();
    let all = trajectory(alloc, &mut cache, shape, 0, &place, &mut none)?.len();
    let live = trajectory_in(
        alloc,
        &mut cache,
        shape,
        0,
        &place,
        period,
        &Sieve::All,
        &mut other,
    )?
    .len();
    Ok([found, all, live])
}

/// Passes wherever memory runs out, too; it is run with each allocation refused in turn.
#[test]
fn no_wrong_legs_without_memory(rt: HostRuntime) -> Result<(), Fail> {
    let (start, end) = (
        Ms::new(4500).ok_or("a moment")?,
        Ms::new(5000).ok_or("a moment")?,
    );
    // The last half second of the last leg.
    let last = Period::new(start, end).ok_or("a period")?;
    let shape = Shape::new(2, 2).ok_or("a shape")?;
    // A store in memory fails where it finds no room for a page.
    assert!(rt;
        match counts(rt.alloc(), &shape, &last) {
            Ok(counts) => counts == [1, 5, 1],
            Err(fault) => {
                fault == TreeFault::Cache(CacheFault::Memory)
                    || fault == TreeFault::Cache(CacheFault::Store)
            }
        }
    );
    Ok(())
}
