//! The levels of a tree over its leaves, for a check.
ghost use Rattle.std.specs.Prelude.{◌≡◌, ◌<◌, ◌≤◌, ◌^◌, ◌↔◌, ◌++◌, Some, map, IfSome, IsSome, IsTrue, OnOk};
ghost use Rattle.std.specs.List.{flat_map};
ghost use Rattle.legs.specs.Blocks.{block, groups};
ghost use Rattle.legs.specs.Boxes.{BoxView};
ghost use Rattle.tbnode.specs.Form.{node_of};
ghost use Rattle.tbtree.specs.Descent.{entries_in};
ghost use Rattle.tbtree.specs.Nodes.{pages_of_cache, AnInner, InnerView, boxes, children};
ghost use Rattle.treecheck.specs.Finding.{FindsPages, TakesIf, TestsPages};
ghost use Rattle.treecheck.specs.Levels.{cover_of_leaves, pages_of_leaves, named_by, AllStandAbove, AreInside, AreMet, IsAbove, IsHeight, LevelsStandAbove, StandsAbove, StandsOver};

use crate::walking::Met;
use legs::Box3;
use pagecache::PageCache;
use pages::{PageStore, Payload};
use std::alloc::{AllocError, Global};
use tbnode::{Entry, Inner};
use tbtree::{TbTree, TreeFault};

/// The `place`-th `len` leaves, or as many of them as there are.
fn block(leaves: &[Met], len: usize, place: usize) -> &[Met]
    ensures { result.now ≡ block len place leaves.now }
{
    let rest = &leaves[place.saturating_mul(len).min(leaves.len())..];
    &rest[..len.min(rest.len())]
}

/// The least box that holds some leaves; `None` without a leaf.
fn cover_of(leaves: &[Met]) -> Option<Box3>
    ensures { result ≡ cover_of_leaves leaves.now }
{
    let mut bounds = None;
    for i in 0..leaves.len() {
        let leaf = &leaves[leaves.len() - 1 - i];
        bounds = match bounds {
            None => Some(leaf.bounds),
            Some(after) => Some(leaf.bounds.cover(&after)),
        };
    }
    bounds
}

/// Whether bounds are the least box that holds some leaves.
fn are_bounds(bounds: &Box3, leaves: &[Met]) -> bool
    ensures { IsTrue result ↔ (Some bounds.now ≡ cover_of_leaves leaves.now) }
{
    match cover_of(leaves) {
        None => false,
        Some(least) => *bounds == least,
    }
}

/// Whether an inner page has a box for each `width` of some leaves, the least that holds them.
fn has_boxes(inner: &Inner<'_>, width: usize, leaves: &[Met]) -> bool
    requires { 0 < width }
    ensures { IsTrue result
        ↔ (map Some (boxes inner.now) ≡ map cover_of_leaves (groups width leaves.now)) }
{
    if inner.len() != leaves.len().div_ceil(width) {
        return false;
    }
    for i in 0..inner.len() {
        if !are_bounds(&inner.entry(i).bounds, block(leaves, width, i)) {
            return false;
        }
    }
    true
}

/// Whether an inner page names the pages of some leaves, in order.
fn has_leaves(inner: &Inner<'_>, leaves: &[Met]) -> bool
    ensures { IsTrue result ↔ (children inner.now ≡ pages_of_leaves leaves.now) }
{
    if inner.len() != leaves.len() {
        return false;
    }
    for i in 0..inner.len() {
        if inner.entry(i).child != leaves[i].page {
            return false;
        }
    }
    true
}

/// Whether an inner page stands above some leaves, with an entry for each `width` of them.
fn is_above(inner: &Inner<'_>, level: u32, width: usize, leaves: &[Met]) -> bool
    requires { 0 < width }
    ensures { IsTrue result ↔ IsAbove level width leaves.now inner.now }
{
    u32::from(inner.head().level) == level
        && has_boxes(inner, width, leaves)
        && (level != 1 || has_leaves(inner, leaves))
}

/// Adds the pages that an inner page names.
fn push_named(inner: &Inner<'_>, below: &mut Vec<u32>) -> Result<(), AllocError>
    ensures { OnOk result (below.new.items ≡ below.old.items ++ children inner.now) }
{
    for i in 0..inner.len() {
        below.push(inner.entry(i).child)?;
    }
    Ok(())
}

/// Adds the pages that a payload names, where it is an inner page that stands above some leaves;
/// whether it is.
fn take_inner(
    payload: &Payload,
    level: u32,
    width: usize,
    leaves: &[Met],
    below: &mut Vec<u32>,
) -> Result<bool, AllocError>
    requires { 0 < width }
    ensures { TakesIf ((inner : InnerView BoxView) × (node_of payload.now ≡ Some (AnInner inner))
        × IsAbove level width leaves.now inner)
        (below.new.items
        ≡ below.old.items ++ map (λ e. e.child) (entries_in (Some (node_of payload.now)))) result }
{
    let Some(inner) = tbnode::inner(payload) else {
        return Ok(false);
    };
    if !is_above(&inner, level, width, leaves) {
        return Ok(false);
    }
    push_named(&inner, below)?;
    Ok(true)
}

/// Adds the pages that a page names, where it is an inner page that stands above some leaves. The
/// pages that are read next may come into memory with it.
fn take_page<S: PageStore>(
    cache: &mut PageCache<S>,
    page: u32,
    next: &[u32],
    level: u32,
    width: usize,
    leaves: &[Met],
    below: &mut Vec<u32>,
) -> Result<(), TreeFault>
    requires { 0 < width }
    ensures { FindsPages (StandsAbove (pages_of_cache cache.old) level width leaves.now page)
        (λ _. StandsAbove (pages_of_cache cache.old) level width leaves.now page
        × (below.new.items ≡ below.old.items ++ named_by (pages_of_cache cache.old) page))
        cache.old cache.new result }
{
    if page == 0 {
        return Err(TreeFault::Malformed(page));
    }
    let payload = match cache.page_ahead(page, next) {
        Ok(payload) => payload,
        Err(fault) => return Err(TreeFault::of(fault, page)),
    };
    if take_inner(payload, level, width, leaves, below)? {
        Ok(())
    } else {
        Err(TreeFault::Malformed(page))
    }
}

/// The pages that some pages name, where each is an inner page that stands above its `span` of the
/// leaves.
#[tactic(auto, using(chains::proofs::ReadLemmas::reading))]
fn level_below<S: PageStore>(
    alloc: Global,
    cache: &mut PageCache<S>,
    pages: &[u32],
    level: u32,
    width: usize,
    span: usize,
    leaves: &[Met],
) -> Result<Vec<u32>, TreeFault>
    requires { 0 < width }
    ensures { FindsPages
        (AllStandAbove (pages_of_cache cache.old) level width span leaves.now pages.now)
        (λ below. AllStandAbove (pages_of_cache cache.old) level width span leaves.now pages.now
        × (below.items ≡ flat_map (named_by (pages_of_cache cache.old)) pages.now))
        cache.old cache.new result }
{
    let mut below = Vec::new(alloc);
    for i in 0..pages.len() {
        let under = block(leaves, span, i);
        let next = &pages[i + 1..];
        take_page(cache, pages[i], next, level, width, under, &mut below)?;
    }
    Ok(below)
}

/// Tests the levels above some leaves, from the root down; `span` is how many leaves the root may
/// stand above.
#[tactic(auto, using(chains::proofs::ReadLemmas::reading))]
fn check_levels<S: PageStore>(
    alloc: Global,
    cache: &mut PageCache<S>,
    root: u32,
    inner: usize,
    height: u32,
    span: usize,
    leaves: &[Met],
) -> Result<(), TreeFault>
    requires inner { 0 < inner }
    requires span { span ≡ inner ^ height }
    ensures { TestsPages
        (LevelsStandAbove (pages_of_cache cache.old) inner height root leaves.now)
        cache.old cache.new result }
{
    let mut pages = Vec::new(alloc);
    pages.push(root)?;
    let mut span = span;
    for level in 0..height {
        let width = span / inner;
        pages = level_below(alloc, cache, &pages, height - level, width, span, leaves)?;
        span = width;
    }
    Ok(())
}

/// How many leaves a root of that height may stand above, where that is the height of a tree over
/// so many leaves.
fn span_of(inner: usize, height: u32, leaves: usize) -> Option<usize>
    requires inner { inner ≤ 72 }
    requires leaves { leaves < 2 ^ 32 }
    ensures some { IfSome result (λ span. span ≡ inner ^ height) }
    ensures height { IfSome result (λ _. IsHeight inner leaves height) }
    ensures none { IsHeight inner leaves height → IsSome result }
{
    if leaves == 0 {
        return None;
    }
    let mut span = 1;
    'levels: for _ in 0..height {
        if span >= leaves {
            return None;
        }
        span *= inner;
    }
    if span < leaves {
        return None;
    }
    Some(span)
}

/// Tests that a tree stands over leaves in that order: page by page, from the root down.
///
/// A page that does not stand above its leaves is `Malformed`. Page 0 is said to be so where the
/// tree says another number of leaves or of levels than there are, or another root than its only
/// leaf.
#[tactic(auto, using(chains::proofs::ReadLemmas::reading))]
pub fn check_tree<S: PageStore>(
    alloc: Global,
    cache: &mut PageCache<S>,
    tree: &TbTree,
    leaves: &[Met],
) -> Result<(), TreeFault>
    ensures { FindsPages
        (AreMet (pages_of_cache cache.old) leaves.now
        × StandsOver (pages_of_cache cache.old) tree.now (pages_of_leaves leaves.now))
        (λ _. AreMet (pages_of_cache cache.old) leaves.now
        → AreInside (pages_of_cache cache.old) leaves.now
        → StandsOver (pages_of_cache cache.old) tree.now (pages_of_leaves leaves.now))
        cache.old cache.new result }
{
    if leaves.len() as u64 != u64::from(tree.leaves) {
        return Err(TreeFault::Malformed(0));
    }
    if tree.levels == 0 {
        if tree.leaves != 0 || tree.root != 0 {
            return Err(TreeFault::Malformed(0));
        }
        return Ok(());
    }
    let inner = usize::from(tree.shape.inner());
    let height = tree.levels - 1;
    let Some(span) = span_of(inner, height, leaves.len()) else {
        return Err(TreeFault::Malformed(0));
    };
    if height == 0 && leaves[0].page != tree.root {
        return Err(TreeFault::Malformed(0));
    }
    check_levels(alloc, cache, tree.root, inner, height, span, leaves)
}
