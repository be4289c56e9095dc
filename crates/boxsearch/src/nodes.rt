//! One page on the way down.
ghost use Rattle.std.specs.Prelude.{◌≡◌, ◌++◌, filter, map, OnOk, Some};
ghost use Rattle.legs.specs.Boxes.{BoxView, box_of, boxes_meet};
ghost use Rattle.legs.specs.Hull.{leg_boxes};
ghost use Rattle.legs.specs.Legs.{LegView};
ghost use Rattle.tbnode.specs.Form.{node_of};
ghost use Rattle.tbtree.specs.Descent.{children_met, entries_in, hits, legs_in, HasInner};
ghost use Rattle.tbtree.specs.Nodes.{AnInner, ALeaf, InnerView, LeafView, HasLeaf};
ghost use Rattle.boxsearch.specs.Way.{meets, PageCall, Pushes};

use legs::{Box3, Leg};
use pagecache::PageCache;
use pages::{PageStore, Payload};
use std::alloc::AllocError;
use tbnode::{Inner, Leaf};
use tbtree::TreeFault;

/// Adds the children whose boxes meet.
fn push_entries(inner: &Inner<'_>, query: &Box3, found: &mut Vec<u32>) -> Result<(), AllocError>
    ensures { OnOk result (found.new.items
        ≡ found.old.items ++ map (λ e. e.child) (filter (λ e. boxes_meet e.bounds query.now)
        inner.now.entries)) }
{
    for i in 0..inner.len() {
        let entry = inner.entry(i);
        if entry.bounds.meets(query) {
            found.push(entry.child)?;
        }
    }
    Ok(())
}

/// Adds the legs whose boxes meet.
fn push_hits(leaf: &Leaf<'_>, query: &Box3, found: &mut Vec<Leg>) -> Result<(), AllocError>
    ensures { OnOk result (found.new.items
        ≡ found.old.items ++ filter (λ leg. boxes_meet (box_of leg) query.now) leaf.now.legs) }
{
    for i in 0..leaf.len() {
        let leg = leaf.leg(i);
        if Box3::of(&leg).meets(query) {
            found.push(leg)?;
        }
    }
    Ok(())
}

/// Adds the children of a payload whose boxes meet, if it is an inner page of that level.
fn push_inner(
    payload: &Payload,
    page: u32,
    level: u32,
    query: &Box3,
    found: &mut Vec<u32>,
) -> Result<(), TreeFault>
    ensures { Pushes ((inner : InnerView BoxView)
        × (node_of payload.now ≡ Some (AnInner inner)) × (inner.level ≡ level))
        (map (λ e. e.child) (filter (λ e. boxes_meet e.bounds query.now)
        (entries_in (Some (node_of payload.now))))) page found.old.items found.new.items result }
{
    let Some(inner) = tbnode::inner(payload) else {
        return Err(TreeFault::Malformed(page));
    };
    if u32::from(inner.head().level) != level {
        return Err(TreeFault::Malformed(page));
    }
    push_entries(&inner, query, found)?;
    Ok(())
}

/// Adds the legs of a payload whose boxes meet, if it is a leaf.
fn push_leaf(
    payload: &Payload,
    page: u32,
    query: &Box3,
    found: &mut Vec<Leg>,
) -> Result<(), TreeFault>
    ensures { Pushes ((leaf : LeafView LegView) × (node_of payload.now ≡ Some (ALeaf leaf)))
        (filter (λ leg. boxes_meet (box_of leg) query.now) (legs_in (Some (node_of payload.now))))
        page found.old.items found.new.items result }
{
    let Some(leaf) = tbnode::leaf(payload) else {
        return Err(TreeFault::Malformed(page));
    };
    push_hits(&leaf, query, found)?;
    Ok(())
}

/// Adds the children of an inner page of that level whose boxes meet. The pages that are read next
/// may come into memory with it.
pub(crate) fn push_children<S: PageStore>(
    cache: &mut PageCache<S>,
    page: u32,
    next: &[u32],
    level: u32,
    query: &Box3,
    found: &mut Vec<u32>,
) -> Result<(), TreeFault>
    ensures { PageCall (λ nodes p. HasInner nodes p level)
        (λ nodes p. children_met (meets query.now) nodes p) page cache.old cache.new
        found.old.items found.new.items result }
{
    if page == 0 {
        return Err(TreeFault::Malformed(page));
    }
    let payload = match cache.page_ahead(page, next) {
        Ok(payload) => payload,
        Err(fault) => return Err(TreeFault::of(fault, page)),
    };
    push_inner(payload, page, level, query, found)
}

/// Adds the legs of a leaf whose boxes meet. The leaves that are read next may come into memory
/// with it.
pub(crate) fn push_legs<S: PageStore>(
    cache: &mut PageCache<S>,
    page: u32,
    next: &[u32],
    query: &Box3,
    found: &mut Vec<Leg>,
) -> Result<(), TreeFault>
    ensures { PageCall (λ nodes p. HasLeaf nodes p)
        (λ nodes p. hits leg_boxes (meets query.now) nodes p) page cache.old cache.new
        found.old.items found.new.items result }
{
    if page == 0 {
        return Err(TreeFault::Malformed(page));
    }
    let payload = match cache.page_ahead(page, next) {
        Ok(payload) => payload,
        Err(fault) => return Err(TreeFault::of(fault, page)),
    };
    push_leaf(payload, page, query, found)
}
