//! The pages of a tree in a cache: each call here changes one page, adds one, or reads one.
ghost use Rattle.std.specs.Prelude.{◌≡◌, ◌≤◌, ◌<◌, [], ◌∷◌, length, true};
ghost use Rattle.legs.specs.Hull.{leg_boxes};
ghost use Rattle.pagecache.specs.Cache.{AddsPage};
ghost use Rattle.tbnode.specs.Edits.{new_inner};
ghost use Rattle.tbtree.specs.Nodes.{pages_of_cache, AnInner, Adds, Attaches, Covers, HasCover, HasEntry, HasLastLeaf, HasLeafRoom, HasRoom, Links, Pushes, Widens};
ghost use Rattle.tbtree.specs.Passes.{Edits};
ghost use Rattle.tbtree.specs.Payloads.{TakesLegs, are_of_one_leaf, leaf_of_legs};

use crate::fault::TreeFault;
use crate::payloads::{child_of, cover_of, has_room, is_last_leaf, leaf_of_legs, push_legs, takes};
use legs::{Box3, Leg};
use pagecache::{CacheFault, PageCache};
use pages::{Kind, PageStore, Payload};
use tbnode::{Entry, MOST_LEGS};

/// Widens an entry of an inner page of that level, and gives its child.
pub(crate) fn widen<S: PageStore>(
    cache: &mut PageCache<S>,
    page: u32,
    level: u16,
    entry: usize,
    bounds: &Box3,
) -> Result<u32, TreeFault>
    ensures { Edits cache.old cache.new 1 result
        (Widens leg_boxes (pages_of_cache cache.old) page level entry bounds.now
        (pages_of_cache cache.new))
        (HasEntry (pages_of_cache cache.old) page level entry) }
{
    if page == 0 {
        return Err(TreeFault::Malformed(page));
    }
    let payload = match cache.page_mut(page) {
        Ok(payload) => payload,
        Err(fault) => return Err(TreeFault::of(fault, page)),
    };
    let Some(child) = child_of(payload, level, entry) else {
        return Err(TreeFault::Malformed(page));
    };
    tbnode::widen(payload, entry, bounds);
    Ok(child)
}

/// Puts legs at the end of a leaf that takes them, and has at most `most` with them.
pub(crate) fn grow<S: PageStore>(
    cache: &mut PageCache<S>,
    page: u32,
    most: u16,
    legs: &[Leg],
) -> Result<(), TreeFault>
    requires { most ≤ 50 }
    ensures { Edits cache.old cache.new 1 result
        (λ _. Pushes (pages_of_cache cache.old) page legs.now (pages_of_cache cache.new))
        (HasLeafRoom (pages_of_cache cache.old) page (λ leaf. TakesLegs most leaf legs.now)) }
{
    if page == 0 {
        return Err(TreeFault::Malformed(page));
    }
    let payload = match cache.page_mut(page) {
        Ok(payload) => payload,
        Err(fault) => return Err(TreeFault::of(fault, page)),
    };
    if !takes(payload, most, legs) {
        return Err(TreeFault::Malformed(page));
    }
    push_legs(payload, legs);
    Ok(())
}

/// Sets the next leaf of a feature's last leaf.
pub(crate) fn link<S: PageStore>(
    cache: &mut PageCache<S>,
    page: u32,
    feature: u32,
    next: u32,
) -> Result<(), TreeFault>
    ensures { Edits cache.old cache.new 1 result
        (λ _. Links (pages_of_cache cache.old) page next (pages_of_cache cache.new))
        (HasLastLeaf (pages_of_cache cache.old) page feature) }
{
    if page == 0 {
        return Err(TreeFault::Malformed(page));
    }
    let payload = match cache.page_mut(page) {
        Ok(payload) => payload,
        Err(fault) => return Err(TreeFault::of(fault, page)),
    };
    if !is_last_leaf(payload, feature) {
        return Err(TreeFault::Malformed(page));
    }
    tbnode::set_next(payload, next);
    Ok(())
}

/// Adds an entry to an inner page of that level and of less than `most` entries.
pub(crate) fn attach<S: PageStore>(
    cache: &mut PageCache<S>,
    page: u32,
    level: u16,
    most: u16,
    entry: &Entry,
) -> Result<(), TreeFault>
    requires { most ≤ 72 }
    ensures { Edits cache.old cache.new 1 result
        (λ _. Attaches (pages_of_cache cache.old) page level entry.now.child entry.now.bounds
        (pages_of_cache cache.new))
        (HasRoom (pages_of_cache cache.old) page level most) }
{
    if page == 0 {
        return Err(TreeFault::Malformed(page));
    }
    let payload = match cache.page_mut(page) {
        Ok(payload) => payload,
        Err(fault) => return Err(TreeFault::of(fault, page)),
    };
    if !has_room(payload, level, most) {
        return Err(TreeFault::Malformed(page));
    }
    tbnode::push_entry(payload, entry);
    Ok(())
}

/// Adds a page. One that is likely to change before it leaves memory is sealed then, and not before.
fn add_page<S: PageStore>(
    cache: &mut PageCache<S>,
    payload: Payload,
    changes: bool,
) -> Result<u32, CacheFault>
    ensures { AddsPage payload cache.old cache.new result }
{
    if changes {
        return cache.add_changed(payload);
    }
    cache.add(payload)
}

/// Adds a leaf of legs, which are of one feature and whose ordinals rise. Behind one with as many
/// legs as a page has room for the feature's next leaf is likely to follow, to which it is then linked.
pub(crate) fn add_leaf<S: PageStore>(
    cache: &mut PageCache<S>,
    previous: u32,
    legs: &[Leg],
) -> Result<u32, TreeFault>
    requires some { 0 < length legs.now }
    requires few { length legs.now ≤ 50 }
    ensures { Edits cache.old cache.new 1 result
        (Adds (pages_of_cache cache.old) (leaf_of_legs previous legs.now)
        (pages_of_cache cache.new))
        (are_of_one_leaf legs.now ≡ true) }
{
    let Some(payload) = leaf_of_legs(previous, legs) else {
        return Err(TreeFault::Malformed(previous));
    };
    let page = add_page(cache, payload, legs.len() == MOST_LEGS)?;
    Ok(page)
}

/// Adds an inner page of one entry.
pub(crate) fn add_inner<S: PageStore>(
    cache: &mut PageCache<S>,
    level: u16,
    entry: &Entry,
) -> Result<u32, TreeFault>
    requires { 1 ≤ level }
    ensures { Edits cache.old cache.new 1 result
        (Adds (pages_of_cache cache.old) (new_inner level entry.now) (pages_of_cache cache.new))
        (Unit {0}) }
{
    let mut payload = Payload::zero(Kind::Inner);
    tbnode::init_inner(&mut payload, level, entry);
    let page = add_page(cache, payload, true)?;
    Ok(page)
}

/// Adds an inner page of two entries.
pub(crate) fn add_root<S: PageStore>(
    cache: &mut PageCache<S>,
    level: u16,
    first: &Entry,
    second: &Entry,
) -> Result<u32, TreeFault>
    requires { 1 ≤ level }
    ensures { Edits cache.old cache.new 1 result
        (Adds (pages_of_cache cache.old)
        (AnInner (record { level = level; entries = first.now ∷ second.now ∷ [] }))
        (pages_of_cache cache.new))
        (Unit {0}) }
{
    let mut payload = Payload::zero(Kind::Inner);
    tbnode::init_inner(&mut payload, level, first);
    tbnode::push_entry(&mut payload, second);
    let page = add_page(cache, payload, true)?;
    Ok(page)
}

/// The least box that holds all that a page has; page 0 is none of a tree's.
pub(crate) fn cover<S: PageStore>(cache: &mut PageCache<S>, page: u32) -> Result<Box3, TreeFault>
    ensures { Edits cache.old cache.new 1 result
        (λ bounds. Covers leg_boxes (pages_of_cache cache.old) page bounds
        (pages_of_cache cache.new))
        ((0 < page) × HasCover leg_boxes (pages_of_cache cache.old) page) }
{
    if page == 0 {
        return Err(TreeFault::Malformed(page));
    }
    let payload = match cache.page(page) {
        Ok(payload) => payload,
        Err(fault) => return Err(TreeFault::of(fault, page)),
    };
    match cover_of(payload) {
        Some(bounds) => Ok(bounds),
        None => Err(TreeFault::Malformed(page)),
    }
}
