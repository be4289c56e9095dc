//! Insertion.
ghost use Rattle.std.specs.Prelude.{ℕ, [], ◌∷◌, length, ◌≡◌, ◌<◌, ◌≤◌, ◌+◌, ◌-◌, ◌*◌, ◌%◌, ◌^◌, OnOk, true};
ghost use Rattle.legs.specs.Costs.{leg_feature};
ghost use Rattle.legs.specs.Hull.{leg_boxes};
ghost use Rattle.tbtree.specs.Nodes.{pages_of_cache};
ghost use Rattle.tbtree.specs.Passes.{Edits, Writes};
ghost use Rattle.tbtree.specs.Way.{IsOnWay, Hangs};
ghost use Rattle.tbtree.specs.Insert.{Grows, Begins, CanBegin, NamesLast};
ghost use Rattle.tbtree.specs.Joining.{Fills, InsertCall, JoinsAll};
ghost use Rattle.tbtree.specs.Payloads.{TakesLegs};
ghost use Rattle.tbtree.specs.Shape.{IsShape};

use crate::fault::TreeFault;
use crate::nodes;
use crate::payloads::cover_of_legs;
use crate::tree::{Place, TbTree, Top};
use legs::{Box3, Leg};
use pagecache::PageCache;
use pages::PageStore;
use tbnode::Entry;

/// No tree has as many levels: its leaves are fewer than 2^32.
const MOST_LEVELS: u32 = 34;

/// Widens the boxes above the level on the way to its page `at`, and gives that page.
#[tactic(auto, using(crate::proofs::PassLemmas::passing))]
fn way<S: PageStore>(
    cache: &mut PageCache<S>,
    tree: &TbTree,
    at: u32,
    level: u16,
    bounds: &Box3,
) -> Result<u32, TreeFault>
    requires level { level < tree.now.levels }
    requires few { tree.now.levels < 2 ^ 16 }
    ensures { Writes cache.old cache.new result (λ _. tree.now.levels) (level + 1)
        (IsOnWay leg_boxes tree.now.shape.inner tree.now.levels tree.now.root
        (pages_of_cache cache.old) (pages_of_cache cache.new) level at bounds.now result) }
{
    if u32::from(level) + 1 == tree.levels {
        return Ok(tree.root);
    }
    let inner = u32::from(tree.shape.inner());
    let parent = way(cache, tree, at / inner, level + 1, bounds)?;
    nodes::widen(cache, parent, level + 1, (at % inner) as usize, bounds)
}

/// Puts legs at the end of the leaf of that number, which has room, and widens the boxes above it once for all of them.
/// Where the way down ends at another page than `last`, that one is malformed.
#[tactic(auto, using(crate::proofs::PassLemmas::passing))]
fn into_leaf<S: PageStore>(
    cache: &mut PageCache<S>,
    tree: &TbTree,
    number: u32,
    last: u32,
    legs: &[Leg],
) -> Result<(), TreeFault>
    requires levels { 0 < tree.now.levels }
    requires few { tree.now.levels < 2 ^ 16 }
    requires some { 0 < length legs.now }
    ensures { Writes cache.old cache.new result (λ _. tree.now.levels) 0
        (Grows leg_boxes leg_feature tree.now.shape.inner tree.now.levels tree.now.root
        (pages_of_cache cache.old) (pages_of_cache cache.new) number last legs.now
        (λ leaf. TakesLegs tree.now.shape.leaf leaf legs.now) result) }
{
    let most = tree.shape.leaf();
    let bounds = cover_of_legs(legs);
    let page = way(cache, tree, number, 0, &bounds)?;
    if page != last {
        return Err(TreeFault::Malformed(last));
    }
    nodes::grow(cache, page, most, legs)
}

/// Makes a root above the old one, which is of that level, and a new block beside it.
#[tactic(auto, using(crate::proofs::PassLemmas::passing))]
fn root_over<S: PageStore>(
    cache: &mut PageCache<S>,
    tree: &TbTree,
    level: u16,
    child: &Entry,
) -> Result<Top, TreeFault>
    requires wide { 1 < tree.now.shape.inner }
    requires top { level + 1 ≡ tree.now.levels }
    requires few { tree.now.levels < 2 ^ 16 - 1 }
    ensures { Writes cache.old cache.new result (λ top. top.levels) level ((at : ℕ)
        → Hangs leg_boxes leg_feature tree.now.shape.inner tree.now.levels tree.now.root
        (pages_of_cache cache.old) (pages_of_cache cache.new) level at child.now.child
        child.now.bounds result) }
{
    let bounds = nodes::cover(cache, tree.root)?;
    let first = Entry {
        child: tree.root,
        bounds,
    };
    let root = nodes::add_root(cache, level + 1, &first, child)?;
    Ok(Top {
        root,
        levels: tree.levels + 1,
    })
}

/// Hangs the new block `at` of the level, whose page is `child`, into the right-most page of the level above.
#[tactic(auto, using(crate::proofs::PassLemmas::passing))]
fn hang<S: PageStore>(
    cache: &mut PageCache<S>,
    tree: &TbTree,
    at: u32,
    level: u16,
    child: &Entry,
) -> Result<Top, TreeFault>
    requires level { level < tree.now.levels }
    requires few { tree.now.levels < 2 ^ 16 - 1 }
    ensures { Writes cache.old cache.new result (λ top. top.levels) level
        (Hangs leg_boxes leg_feature tree.now.shape.inner tree.now.levels tree.now.root
        (pages_of_cache cache.old) (pages_of_cache cache.new) level at child.now.child
        child.now.bounds result) }
{
    let inner = u32::from(tree.shape.inner());
    if u32::from(level) + 1 == tree.levels {
        return root_over(cache, tree, level, child);
    }
    if at % inner == 0 {
        let page = nodes::add_inner(cache, level + 1, child)?;
        let block = Entry {
            child: page,
            bounds: child.bounds,
        };
        return hang(cache, tree, at / inner, level + 1, &block);
    }
    let parent = way(cache, tree, at / inner, level + 1, &child.bounds)?;
    nodes::attach(cache, parent, level + 1, tree.shape.inner(), child)?;
    Ok(Top {
        root: tree.root,
        levels: tree.levels,
    })
}

/// Puts legs into their feature's last leaf, which has room for them.
fn into_last<S: PageStore>(
    cache: &mut PageCache<S>,
    tree: &TbTree,
    place: &mut Place,
    legs: &[Leg],
) -> Result<(), TreeFault>
    requires levels { 0 < tree.now.levels }
    requires few { tree.now.levels < 2 ^ 16 }
    requires shape { IsShape tree.now.shape }
    requires some { 0 < length legs.now }
    requires there { 0 < place.old.legs % tree.now.shape.leaf }
    requires room { place.old.legs % tree.now.shape.leaf + length legs.now
        ≤ tree.now.shape.leaf }
    requires few_legs { place.old.legs + length legs.now < 2 ^ 64 }
    ensures { Writes cache.old cache.new result (λ _. tree.now.levels) 0
        (JoinsAll (pages_of_cache cache.old) (pages_of_cache cache.new) tree.now tree.now
        place.old place.new legs.now result) }
{
    into_leaf(cache, tree, place.last_index, place.last, legs)?;
    place.legs += legs.len() as u64;
    Ok(())
}

/// Makes a leaf of legs, after the leaf `last`, if there is one.
#[tactic(auto, using(crate::proofs::PassLemmas::passing))]
fn add_last<S: PageStore>(
    cache: &mut PageCache<S>,
    last: u32,
    legs: &[Leg],
) -> Result<u32, TreeFault>
    requires some { 0 < length legs.now }
    requires few { length legs.now ≤ 50 }
    ensures { Edits cache.old cache.new 2 result
        (Begins leg_feature (pages_of_cache cache.old) last legs.now (pages_of_cache cache.new))
        (CanBegin (pages_of_cache cache.old) last legs.now) }
{
    if last == 0 {
        return nodes::add_leaf(cache, last, legs);
    }
    if last >= cache.count() {
        return Err(TreeFault::Malformed(last));
    }
    let first = &legs[0];
    let page = nodes::add_leaf(cache, last, legs)?;
    nodes::link(cache, last, first.feature, page)?;
    Ok(page)
}

/// Hangs the page of a new leaf. The first leaf is the root.
#[tactic(auto, using(crate::proofs::PassLemmas::passing))]
fn hang_leaf<S: PageStore>(
    cache: &mut PageCache<S>,
    tree: &TbTree,
    page: &Entry,
) -> Result<Top, TreeFault>
    requires few { tree.now.levels < 2 ^ 16 - 1 }
    ensures { Writes cache.old cache.new result (λ top. top.levels) 0
        (Hangs leg_boxes leg_feature tree.now.shape.inner tree.now.levels tree.now.root
        (pages_of_cache cache.old) (pages_of_cache cache.new) 0 tree.now.leaves
        page.now.child page.now.bounds result) }
{
    if tree.levels == 0 {
        return Ok(Top {
            root: page.child,
            levels: 1,
        });
    }
    hang(cache, tree, tree.leaves, 0, page)
}

/// Puts legs into a leaf of their own.
#[tactic(auto, using(crate::proofs::PassLemmas::passing))]
fn begin<S: PageStore>(
    tree: &mut TbTree,
    cache: &mut PageCache<S>,
    place: &mut Place,
    legs: &[Leg],
) -> Result<(), TreeFault>
    requires shape { IsShape tree.old.shape }
    requires some { 0 < length legs.now }
    requires full { place.old.legs % tree.old.shape.leaf ≡ 0 }
    requires room { length legs.now ≤ tree.old.shape.leaf }
    requires few_legs { place.old.legs + length legs.now < 2 ^ 64 }
    requires few_leaves { tree.old.leaves < 2 ^ 32 - 1 }
    requires few_levels { tree.old.levels < 2 ^ 16 - 1 }
    requires root { tree.old.root < cache.old.count }
    ensures fills { Fills cache.old cache.new tree.old tree.new place.old place.new legs.now result }
    ensures asked { OnOk result (cache.new.asked
        ≤ cache.old.asked + (tree.new.levels + 2)) }
{
    let page = add_last(cache, place.last, legs)?;
    let bounds = cover_of_legs(legs);
    let leaf = Entry {
        child: page,
        bounds,
    };
    let top = hang_leaf(cache, tree, &leaf)?;
    let first = if place.last == 0 { page } else { place.first };
    *place = Place {
        first,
        last: page,
        last_index: tree.leaves,
        legs: place.legs + legs.len() as u64,
    };
    tree.root = top.root;
    tree.levels = top.levels;
    tree.leaves += 1;
    Ok(())
}

/// Whether a place has legs and names no last leaf, or has none and names one.
fn is_torn(place: &Place) -> bool
    ensures torn { result ≡ true → NamesLast place.now → ⊥ }
{
    if place.legs == 0 {
        place.last != 0
    } else {
        place.last == 0
    }
}

/// Puts legs into their feature's last leaf, which has room for them, or into a new one.
pub(crate) fn put<S: PageStore>(
    tree: &mut TbTree,
    cache: &mut PageCache<S>,
    place: &mut Place,
    legs: &[Leg],
) -> Result<(), TreeFault>
    requires some { 0 < length legs.now }
    requires room { 1 < length legs.now → place.old.legs % tree.old.shape.leaf + length legs.now
        ≤ tree.old.shape.leaf }
    ensures fills { Fills cache.old cache.new tree.old tree.new place.old place.new legs.now result }
    ensures asked { OnOk result (cache.new.asked
        ≤ cache.old.asked + (2 * (tree.new.levels - 1) + 4)) }
{
    let leaf = u64::from(tree.shape.leaf());
    if tree.leaves >= cache.count() || tree.levels >= MOST_LEVELS || place.legs > u64::MAX - leaf {
        return Err(TreeFault::Malformed(tree.root));
    }
    let root = tree.root;
    if root >= cache.count() {
        return Err(TreeFault::Malformed(root));
    }
    if is_torn(place) {
        return Err(TreeFault::Malformed(place.last));
    }
    if place.legs % leaf == 0 {
        return begin(tree, cache, place, legs);
    }
    if tree.levels == 0 {
        return Err(TreeFault::Malformed(place.last));
    }
    into_last(cache, tree, place, legs)
}

/// Puts a leg into the tree, at the place of its feature.
///
/// `Malformed` names a root that is not there, and page 0 if a root is to be put over it. It names
/// the last leaf of a place if the place has legs and names none, or has none and names one. A last
/// leaf that is not there is named before a new one is made behind it. Any error leaves the tree
/// spent. A spent tree returns `Spent`.
pub fn insert<S: PageStore>(
    tree: &mut TbTree,
    cache: &mut PageCache<S>,
    place: &mut Place,
    leg: Leg,
) -> Result<(), TreeFault>
    // It is put in as a list of one leg is.
    ensures call { InsertCall cache.old cache.new tree.old tree.new place.old place.new
        (leg ∷ []) result }
    // After `Ok` at most twice the root's height and four pages were asked for.
    ensures asked { OnOk result (cache.new.asked
        ≤ cache.old.asked + (2 * (tree.new.levels - 1) + 4)) }
{
    if tree.spent {
        return Err(TreeFault::Spent);
    }
    tree.spent = true;
    put(tree, cache, place, &[leg])?;
    tree.spent = false;
    Ok(())
}
