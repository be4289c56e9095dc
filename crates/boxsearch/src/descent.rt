//! The search, level by level.
ghost use Rattle.std.specs.Prelude.{ℕ, ◌≡◌, ◌+◌, ◌<◌, List, Some, Err, true, false};
ghost use Rattle.std.specs.Prelude.{length, slice_get, OnOk, IfErr, IsTrue};
ghost use Rattle.legs.specs.Costs.{RisesBy, search_cost};
ghost use Rattle.legs.specs.Hull.{leg_boxes};
ghost use Rattle.legs.specs.Index.{legs_in_box};
ghost use Rattle.legs.specs.Legs.{LegView};
ghost use Rattle.tbtree.specs.Descent.{children_met, hits, HasInner};
ghost use Rattle.tbtree.specs.Faults.{GivesRead};
ghost use Rattle.tbtree.specs.Insert.{Stands};
ghost use Rattle.tbtree.specs.Nodes.{pages_of_cache, HasLeaf};
ghost use Rattle.tbtree.specs.declared.fault.TreeFault.{TreeFault};
ghost use Rattle.boxsearch.specs.Way.{meets, LevelCall, Searches};

use crate::nodes::{push_children, push_legs};
use legs::{Box3, Leg};
use pagecache::PageCache;
use pages::PageStore;
use std::alloc::Global;
use tbtree::{TbTree, TreeFault};

/// Why a search was refused.
pub type SearchFault = TreeFault;

/// The pages of the next level whose boxes meet.
#[tactic(auto, using(chains::proofs::ReadLemmas::reading))]
fn next_level<S: PageStore>(
    alloc: Global,
    cache: &mut PageCache<S>,
    pages: &[u32],
    level: u32,
    query: &Box3,
) -> Result<Vec<u32>, TreeFault>
    ensures { LevelCall (λ nodes p. HasInner nodes p level)
        (λ nodes p. children_met (meets query.now) nodes p) pages.now cache.old cache.new
        (λ below. below.items) result }
{
    let mut below = Vec::new(alloc);
    for i in 0..pages.len() {
        push_children(cache, pages[i], &pages[i + 1..], level, query, &mut below)?;
    }
    Ok(below)
}

/// The legs of some leaves whose boxes meet.
#[tactic(auto, using(chains::proofs::ReadLemmas::reading))]
fn legs_in<S: PageStore>(
    alloc: Global,
    cache: &mut PageCache<S>,
    pages: &[u32],
    query: &Box3,
) -> Result<Vec<Leg>, TreeFault>
    ensures { LevelCall (λ nodes p. HasLeaf nodes p)
        (λ nodes p. hits leg_boxes (meets query.now) nodes p) pages.now cache.old cache.new
        (λ found. found.items) result }
{
    let mut found = Vec::new(alloc);
    for i in 0..pages.len() {
        push_legs(cache, pages[i], &pages[i + 1..], query, &mut found)?;
    }
    Ok(found)
}

/// Takes pages from the number of those that may still be asked for.
fn spend(left: &mut usize, pages: &[u32]) -> Result<(), TreeFault>
    ensures ok { OnOk result (left.new + length pages.now ≡ left.old) }
    ensures err { IfErr result (λ fault. (left.old < length pages.now)
        × (page : ℕ) × (slice_get pages.now left.old ≡ Some page)
        × (fault ≡ TreeFault.Malformed page)) }
{
    if *left < pages.len() {
        return Err(TreeFault::Malformed(pages[*left]));
    }
    *left -= pages.len();
    Ok(())
}

/// The legs of a tree that is not spent.
#[tactic(auto, using(chains::proofs::ReadLemmas::reading))]
fn collected<S: PageStore>(
    alloc: Global,
    cache: &mut PageCache<S>,
    tree: &TbTree,
    query: &Box3,
) -> Result<Vec<Leg>, TreeFault>
    ensures { Searches query.now tree.now cache.old cache.new (λ found. found.items) result }
{
    if tree.levels == 0 {
        return Ok(Vec::new(alloc));
    }
    let mut left = cache.count() as usize;
    let mut pages = Vec::new(alloc);
    pages.push(tree.root)?;
    spend(&mut left, &pages)?;
    for level in 1..tree.levels {
        pages = next_level(alloc, cache, &pages, tree.levels - level, query)?;
        spend(&mut left, &pages)?;
    }
    let mut found = legs_in(alloc, cache, &pages, query)?;
    found.sort_by_key(|leg: &Leg| leg.ordinal)?;
    Ok(found)
}

/// The legs of a tree whose boxes meet a box, each once, in the order in which they were accepted.
///
/// Pages are read level by level from the root down. A page that is not the inner page or the leaf
/// that the tree expects there is `Malformed`. Where a level has more pages than are left of as many
/// as the store has, none of them is read, and one of them is `Malformed`. What else the cache
/// refuses is `Cache`, and so is want of memory for the legs or the numbers of pages. A spent tree
/// is `Spent`.
#[tactic(auto, using(chains::proofs::ReadLemmas::reading))]
pub fn search<S: PageStore>(
    alloc: Global,
    cache: &mut PageCache<S>,
    tree: &TbTree,
    query: &Box3,
) -> Result<Vec<Leg>, SearchFault>
    // Of pages that stand for a list: exactly its legs whose boxes meet; only a failed store and
    // want of memory refuse.
    ensures found { tree.now.spent ≡ false → IsTrue cache.old.store.is_faithful
        → (legs : List LegView) (pages : ℕ → List ℕ)
        → Stands (pages_of_cache cache.old) tree.now legs pages
        → GivesRead result (λ found. found.items ≡ legs_in_box query.now legs) }
    // Over such pages it asks once for the root, and once for each other block whose box meets.
    ensures asked { IsTrue cache.old.store.is_faithful
        → (legs : List LegView) (pages : ℕ → List ℕ)
        → Stands (pages_of_cache cache.old) tree.now legs pages
        → OnOk result (RisesBy cache.old.asked cache.new.asked
        (search_cost query.now (Some tree.now.shape) legs)) }

    // Of any pages: the legs of the pages that are met, each of which is what the tree expects, or
    // one that is not is named.
    ensures searches { Searches query.now tree.now cache.old cache.new (λ found. found.items) result }

    // A spent tree is refused, and nothing is read.
    ensures spent { tree.now.spent ≡ true
        → (result ≡ Err TreeFault.Spent) × (cache.new ≡ cache.old) }
{
    if tree.spent {
        return Err(TreeFault::Spent);
    }
    prove!(tree.shape.leaf() > 0);
    collected(alloc, cache, tree, query)
}
