//! Many legs of one feature, put in leaf by leaf.
ghost use Rattle.std.specs.Prelude.{◌<◌, ◌≤◌, ◌+◌, ◌%◌};
ghost use Rattle.tbtree.specs.Joining.{Fills, InsertCall};

use crate::fault::TreeFault;
use crate::insertion::put;
use crate::tree::{Place, TbTree};
use legs::Leg;
use pagecache::PageCache;
use pages::PageStore;

/// How many of `left` legs are put in at once, after so many of their feature in leaves of at most
/// `leaf` legs: what the last leaf has room for, or what a leaf takes where one is to be made.
fn fitting(leaf: u16, legs: u64, left: usize) -> usize
    requires leaf { 0 < leaf }
    requires some { 0 < left }
    ensures some { 0 < result }
    ensures most { result ≤ left }
    ensures room { legs % leaf + result ≤ leaf }
{
    let leaf = u64::from(leaf);
    let room = (leaf - legs % leaf) as usize;
    if room < left { room } else { left }
}

/// Puts legs of one feature into its last leaf, and then into new ones.
#[tactic(auto, using(crate::proofs::PassLemmas::passing))]
fn put_all<S: PageStore>(
    tree: &mut TbTree,
    cache: &mut PageCache<S>,
    place: &mut Place,
    legs: &[Leg],
) -> Result<(), TreeFault>
    ensures { Fills cache.old cache.new tree.old tree.new place.old place.new legs.now result }
{
    let leaf = tree.shape.leaf();
    let mut from = 0;
    'leaves: while from < legs.len() {
        let many = fitting(leaf, place.legs, legs.len() - from);
        put(tree, cache, place, &legs[from..from + many])?;
        from += many;
    }
    Ok(())
}

/// Puts legs of one feature into the tree, one after another, at the place of the feature: first
/// into its last leaf, then into new leaves. The last leaf, and the pages above it, are widened
/// once for all the legs that it takes. A new leaf is added with all its legs.
///
/// Any error leaves the tree spent. A spent tree returns `Spent`.
pub fn insert_all<S: PageStore>(
    tree: &mut TbTree,
    cache: &mut PageCache<S>,
    place: &mut Place,
    legs: &[Leg],
) -> Result<(), TreeFault>
    // Pages that hold legs hold them with these too, and a refusal is for good.
    ensures { InsertCall cache.old cache.new tree.old tree.new place.old place.new legs.now
        result }
{
    if tree.spent {
        return Err(TreeFault::Spent);
    }
    tree.spent = true;
    put_all(tree, cache, place, legs)?;
    tree.spent = false;
    Ok(())
}
