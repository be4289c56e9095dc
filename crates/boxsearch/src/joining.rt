//! Legs that are put into an index over pages leaf by leaf.
ghost use Rattle.std.specs.Prelude.{◌≡◌, ◌++◌, ◌<◌, drop, false, length, All, IfOk, OnOk};
ghost use Rattle.boxsearch.specs.Taking.{Taking, taken};
ghost use Rattle.boxsearch.specs.declared.turns.Turn.{Turn};

use crate::answers::answer;
use crate::tree_index::TreeIndex;
use crate::turns::Turn;
use legs::{IndexFault, Leg};
use pages::PageStore;
use std::alloc::AllocError;

/// Takes the legs of the next turns, as long as they are of one leaf and of one feature, and gives
/// that feature.
fn next_run(run: &mut Vec<Leg>, legs: &[Leg], turns: &[Turn]) -> Result<u32, AllocError>
    requires some { 0 < length turns.now }
    requires within { All (λ (turn : Turn). turn.place < length legs.now) turns.now }
    ensures some { OnOk result (0 < length run.new.items) }
    ensures run { OnOk result (taken legs.now turns.now
        ≡ run.new.items ++ taken legs.now (drop (length run.new.items) turns.now)) }
    ensures one { IfOk result (λ feature. All (λ leg. leg.feature ≡ feature) run.new.items) }
{
    run.clear();
    let leaf = turns[0].leaf;
    let first = legs[turns[0].place as usize];
    let feature = first.feature;
    run.push(first)?;
    let mut n = 1;
    'turns: while n < turns.len() {
        let leg = legs[turns[n].place as usize];
        if turns[n].leaf != leaf || leg.feature != feature {
            return Ok(feature);
        }
        run.push(leg)?;
        n += 1;
    }
    Ok(feature)
}

/// Puts legs of one feature into its leaves, whatever the order of the legs before them. Legs that
/// skip a feature have no turns, so that there is a place for each.
fn join<S: PageStore>(
    index: &mut TreeIndex<S>,
    feature: usize,
    legs: &[Leg],
) -> Result<(), IndexFault>
    requires works { index.old.tree.spent ≡ false }
    requires some { 0 < length legs.now }
    requires one { All (λ leg. leg.feature ≡ feature) legs.now }
    ensures { Taking index.old index.new legs.now result }
{
    if index.make_place(feature).is_err() {
        index.tree.spent = true;
        return Err(IndexFault::Memory);
    }
    if feature >= index.places.len() {
        index.tree.spent = true;
        return Err(IndexFault::Memory);
    }
    answer(index.put_all(feature, legs))
}

/// Puts legs into an index in the order of their turns, those of one leaf at once.
pub(crate) fn join_all<S: PageStore>(
    index: &mut TreeIndex<S>,
    legs: &[Leg],
    turns: &[Turn],
) -> Result<(), IndexFault>
    requires works { index.old.tree.spent ≡ false }
    requires within { All (λ (turn : Turn). turn.place < length legs.now) turns.now }
    ensures { Taking index.old index.new (taken legs.now turns.now) result }
{
    let mut run = Vec::new(index.alloc);
    let mut from = 0;
    'runs: while from < turns.len() {
        let feature = match next_run(&mut run, legs, &turns[from..]) {
            Ok(feature) => feature as usize,
            Err(_fault) => {
                index.tree.spent = true;
                return Err(IndexFault::Memory);
            }
        };
        join(index, feature, run.as_slice())?;
        from += run.len();
    }
    Ok(())
}
