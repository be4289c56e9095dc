//! The order in which legs fill leaf after leaf.
ghost use Rattle.std.specs.Prelude.{◌≡◌, ◌+◌, ◌<◌, ◌≤◌, ◌^◌, length, IfOk, IfErr, OnOk};
ghost use Rattle.std.specs.List.Sorted.{IsPermutation, IsNonDecreasingBy};
ghost use Rattle.legs.specs.Index.{SkipNone};
ghost use Rattle.boxsearch.specs.Turns.{leaf_for, open_after, opened_from, turn_number, turns_from, IsTurnFault};

use legs::{IndexFault, Leg};
use std::alloc::{AllocError, Global};
use tbtree::Place;

/// The turn of a leg: the number of the leaf that takes it, and its place among the legs. The leaves that are there
/// are numbered by their features, and those that are to be made by the places of their first legs, behind them.
#[derive(Clone, Copy)]
pub(crate) struct Turn {
    pub(crate) leaf: u32,
    pub(crate) place: u32,
}

/// The last leaf of a feature: how many legs it has, none where it is full, and its number.
#[derive(Clone, Copy)]
pub(crate) struct Open {
    pub(crate) filled: u64,
    pub(crate) leaf: u32,
}

/// The last leaves of the features that are there.
fn opened(alloc: Global, places: &[Place], most: u64) -> Result<Vec<Open>, AllocError>
    requires some { 0 < most }
    requires few { length places.now < 2 ^ 32 }
    ensures { IfOk result (λ ends. ends.items ≡ opened_from most 0 places.now) }
{
    let mut ends = Vec::with_capacity(alloc, places.len())?;
    for feature in 0..places.len() {
        let place = places[feature];
        ends.push(Open {
            filled: place.legs % most,
            leaf: feature as u32,
        })?;
    }
    Ok(ends)
}

/// The number of the leaf that takes the next leg of a feature; it is `made` where the leg begins one.
#[tactic(auto, unfolding(crate::specs::Turns::leaf_for, crate::specs::Turns::open_after))]
fn take(ends: &mut Vec<Open>, most: u64, feature: usize, made: u32) -> Result<u32, IndexFault>
    requires some { 0 < most }
    ensures leaf { IfOk result (λ leaf. leaf ≡ leaf_for ends.old.items feature made) }
    ensures after { OnOk result (ends.new.items ≡ open_after most ends.old.items feature made) }
    ensures refused { IfErr result (IsTurnFault (feature ≤ length ends.old.items → ⊥)) }
{
    if feature == ends.len() {
        ends.push(Open {
            filled: 0,
            leaf: made,
        })?;
    }
    if feature >= ends.len() {
        return Err(IndexFault::Spent);
    }
    let last = ends[feature];
    let leaf = if last.filled == 0 { made } else { last.leaf };
    ends[feature] = Open {
        filled: last.filled.saturating_add(1) % most,
        leaf,
    };
    Ok(leaf)
}

/// The turns of legs, in order: leaf by leaf, and those of one leaf as they stand.
pub(crate) fn turns_of(
    alloc: Global,
    places: &[Place],
    most: u64,
    legs: &[Leg],
) -> Result<Vec<Turn>, IndexFault>
    requires some { 0 < most }
    ensures few { OnOk result (length places.now + length legs.now < 2 ^ 32) }
    ensures permutation { IfOk result (λ turns. IsPermutation
        (turns_from most (opened_from most 0 places.now) (length places.now) 0 legs.now)
        turns.items) }
    ensures rises { IfOk result (λ turns. IsNonDecreasingBy turn_number turns.items) }
    ensures refused { IfErr result (IsTurnFault (SkipNone (length places.now) legs.now → ⊥)) }
{
    if places.len() > u32::MAX as usize || legs.len() > u32::MAX as usize - places.len() {
        return Err(IndexFault::Memory);
    }
    let mut ends = opened(alloc, places, most)?;
    let mut turns = Vec::with_capacity(alloc, legs.len())?;
    for place in 0..legs.len() {
        let leg = legs[place];
        let made = (places.len() + place) as u32;
        let leaf = take(&mut ends, most, leg.feature as usize, made)?;
        turns.push(Turn {
            leaf,
            place: place as u32,
        })?;
    }
    turns.sort_unstable_by_key(|turn: &Turn| {
        u64::from(turn.leaf) * 4_294_967_296 + u64::from(turn.place)
    });
    Ok(turns)
}
