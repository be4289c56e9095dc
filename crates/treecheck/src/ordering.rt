//! What a check asks of the legs and leaves of all features together.
ghost use Rattle.std.specs.Prelude.{◌≡◌, ◌↔◌, Some, length, map, slice_get, IsTrue};
ghost use Rattle.std.specs.List.{range_with_len};
ghost use Rattle.std.specs.List.Sorted.{IsPermutation, IsNonDecreasingBy};
ghost use Rattle.tbtree.specs.Turn.{IsRising};
ghost use Rattle.treecheck.specs.Ordering.{HaveLegs, NameLast};
ghost use Rattle.treecheck.specs.declared.walking.Met.{Met};

use crate::walking::Met;
use tbtree::Place;

/// Whether numbers are those from 0 on, in order.
fn is_range(numbers: &[u64]) -> bool
    ensures { IsTrue result ↔ (numbers.now ≡ range_with_len 0 (length numbers.now)) }
{
    for i in 0..numbers.len() {
        if numbers[i] != i as u64 {
            return false;
        }
    }
    true
}

/// Whether ordinals are those from 0 on, each once. They are put in order.
pub fn are_once(ordinals: &mut Vec<u64>) -> bool
    ensures { IsTrue result
        ↔ IsPermutation ordinals.old.items (range_with_len 0 (length ordinals.old.items)) }
{
    ordinals.sort_unstable();
    is_range(ordinals.as_slice())
}

/// Whether each number is above the one before it.
pub fn rise(numbers: &[u64]) -> bool
    ensures { IsTrue result ↔ IsRising (λ n. n) numbers.now }
{
    for i in 1..numbers.len() {
        if numbers[i] <= numbers[i - 1] {
            return false;
        }
    }
    true
}

/// Puts leaves in the order of their first legs.
pub fn sort_leaves(leaves: &mut Vec<Met>)
    // The leaves are the same ones.
    ensures permutation { IsPermutation leaves.old.items leaves.new.items }
    // No leaf begins with an earlier leg than the one before it.
    ensures rises { IsNonDecreasingBy (λ (m : Met). m.first) leaves.new.items }
{
    leaves.sort_unstable_by_key(|leaf: &Met| leaf.first);
}

/// Whether the first leg of each leaf comes after that of the one before it.
pub fn leaves_rise(leaves: &[Met]) -> bool
    ensures { IsTrue result ↔ IsRising (λ (m : Met). m.first) leaves.now }
{
    for i in 1..leaves.len() {
        if leaves[i].first <= leaves[i - 1].first {
            return false;
        }
    }
    true
}

/// Whether each place has a leg.
pub fn have_legs(places: &[Place]) -> bool
    ensures { IsTrue result ↔ HaveLegs places.now }
{
    for place in places {
        if place.legs == 0 {
            return false;
        }
    }
    true
}

/// Whether the leaf at that index is on the page.
fn is_on(leaves: &[Met], index: u32, page: u32) -> bool
    ensures { IsTrue result ↔ (slice_get (map (λ (m : Met). m.page) leaves.now) index ≡ Some page) }
{
    match leaves.get(index as usize) {
        Some(leaf) => leaf.page == page,
        None => false,
    }
}

/// Whether each place says where its last leaf is among the leaves.
pub fn name_last(places: &[Place], leaves: &[Met]) -> bool
    ensures { IsTrue result ↔ NameLast places.now leaves.now }
{
    for place in places {
        if !is_on(leaves, place.last_index, place.last) {
            return false;
        }
    }
    true
}
