//! What a payload is as a page of a tree.
ghost use Rattle.std.specs.Prelude.{◌≡◌, ◌<◌, ◌≤◌, ◌↔◌, IfSome, IsTrue, false, true, None, Some, length, option_map};
ghost use Rattle.legs.specs.Hull.{hull, leg_boxes};
ghost use Rattle.tbnode.specs.Form.{node_of};
ghost use Rattle.tbnode.specs.Nodes.{as_leaf};
ghost use Rattle.tbtree.specs.Nodes.{boxes, cover_all};
ghost use Rattle.tbtree.specs.Payloads.{IsEntry, HasNoEntry, IsLastLeaf, Takes, TakesLegs, IsRoomy, are_of_one_leaf, cover_of_node, goes_on, leaf_of_legs, leaf_with_legs};

use legs::{Box3, Leg};
use pages::{Kind, Payload};
use tbnode::{Inner, Leaf};

/// The child of entry `entry` of a payload that is an inner page of that level.
pub(crate) fn child_of(payload: &Payload, level: u16, entry: usize) -> Option<u32>
    ensures some { IfSome result (IsEntry (node_of payload.now) level entry) }
    ensures none { result ≡ None → HasNoEntry (node_of payload.now) level entry }
{
    let page = tbnode::inner(payload)?;
    if page.head().level != level || entry >= page.len() {
        return None;
    }
    Some(page.entry(entry).child)
}

/// Whether legs are of a feature, and their ordinals rise from above a number.
fn goes_on(feature: u32, ordinal: u64, legs: &[Leg]) -> bool
    ensures { result ≡ goes_on feature ordinal legs.now }
{
    let mut last = ordinal;
    for leg in legs {
        if leg.feature != feature || leg.ordinal <= last {
            return false;
        }
        last = leg.ordinal;
    }
    true
}

/// Whether a leaf takes legs, and has at most `most` with them.
fn leaf_takes(leaf: &Leaf<'_>, most: u16, legs: &[Leg]) -> bool
    ensures { IsTrue result ↔ TakesLegs most leaf.now legs.now }
{
    let len = leaf.len();
    let last = leaf.leg(len - 1);
    len + legs.len() <= usize::from(most) && goes_on(leaf.head().feature, last.ordinal, legs)
}

/// Whether a payload is a leaf that takes legs, and has at most `most` with them.
pub(crate) fn takes(payload: &Payload, most: u16, legs: &[Leg]) -> bool
    ensures { IsTrue result ↔ Takes (node_of payload.now) most legs.now }
{
    match tbnode::leaf(payload) {
        Some(leaf) => leaf_takes(&leaf, most, legs),
        None => false,
    }
}

/// Puts legs at the end of a leaf that takes them.
pub(crate) fn push_legs(payload: &mut Payload, legs: &[Leg])
    requires takes { Takes (node_of payload.old) 50 legs.now }
    ensures { node_of payload.new
        ≡ option_map (leaf_with_legs legs.now) (as_leaf (node_of payload.old)) }
{
    for leg in legs {
        tbnode::push_leg(payload, leg);
    }
}

/// The payload of a leaf of legs, with that leaf before it and none after it; `None` where the legs
/// are of two features, or their ordinals do not rise.
pub(crate) fn leaf_of_legs(previous: u32, legs: &[Leg]) -> Option<Payload>
    requires some { 0 < length legs.now }
    requires few { length legs.now ≤ 50 }
    ensures some { IfSome result
        (λ payload. node_of payload ≡ Some (leaf_of_legs previous legs.now)) }
    ensures one { IfSome result (λ _. are_of_one_leaf legs.now ≡ true) }
    ensures none { result ≡ None → are_of_one_leaf legs.now ≡ false }
{
    let first = &legs[0];
    let others = &legs[1..];
    if !goes_on(first.feature, first.ordinal, others) {
        return None;
    }
    let mut payload = Payload::zero(Kind::Leaf);
    tbnode::init_leaf(&mut payload, previous, first);
    push_legs(&mut payload, others);
    Some(payload)
}

/// Whether a payload is a leaf of that feature with none behind it.
pub(crate) fn is_last_leaf(payload: &Payload, feature: u32) -> bool
    ensures { IsTrue result ↔ IsLastLeaf (node_of payload.now) feature }
{
    match tbnode::leaf(payload) {
        Some(leaf) => leaf.head().feature == feature && leaf.head().next == 0,
        None => false,
    }
}

/// Whether a payload is an inner page of that level and of less than `most` entries.
pub(crate) fn has_room(payload: &Payload, level: u16, most: u16) -> bool
    ensures { IsTrue result ↔ IsRoomy (node_of payload.now) level most }
{
    match tbnode::inner(payload) {
        Some(page) => page.head().level == level && page.len() < usize::from(most),
        None => false,
    }
}

/// The least box that holds the legs of a leaf.
fn cover_of_leaf(leaf: &Leaf<'_>) -> Box3
    ensures { hull leg_boxes leaf.now.legs ≡ Some result }
{
    let mut i = leaf.len() - 1;
    let mut bounds = Box3::of(&leaf.leg(i));
    'legs: while i > 0 {
        i -= 1;
        bounds = Box3::of(&leaf.leg(i)).cover(&bounds);
    }
    bounds
}

/// The least box that holds legs.
pub(crate) fn cover_of_legs(legs: &[Leg]) -> Box3
    requires some { 0 < length legs.now }
    ensures { hull leg_boxes legs.now ≡ Some result }
{
    let mut i = legs.len() - 1;
    let mut bounds = Box3::of(&legs[i]);
    'legs: while i > 0 {
        i -= 1;
        bounds = Box3::of(&legs[i]).cover(&bounds);
    }
    bounds
}

/// The least box that holds the boxes of an inner page.
fn cover_of_inner(page: &Inner<'_>) -> Box3
    ensures { cover_all leg_boxes (boxes page.now) ≡ Some result }
{
    let mut i = page.len() - 1;
    let mut bounds = page.entry(i).bounds;
    'entries: while i > 0 {
        i -= 1;
        bounds = page.entry(i).bounds.cover(&bounds);
    }
    bounds
}

/// The least box that holds all that a payload has as a page of a tree: the legs of a leaf, or the boxes of an inner page;
/// `None` where it is neither.
pub fn cover_of(payload: &Payload) -> Option<Box3>
    ensures { result ≡ cover_of_node (node_of payload.now) }
{
    if let Some(leaf) = tbnode::leaf(payload) {
        return Some(cover_of_leaf(&leaf));
    }
    match tbnode::inner(payload) {
        Some(page) => Some(cover_of_inner(&page)),
        None => None,
    }
}
