//! Payloads as leaves and as inner pages.
use crate::entries::{Entry, entry_in};
use crate::fields::{part, u16_at, u32_at};
use crate::laid::leg_in;
use legs::Leg;
use pages::Payload;
use std::marker::Model;

/// The most legs that a leaf has room for.
pub const MOST_LEGS: usize = 50;

/// The most entries that an inner page has room for.
pub const MOST_ENTRIES: usize = 72;

/// What a leaf says of itself.
#[derive(Clone, Copy, PartialEq, Eq, Debug)]
pub struct LeafHead {
    /// The feature of its legs.
    pub feature: u32,
    /// The page of the feature's leaf before it; 0 where it is the first.
    pub previous: u32,
    /// The page of the feature's leaf after it; 0 where it is the last.
    pub next: u32,
}

/// A payload as a leaf: from 1 to `MOST_LEGS` legs of one feature, with rising ordinals.
///
/// It borrows the payload, and decodes a leg each time that it is asked for.
#[derive(Drop)]
pub struct Leaf<'a> {
    payload: &'a Payload,
}

impl<'a> Model for Leaf<'a> {
    ghost use Rattle.std.specs.Prelude.{◌≡◌, true};
    ghost use Rattle.legs.specs.Legs.{LegView};
    ghost use Rattle.tbnode.specs.Nodes.{LeafView};
    ghost use Rattle.tbnode.specs.Form.{is_leaf, leaf_from_bytes};

    ghost Value = { LeafView LegView };

    ghost view = { λ l. leaf_from_bytes l.payload.now.bytes };

    ghost invariant = { λ l. is_leaf l.payload.now.bytes ≡ true };
}

impl<'a> Leaf<'a> {
    ghost use Rattle.std.specs.Prelude.{◌≡◌, ◌<◌, ◌≤◌, ◌↔◌, true, Some, IsTrue, length, slice_get};
    ghost use Rattle.tbnode.specs.Edits.{TakesLeg};
    ghost use Rattle.tbnode.specs.Form.{is_leaf, leaf_from_bytes};

    /// The leaf of a payload that has its form.
    pub(crate) fn over(payload: &'a Payload) -> Leaf<'a>
        requires { is_leaf payload.now.bytes ≡ true }
        ensures { result ≡ leaf_from_bytes payload.now.bytes }
    {
        Leaf { payload }
    }

    /// Its feature and its neighbours.
    #[tactic(auto, unfolding(crate::specs::Form::leaf_from_bytes))]
    pub fn head(&self) -> LeafHead
        // The feature of the leaf's legs.
        ensures feature { result.feature ≡ self.now.feature }
        // The page of the leaf before it, 0 for none.
        ensures previous { result.previous ≡ self.now.previous }
        // The page of the leaf after it, 0 for none.
        ensures next { result.next ≡ self.now.next }
    {
        LeafHead {
            feature: u32_at(&self.payload.bytes, 0),
            previous: u32_at(&self.payload.bytes, 4),
            next: u32_at(&self.payload.bytes, 8),
        }
    }

    /// How many legs it has: from 1 to `MOST_LEGS`.
    pub fn len(&self) -> usize
        // It is the number of the leaf's legs.
        ensures value { result ≡ length self.now.legs }
        // There is at least one.
        ensures least { 1 ≤ result }
        // There are at most `MOST_LEGS`.
        ensures most { result ≤ MOST_LEGS }
    {
        usize::from(u16_at(&self.payload.bytes, 12))
    }

    /// Leg `i`, from 0.
    pub fn leg(&self, i: usize) -> Leg
        // The leaf has a leg of that number.
        requires { i < length self.now.legs }
        // It is exactly that leg.
        ensures value { slice_get self.now.legs i ≡ Some result }
        // It is of the leaf's feature.
        ensures feature { result.feature ≡ self.now.feature }
    {
        let bytes = &self.payload.bytes;
        leg_in(part(bytes, 16 + 80 * i, 80), u32_at(bytes, 0))
    }

    /// Whether a leg can be pushed as its next one: there is room for it, it is of the feature, and
    /// its ordinal is above that of the last leg.
    pub fn takes(&self, leg: &Leg) -> bool
        ensures { IsTrue result ↔ TakesLeg self.now leg.now }
    {
        let len = self.len();
        let last = self.leg(len - 1);
        len < MOST_LEGS && leg.feature == self.head().feature && last.ordinal < leg.ordinal
    }
}

/// What an inner page says of itself.
#[derive(Clone, Copy, PartialEq, Eq, Debug)]
pub struct InnerHead {
    /// How many levels it is above the leaves: from 1.
    pub level: u16,
}

/// A payload as an inner page: from 1 to `MOST_ENTRIES` entries, on a level above the leaves.
///
/// It borrows the payload, and decodes an entry each time that it is asked for.
#[derive(Drop)]
pub struct Inner<'a> {
    payload: &'a Payload,
}

impl<'a> Model for Inner<'a> {
    ghost use Rattle.std.specs.Prelude.{◌≡◌, true};
    ghost use Rattle.legs.specs.Boxes.{BoxView};
    ghost use Rattle.tbnode.specs.Nodes.{InnerView};
    ghost use Rattle.tbnode.specs.Form.{is_inner, inner_of};

    ghost Value = { InnerView BoxView };

    ghost view = { λ p. inner_of p.payload.now.bytes };

    ghost invariant = { λ p. is_inner p.payload.now.bytes ≡ true };
}

impl<'a> Inner<'a> {
    ghost use Rattle.std.specs.Prelude.{◌≡◌, ◌<◌, ◌≤◌, true, Some, length, slice_get};
    ghost use Rattle.tbnode.specs.Form.{is_inner, inner_of};

    /// The inner page of a payload that has its form.
    pub(crate) fn over(payload: &'a Payload) -> Inner<'a>
        requires { is_inner payload.now.bytes ≡ true }
        ensures { result ≡ inner_of payload.now.bytes }
    {
        Inner { payload }
    }

    /// Its level.
    #[tactic(auto, unfolding(crate::specs::Form::inner_of))]
    pub fn head(&self) -> InnerHead
        ensures level { result.level ≡ self.now.level }
    {
        InnerHead {
            level: u16_at(&self.payload.bytes, 0),
        }
    }

    /// How many entries it has: from 1 to `MOST_ENTRIES`.
    pub fn len(&self) -> usize
        // It is the number of the page's entries.
        ensures value { result ≡ length self.now.entries }
        // There is at least one.
        ensures least { 1 ≤ result }
        // There are at most `MOST_ENTRIES`.
        ensures most { result ≤ MOST_ENTRIES }
    {
        usize::from(u16_at(&self.payload.bytes, 2))
    }

    /// Entry `i`, from 0.
    pub fn entry(&self, i: usize) -> Entry
        // The page has an entry of that number.
        requires { i < length self.now.entries }
        // It is exactly that entry.
        ensures { slice_get self.now.entries i ≡ Some result }
    {
        entry_in(part(&self.payload.bytes, 16 + 56 * i, 56))
    }
}
