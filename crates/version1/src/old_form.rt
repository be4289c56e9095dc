//! The leaves of a store of version 1. Its inner pages are those of the present version.
ghost use Rattle.std.specs.Prelude.{◌≡◌, ◌+◌, ◌*◌, ◌≤◌, length};
ghost use Rattle.tbnode.specs.Parts.{all_below};
ghost use Rattle.tbnode.specs.Nodes.{as_leaf};
ghost use Rattle.version1.specs.OldForm.{is_old_leg_at, is_old_leaf, old_node_of};

use crate::old_laid::{is_old_leg, old_leg_in, old_ordinal_in};
use legs::Leg;
use pages::{Kind, Payload};
use std::marker::Model;
use tbnode::LeafHead;
use tbnode::fields::{part, u16_at, u32_at};
use treecheck::AnyLeaf;

/// The most legs that a leaf of version 1 has room for.
pub const MOST_OLD_LEGS: usize = 63;

/// A payload as a leaf of version 1: from 1 to `MOST_OLD_LEGS` legs of one feature, with rising
/// ordinals. Such legs have the height 0.
///
/// It borrows the payload, and decodes a leg each time that it is asked for.
#[derive(Drop)]
pub struct OldLeaf<'a> {
    payload: &'a Payload,
}

impl<'a> Model for OldLeaf<'a> {
    ghost use Rattle.std.specs.Prelude.{◌≡◌, true};
    ghost use Rattle.legs.specs.Legs.{LegView};
    ghost use Rattle.tbnode.specs.Nodes.{LeafView};
    ghost use Rattle.version1.specs.OldForm.{is_old_leaf, old_leaf_of};

    ghost Value = { LeafView LegView };

    ghost view = { λ l. old_leaf_of l.payload.now.bytes };

    ghost invariant = { λ l. is_old_leaf l.payload.now.bytes ≡ true };
}

impl<'a> OldLeaf<'a> {
    ghost use Rattle.std.specs.Prelude.{◌≡◌, ◌<◌, ◌≤◌, true, Some, length, slice_get};
    ghost use Rattle.version1.specs.OldForm.{is_old_leaf, old_leaf_of};

    /// The leaf of a payload that has its form.
    fn over(payload: &'a Payload) -> OldLeaf<'a>
        requires { is_old_leaf payload.now.bytes ≡ true }
        ensures { result ≡ old_leaf_of payload.now.bytes }
    {
        OldLeaf { payload }
    }

    /// Its feature and its neighbours.
    #[tactic(auto, unfolding(crate::specs::OldForm::old_leaf_of))]
    pub fn head(&self) -> LeafHead
        // The feature of the leaf's legs.
        ensures feature { result.feature ≡ self.now.feature }
        // The page of the leaf before it, 0 for none.
        ensures previous { result.previous ≡ self.now.previous }
        // The page of the leaf after it, 0 for none.
        ensures next { result.next ≡ self.now.next }
    {
        LeafHead {
            feature: u32_at(&self.payload.bytes, 0),
            previous: u32_at(&self.payload.bytes, 4),
            next: u32_at(&self.payload.bytes, 8),
        }
    }

    /// How many legs it has: from 1 to `MOST_OLD_LEGS`.
    pub fn len(&self) -> usize
        // It is the number of the leaf's legs.
        ensures value { result ≡ length self.now.legs }
        // There is at least one.
        ensures least { 1 ≤ result }
        // There are at most `MOST_OLD_LEGS`.
        ensures most { result ≤ MOST_OLD_LEGS }
    {
        usize::from(u16_at(&self.payload.bytes, 12))
    }

    /// Leg `i`, from 0.
    pub fn leg(&self, i: usize) -> Leg
        // The leaf has a leg of that number.
        requires { i < length self.now.legs }
        // It is exactly that leg.
        ensures value { slice_get self.now.legs i ≡ Some result }
        // It is of the leaf's feature.
        ensures feature { result.feature ≡ self.now.feature }
    {
        let bytes = &self.payload.bytes;
        old_leg_in(part(bytes, 16 + 64 * i, 64), u32_at(bytes, 0))
    }
}

impl<'a> AnyLeaf for OldLeaf<'a> {
    ghost says = { λ leaf. leaf };

    fn head(&self) -> LeafHead {
        self.head()
    }

    fn len(&self) -> usize {
        self.len()
    }

    fn leg(&self, i: usize) -> Leg {
        self.leg(i)
    }
}

/// Whether leg `i` is lawful, and its ordinal above that of the leg before it.
#[tactic(auto, unfolding(crate::specs::OldForm::is_old_leg_at, crate::specs::OldForm::old_leg_of))]
fn is_old_leg_at(bytes: &[u8], i: usize) -> bool
    requires { 80 + 64 * i ≤ length bytes.now }
    ensures { result ≡ is_old_leg_at bytes.now i }
{
    let leg = part(bytes, 16 + 64 * i, 64);
    if !is_old_leg(leg) {
        return false;
    }
    i == 0 || old_ordinal_in(part(bytes, 16 + 64 * (i - 1), 64)) < old_ordinal_in(leg)
}

/// Whether the first `count` legs are lawful, and their ordinals rise.
fn are_old_legs(bytes: &[u8], count: usize) -> bool
    requires { 16 + 64 * count ≤ length bytes.now }
    ensures { result ≡ all_below (is_old_leg_at bytes.now) count }
{
    for i in 0..count {
        if !is_old_leg_at(bytes, i) {
            return false;
        }
    }
    true
}

/// Whether bytes have the form of a leaf of version 1.
#[tactic(auto, unfolding(crate::specs::OldForm::is_old_leaf))]
fn is_old_leaf(bytes: &[u8]) -> bool
    requires { length bytes.now ≡ 4056 }
    ensures { result ≡ is_old_leaf bytes.now }
{
    let count = usize::from(u16_at(bytes, 12));
    1 <= count && count <= MOST_OLD_LEGS && u16_at(bytes, 14) == 0 && are_old_legs(bytes, count)
}

/// The payload as a leaf of version 1; `None` where it does not have the form: kind `Leaf`, a count
/// from 1 to `MOST_OLD_LEGS`, zero bytes zero, lawful legs, and rising ordinals. The bytes behind
/// the last leg are not looked at.
pub fn old_leaf(payload: &Payload) -> Option<OldLeaf<'_>>
    ensures { result ≡ as_leaf (old_node_of payload.now) }
{
    match payload.kind {
        Kind::Leaf => {
            if is_old_leaf(&payload.bytes) {
                Some(OldLeaf::over(payload))
            } else {
                None
            }
        }
        _ => None,
    }
}
