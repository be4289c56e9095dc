//! A payload that is read as a leaf without the test of its form.
ghost use Rattle.std.specs.Prelude.{◌≡◌, length, IfSome, IsSome};
ghost use Rattle.tbnode.specs.Form.{node_of, is_counted};
ghost use Rattle.tbnode.specs.Nodes.{as_leaf};
ghost use Rattle.tbnode.specs.declared.views.TheConstants.{MOST_LEGS};

use crate::fields::{part, u16_at, u32_at};
use crate::laid::{is_live_in, is_near_in, some_leg};
use crate::views::LeafHead;
use legs::{Leg, Rect};
use pages::{Kind, Payload};
use std::marker::Model;
use timebase::Period;

/// A payload of kind `Leaf` that counts from 1 to `MOST_LEGS` legs, which are not tested.
///
/// Where the payload is a leaf, each answer is that of the leaf. Where it is none, an answer may be anything; so it is
/// for a page that is known to be a leaf, and then costs nothing for the legs that are not asked for.
#[derive(Drop)]
pub struct UntestedLeaf<'a> {
    payload: &'a Payload,
}

impl<'a> Model for UntestedLeaf<'a> {
    ghost use Rattle.std.specs.Prelude.{◌≡◌, true};
    ghost use Rattle.pages.specs.declared.payload.Payload.{Payload};
    ghost use Rattle.tbnode.specs.Form.{is_counted};

    ghost Value = { Payload };

    ghost view = { λ l. l.payload.now };

    ghost invariant = { λ l. is_counted l.payload.now.bytes ≡ true };
}

impl<'a> UntestedLeaf<'a> {
    ghost use Rattle.std.specs.Prelude.{◌≡◌, ◌≤◌, false, length, slice_get};
    ghost use Rattle.std.specs.Option.{option_map_or};
    ghost use Rattle.legs.specs.Boxes.{is_near};
    ghost use Rattle.legs.specs.Legs.{is_live};
    ghost use Rattle.tbnode.specs.Form.{OfLeaf};

    /// Its feature and its neighbours.
    #[tactic(auto, unfolding(crate::specs::Form::leaf_from_bytes))]
    pub fn head(&self) -> LeafHead
        // If the payload is a leaf, it is the leaf's feature.
        ensures feature { OfLeaf self.now (λ leaf. result.feature ≡ leaf.feature) }
        // If the payload is a leaf, it is the page of the leaf before it.
        ensures previous { OfLeaf self.now (λ leaf. result.previous ≡ leaf.previous) }
        // If the payload is a leaf, it is the page of the leaf after it.
        ensures next { OfLeaf self.now (λ leaf. result.next ≡ leaf.next) }
    {
        LeafHead {
            feature: u32_at(&self.payload.bytes, 0),
            previous: u32_at(&self.payload.bytes, 4),
            next: u32_at(&self.payload.bytes, 8),
        }
    }

    /// How many legs it counts: from 1 to `MOST_LEGS`.
    pub fn len(&self) -> usize
        // If the payload is a leaf, it is the number of its legs.
        ensures value { OfLeaf self.now (λ leaf. result ≡ length leaf.legs) }
        // It is at least 1, whatever the payload is.
        ensures least { 1 ≤ result }
        // It is at most `MOST_LEGS`, whatever the payload is.
        ensures most { result ≤ MOST_LEGS }
    {
        usize::from(u16_at(&self.payload.bytes, 12))
    }

    /// Leg `i` of a leaf, from 0; `None` where there is none. Of a payload that is no leaf it is some lawful leg, or `None`.
    pub fn leg(&self, i: usize) -> Option<Leg>
        ensures { OfLeaf self.now (λ leaf. result ≡ slice_get leaf.legs i) }
    {
        if i >= self.len() {
            return None;
        }
        let bytes = &self.payload.bytes;
        some_leg(part(bytes, 16 + 80 * i, 80), u32_at(bytes, 0))
    }

    /// Whether there is a leg `i` and it is live in a period, by its two moments alone.
    pub fn is_live(&self, i: usize, period: &Period) -> bool
        ensures { OfLeaf self.now (λ leaf. result
            ≡ option_map_or (is_live period.now) (slice_get leaf.legs i) false) }
    {
        i < self.len() && is_live_in(part(&self.payload.bytes, 16 + 80 * i, 80), period)
    }

    /// Whether there is a leg `i` and its box meets a rectangle in the plane, by its two positions alone.
    pub fn is_near(&self, i: usize, rect: &Rect) -> bool
        ensures { OfLeaf self.now (λ leaf. result
            ≡ option_map_or (is_near rect.now) (slice_get leaf.legs i) false) }
    {
        i < self.len() && is_near_in(part(&self.payload.bytes, 16 + 80 * i, 80), rect)
    }
}

/// Whether bytes count from 1 to `MOST_LEGS` legs.
#[tactic(auto, unfolding(crate::specs::Form::is_counted))]
fn is_counted(bytes: &[u8]) -> bool
    requires { length bytes.now ≡ 4056 }
    ensures { result ≡ is_counted bytes.now }
{
    let count = u16_at(bytes, 12);
    1 <= count && count <= 50
}

/// The payload as a leaf whose legs are not tested; `None` where its kind is not `Leaf`, or its count of legs not from 1
/// to `MOST_LEGS`.
pub fn untested(payload: &Payload) -> Option<UntestedLeaf<'_>>
    // The view is of that payload.
    ensures value { IfSome result (λ leaf. leaf ≡ payload.now) }
    // A payload that is a leaf always has one.
    ensures some { IsSome (as_leaf (node_of payload.now)) → IsSome result }
{
    match payload.kind {
        Kind::Leaf => {
            if is_counted(&payload.bytes) {
                Some(UntestedLeaf { payload })
            } else {
                None
            }
        }
        _ => None,
    }
}
