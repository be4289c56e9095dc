//! Changes of payloads. But for a payload made anew, the bytes behind the last leg, or behind the
//! last entry, stay as they were.
ghost use Rattle.std.specs.Prelude.{◌≡◌, ◌<◌, ◌≤◌, drop, length, Some, IsSome, option_map};
ghost use Rattle.std.specs.Option.{ForSome};
ghost use Rattle.tbnode.specs.Nodes.{as_leaf, as_inner};
ghost use Rattle.tbnode.specs.Parts.{number_at};
ghost use Rattle.tbnode.specs.Layout.{leg_bytes, entry_bytes};
ghost use Rattle.tbnode.specs.Form.{node_of, slack_of};
ghost use Rattle.tbnode.specs.Edits.{TakesLeg, new_leaf, leaf_with_leg, leaf_with_next};
ghost use Rattle.tbnode.specs.Edits.{new_inner, inner_with_entry, inner_with_wider};
ghost use Rattle.tbnode.specs.declared.views.TheConstants.{MOST_ENTRIES};
ghost use Rattle.tbnode.specs.Steps.{LegReadsBack, EntryReadsBack, pushed};

use crate::entries::{Entry, entry_in};
use crate::fields::{part, put, put_u16, put_u32, u16_at};
use crate::{entries, laid};
use legs::{Box3, Leg};
use pages::{Kind, Payload};

/// Writes a leg behind the legs that are there, and counts it.
fn append_leg(bytes: &mut [u8], leg: &Leg)
    requires len { length bytes.old ≡ 4056 }
    requires room { number_at 2 12 bytes.old < 50 }
    ensures pushed { bytes.new ≡ pushed 80 12 (leg_bytes leg.now) bytes.old }
    ensures reads_back { LegReadsBack leg.now }
{
    let count = u16_at(bytes, 12);
    put(bytes, 16 + 80 * usize::from(count), &laid::bytes_of(leg));
    put_u16(bytes, 12, count + 1);
}

/// Writes an entry behind the entries that are there, and counts it.
fn append_entry(bytes: &mut [u8], entry: &Entry)
    requires len { length bytes.old ≡ 4056 }
    requires room { number_at 2 2 bytes.old < 72 }
    ensures pushed { bytes.new ≡ pushed 56 2 (entry_bytes entry.now) bytes.old }
    ensures reads_back { EntryReadsBack entry.now }
{
    let count = u16_at(bytes, 2);
    put(
        bytes,
        16 + 56 * usize::from(count),
        &entries::bytes_of(entry),
    );
    put_u16(bytes, 2, count + 1);
}

/// Makes a payload a leaf of one leg, of the leg's feature, with no next leaf. All else that the
/// payload held is gone.
pub fn init_leaf(payload: &mut Payload, previous: u32, leg: &Leg)
    // The payload is then exactly that leaf.
    ensures node { node_of payload.new ≡ Some (new_leaf previous leg.now) }
{
    *payload = Payload::zero(Kind::Leaf);
    put_u32(&mut payload.bytes, 0, leg.feature);
    put_u32(&mut payload.bytes, 4, previous);
    append_leg(&mut payload.bytes, leg);
}

/// Puts a leg at the end of a leaf that takes it: there is room for it, it is of the leaf's
/// feature, and its ordinal is above that of the last leg. No other field changes.
pub fn push_leg(payload: &mut Payload, leg: &Leg)
    // The payload is a leaf.
    requires leaf { IsSome (as_leaf (node_of payload.old)) }
    // The leaf takes the leg.
    requires takes { ForSome (as_leaf (node_of payload.old)) (λ leaf. TakesLeg leaf leg.now) }
    // The leaf has that leg at its end, and is otherwise as it was.
    ensures node { node_of payload.new
        ≡ option_map (leaf_with_leg leg.now) (as_leaf (node_of payload.old)) }
    // The bytes behind the new leg stay as they were.
    ensures rest { slack_of payload.new ≡ drop 80 (slack_of payload.old) }
{
    append_leg(&mut payload.bytes, leg);
}

/// Links a leaf to the next one of its feature. No other field changes.
pub fn set_next(payload: &mut Payload, next: u32)
    // The payload is a leaf.
    requires { IsSome (as_leaf (node_of payload.old)) }
    // The leaf names that next leaf, and is otherwise as it was.
    ensures node { node_of payload.new
        ≡ option_map (leaf_with_next next) (as_leaf (node_of payload.old)) }
    // The bytes behind the legs stay as they were.
    ensures rest { slack_of payload.new ≡ slack_of payload.old }
{
    put_u32(&mut payload.bytes, 8, next);
}

/// Makes a payload an inner page of one entry, on a level above the leaves. All else that the
/// payload held is gone.
pub fn init_inner(payload: &mut Payload, level: u16, entry: &Entry)
    // It is above the leaves.
    requires { 1 ≤ level }
    // The payload is then exactly that inner page.
    ensures node { node_of payload.new ≡ Some (new_inner level entry.now) }
{
    *payload = Payload::zero(Kind::Inner);
    put_u16(&mut payload.bytes, 0, level);
    append_entry(&mut payload.bytes, entry);
}

/// Puts an entry at the end of an inner page that has room for it. No other field changes.
pub fn push_entry(payload: &mut Payload, entry: &Entry)
    // The payload is an inner page.
    requires inner { IsSome (as_inner (node_of payload.old)) }
    // There is room for an entry.
    requires room { ForSome (as_inner (node_of payload.old))
        (λ page. length page.entries < MOST_ENTRIES) }
    // The page has that entry at its end, and is otherwise as it was.
    ensures node { node_of payload.new
        ≡ option_map (inner_with_entry entry.now) (as_inner (node_of payload.old)) }
    // The bytes behind the new entry stay as they were.
    ensures rest { slack_of payload.new ≡ drop 56 (slack_of payload.old) }
{
    append_entry(&mut payload.bytes, entry);
}

/// Widens the bounds of entry `i` of an inner page to the least box that holds `bounds` as well. No
/// other field changes.
pub fn widen(payload: &mut Payload, i: usize, bounds: &Box3)
    // The payload is an inner page.
    requires inner { IsSome (as_inner (node_of payload.old)) }
    // It has an entry of that number.
    requires within { ForSome (as_inner (node_of payload.old)) (λ page. i < length page.entries) }
    // The bounds of that entry hold the box too, and the page is otherwise as it was.
    ensures node { node_of payload.new
        ≡ option_map (inner_with_wider i bounds.now) (as_inner (node_of payload.old)) }
    // The bytes behind the entries stay as they were.
    ensures rest { slack_of payload.new ≡ slack_of payload.old }
{
    let place = 16 + 56 * i;
    let mut entry = entry_in(part(&payload.bytes, place, 56));
    entry.bounds = entry.bounds.cover(bounds);
    put(&mut payload.bytes, place, &entries::bytes_of(&entry));
}
