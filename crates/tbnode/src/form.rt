//! Which payloads are leaves, and which are inner pages.
ghost use Rattle.std.specs.Prelude.{◌≡◌, ◌&&◌, ◌==◌, ◌+◌, ◌*◌, ◌≤◌, length};
ghost use Rattle.tbnode.specs.Parts.{all_below, number_at};
ghost use Rattle.tbnode.specs.Nodes.{as_leaf, as_inner};
ghost use Rattle.tbnode.specs.Form.{is_leg_at, is_leaf, is_entry_at, is_inner};
ghost use Rattle.tbnode.specs.Form.{node_of};

use crate::entries::is_entry;
use crate::fields::{part, u16_at, u32_at, u64_at};
use crate::laid::{is_leg, ordinal_in};
use crate::views::{Inner, Leaf};
use pages::{Kind, Payload};

/// Whether leg `i` is lawful, and its ordinal above that of the leg before it.
#[tactic(auto, unfolding(crate::specs::Form::is_leg_at, crate::specs::Layout::leg_from_bytes))]
fn is_leg_at(bytes: &[u8], i: usize) -> bool
    requires { 96 + 80 * i ≤ length bytes.now }
    ensures { result ≡ is_leg_at bytes.now i }
{
    let leg = part(bytes, 16 + 80 * i, 80);
    if !is_leg(leg) {
        return false;
    }
    i == 0 || ordinal_in(part(bytes, 16 + 80 * (i - 1), 80)) < ordinal_in(leg)
}

/// Whether the first `count` legs are lawful, and their ordinals rise.
fn are_legs(bytes: &[u8], count: usize) -> bool
    requires { 16 + 80 * count ≤ length bytes.now }
    ensures { result ≡ all_below (is_leg_at bytes.now) count }
{
    for i in 0..count {
        if !is_leg_at(bytes, i) {
            return false;
        }
    }
    true
}

/// Whether bytes have the form of a leaf.
#[tactic(auto, unfolding(crate::specs::Form::is_leaf))]
fn is_leaf(bytes: &[u8]) -> bool
    requires { length bytes.now ≡ 4056 }
    ensures { result ≡ is_leaf bytes.now }
{
    let count = u16_at(bytes, 12);
    1 <= count && count <= 50 && u16_at(bytes, 14) == 0 && are_legs(bytes, usize::from(count))
}

/// Whether the first `count` entries have their bounds in order.
fn are_entries(bytes: &[u8], count: usize) -> bool
    requires { 16 + 56 * count ≤ length bytes.now }
    ensures { result ≡ all_below (is_entry_at bytes.now) count }
{
    for i in 0..count {
        if !is_entry(part(bytes, 16 + 56 * i, 56)) {
            return false;
        }
    }
    true
}

/// Whether the twelve bytes after the level and the count are zero.
fn is_head_clear(bytes: &[u8]) -> bool
    requires { 16 ≤ length bytes.now }
    ensures { result ≡ ((number_at 8 4 bytes.now == 0) && (number_at 4 12 bytes.now == 0)) }
{
    u64_at(bytes, 4) == 0 && u32_at(bytes, 12) == 0
}

/// Whether bytes have the form of an inner page.
#[tactic(auto, unfolding(crate::specs::Form::is_inner))]
fn is_inner(bytes: &[u8]) -> bool
    requires { length bytes.now ≡ 4056 }
    ensures { result ≡ is_inner bytes.now }
{
    let count = u16_at(bytes, 2);
    1 <= u16_at(bytes, 0)
        && 1 <= count
        && count <= 72
        && is_head_clear(bytes)
        && are_entries(bytes, usize::from(count))
}

/// The payload as a leaf; `None` where it does not have the form: kind `Leaf`, a count from 1 to
/// `MOST_LEGS`, zero bytes zero, lawful legs, and rising ordinals. The bytes behind the last leg
/// are not looked at.
pub fn leaf(payload: &Payload) -> Option<Leaf<'_>>
    ensures { result ≡ as_leaf (node_of payload.now) }
{
    match payload.kind {
        Kind::Leaf => {
            if is_leaf(&payload.bytes) {
                Some(Leaf::over(payload))
            } else {
                None
            }
        }
        _ => None,
    }
}

/// The payload as an inner page; `None` where it does not have the form: kind `Inner`, a level from
/// 1 on, a count from 1 to `MOST_ENTRIES`, zero bytes zero, and bounds in order. The bytes behind
/// the last entry are not looked at.
pub fn inner(payload: &Payload) -> Option<Inner<'_>>
    ensures { result ≡ as_inner (node_of payload.now) }
{
    match payload.kind {
        Kind::Inner => {
            if is_inner(&payload.bytes) {
                Some(Inner::over(payload))
            } else {
                None
            }
        }
        _ => None,
    }
}
