//! Leaves of version 1: worked bytes, and payloads without the form.
ghost use Rattle.std.specs.Prelude.{◌<◌};

use crate::samples::example;
use legs::Leg;
use pages::{Kind, Payload};
use version1::old_leaf;

/// The leaf of feature `a` of the standard's example, written by hand from the layout.
const HEAD: [u8; 16] = [0, 0, 0, 0, 0, 0, 0, 0, 0, 0, 0, 0, 0, 2, 0, 0];

const FIRST: [u8; 64] = [
    0, 0, 0, 0, 0, 0, 0, 0, // ordinal 0
    0, 0, 0x01, 0x34, 0xeb, 0xa8, 0xbb, 0x98, // t0
    0, 0, 0x01, 0x34, 0xeb, 0xaa, 0xde, 0x78, // t1
    0, 0, 0, 0, 0x06, 0x8e, 0x77, 0x80, // x0
    0, 0, 0, 0, 0x01, 0x31, 0x2d, 0x00, // y0
    0, 0, 0, 0, 0x07, 0x27, 0x0e, 0x00, // x1
    0, 0, 0, 0, 0x01, 0xc9, 0xc3, 0x80, // y1
    0, 0, 0, 0, // row 0
    0, 0, 0, 0,
];

const SECOND: [u8; 64] = [
    0, 0, 0, 0, 0, 0, 0, 2, // ordinal 2
    0, 0, 0x01, 0x34, 0xeb, 0xaa, 0xde, 0x78, // t0
    0, 0, 0x01, 0x34, 0xeb, 0xab, 0x7a, 0xb8, // t1
    0, 0, 0, 0, 0x07, 0x27, 0x0e, 0x00, // x0
    0, 0, 0, 0, 0x01, 0xc9, 0xc3, 0x80, // y0
    0, 0, 0, 0, 0x05, 0xf5, 0xe1, 0x00, // x1
    0, 0, 0, 0, 0x01, 0xc9, 0xc3, 0x80, // y1
    0, 0, 0, 2, // row 2
    0, 0, 0, 0,
];

fn worked_leaf() -> Payload {
    let mut bytes = [0; 4056];
    bytes[..16].copy_from_slice(&HEAD);
    bytes[16..80].copy_from_slice(&FIRST);
    bytes[80..144].copy_from_slice(&SECOND);
    Payload {
        kind: Kind::Leaf,
        bytes,
    }
}

/// The first leg of feature `a` of the standard's example.
fn first() -> Option<Leg> {
    let legs = example()?;
    Some(legs[0])
}

/// Its second leg.
fn second() -> Option<Leg> {
    let legs = example()?;
    Some(legs[2])
}

fn leg_at(payload: &Payload, i: usize) -> Option<Leg> {
    let view = old_leaf(payload)?;
    if i < view.len() {
        Some(view.leg(i))
    } else {
        None
    }
}

#[test]
fn an_old_leaf_is_its_layout(rt: HostRuntime) {
    assert!(rt; leg_at(&worked_leaf(), 0) == first());
    assert!(rt; leg_at(&worked_leaf(), 1) == second());
    assert!(rt; leg_at(&worked_leaf(), 2).is_none());
}

/// Whether the worked leaf with another byte at a place is still a leaf.
fn leaf_with(place: usize, byte: u8) -> bool
    requires { place < 4056 }
{
    let mut payload = worked_leaf();
    payload.bytes[place] = byte;
    old_leaf(&payload).is_some()
}

/// A byte at a place of the worked leaf, and whether it is a leaf then: the count, a zero byte of the head and of a leg,
/// an ordinal that does not rise and one that does, a moment and a coordinate out of range, and bytes that are not
/// looked at.
const FORMS: [(usize, u8, bool); 10] = [
    (13, 0, false),
    (13, 1, true),
    (13, 3, false),
    (15, 1, false),
    (143, 1, false),
    (87, 0, false),
    (87, 1, true),
    (24, 1, false),
    (64, 1, false),
    (144, 1, true),
];

#[test]
fn the_form_of_an_old_leaf(rt: HostRuntime) {
    for (place, byte, is_leaf) in FORMS {
        assert!(rt;
            place < 4056 && leaf_with(place, byte) == is_leaf,
            "{byte} at {place}"
        );
    }
    let mut payload = worked_leaf();
    payload.kind = Kind::Inner;
    assert!(rt; old_leaf(&payload).is_none());
}
