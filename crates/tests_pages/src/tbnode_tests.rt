//! Worked bytes, each byte changed in turn, and payloads without a form.
ghost use Rattle.std.specs.Prelude.{◌<◌};

use fixedpoint::Coord;
use legs::{Box3, Leg};
use mfcsv::Position;
use pages::{Kind, Payload};
use tbnode::*;
use timebase::Ms;

/// The leaf of feature `a` of the standard's example, written by hand from the layout.
const HEAD: [u8; 16] = [0, 0, 0, 0, 0, 0, 0, 0, 0, 0, 0, 0, 0, 2, 0, 0];

const FIRST: [u8; 80] = [
    0, 0, 0, 0, 0, 0, 0, 0, // ordinal 0
    0, 0, 0x01, 0x34, 0xeb, 0xa8, 0xbb, 0x98, // t0
    0, 0, 0x01, 0x34, 0xeb, 0xaa, 0xde, 0x78, // t1
    0, 0, 0, 0, 0x06, 0x8e, 0x77, 0x80, // x0
    0, 0, 0, 0, 0x01, 0x31, 0x2d, 0x00, // y0
    0, 0, 0, 0, 0, 0, 0, 0, // z0
    0, 0, 0, 0, 0x07, 0x27, 0x0e, 0x00, // x1
    0, 0, 0, 0, 0x01, 0xc9, 0xc3, 0x80, // y1
    0, 0, 0, 0, 0, 0, 0, 0, // z1
    0, 0, 0, 0, // row 0
    0, 0, 0, 0,
];

const SECOND: [u8; 80] = [
    0, 0, 0, 0, 0, 0, 0, 2, // ordinal 2
    0, 0, 0x01, 0x34, 0xeb, 0xaa, 0xde, 0x78, // t0
    0, 0, 0x01, 0x34, 0xeb, 0xab, 0x7a, 0xb8, // t1
    0, 0, 0, 0, 0x07, 0x27, 0x0e, 0x00, // x0
    0, 0, 0, 0, 0x01, 0xc9, 0xc3, 0x80, // y0
    0, 0, 0, 0, 0, 0, 0, 0, // z0
    0, 0, 0, 0, 0x05, 0xf5, 0xe1, 0x00, // x1
    0, 0, 0, 0, 0x01, 0xc9, 0xc3, 0x80, // y1
    0, 0, 0, 0, 0, 0, 0, 0, // z1
    0, 0, 0, 2, // row 2
    0, 0, 0, 0,
];

/// An inner page of level 1 with one entry: page 1, and the box of both legs.
const INNER: [u8; 72] = [
    0, 1, 0, 1, 0, 0, 0, 0, 0, 0, 0, 0, 0, 0, 0, 0, // level 1, one entry
    0, 0, 0, 1, 0, 0, 0, 0, // child 1
    0, 0, 0, 0, 0x05, 0xf5, 0xe1, 0x00, // least x
    0, 0, 0, 0, 0x01, 0x31, 0x2d, 0x00, // least y
    0, 0, 0x01, 0x34, 0xeb, 0xa8, 0xbb, 0x98, // least t
    0, 0, 0, 0, 0x07, 0x27, 0x0e, 0x00, // greatest x
    0, 0, 0, 0, 0x01, 0xc9, 0xc3, 0x80, // greatest y
    0, 0, 0x01, 0x34, 0xeb, 0xab, 0x7a, 0xb8, // greatest t
];

fn position(x: i64, y: i64, z: i64) -> Option<Position> {
    Some(Position {
        x: Coord::new(x)?,
        y: Coord::new(y)?,
        z: Coord::new(z)?,
    })
}

/// The first leg of feature `a` of the standard's example.
fn first() -> Option<Leg> {
    let (t0, t1) = (Ms::new(1_326_803_631_000)?, Ms::new(1_326_803_771_000)?);
    let from = position(110_000_000, 20_000_000, 0)?;
    let to = position(120_000_000, 30_000_000, 0)?;
    Leg::new(0, 0, t0, t1, from, to, 0)
}

/// Its second leg.
fn second() -> Option<Leg> {
    let (t0, t1) = (Ms::new(1_326_803_771_000)?, Ms::new(1_326_803_811_000)?);
    let from = position(120_000_000, 30_000_000, 0)?;
    let to = position(100_000_000, 30_000_000, 0)?;
    Leg::new(2, 0, t0, t1, from, to, 2)
}

/// The two legs of the example as a leaf.
fn worked_leaf() -> Option<Payload> {
    let mut payload = Payload::zero(Kind::Header);
    init_leaf(&mut payload, 0, &first()?);
    let second = second()?;
    if !leaf(&payload)?.takes(&second) {
        return None;
    }
    push_leg(&mut payload, &second);
    Some(payload)
}

/// The same, from the bytes written by hand.
fn worked_leaf_bytes() -> Payload {
    let mut bytes = [0; 4056];
    bytes[..16].copy_from_slice(&HEAD);
    bytes[16..96].copy_from_slice(&FIRST);
    bytes[96..176].copy_from_slice(&SECOND);
    Payload {
        kind: Kind::Leaf,
        bytes,
    }
}

fn leg_at(payload: &Payload, i: usize) -> Option<Leg> {
    let view = leaf(payload)?;
    if i < view.len() {
        Some(view.leg(i))
    } else {
        None
    }
}

#[test]
fn a_leaf_is_its_layout(rt: HostRuntime) {
    assert!(rt; worked_leaf() == Some(worked_leaf_bytes()));
    assert!(rt; leg_at(&worked_leaf_bytes(), 0) == first());
    assert!(rt; leg_at(&worked_leaf_bytes(), 1) == second());
    assert!(rt; leg_at(&worked_leaf_bytes(), 2).is_none());
}

fn leg_fields(leg: &Leg) -> [i128; 10] {
    [
        i128::from(leg.ordinal),
        i128::from(leg.t0.millis()),
        i128::from(leg.t1.millis()),
        i128::from(leg.x0.units()),
        i128::from(leg.y0.units()),
        i128::from(leg.z0.units()),
        i128::from(leg.x1.units()),
        i128::from(leg.y1.units()),
        i128::from(leg.z1.units()),
        i128::from(leg.row),
    ]
}

/// All fields of a leaf of two legs, in the order of the layout.
fn fields(payload: &Payload) -> Option<[i128; 23]> {
    let view = leaf(payload)?;
    if view.len() != 2 {
        return None;
    }
    let head = view.head();
    let mut all = [0; 23];
    all[0] = i128::from(head.feature);
    all[1] = i128::from(head.previous);
    all[2] = i128::from(head.next);
    all[3..13].copy_from_slice(&leg_fields(&view.leg(0)));
    all[13..23].copy_from_slice(&leg_fields(&view.leg(1)));
    Some(all)
}

/// The field that a byte of the described part belongs to.
fn field_at(place: usize) -> usize {
    if place < 12 {
        place / 4
    } else if place < 96 {
        3 + place.saturating_sub(16) / 8
    } else {
        13 + (place - 96) / 8
    }
}

/// Whether one field alone differs.
fn differs_alone(before: &[i128; 23], after: &[i128; 23], field: usize) -> bool {
    for i in 0..23 {
        if (before[i] == after[i]) == (i == field) {
            return false;
        }
    }
    true
}

/// Changes each byte of the described part of a leaf of two legs in turn: how many of the changes
/// leave no leaf; `None` where another field than the byte's own differs.
fn refusals(payload: &mut Payload) -> Option<u64> {
    let before = fields(payload)?;
    let mut count = 0u64;
    for place in 0..176 {
        payload.bytes[place] ^= 1;
        match fields(payload) {
            None => count = count.wrapping_add(1),
            Some(after) => {
                if !differs_alone(&before, &after, field_at(place)) {
                    return None;
                }
            }
        }
        payload.bytes[place] ^= 1;
    }
    Some(count)
}

/// Counted by hand: 4 in the head, 24 in the first leg, and 19 in the second.
#[test]
fn each_byte_is_one_field(rt: HostRuntime) {
    assert!(rt; refusals(&mut worked_leaf_bytes()) == Some(47));
}

/// Which of its two legs the worked leaf gives that is not tested, with another byte at a place; `None` where it is not
/// given at all.
fn untested_with(place: usize, byte: u8) -> Option<(bool, bool)>
    requires { place < 4056 }
{
    let mut payload = worked_leaf_bytes();
    payload.bytes[place] = byte;
    let view = untested(&payload)?;
    Some((view.leg(0).is_some(), view.leg(1).is_some()))
}

/// Changes of a byte of the worked leaf that is not tested, and which of its two legs it gives then.
const UNTESTED: [(usize, u8, Option<(bool, bool)>); 10] = [
    (13, 0, None),
    (13, 1, Some((true, false))),
    (13, 50, Some((true, true))),
    (13, 51, None),
    (14, 1, Some((true, true))),
    (24, 127, Some((false, true))),
    (95, 1, Some((false, true))),
    (103, 0, Some((true, true))),
    (112, 127, Some((true, false))),
    (120, 127, Some((true, false))),
];

/// The first change after which other legs are given, if any.
fn wrong_untested() -> Option<usize> {
    for (place, byte, given) in &UNTESTED {
        if *place < 4056 && untested_with(*place, *byte) != *given {
            return Some(*place);
        }
    }
    None
}

#[test]
fn a_leaf_that_is_not_tested_gives_lawful_legs_alone(rt: HostRuntime) {
    assert_eq!(rt; wrong_untested(), None);
    let payload = worked_leaf_bytes();
    let legs = untested(&payload).map(|view| (view.leg(0), view.leg(1), view.leg(2)));
    assert!(rt; legs == Some((first(), second(), None)));
}

fn entry_at(payload: &Payload, i: usize) -> Option<Entry> {
    let view = inner(payload)?;
    if i < view.len() {
        Some(view.entry(i))
    } else {
        None
    }
}

/// An entry whose bounds are the box of both legs of the example.
fn worked_entry(child: u32) -> Option<Entry> {
    let bounds = Box3::of(&first()?).cover(&Box3::of(&second()?));
    Some(Entry { child, bounds })
}

fn worked_inner_bytes() -> Payload {
    let mut bytes = [0; 4056];
    bytes[..72].copy_from_slice(&INNER);
    Payload {
        kind: Kind::Inner,
        bytes,
    }
}

fn worked_inner() -> Option<Payload> {
    let mut payload = worked_leaf_bytes();
    init_inner(&mut payload, 1, &worked_entry(1)?);
    Some(payload)
}

#[test]
fn an_inner_page_is_its_layout(rt: HostRuntime) {
    assert!(rt; worked_inner() == Some(worked_inner_bytes()));
    assert!(rt; entry_at(&worked_inner_bytes(), 0) == worked_entry(1));
    assert!(rt; entry_at(&worked_inner_bytes(), 1).is_none());
}

/// Whether the worked leaf, or the worked inner page, with another byte at a place is still one.
fn has_form_with(is_leaf: bool, place: usize, byte: u8) -> bool
    requires { place < 4056 }
{
    let mut payload = if is_leaf {
        worked_leaf_bytes()
    } else {
        worked_inner_bytes()
    };
    payload.bytes[place] = byte;
    if is_leaf {
        leaf(&payload).is_some()
    } else {
        inner(&payload).is_some()
    }
}

/// A byte at a place of the worked leaf, or else of the worked inner page, and whether it is one then. Of a leaf: another
/// number of legs, an ordinal that does not rise and one that does, and bytes that are not looked at. Of an inner page:
/// another level, number of entries, zero byte and least x, and a byte that is not looked at.
const FORMS: [(bool, usize, u8, bool); 14] = [
    (true, 13, 0, false),
    (true, 13, 1, true),
    (true, 13, 51, false),
    (true, 103, 0, false),
    (true, 103, 1, true),
    (true, 176, 1, true),
    (true, 4055, 255, true),
    (false, 1, 0, false),
    (false, 1, 2, true),
    (false, 3, 0, false),
    (false, 3, 73, false),
    (false, 15, 1, false),
    (false, 28, 8, false),
    (false, 72, 1, true),
];

#[test]
fn the_forms_of_a_leaf_and_of_an_inner_page(rt: HostRuntime) {
    for (is_leaf, place, byte, has_form) in FORMS {
        assert!(rt;
            place < 4056 && has_form_with(is_leaf, place, byte) == has_form,
            "{byte} at {place}"
        );
    }
    let mut payload = worked_leaf_bytes();
    payload.kind = Kind::Catalogue;
    assert!(rt; leaf(&payload).is_none() && inner(&payload).is_none());
}
