//! Calls of `tbnode`, many of one kind.
use crate::command_line::Words;
use crate::feed::position;
use anyhow::{Result, bail};
use legs::{Box3, Leg};
use pages::{Kind, Payload};
use tbnode::{
    Entry, MOST_ENTRIES, init_inner, init_leaf, inner, leaf, push_entry, push_leg, set_next, widen,
};
use timebase::Ms;

fn leg(ordinal: u64) -> Option<Leg> {
    let (t0, t1) = (Ms::new(1_000)?, Ms::new(2_000)?);
    Leg::new(ordinal, 3, t0, t1, position(10, 20)?, position(30, 15)?, 7)
}

/// Pushes a leg where the payload is a leaf that takes it.
fn push(payload: &mut Payload, leg: &Leg) -> bool {
    let Some(view) = leaf(payload) else {
        return false;
    };
    if !view.takes(leg) {
        return false;
    }
    push_leg(payload, leg);
    true
}

fn full_leaf() -> Option<Payload> {
    let mut payload = Payload::zero(Kind::Leaf);
    init_leaf(&mut payload, 0, &leg(0)?);
    for ordinal in 1..50 {
        push(&mut payload, &leg(ordinal)?);
    }
    Some(payload)
}

fn hang(payload: &mut Payload, entry: &Entry) -> bool {
    let Some(view) = inner(payload) else {
        return false;
    };
    if view.len() >= MOST_ENTRIES {
        return false;
    }
    push_entry(payload, entry);
    true
}

fn full_inner() -> Option<Payload> {
    let bounds = Box3::of(&leg(0)?);
    let mut payload = Payload::zero(Kind::Inner);
    init_inner(&mut payload, 1, &Entry { child: 1, bounds });
    for child in 2..73 {
        hang(&mut payload, &Entry { child, bounds });
    }
    Some(payload)
}

fn previous(payload: &Payload) -> u64 {
    match leaf(payload) {
        Some(view) => u64::from(view.head().previous),
        None => 0,
    }
}

fn leaves(payload: &mut Payload, count: u32) -> u64 {
    let mut sum = 0u64;
    for _ in 0..count {
        payload.bytes[7] ^= 1;
        sum = sum.wrapping_add(previous(payload));
    }
    sum
}

fn sum_of_legs(payload: &Payload) -> u64 {
    let mut sum = 0u64;
    if let Some(view) = leaf(payload) {
        for i in 0..view.len() {
            let leg = view.leg(i);
            sum = sum.wrapping_add(leg.ordinal);
            sum = sum.wrapping_add(leg.x1.units().unsigned_abs());
            sum = sum.wrapping_add(leg.t1.millis().unsigned_abs());
        }
    }
    sum
}

fn legs_read(payload: &mut Payload, count: u32) -> u64 {
    let mut sum = 0u64;
    for _ in 0..count {
        sum = sum.wrapping_add(sum_of_legs(payload));
        payload.bytes[4055] ^= 1;
    }
    sum
}

fn level(payload: &Payload) -> u64 {
    match inner(payload) {
        Some(view) => u64::from(view.head().level),
        None => 0,
    }
}

fn inners(payload: &mut Payload, count: u32) -> u64 {
    let mut sum = 0u64;
    for _ in 0..count {
        payload.bytes[0] ^= 1;
        sum = sum.wrapping_add(level(payload));
    }
    sum
}

fn sum_of_entries(payload: &Payload, query: &Box3) -> u64 {
    let mut sum = 0u64;
    if let Some(view) = inner(payload) {
        for i in 0..view.len() {
            let entry = view.entry(i);
            if entry.bounds.meets(query) {
                sum = sum.wrapping_add(u64::from(entry.child));
            }
        }
    }
    sum
}

fn entries_read(payload: &mut Payload, count: u32) -> u64 {
    let query = Box3::everything();
    let mut sum = 0u64;
    for _ in 0..count {
        sum = sum.wrapping_add(sum_of_entries(payload, &query));
        payload.bytes[4055] ^= 1;
    }
    sum
}

fn pushes(count: u32) -> Option<u64> {
    let mut payload = full_leaf()?;
    let mut sum = 0u64;
    for i in 0..count {
        let next = leg(u64::from(i))?;
        if push(&mut payload, &next) {
            sum = sum.wrapping_add(1);
        } else {
            init_leaf(&mut payload, 0, &next);
        }
    }
    Some(sum)
}

fn link(payload: &mut Payload, next: u32) -> bool {
    if leaf(payload).is_none() {
        return false;
    }
    set_next(payload, next);
    true
}

fn links(payload: &mut Payload, count: u32) -> u64 {
    let mut sum = 0u64;
    for i in 0..count {
        sum = sum.wrapping_add(u64::from(link(payload, i)));
    }
    sum
}

fn widen_at(payload: &mut Payload, i: usize, bounds: &Box3) -> bool {
    let Some(view) = inner(payload) else {
        return false;
    };
    if i >= view.len() {
        return false;
    }
    widen(payload, i, bounds);
    true
}

fn widens(payload: &mut Payload, count: u32) -> u64 {
    let bounds = Box3::everything();
    let mut sum = 0u64;
    for i in 0..count {
        let place = (i % 72) as usize;
        sum = sum.wrapping_add(u64::from(widen_at(payload, place, &bounds)));
    }
    sum
}

fn news(payload: &mut Payload, count: u32) -> Option<u64> {
    let first = leg(0)?;
    let mut sum = 0u64;
    for i in 0..count {
        init_leaf(payload, i, &first);
        sum = sum.wrapping_add(u64::from(payload.bytes[(i % 4056) as usize]));
    }
    Some(sum)
}

fn measured(kind: &str, count: u32) -> Option<u64> {
    match kind {
        "leaf" => Some(leaves(&mut full_leaf()?, count)),
        "legs" => Some(legs_read(&mut full_leaf()?, count)),
        "inner" => Some(inners(&mut full_inner()?, count)),
        "entries" => Some(entries_read(&mut full_inner()?, count)),
        "push" => pushes(count),
        "next" => Some(links(&mut full_leaf()?, count)),
        "widen" => Some(widens(&mut full_inner()?, count)),
        "new" => news(&mut full_leaf()?, count),
        _ => None,
    }
}

/// `CALL COUNT`: prints a sum of what the calls gave.
pub(crate) fn run(rt: &HostRuntime, mut words: Words) -> Result<()> {
    let kind = words.text("call")?;
    let count = words.number("count")?;
    let Some(sum) = measured(kind.as_str(), count) else {
        bail!("no such call");
    };
    println!(rt; "{sum}")?;
    Ok(())
}
