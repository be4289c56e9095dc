//! A leg that crosses, touches or misses a rectangle.
use crate::plane::{leg, period, rect};
use clipping::*;
use legs::Leg;
use std::process::Abort;
use std::test::Fail;

/// Whether a fraction is num / den.
fn is_part(part: Frac, (num, den): (i64, i64)) -> bool {
    part.num as i128 * den as i128 == num as i128 * part.den as i128
}

/// Whether a leg was cut at these parts of it, or not at all.
fn is_between(cut: Option<Cut>, parts: Parts) -> bool {
    match (cut, parts) {
        (Some(cut), Some((lo, hi))) => is_part(cut.lo, lo) && is_part(cut.hi, hi),
        (None, None) => true,
        _ => false,
    }
}

/// The parts of a leg between which it is inside, each a numerator and a denominator; none where it is not.
type Parts = Option<((i64, i64), (i64, i64))>;

/// Rectangles, how long the period lasts, and the parts of the leg between which it is inside.
const CUTS: [([i64; 4], i64, Parts); 5] = [
    // x from 10 on is from 1/3 on, y up to 50 is up to 5/6.
    ([10, 0, 30, 50], 1000, Some(((1, 3), (5, 6)))),
    // The period ends earlier: at half of the leg.
    ([10, 0, 30, 50], 500, Some(((1, 3), (1, 2)))),
    // A corner is touched at one moment, 1/3.
    ([10, 10, 20, 20], 1000, Some(((1, 3), (1, 3)))),
    // Above the diagonal and under it, where the boxes meet all the same.
    ([0, 30, 10, 60], 1000, None),
    ([20, 0, 30, 30], 1000, None),
];

/// The first of the cuts that is another one, if any.
fn wrong_cut(rt: &impl Abort, leg: &Leg, cuts: &[([i64; 4], i64, Parts)]) -> Option<usize> {
    for (at, (sides, end, parts)) in cuts.iter().enumerate() {
        let cut = clip(leg, &rect(rt, *sides), &period(rt, (0, *end)));
        if !is_between(cut, *parts) {
            return Some(at);
        }
    }
    None
}

#[test]
fn a_leg_is_clipped(rt: HostRuntime) {
    // From the point (0, 0) at 0 to the point (30, 60) at 1000.
    let leg = leg(&rt, (0, 1000), [0, 0, 30, 60]);
    assert_eq!(rt; wrong_cut(&rt, &leg, &CUTS), None);
}

#[test]
fn moments_are_live_and_inside(rt: HostRuntime) -> Result<(), Fail> {
    let leg = leg(&rt, (0, 1000), [0, 0, 30, 60]);
    let (start, end) = live(&leg, &period(&rt, (1000, 2000))).ok_or("its end")?;
    assert_eq!(rt; (start.millis(), end.millis()), (1000, 1000));
    assert!(rt; inside_at(&leg, &rect(&rt, [30, 60, 30, 60]), leg.t1));
    Ok(())
}
