//! Legs that cross, touch, miss and leave rectangles, with gaps and jumps.
use crate::plane::{leg, period, rect};
use legs::{Leg, Rect};
use predicates::*;
use std::test::Fail;
use timebase::Period;

/// So many units of 10^-7.
const ONE: i64 = 10_000_000;

/// The greatest coordinate, and all moments.
const FAR: i64 = 1_000_000_000_000_000;

const ALL_TIME: (i64, i64) = (-62_135_596_800_000, 253_370_764_799_999);

/// Ever, always, enters, leaves, crosses, bypasses.
fn answers(legs: &[Leg], rect: &Rect, period: &Period) -> [bool; 6] {
    [
        holds(Predicate::Ever, legs, rect, period),
        holds(Predicate::Always, legs, rect, period),
        holds(Predicate::Enters, legs, rect, period),
        holds(Predicate::Leaves, legs, rect, period),
        holds(Predicate::Crosses, legs, rect, period),
        holds(Predicate::Bypasses, legs, rect, period),
    ]
}

const NONE: [bool; 6] = [false, false, false, false, false, false];

const EVER_ALONE: [bool; 6] = [true, false, false, false, false, false];

const ALWAYS: [bool; 6] = [true, true, false, false, false, false];

const ENTERS: [bool; 6] = [true, false, true, false, false, false];

const LEAVES: [bool; 6] = [true, false, false, true, false, false];

const CROSSES: [bool; 6] = [true, false, false, false, true, false];

const BYPASSES: [bool; 6] = [false, false, false, false, false, true];

/// Two legs, each by its moments and its ends.
type Legs = [((i64, i64), [i64; 4]); 2];

/// A leg that starts when all periods have ended.
const LATER: ((i64, i64), [i64; 4]) = ((900_000, 900_001), [0, 0, 0, 0]);

/// From (0, 0) to (10, 0) in a second.
const FLAT: Legs = [((0, 1000), [0, 0, 10 * ONE, 0]), LATER];

/// From (0, 0) to (10, 10) in a second.
const DIAGONAL: Legs = [((0, 1000), [0, 0, 10 * ONE, 10 * ONE]), LATER];

/// Two legs with a gap between them.
const GAP: Legs = [
    ((0, 10_000), [0, 0, ONE, 0]),
    ((50_000, 60_000), [ONE, 0, 2 * ONE, 0]),
];

/// A jump: the second 10 is the last moment of one leg and the first of the next.
const JUMP: Legs = [
    ((0, 10_000), [0, 0, ONE, 0]),
    ((10_000, 20_000), [5 * ONE, 5 * ONE, 6 * ONE, 5 * ONE]),
];

/// There and back.
const BACK: Legs = [
    ((0, 10_000), [0, 0, 2 * ONE, 0]),
    ((10_000, 20_000), [2 * ONE, 0, 0, 0]),
];

/// Legs, a rectangle, a period, and which predicates hold.
const CASES: [(Legs, [i64; 4], (i64, i64), [bool; 6]); 8] = [
    // Inside only between two milliseconds.
    (
        FLAT,
        [33_333_333, -ONE, 33_333_334, ONE],
        (333, 334),
        CROSSES,
    ),
    // The corner (5, 5) is touched at half of it, and not a millisecond earlier.
    (
        DIAGONAL,
        [5 * ONE, 4 * ONE, 6 * ONE, 5 * ONE],
        (0, 500),
        ENTERS,
    ),
    (
        DIAGONAL,
        [5 * ONE, 4 * ONE, 6 * ONE, 5 * ONE],
        (0, 499),
        BYPASSES,
    ),
    // The boxes meet, and the diagonal misses the rectangle.
    (
        DIAGONAL,
        [6 * ONE, ONE, 9 * ONE, 3 * ONE],
        (0, 1000),
        BYPASSES,
    ),
    // A gap is no moment.
    (GAP, [ONE, 0, 2 * ONE, ONE], (20_000, 40_000), NONE),
    (
        GAP,
        [5 * ONE, 5 * ONE, 6 * ONE, 6 * ONE],
        (0, 60_000),
        BYPASSES,
    ),
    (
        JUMP,
        [5 * ONE, 5 * ONE, 6 * ONE, 6 * ONE],
        (10_000, 10_000),
        ENTERS,
    ),
    // In, out and in again.
    (BACK, [0, 0, ONE, ONE], (0, 20_000), EVER_ALONE),
];

#[test]
fn legs_are_tested(rt: HostRuntime) -> Result<(), Fail> {
    for ([first, second], sides, times, want) in CASES {
        let legs = [leg(&rt, first.0, first.1), leg(&rt, second.0, second.1)];
        let told = answers(&legs, &rect(&rt, sides), &period(&rt, times));
        assert_eq!(rt; told, want, "at {sides:?} in {times:?}");
    }
    Ok(())
}

/// Rectangles on the way from one corner of the plane to the other, from the first moment of all to the last, whose
/// middle is between two milliseconds.
const GREATEST: [([i64; 4], [bool; 6]); 4] = [
    ([0, 0, 0, 0], CROSSES),
    ([FAR, FAR, FAR, FAR], ENTERS),
    ([-FAR, -FAR, 0, FAR], LEAVES),
    ([-FAR, -FAR, FAR, FAR], ALWAYS),
];

#[test]
fn the_greatest_leg(rt: HostRuntime) -> Result<(), Fail> {
    let legs = [leg(&rt, ALL_TIME, [-FAR, -FAR, FAR, FAR])];
    for (sides, want) in GREATEST {
        let told = answers(&legs, &rect(&rt, sides), &period(&rt, ALL_TIME));
        assert_eq!(rt; told, want, "at {sides:?}");
    }
    Ok(())
}
