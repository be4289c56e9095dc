//! Stays, visits and dwells of worked legs.
use fixedpoint::Coord;
use legs::{Leg, Rect};
use mfcsv::Position;
use moments::{Bound, Edges, End, Moment, dwells_of, stay_of, stays_of, visits_of};
use std::alloc::Global;
use std::process::Abort;
use std::test::Fail;
use timebase::{Ms, Period};

/// So many units of 10^-7.
const ONE: i64 = 10_000_000;

fn coord(rt: &impl Abort, units: i64) -> Coord {
    Coord::new(units).expect(rt, "a coordinate")
}

fn moment(rt: &impl Abort, millis: i64) -> Ms {
    Ms::new(millis).expect(rt, "a moment")
}

fn period(rt: &impl Abort, start: i64, end: i64) -> Period {
    Period::new(moment(rt, start), moment(rt, end)).expect(rt, "a period")
}

fn rect(rt: &impl Abort, x1: i64, y1: i64, x2: i64, y2: i64) -> Rect {
    Rect::new(coord(rt, x1), coord(rt, y1), coord(rt, x2), coord(rt, y2)).expect(rt, "a rectangle")
}

fn place(rt: &impl Abort, x: i64, y: i64) -> Position {
    let (x, y, z) = (coord(rt, x), coord(rt, y), coord(rt, 0));
    Position { x, y, z }
}

fn leg(rt: &impl Abort, feature: u32, t0: i64, t1: i64, from: (i64, i64), to: (i64, i64)) -> Leg {
    let (from, to) = (place(rt, from.0, from.1), place(rt, to.0, to.1));
    Leg::new(0, feature, moment(rt, t0), moment(rt, t1), from, to, 0).expect(rt, "a leg")
}

/// An end by edges of these bounds of x and y.
fn edge(x: Option<Bound>, y: Option<Bound>) -> End {
    End::Edge(Edges { x, y })
}

/// A moment's terms, and its microseconds down and up.
fn parts(moment: Moment) -> (i128, u64, i64, i64) {
    (
        moment.num,
        moment.den,
        moment.micros_down(),
        moment.micros_up(),
    )
}

#[test]
fn a_leg_touches_the_end_of_a_line(rt: HostRuntime) -> Result<(), Fail> {
    // At 3/7 of a leg of 30 s: 12857 1/7 ms after its start.
    let (from, to) = ((-789_000_000, -285_000_000), (-355_000_000, 380_000_000));
    let leg = leg(&rt, 5, 0, 30_000, from, to);
    let line = rect(&rt, -603_000_000, 0, 603_000_000, 0);
    let long = period(&rt, 0, 60_000);
    let stay = stay_of(&leg, &line, &long).ok_or("a stay")?;
    assert_eq!(rt; parts(stay.enters), (90_000, 7, 12_857_142, 12_857_143));
    assert_eq!(rt; stay.leaves, stay.enters);
    assert!(rt; stay.entry == place(&rt, -603_000_000, 0));
    let corner = edge(Some(Bound::Least), Some(Bound::Least));
    assert_eq!(rt;
        (stay.enters_by, stay.leaves_by),
        (corner, edge(None, Some(Bound::Greatest)))
    );
    Ok(())
}

/// What legs make: how many stays, visits and dwells; what begins and ends the first stay and the first visit; the parts
/// of the first visit; whose the first two visits are, and of how many legs; and how long both dwells are at least and at
/// most.
#[derive(Clone, Copy, PartialEq, Eq, Debug)]
struct Made {
    counts: [usize; 3],
    ends: [(End, End); 2],
    visit: [(i128, u64, i64, i64); 2],
    legs: [(u32, u64); 2],
    lengths: [(u64, u64); 2],
}

fn made_of(alloc: Global, legs: &[Leg], rect: &Rect, period: &Period) -> Option<Made> {
    let stays = stays_of(alloc, legs, rect, period).ok()?;
    let visits = visits_of(alloc, &stays).ok()?;
    let dwells = dwells_of(alloc, &visits).ok()?;
    let (stay, first, second) = (stays.first()?, visits.first()?, visits.get(1)?);
    let (one, other) = (dwells.first()?, dwells.get(1)?);
    Some(Made {
        counts: [stays.len(), visits.len(), dwells.len()],
        ends: [
            (stay.enters_by, stay.leaves_by),
            (first.enters_by, first.leaves_by),
        ],
        visit: [parts(first.enters), parts(first.leaves)],
        legs: [(first.feature, first.legs), (second.feature, second.legs)],
        lengths: [(one.least, one.most), (other.least, other.most)],
    })
}

#[test]
fn stays_are_joined_over_legs(rt: HostRuntime) -> Result<(), Fail> {
    let square = rect(&rt, 0, 0, 3 * ONE, 3 * ONE);
    let always = period(&rt, -1_000, 500_000);
    let legs = [
        leg(&rt, 0, 0, 7_000, (-ONE, ONE), (ONE, ONE)),
        leg(&rt, 1, 0, 1_000, (ONE, ONE), (ONE, ONE)),
        leg(&rt, 0, 7_000, 14_000, (ONE, ONE), (7 * ONE, ONE)),
        leg(&rt, 0, 20_000, 21_000, (ONE, ONE), (ONE, ONE)),
        leg(&rt, 2, 20_000, 21_000, (9 * ONE, ONE), (9 * ONE, ONE)),
    ];
    let left = edge(Some(Bound::Least), None);
    let wanted = Made {
        counts: [4, 3, 2],
        ends: [(left, End::Leg), (left, edge(Some(Bound::Greatest), None))],
        // From the middle of the first leg to a third of the second.
        visit: [
            (3_500, 1, 3_500_000, 3_500_000),
            (28_000, 3, 9_333_333, 9_333_334),
        ],
        legs: [(0, 2), (1, 1)],
        lengths: [(6_833_333, 6_833_334), (1_000_000, 1_000_000)],
    };
    assert_eq!(rt; made_of(rt.alloc(), &legs, &square, &always), Some(wanted));
    Ok(())
}
