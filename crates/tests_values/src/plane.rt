//! Legs, rectangles and periods by their numbers.
use fixedpoint::Coord;
use legs::{Leg, Rect};
use mfcsv::Position;
use std::process::Abort;
use timebase::{Ms, Period};

fn coord(rt: &impl Abort, units: i64) -> Coord {
    Coord::new(units).expect(rt, "a coordinate")
}

pub(crate) fn moment(rt: &impl Abort, millis: i64) -> Ms {
    Ms::new(millis).expect(rt, "a moment")
}

pub(crate) fn period(rt: &impl Abort, (start, end): (i64, i64)) -> Period {
    Period::new(moment(rt, start), moment(rt, end)).expect(rt, "a period")
}

pub(crate) fn rect(rt: &impl Abort, [x1, y1, x2, y2]: [i64; 4]) -> Rect {
    Rect::new(coord(rt, x1), coord(rt, y1), coord(rt, x2), coord(rt, y2)).expect(rt, "a rectangle")
}

/// A point of the plane.
fn place(rt: &impl Abort, x: i64, y: i64) -> Position {
    let (x, y, z) = (coord(rt, x), coord(rt, y), coord(rt, 0));
    Position { x, y, z }
}

/// A leg by its moments, and the ends of its way.
pub(crate) fn leg(rt: &impl Abort, (t0, t1): (i64, i64), [x0, y0, x1, y1]: [i64; 4]) -> Leg {
    let (from, to) = (place(rt, x0, y0), place(rt, x1, y1));
    Leg::new(0, 0, moment(rt, t0), moment(rt, t1), from, to, 0).expect(rt, "a leg")
}
