//! The corners and the end of legs.
ghost use Rattle.std.specs.Prelude.{◌≡◌, pos, fold};
ghost use Rattle.std.specs.Int.{int_max, int_min};
ghost use Rattle.writer.specs.File.{end_from};
ghost use Rattle.writer.specs.Steps.{AreCorners, corners_at, corners_with, first_corners};

use crate::entry::Entry;
use crate::leg::begin_of;
use fixedpoint::Coord;
use mfcsv::Position;
use timebase::Ms;

/// The least and the greatest x, y and z.
#[derive(Clone, Copy)]
pub(crate) struct Corners {
    pub(crate) x_min: Coord,
    pub(crate) y_min: Coord,
    pub(crate) z_min: Coord,
    pub(crate) x_max: Coord,
    pub(crate) y_max: Coord,
    pub(crate) z_max: Coord,
}

/// `0 0 0`.
fn origin() -> Position
    ensures { result ≡ record { x = pos 0; y = pos 0; z = pos 0 } }
{
    match Coord::new(0) {
        Some(zero) => Position {
            x: zero,
            y: zero,
            z: zero,
        },
        None => unreachable!(),
    }
}

fn lesser(one: Coord, other: Coord) -> Coord
    ensures { result ≡ int_min one other }
{
    if other < one { other } else { one }
}

fn greater(one: Coord, other: Coord) -> Coord
    ensures { result ≡ int_max one other }
{
    if one < other { other } else { one }
}

impl Corners {
    /// The least x, y and z.
    pub(crate) fn lower(&self) -> Position
        ensures { result ≡ record { x = self.now.x_min; y = self.now.y_min; z = self.now.z_min } }
    {
        Position {
            x: self.x_min,
            y: self.y_min,
            z: self.z_min,
        }
    }

    /// The greatest x, y and z.
    pub(crate) fn upper(&self) -> Position
        ensures { result ≡ record { x = self.now.x_max; y = self.now.y_max; z = self.now.z_max } }
    {
        Position {
            x: self.x_max,
            y: self.y_max,
            z: self.z_max,
        }
    }

    /// Corners at a point.
    fn at(point: Position) -> Corners
        ensures { result ≡ corners_at point }
    {
        let Position { x, y, z } = point;
        Corners {
            x_min: x,
            y_min: y,
            z_min: z,
            x_max: x,
            y_max: y,
            z_max: z,
        }
    }

    /// Corners that reach to both ends of a leg.
    fn with(self, entry: &Entry<'_>) -> Corners
        ensures { result ≡ corners_with self entry.now }
    {
        let leg = entry.leg;
        Corners {
            x_min: lesser(lesser(self.x_min, leg.x0), leg.x1),
            y_min: lesser(lesser(self.y_min, leg.y0), leg.y1),
            z_min: lesser(lesser(self.z_min, leg.z0), leg.z1),
            x_max: greater(greater(self.x_max, leg.x0), leg.x1),
            y_max: greater(greater(self.y_max, leg.y0), leg.y1),
            z_max: greater(greater(self.z_max, leg.z0), leg.z1),
        }
    }

    /// Corners at the first end of the first leg, or at `0 0 0`.
    fn first(entries: &[Entry<'_>]) -> Corners
        ensures { result ≡ first_corners entries.now }
    {
        match entries.first() {
            Some(entry) => { Corners::at(begin_of(entry.leg)) }
            None => Corners::at(origin()),
        }
    }
}

/// Corners that reach to both ends of all legs.
fn widened(corners: Corners, entries: &[Entry<'_>]) -> Corners
    ensures { result ≡ fold corners_with corners entries.now }
{
    let mut corners = corners;
    for entry in entries {
        corners = corners.with(entry);
    }
    corners
}

/// The corners of all legs, `0 0 0` where there are none.
pub(crate) fn corners_of(entries: &[Entry<'_>]) -> Corners
    ensures { AreCorners result entries.now }
{
    widened(Corners::first(entries), entries)
}

/// The greatest end of all legs, or the base where that is later.
pub(crate) fn end_from(base: Ms, entries: &[Entry<'_>]) -> Ms
    ensures { result ≡ end_from base entries.now }
{
    let mut end = base;
    for entry in entries {
        let leg = entry.leg;
        if end < leg.t1 {
            end = leg.t1;
        }
    }
    end
}
