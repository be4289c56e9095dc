//! The edges of a rectangle that a leg meets.
use crate::stay::product;
use clipping::Frac;
use fixedpoint::Coord;
use legs::{Leg, Rect};

/// A bound of a rectangle in one coordinate.
#[derive(Clone, Copy, PartialEq, Eq, Debug)]
pub enum Bound {
    Least,
    Greatest,
}

/// The edges that a leg meets: one, or at a corner two.
#[derive(Clone, Copy, PartialEq, Eq, Debug)]
pub struct Edges {
    /// The left one is that of the least x, the right one that of the greatest.
    pub x: Option<Bound>,
    /// The bottom one is that of the least y, the top one that of the greatest.
    pub y: Option<Bound>,
}

impl Edges {
    ghost use Rattle.std.specs.Prelude.{◌≡◌};
    ghost use Rattle.moments.specs.Ends.{edges_text};

    /// The edges as they are printed.
    pub fn as_str(self) -> &'static str
        ensures { result.now ≡ edges_text self.x self.y }
    {
        match (self.x, self.y) {
            (None, None) => "",
            (None, Some(Bound::Least)) => "bottom",
            (None, Some(Bound::Greatest)) => "top",
            (Some(Bound::Least), None) => "left",
            (Some(Bound::Least), Some(Bound::Least)) => "left+bottom",
            (Some(Bound::Least), Some(Bound::Greatest)) => "left+top",
            (Some(Bound::Greatest), None) => "right",
            (Some(Bound::Greatest), Some(Bound::Least)) => "right+bottom",
            (Some(Bound::Greatest), Some(Bound::Greatest)) => "right+top",
        }
    }
}

/// One coordinate of a leg's way, and of a rectangle.
#[derive(Clone, Copy)]
struct Axis {
    start: Coord,
    end: Coord,
    least: Coord,
    greatest: Coord,
}

impl Axis {
    /// Whether the leg is at a place, at a part of its duration.
    fn is_at(&self, place: Coord, part: Frac) -> bool {
        let (start, end) = (self.start.units(), self.end.units());
        product(place.units() - start, part.den) == product(end - start, part.num)
    }

    /// The bound at which the leg is at a part of its duration, where `outside` lies beyond it.
    fn bound_at(&self, outside: Coord, part: Frac) -> Option<Bound> {
        if outside < self.least && self.is_at(self.least, part) {
            Some(Bound::Least)
        } else if outside > self.greatest && self.is_at(self.greatest, part) {
            Some(Bound::Greatest)
        } else {
            None
        }
    }
}

/// A leg's way in x, and that in y.
fn axes_of(leg: &Leg, rect: &Rect) -> [Axis; 2] {
    [
        Axis {
            start: leg.x0,
            end: leg.x1,
            least: rect.x_min,
            greatest: rect.x_max,
        },
        Axis {
            start: leg.y0,
            end: leg.y1,
            least: rect.y_min,
            greatest: rect.y_max,
        },
    ]
}

/// The edges at which a leg is at a part of its duration, where it begins beyond them.
pub(crate) fn edges_in(leg: &Leg, rect: &Rect, part: Frac) -> Edges {
    let [x, y] = axes_of(leg, rect);
    Edges {
        x: x.bound_at(x.start, part),
        y: y.bound_at(y.start, part),
    }
}

/// The edges at which it is, where it ends beyond them.
pub(crate) fn edges_out(leg: &Leg, rect: &Rect, part: Frac) -> Edges {
    let [x, y] = axes_of(leg, rect);
    Edges {
        x: x.bound_at(x.end, part),
        y: y.bound_at(y.end, part),
    }
}
