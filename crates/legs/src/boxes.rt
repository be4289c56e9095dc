//! Rectangles and boxes.
ghost use Rattle.std.specs.Prelude.{◌≡◌};
ghost use Rattle.legs.specs.Boxes.{intervals_meet};

use crate::leg::Leg;
use fixedpoint::Coord;
use std::marker::Model;
use timebase::Period;

/// A rectangle, its edges included: `x_min` is at most `x_max`, and `y_min` at most `y_max`.
#[derive(Clone, Copy, PartialEq, Eq, Debug)]
pub struct Rect {
    pub x_min: Coord,
    pub y_min: Coord,
    pub x_max: Coord,
    pub y_max: Coord,
}

impl Model for Rect {
    ghost use Rattle.legs.specs.Boxes.{RectView, IsRect};

    ghost Value = { RectView };

    ghost view = { λ a.
        record { x_min = a.x_min; y_min = a.y_min; x_max = a.x_max; y_max = a.y_max } };

    ghost invariant = { λ a. IsRect
        (record { x_min = a.x_min; y_min = a.y_min; x_max = a.x_max; y_max = a.y_max }) };

    ghost inverse = { λ v.
        record { x_min = v.x_min; y_min = v.y_min; x_max = v.x_max; y_max = v.y_max } };
}

impl Rect {
    ghost use Rattle.std.specs.Prelude.{◌≡◌, ◌≤ℤ◌, ◌↔◌, IsSome, IfSome};
    ghost use Rattle.legs.specs.Boxes.{rect_of};

    /// The rectangle between two corners; `None` where `x1` is above `x2` or `y1` above `y2`.
    pub fn new(x1: Coord, y1: Coord, x2: Coord, y2: Coord) -> Option<Rect>
        // There is one exactly if neither `x1` is above `x2` nor `y1` above `y2`.
        ensures some { IsSome result ↔ ((x1 ≤ℤ x2) × (y1 ≤ℤ y2)) }
        // It has these corners.
        ensures value { IfSome result (λ rect. rect ≡ rect_of x1 y1 x2 y2) }
    {
        if x1 <= x2 && y1 <= y2 {
            Some(Rect {
                x_min: x1,
                y_min: y1,
                x_max: x2,
                y_max: y2,
            })
        } else {
            None
        }
    }
}

/// A rectangle and a stretch of time, all bounds included; no least bound is above its greatest. Bounds of x
/// and y are in units of 10^-7, bounds of time in milliseconds since 1970-01-01T00:00:00Z.
#[derive(Clone, Copy, PartialEq, Eq, Debug)]
pub struct Box3 {
    pub x_min: i64,
    pub y_min: i64,
    pub t_min: i64,
    pub x_max: i64,
    pub y_max: i64,
    pub t_max: i64,
}

impl Model for Box3 {
    ghost use Rattle.legs.specs.Boxes.{BoxView, IsBox};

    ghost Value = { BoxView };

    ghost view = { λ a.
        record {
          x_min = a.x_min;
          y_min = a.y_min;
          t_min = a.t_min;
          x_max = a.x_max;
          y_max = a.y_max;
          t_max = a.t_max;
        } };

    ghost invariant = { λ a. IsBox
        (record {
          x_min = a.x_min;
          y_min = a.y_min;
          t_min = a.t_min;
          x_max = a.x_max;
          y_max = a.y_max;
          t_max = a.t_max;
        }) };

    ghost inverse = { λ v.
        record {
          x_min = v.x_min;
          y_min = v.y_min;
          t_min = v.t_min;
          x_max = v.x_max;
          y_max = v.y_max;
          t_max = v.t_max;
        } };
}

/// Whether the closed intervals from `a` to `b` and from `c` to `d` meet.
fn intervals_meet(a: i64, b: i64, c: i64, d: i64) -> bool
    ensures { result ≡ intervals_meet a b c d }
{
    a <= d && c <= b
}

impl Box3 {
    ghost use Rattle.std.specs.Prelude.{◌≡◌, ◌↔◌, true, IsTrue};
    ghost use Rattle.legs.specs.Legs.{LegView, IsLeg};
    ghost use Rattle.legs.specs.Boxes.{box_of, box_over, boxes_meet, cover_of, everything, meet_in_plane, IsCover, ShareAPoint};

    /// The box of a leg: from the least to the greatest x and y, and from its start to its end.
    pub fn of(leg: &Leg) -> Box3
        ensures { result ≡ box_of leg.now }
    {
        let (x0, x1) = (leg.x0.units(), leg.x1.units());
        let (y0, y1) = (leg.y0.units(), leg.y1.units());
        Box3 {
            x_min: x0.min(x1),
            y_min: y0.min(y1),
            t_min: leg.t0.millis(),
            x_max: x0.max(x1),
            y_max: y0.max(y1),
            t_max: leg.t1.millis(),
        }
    }

    /// The box over a rectangle and a period.
    pub fn new(rect: &Rect, period: &Period) -> Box3
        ensures { result ≡ box_over rect.now period.now }
    {
        Box3 {
            x_min: rect.x_min.units(),
            y_min: rect.y_min.units(),
            t_min: period.start().millis(),
            x_max: rect.x_max.units(),
            y_max: rect.y_max.units(),
            t_max: period.end().millis(),
        }
    }

    /// The greatest box. It meets the box of every leg.
    #[tactic(auto, unfolding(crate::specs::Boxes::everything))]
    pub fn everything() -> Box3
        // It is the box with the greatest and the least bounds.
        ensures value { result ≡ everything }
        // It meets the box of every lawful leg.
        ensures meets { (leg : LegView) → IsLeg leg → boxes_meet (box_of leg) result ≡ true }
    {
        Box3 {
            x_min: i64::MIN,
            y_min: i64::MIN,
            t_min: i64::MIN,
            x_max: i64::MAX,
            y_max: i64::MAX,
            t_max: i64::MAX,
        }
    }

    /// Whether the intervals of x, of y and of time of two boxes each meet; bounds that touch meet.
    pub fn meets(&self, other: &Box3) -> bool
        // It is true if the intervals of x, of y and of time each meet.
        ensures value { result ≡ boxes_meet self.now other.now }
        // That is so exactly if the two boxes share a point.
        ensures point { IsTrue result ↔ ShareAPoint self.now other.now }
    {
        self.meets_in_plane(other)
            && intervals_meet(self.t_min, self.t_max, other.t_min, other.t_max)
    }

    fn meets_in_plane(&self, other: &Box3) -> bool
        ensures { result ≡ meet_in_plane self.now other.now }
    {
        intervals_meet(self.x_min, self.x_max, other.x_min, other.x_max)
            && intervals_meet(self.y_min, self.y_max, other.y_min, other.y_max)
    }

    /// The least box that holds two boxes.
    pub fn cover(&self, other: &Box3) -> Box3
        // Each of its bounds is the outer one of the two.
        ensures value { result ≡ cover_of self.now other.now }
        // It holds both boxes, and no smaller box does.
        ensures least { IsCover result self.now other.now }
    {
        Box3 {
            x_min: self.x_min.min(other.x_min),
            y_min: self.y_min.min(other.y_min),
            t_min: self.t_min.min(other.t_min),
            x_max: self.x_max.max(other.x_max),
            y_max: self.y_max.max(other.y_max),
            t_max: self.t_max.max(other.t_max),
        }
    }
}
