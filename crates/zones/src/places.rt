//! Positions, rings and courses.
use std::marker::Model;

/// The greatest coordinate, and the least below 0: 10^8 in units of 10^-7.
const MOST: u64 = 1000000000000000;

/// A position, in units of 10^-7.
#[derive(Clone, Copy, PartialEq, Eq, Debug)]
pub struct GridPoint {
    pub x: i64,
    pub y: i64,
}

impl Model for GridPoint {
    ghost use Rattle.zones.specs.Places.{Corner, IsCorner};

    ghost Value = { Corner };

    ghost view = { λ a. record { x = a.x; y = a.y } };

    ghost invariant = { λ a. IsCorner (record { x = a.x; y = a.y }) };

    ghost inverse = { λ v. record { x = v.x; y = v.y } };
}

impl GridPoint {
    ghost use Rattle.std.specs.Prelude.{◌≡◌, ◌↔◌, IsSome, IfSome};
    ghost use Rattle.zones.specs.Places.{Corner, IsCorner};

    /// The position at (x, y); `None` out of range.
    pub fn new(x: i64, y: i64) -> Option<GridPoint>
        // There is one exactly if both coordinates are in range.
        ensures some { IsSome result ↔ IsCorner (record { x = x; y = y }) }
        // It is at (x, y).
        ensures value { IfSome result (λ position. position ≡ record { x = x; y = y }) }
    {
        if x.unsigned_abs() <= MOST && y.unsigned_abs() <= MOST {
            Some(GridPoint { x, y })
        } else {
            None
        }
    }
}

/// The corners of a ring, which is closed from the last to the first.
#[derive(Drop)]
pub struct Ring {
    corners: Vec<GridPoint>,
}

impl Model for Ring {
    ghost use Rattle.std.specs.Prelude.{List};
    ghost use Rattle.zones.specs.Places.{Corner};

    ghost Value = { List Corner };

    ghost view = { λ a. a.corners.items };
}

impl Ring {
    ghost use Rattle.std.specs.Prelude.{◌≡◌};

    /// The ring of these corners, in order.
    pub fn new(corners: Vec<GridPoint>) -> Ring
        ensures { result ≡ corners.items }
    {
        Ring { corners }
    }

    /// The corners, in order.
    pub fn corners(&self) -> &[GridPoint]
        ensures { result.now ≡ self.now }
    {
        &self.corners
    }
}

/// A line from one position to another, which has a left and a right.
#[derive(Clone, Copy, PartialEq, Eq, Debug)]
pub struct Gate {
    pub from: GridPoint,
    pub to: GridPoint,
}

/// A straight course from (`x0`, `y0`) to (`x1`, `y1`), at an even speed.
#[derive(Clone, Copy, PartialEq, Eq, Debug)]
pub struct Segment {
    pub x0: i64,
    pub y0: i64,
    pub x1: i64,
    pub y1: i64,
}

impl Model for Segment {
    ghost use Rattle.zones.specs.Places.{CourseView, IsCourse};

    ghost Value = { CourseView };

    ghost view = { λ a.
        record {
          x0 = a.x0;
          y0 = a.y0;
          x1 = a.x1;
          y1 = a.y1;
        } };

    ghost invariant = { λ a. IsCourse
        (record {
          x0 = a.x0;
          y0 = a.y0;
          x1 = a.x1;
          y1 = a.y1;
        }) };

    ghost inverse = { λ v.
        record {
          x0 = v.x0;
          y0 = v.y0;
          x1 = v.x1;
          y1 = v.y1;
        } };
}

impl Segment {
    ghost use Rattle.std.specs.Prelude.{◌≡◌};

    /// The course from one position to another.
    pub fn new(from: GridPoint, to: GridPoint) -> Segment
        ensures { result ≡ record { x0 = from.x; y0 = from.y; x1 = to.x; y1 = to.y } }
    {
        Segment {
            x0: from.x,
            y0: from.y,
            x1: to.x,
            y1: to.y,
        }
    }
}
