//! The sides of a gate.
ghost use Rattle.std.specs.Prelude.{◌≡◌, ◌<ℤ◌};
ghost use Rattle.zoning.specs.Sides.{IsSideAfter, IsSideBefore, side_by};

use crate::asked::course_of;
use legs::Leg;
use std::cmp::Ordering;
use zones::{Gate, heading};

/// A side of a gate, seen from its first position to its second.
#[derive(Clone, Copy, PartialEq, Eq, Debug)]
pub enum Side {
    Left,
    Right,
}

impl Side {
    /// The side as it is printed.
    pub fn as_str(self) -> &'static str {
        match self {
            Side::Left => "left",
            Side::Right => "right",
        }
    }
}

/// The side that a sign of the cross product tells.
fn side_by(sign: Ordering) -> Option<Side>
    ensures { result ≡ side_by sign }
{
    match sign {
        Ordering::Less => Some(Side::Left),
        Ordering::Equal => None,
        Ordering::Greater => Some(Side::Right),
    }
}

/// The side to which a leg leaves the gate's line; `None` if it runs along the line or stands still.
pub(crate) fn side_after(gate: &Gate, leg: &Leg) -> Option<Side>
    ensures { leg.now.t0 <ℤ leg.now.t1 → IsSideAfter gate.now leg.now result }
{
    side_by(heading(gate, &course_of(leg)))
}

/// The side from which it comes.
pub(crate) fn side_before(gate: &Gate, leg: &Leg) -> Option<Side>
    ensures { leg.now.t0 <ℤ leg.now.t1 → IsSideBefore gate.now leg.now result }
{
    side_by(heading(gate, &course_of(leg)).reverse())
}
