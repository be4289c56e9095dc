//! Parts of a zone: windows with the rings near them.
ghost use Rattle.std.specs.Prelude.{◌≡◌, IfOk};
ghost use Rattle.zone_windows.specs.Parts.{AnyCutOf, Holds, IsCutOf, IsPartOf, IsWithin};

use crate::near::{Window, rings_near};
use std::alloc::{AllocError, Global};
use zones::Ring;

/// A part of so few corners is not cut.
const FEW: usize = 12;

/// The most cuts that a part comes of.
pub(crate) const MOST_DEPTH: u32 = 40;

/// The whole plane.
const ALL: Window = Window {
    left: i64::MIN,
    right: i64::MAX,
    low: i64::MIN,
    high: i64::MAX,
};

/// A window, and the rings near it.
#[derive(Drop)]
pub(crate) struct Part {
    pub(crate) window: Window,
    pub(crate) rings: Vec<Ring>,
    /// The box that the next cut goes through.
    extent: Window,
    /// How many corners the rings have.
    corners: usize,
    /// How many cuts it comes of.
    depth: u32,
}

/// The two parts that one was cut into.
#[derive(Drop)]
pub(crate) struct Cut {
    pub(crate) first: Part,
    pub(crate) second: Part,
}

/// The two windows that one was cut into.
#[derive(Clone, Copy)]
struct Halves {
    first: Window,
    second: Window,
}

/// Where a window is cut.
#[derive(Clone, Copy)]
enum Line {
    /// At a height.
    Level(i64),
    /// At an x.
    Upright(i64),
}

fn corner_count(rings: &[Ring]) -> usize {
    let mut count: usize = 0;
    for ring in rings {
        count = count.saturating_add(ring.corners().len());
    }
    count
}

/// The least box of the corners.
fn extent_of(rings: &[Ring]) -> Window {
    let mut extent = Window {
        left: i64::MAX,
        right: i64::MIN,
        low: i64::MAX,
        high: i64::MIN,
    };
    for ring in rings {
        for corner in ring.corners() {
            extent = Window {
                left: extent.left.min(corner.x),
                right: extent.right.max(corner.x),
                low: extent.low.min(corner.y),
                high: extent.high.max(corner.y),
            };
        }
    }
    extent
}

/// The number in the middle of two; `None` if there is none between them.
fn middle_of(least: i64, most: i64) -> Option<i64> {
    let middle = least / 2 + most / 2;
    if middle <= least || middle >= most {
        return None;
    }
    Some(middle)
}

impl Window {
    ghost use Rattle.std.specs.Prelude.{◌≡◌, ◌≤ℤ◌, true};
    ghost use Rattle.zone_windows.specs.Parts.{Holds};

    /// Whether the window has all x of another.
    fn holds_across(self, other: Window) -> bool
        ensures { result ≡ true → (self.left ≤ℤ other.left) × (other.right ≤ℤ self.right) }
    {
        self.left <= other.left && other.right <= self.right
    }

    /// Whether it has all heights of another.
    fn holds_upright(self, other: Window) -> bool
        ensures { result ≡ true → (self.low ≤ℤ other.low) × (other.high ≤ℤ self.high) }
    {
        self.low <= other.low && other.high <= self.high
    }

    /// Whether it has all points of another.
    pub(crate) fn holds(self, other: Window) -> bool
        ensures { result ≡ true → Holds self other }
    {
        self.holds_across(other) && self.holds_upright(other)
    }

    /// The two windows that a line cuts it into, which both have the line.
    fn cut(self, line: Line) -> Halves
        ensures first { Holds self result.first }
        ensures second { Holds self result.second }
    {
        match line {
            Line::Level(y) => Halves {
                first: Window {
                    high: self.high.min(y),
                    ..self
                },
                second: Window {
                    low: self.low.max(y),
                    ..self
                },
            },
            Line::Upright(x) => Halves {
                first: Window {
                    right: self.right.min(x),
                    ..self
                },
                second: Window {
                    left: self.left.max(x),
                    ..self
                },
            },
        }
    }

    /// The level line through its middle.
    fn level(self) -> Option<Line> {
        Some(Line::Level(middle_of(self.low, self.high)?))
    }

    /// The upright line through its middle.
    fn upright(self) -> Option<Line> {
        Some(Line::Upright(middle_of(self.left, self.right)?))
    }

    /// Whether it is wider than it is high.
    fn is_wide(self) -> bool {
        self.right / 2 - self.left / 2 > self.high / 2 - self.low / 2
    }
}

impl Cut {
    /// How many corners both parts have.
    pub(crate) fn corners(&self) -> usize {
        self.first.corners.saturating_add(self.second.corners)
    }
}

impl Part {
    fn new(window: Window, rings: Vec<Ring>, extent: Window, depth: u32) -> Part
        ensures window { result.window ≡ window }
        ensures rings { result.rings.items ≡ rings.items }
    {
        let corners = corner_count(&rings);
        Part {
            window,
            rings,
            extent,
            corners,
            depth,
        }
    }

    /// The whole plane as a part.
    pub(crate) fn whole(alloc: Global, rings: &[Ring]) -> Result<Part, AllocError>
        ensures { IfOk result (λ part. IsPartOf rings.now part) }
    {
        let near = rings_near(alloc, rings, ALL)?;
        Ok(Part::new(ALL, near, extent_of(rings), 0))
    }

    /// How many corners its rings have.
    pub(crate) fn corners(&self) -> usize {
        self.corners
    }

    /// Whether the part is worth a cut.
    fn is_many(&self) -> bool {
        self.corners > FEW && self.depth < MOST_DEPTH
    }

    /// The part in a window of it.
    fn within(&self, alloc: Global, window: Window, extent: Window) -> Result<Part, AllocError>
        requires { Holds self.now.window window }
        ensures { IfOk result (λ part. IsWithin self.now part) }
    {
        let rings = rings_near(alloc, &self.rings, window)?;
        let depth = self.depth.saturating_add(1);
        Ok(Part::new(window, rings, extent, depth))
    }

    /// The two parts that a line cuts it into.
    fn cut_along(&self, alloc: Global, line: Line) -> Result<Cut, AllocError>
        ensures { IfOk result (λ cut. IsCutOf self.now cut) }
    {
        let windows = self.window.cut(line);
        let extents = self.extent.cut(line);
        let first = self.within(alloc, windows.first, extents.first)?;
        let second = self.within(alloc, windows.second, extents.second)?;
        Ok(Cut { first, second })
    }

    /// The same if there is a line, and both parts together have at most half as many corners more.
    fn cut_if_few(&self, alloc: Global, line: Option<Line>) -> Result<Option<Cut>, AllocError>
        ensures { IfOk result (AnyCutOf self.now) }
    {
        match line {
            Some(line) => {
                let cut = self.cut_along(alloc, line)?;
                if cut.corners() > self.corners.saturating_add(self.corners / 2) {
                    return Ok(None);
                }
                Ok(Some(cut))
            }
            None => Ok(None),
        }
    }

    /// The two parts by a cut across its box's longer side, or else across the other. `None` if no cut leaves out enough
    /// corners.
    pub(crate) fn cut_in_two(&self, alloc: Global) -> Result<Option<Cut>, AllocError>
        ensures { IfOk result (AnyCutOf self.now) }
    {
        if !self.is_many() {
            return Ok(None);
        }
        let (level, upright) = (self.extent.level(), self.extent.upright());
        let (longer, other) = if self.extent.is_wide() {
            (upright, level)
        } else {
            (level, upright)
        };
        match self.cut_if_few(alloc, longer)? {
            Some(cut) => Ok(Some(cut)),
            None => self.cut_if_few(alloc, other),
        }
    }
}
