//! Windows of a zone, each cut in two as long as that leaves out corners.
ghost use Rattle.std.specs.Prelude.{OnOk, ◌≡◌, ◌++◌, [], ◌∷◌};
ghost use Rattle.zone_windows.specs.Near.{window_of};

use crate::near::{Window, rings_along};
use crate::part::{Cut, MOST_DEPTH, Part};
use std::alloc::{AllocError, Global};
use std::marker::Model;
use zones::{Ring, Segment};

/// The most parts that are cut.
const MOST_CUTS: usize = 65536;

/// All parts together have at most about this many times the corners of the zone.
const MOST_TIMES: usize = 24;

/// A zone's rings, in windows.
#[derive(Drop)]
pub struct Windows {
    /// The rings of the whole zone.
    whole: Vec<Ring>,
    /// The whole plane, then the parts that it was cut into, and so on.
    parts: Vec<Part>,
    /// For each of the parts that were looked at, in turn, the place of the first of the two that it was cut into; 0 if it
    /// was not cut.
    halves: Vec<usize>,
}

impl Model for Windows {
    ghost use Rattle.std.specs.Prelude.{List};
    ghost use Rattle.zones.specs.Places.{Corner};
    ghost use Rattle.zone_windows.specs.Parts.{ArePartsOf};

    ghost Value = { List (List Corner) };

    ghost view = { λ a. a.whole.items };

    ghost invariant = { λ a. ArePartsOf a.whole.items a.parts.items };
}

/// The least window with the course.
fn window_of(course: &Segment) -> Window
    ensures { result ≡ window_of course.now }
{
    Window {
        left: course.x0.min(course.x1),
        right: course.x0.max(course.x1),
        low: course.y0.min(course.y1),
        high: course.y0.max(course.y1),
    }
}

/// Appends both parts of a cut.
fn push_cut(parts: &mut Vec<Part>, cut: Cut) -> Result<(), AllocError>
    ensures { OnOk result (parts.new.items ≡ (parts.old.items ++ cut.first ∷ []) ++ cut.second ∷ []) }
{
    parts.push(cut.first)?;
    parts.push(cut.second)?;
    Ok(())
}

impl Windows {
    ghost use Rattle.std.specs.Prelude.{◌≡◌, IfOk};
    ghost use Rattle.zone_windows.specs.Near.{AgreeIn, AgreeOn};

    /// The windows of a zone's rings.
    pub fn of(alloc: Global, rings: Vec<Ring>) -> Result<Windows, AllocError>
        // They are windows of these rings.
        ensures { IfOk result (λ windows. windows ≡ rings.items) }
    {
        let whole = Part::whole(alloc, &rings)?;
        let mut kept = whole.corners();
        let most = kept.saturating_mul(MOST_TIMES);
        let mut halves = Vec::new(alloc);
        let mut parts = Vec::new(alloc);
        parts.push(whole)?;
        for place in 0..MOST_CUTS {
            if place >= parts.len() || kept > most {
                break;
            }
            match parts[place].cut_in_two(alloc)? {
                Some(cut) => {
                    kept = kept.saturating_add(cut.corners());
                    halves.push(parts.len())?;
                    push_cut(&mut parts, cut)?;
                }
                None => halves.push(0)?,
            }
        }
        Ok(Windows {
            whole: rings,
            parts,
            halves,
        })
    }

    /// Whether the part at a place has all points of a window.
    fn is_held(&self, place: usize, window: Window) -> bool {
        match self.parts.get(place) {
            Some(part) => part.window.holds(window),
            None => false,
        }
    }

    /// The place of the half of a part that has all points of a window.
    fn half_with(&self, place: usize, window: Window) -> Option<usize> {
        let first = *self.halves.get(place)?;
        if first == 0 {
            return None;
        }
        let second = first.checked_add(1)?;
        if self.is_held(first, window) {
            Some(first)
        } else if self.is_held(second, window) {
            Some(second)
        } else {
            None
        }
    }

    /// The place of the narrowest part that has all points of a window.
    fn place_of(&self, window: Window) -> usize {
        let mut place = 0;
        'cuts: for _ in 0..MOST_DEPTH {
            match self.half_with(place, window) {
                Some(half) => place = half,
                None => break,
            }
        }
        place
    }

    /// The rings of the narrowest part that has all points of a window.
    fn rings_in(&self, window: Window) -> &[Ring]
        ensures { AgreeIn window result.now self.now }
    {
        match self.parts.get(self.place_of(window)) {
            Some(part) if part.window.holds(window) => &part.rings,
            _ => &self.whole,
        }
    }

    /// The rings near a course.
    pub fn near(&self, alloc: Global, course: &Segment) -> Result<Vec<Ring>, AllocError>
        // At each place on the course their zone is the whole zone.
        ensures { IfOk result (λ near. AgreeOn course.now near.items self.now) }
    {
        let window = window_of(course);
        rings_along(alloc, self.rings_in(window), window, course)
    }
}
