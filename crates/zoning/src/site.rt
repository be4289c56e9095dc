//! Sites: zones made ready for legs.
ghost use Rattle.std.specs.Prelude.{◌≡◌, ◌<ℤ◌};
ghost use Rattle.zoning.specs.Stays.{course_of};

use crate::courses::course_of_stays;
use crate::stay::{Stay, stays_of};
use fixedpoint::Coord;
use legs::{Leg, Rect};
use std::alloc::{AllocError, Global};
use std::marker::Model;
use timebase::Period;
use zone_windows::Windows;
use zones::{Gate, GridPoint, Ring, Segment};

/// A zone made ready for legs: its rings in windows, and its least box.
#[derive(Drop)]
pub struct Site {
    windows: Windows,
    gate: Option<Gate>,
    bounds: Option<Rect>,
}

impl Model for Site {
    ghost use Rattle.std.specs.Prelude.{List};
    ghost use Rattle.zones.specs.Places.{Corner};

    ghost Value = { List (List Corner) };

    ghost view = { λ a. a.windows };
}

/// The least box of positions so far.
#[derive(Clone, Copy)]
struct Bounds {
    x_min: i64,
    y_min: i64,
    x_max: i64,
    y_max: i64,
}

impl Bounds {
    fn with(self, position: &GridPoint) -> Bounds {
        Bounds {
            x_min: self.x_min.min(position.x),
            y_min: self.y_min.min(position.y),
            x_max: self.x_max.max(position.x),
            y_max: self.y_max.max(position.y),
        }
    }

    fn rect(&self) -> Option<Rect> {
        Rect::new(
            Coord::new(self.x_min)?,
            Coord::new(self.y_min)?,
            Coord::new(self.x_max)?,
            Coord::new(self.y_max)?,
        )
    }
}

/// The least box of rings; `None` if they have no corner.
fn bounds_of(rings: &[Ring]) -> Option<Rect> {
    let mut bounds = Bounds {
        x_min: i64::MAX,
        y_min: i64::MAX,
        x_max: i64::MIN,
        y_max: i64::MIN,
    };
    for ring in rings {
        for corner in ring.corners() {
            bounds = bounds.with(corner);
        }
    }
    bounds.rect()
}

/// The course of a leg.
fn way_of(leg: &Leg) -> Segment
    ensures course { result ≡ course_of leg.now }
    ensures rises { leg.now.t0 <ℤ leg.now.t1 }
{
    Segment {
        x0: leg.x0.units(),
        y0: leg.y0.units(),
        x1: leg.x1.units(),
        y1: leg.y1.units(),
    }
}

impl Site {
    ghost use Rattle.std.specs.Prelude.{◌≡◌, IfOk, [], ◌∷◌};
    ghost use Rattle.predicates.specs.Courses.{IsCourse};
    ghost use Rattle.zoning.specs.Stays.{AreStays, IsInZone};

    /// The site of a polygon's rings.
    pub fn of_rings(alloc: Global, rings: Vec<Ring>) -> Result<Site, AllocError>
        // Its zone is that of these rings.
        ensures { IfOk result (λ site. site ≡ rings.items) }
    {
        let bounds = bounds_of(&rings);
        Ok(Site {
            windows: Windows::of(alloc, rings)?,
            gate: None,
            bounds,
        })
    }

    /// The site of a gate: the zone of a ring of its two positions, of which each point is on an edge.
    pub fn of_gate(alloc: Global, gate: Gate) -> Result<Site, AllocError>
        // Its zone is that of one ring of two corners.
        ensures { IfOk result (λ site. site ≡ (gate.from ∷ gate.to ∷ []) ∷ []) }
    {
        let mut corners = Vec::new(alloc);
        corners.push(gate.from)?;
        corners.push(gate.to)?;
        let mut rings = Vec::new(alloc);
        rings.push(Ring::new(corners))?;
        let bounds = bounds_of(&rings);
        Ok(Site {
            windows: Windows::of(alloc, rings)?,
            gate: Some(gate),
            bounds,
        })
    }

    /// The stays of a leg in the zone in a period, in the order of time.
    pub fn stays_of(
        &self,
        alloc: Global,
        leg: &Leg,
        period: &Period,
    ) -> Result<Vec<Stay>, AllocError>
        // At each moment of the leg in the period, the leg is in the site's zone exactly if one of the stays holds the moment.
        ensures { IfOk result (λ stays. AreStays self.now leg.now period.now stays.items) }
    {
        let rings = self.windows.near(alloc, &way_of(leg))?;
        stays_of(alloc, &rings, self.gate.as_ref(), leg, period)
    }

    /// What a leg has to do with the zone over a period.
    pub fn course_of(
        &self,
        alloc: Global,
        leg: &Leg,
        period: &Period,
    ) -> Result<predicates::Course, AllocError>
        // It is the course of that leg alone with the site's zone.
        ensures { IfOk result (λ course.
            IsCourse (IsInZone self.now) course (leg.now ∷ []) period.now) }
    {
        let stays = self.stays_of(alloc, leg, period)?;
        Ok(course_of_stays(leg, period, &stays))
    }

    /// Whether the zone is a gate.
    pub fn is_gate(&self) -> bool {
        self.gate.is_some()
    }

    /// The least box of the zone; `None` if it has no corner.
    pub fn bounds(&self) -> Option<Rect> {
        self.bounds
    }
}
