//! A leg, and a step of a record.
ghost use Rattle.std.specs.Prelude.{◌≡◌, ◌<ℤ◌, ◌↔◌, IsSome, IfSome, IsTrue};
ghost use Rattle.fixedpoint.specs.Number.{IsInRange};

use fixedpoint::{Coord, MOST_UNITS};
use mfcsv::Position;
use std::marker::Model;
use timebase::{Ms, Period};

/// A straight move of a feature from (`x0`, `y0`, `z0`) at `t0` to (`x1`, `y1`, `z1`) at `t1`. It takes time:
/// `t0` is before `t1`. In two dimensions z is 0.
#[derive(Clone, Copy, PartialEq, Eq, Debug)]
pub struct Leg {
    /// Its place among all legs, from 0.
    pub ordinal: u64,
    /// The number of its feature: features are numbered from 0 in the order of their first legs.
    pub feature: u32,
    /// The number of its attribute values: one row for each record, from 0.
    pub row: u32,
    pub t0: Ms,
    pub t1: Ms,
    pub x0: Coord,
    pub y0: Coord,
    pub z0: Coord,
    pub x1: Coord,
    pub y1: Coord,
    pub z1: Coord,
}

impl Model for Leg {
    ghost use Rattle.legs.specs.Legs.{LegView, IsLeg};

    ghost Value = { LegView };

    ghost view = { λ a.
        record {
          ordinal = a.ordinal;
          feature = a.feature;
          t0 = a.t0;
          t1 = a.t1;
          x0 = a.x0;
          y0 = a.y0;
          z0 = a.z0;
          x1 = a.x1;
          y1 = a.y1;
          z1 = a.z1;
          row = a.row;
        } };

    ghost invariant = { λ a. IsLeg
        (record {
          ordinal = a.ordinal;
          feature = a.feature;
          t0 = a.t0;
          t1 = a.t1;
          x0 = a.x0;
          y0 = a.y0;
          z0 = a.z0;
          x1 = a.x1;
          y1 = a.y1;
          z1 = a.z1;
          row = a.row;
        }) };

    ghost inverse = { λ v.
        record {
          ordinal = v.ordinal;
          t0 = v.t0;
          t1 = v.t1;
          x0 = v.x0;
          y0 = v.y0;
          z0 = v.z0;
          x1 = v.x1;
          y1 = v.y1;
          z1 = v.z1;
          feature = v.feature;
          row = v.row;
        } };
}

impl Leg {
    ghost use Rattle.std.specs.Prelude.{◌≡◌, ◌<ℤ◌, ◌↔◌, IsTrue, IsSome, IfSome};
    ghost use Rattle.legs.specs.Legs.{leg_of, step_between, is_live, HasMoment};

    /// The leg of a feature between two moments and positions; `None` where `t0` is not before `t1`.
    pub fn new(
        ordinal: u64,
        feature: u32,
        t0: Ms,
        t1: Ms,
        from: Position,
        to: Position,
        row: u32,
    ) -> Option<Leg>
        // There is one exactly if it starts before it ends.
        ensures some { IsSome result ↔ (t0 <ℤ t1) }
        // It has exactly these numbers, moments and positions.
        ensures value { IfSome result (λ leg. leg
            ≡ leg_of ordinal feature row (step_between t0 t1 from to)) }
    {
        let step = Step::between(t0, t1, from, to)?;
        Some(step.numbered(ordinal, feature, row))
    }

    /// Whether the leg has a moment in a period: a fraction n / d of milliseconds, between the later of the two
    /// starts and the earlier of the two ends.
    pub fn is_live(&self, period: &Period) -> bool
        // It is true if the later start is no later than the earlier end.
        ensures value { result ≡ is_live period.now self.now }
        // That is so exactly if some moment of the leg is in the period.
        ensures moments { IsTrue result ↔ HasMoment self.now period.now }
    {
        let first = self.t0.millis().max(period.start().millis());
        let last = self.t1.millis().min(period.end().millis());
        first <= last
    }
}

/// A move of a record that has no number yet: from (`x0`, `y0`, `z0`) at `t0` to (`x1`, `y1`, `z1`) at `t1`, and
/// `t0` is before `t1`.
#[derive(Clone, Copy, PartialEq, Eq, Debug)]
pub struct Step {
    pub t0: Ms,
    pub t1: Ms,
    pub x0: Coord,
    pub y0: Coord,
    pub z0: Coord,
    pub x1: Coord,
    pub y1: Coord,
    pub z1: Coord,
}

impl Model for Step {
    ghost use Rattle.legs.specs.Legs.{StepView, IsStep};

    ghost Value = { StepView };

    ghost view = { λ a.
        record {
          t0 = a.t0;
          t1 = a.t1;
          x0 = a.x0;
          y0 = a.y0;
          z0 = a.z0;
          x1 = a.x1;
          y1 = a.y1;
          z1 = a.z1;
        } };

    ghost invariant = { λ a. IsStep
        (record {
          t0 = a.t0;
          t1 = a.t1;
          x0 = a.x0;
          y0 = a.y0;
          z0 = a.z0;
          x1 = a.x1;
          y1 = a.y1;
          z1 = a.z1;
        }) };

    ghost inverse = { λ v.
        record {
          t0 = v.t0;
          t1 = v.t1;
          x0 = v.x0;
          y0 = v.y0;
          z0 = v.z0;
          x1 = v.x1;
          y1 = v.y1;
          z1 = v.z1;
        } };
}

fn is_in_range(coord: Coord) -> bool
    ensures yes { IsTrue result }
    ensures range { IsInRange coord }
{
    coord.units().unsigned_abs() <= MOST_UNITS
}

impl Step {
    ghost use Rattle.std.specs.Prelude.{◌≡◌, ◌<ℤ◌, ◌↔◌, IsSome, IfSome};
    ghost use Rattle.legs.specs.Legs.{leg_of, step_between};

    /// The step between two moments and positions; `None` where `t0` is not before `t1`.
    pub(crate) fn between(t0: Ms, t1: Ms, from: Position, to: Position) -> Option<Step>
        ensures some { IsSome result ↔ (t0 <ℤ t1) }
        ensures value { IfSome result (λ step. step ≡ step_between t0 t1 from to) }
    {
        if t0.millis() >= t1.millis() {
            return None;
        }
        let Position {
            x: x0,
            y: y0,
            z: z0,
        } = from;
        let Position {
            x: x1,
            y: y1,
            z: z1,
        } = to;
        prove!(is_in_range(x0) && is_in_range(y0) && is_in_range(z0));
        prove!(is_in_range(x1) && is_in_range(y1) && is_in_range(z1));
        Some(Step {
            t0,
            t1,
            x0,
            y0,
            z0,
            x1,
            y1,
            z1,
        })
    }

    /// The step as a leg.
    pub(crate) fn numbered(self, ordinal: u64, feature: u32, row: u32) -> Leg
        ensures { result ≡ leg_of ordinal feature row self }
    {
        Leg {
            ordinal,
            feature,
            row,
            t0: self.t0,
            t1: self.t1,
            x0: self.x0,
            y0: self.y0,
            z0: self.z0,
            x1: self.x1,
            y1: self.y1,
            z1: self.z1,
        }
    }
}
