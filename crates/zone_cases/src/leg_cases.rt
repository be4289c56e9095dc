//! The cases of legs that the lines give.
use crate::cases::{position, rings};
use crate::numbers::Numbers;
use fixedpoint::Coord;
use legs::Leg;
use mfcsv::Position;
use std::alloc::{AllocError, Global};
use timebase::{Ms, Period};
use zones::Gate;
use zoning::Site;

/// A leg, a period and a zone.
#[derive(Drop)]
pub struct LegCase {
    pub leg: Leg,
    pub period: Period,
    pub site: Site,
}

/// A leg and a period.
#[derive(Drop)]
struct Asked {
    leg: Leg,
    period: Period,
}

fn moment(numbers: &mut Numbers) -> Option<Ms> {
    Ms::new(numbers.take()?)
}

fn coord(numbers: &mut Numbers) -> Option<Coord> {
    Coord::new(numbers.take()?)
}

fn corner(numbers: &mut Numbers) -> Option<Position> {
    let x = coord(numbers)?;
    let y = coord(numbers)?;
    Some(Position {
        x,
        y,
        z: Coord::new(0)?,
    })
}

fn asked_of(numbers: &mut Numbers) -> Option<Asked> {
    let t0 = moment(numbers)?;
    let t1 = moment(numbers)?;
    let start = moment(numbers)?;
    let end = moment(numbers)?;
    let from = corner(numbers)?;
    let to = corner(numbers)?;
    Some(Asked {
        leg: Leg::new(0, 0, t0, t1, from, to, 0)?,
        period: Period::new(start, end)?,
    })
}

fn gate_of(numbers: &mut Numbers) -> Option<Gate> {
    Some(Gate {
        from: position(numbers)?,
        to: position(numbers)?,
    })
}

/// What stands behind a leg and a period.
#[derive(Clone, Copy)]
pub enum Behind {
    Rings,
    Gate,
}

/// The zone that the numbers give from here on; `None` where they give none.
fn site_of(
    alloc: Global,
    numbers: &mut Numbers,
    behind: Behind,
) -> Result<Option<Site>, AllocError> {
    match behind {
        Behind::Rings => match rings(alloc, numbers)? {
            Some(rings) => Ok(Some(Site::of_rings(alloc, rings)?)),
            None => Ok(None),
        },
        Behind::Gate => match gate_of(numbers) {
            Some(gate) => Ok(Some(Site::of_gate(alloc, gate)?)),
            None => Ok(None),
        },
    }
}

/// The case of a line behind its first word; `None` where it gives none.
pub fn read_leg_case(
    alloc: Global,
    line: &str,
    behind: Behind,
) -> Result<Option<LegCase>, AllocError> {
    let mut numbers = Numbers::of_line(alloc, line)?;
    let Some(asked) = asked_of(&mut numbers) else {
        return Ok(None);
    };
    let Some(site) = site_of(alloc, &mut numbers, behind)? else {
        return Ok(None);
    };
    Ok(Some(LegCase {
        leg: asked.leg,
        period: asked.period,
        site,
    }))
}
