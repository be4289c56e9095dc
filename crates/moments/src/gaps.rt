//! Times without a position of a feature.
use legs::Leg;
use mfcsv::Position;
use std::alloc::{AllocError, Global};
use std::collections::BTreeMap;
use timebase::{Ms, Period};

/// A time without a position of a feature: between the end of a leg and the start of its next one.
#[derive(Clone, Copy, PartialEq, Eq, Debug)]
pub struct Gap {
    pub feature: u32,
    /// When the leg before it ends.
    pub begins: Ms,
    /// When the leg behind it starts.
    pub ends: Ms,
    /// Where the feature is at the end of the one.
    pub from: Position,
    /// Where it is at the start of the other.
    pub to: Position,
}

/// The gap between two legs of a feature, where there is one with a moment in the period.
fn gap_between(before: &Leg, behind: &Leg, period: &Period) -> Option<Gap> {
    let (begins, ends) = (before.t1, behind.t0);
    if ends <= begins || ends <= period.start() || begins >= period.end() {
        return None;
    }
    Some(Gap {
        feature: behind.feature,
        begins,
        ends,
        from: Position {
            x: before.x1,
            y: before.y1,
            z: before.z1,
        },
        to: Position {
            x: behind.x0,
            y: behind.y0,
            z: behind.z0,
        },
    })
}

/// The gaps between the legs of each feature that have a moment in the period, in the order of the legs behind them. The
/// legs of a feature are in the order of time.
pub fn gaps_of(alloc: Global, legs: &[Leg], period: &Period) -> Result<Vec<Gap>, AllocError> {
    let mut gaps = Vec::new(alloc);
    let mut last: BTreeMap<u32, usize> = BTreeMap::new(alloc);
    for place in 0..legs.len() {
        let leg = &legs[place];
        if let Some(before) = last.insert(leg.feature, place)?
            && before < legs.len()
            && let Some(gap) = gap_between(&legs[before], leg, period)
        {
            gaps.push(gap)?;
        }
    }
    Ok(gaps)
}
