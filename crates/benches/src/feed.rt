//! Legs of features in turn, for all that is measured.
use fixedpoint::Coord;
use legs::Leg;
use mfcsv::Position;
use std::alloc::Global;
use tbtree::Place;
use timebase::Ms;

/// A position of whole units, without height.
pub(crate) fn position(x: i64, y: i64) -> Option<Position> {
    Some(Position {
        x: Coord::new(x)?,
        y: Coord::new(y)?,
        z: Coord::new(0)?,
    })
}

/// The leg of that ordinal of a feature along the diagonal: it begins as many milliseconds after the
/// epoch, and lasts so long.
pub(crate) fn leg(ordinal: u32, feature: u32, lasts: i64) -> Option<Leg> {
    let n = i64::from(ordinal);
    let (t0, t1) = (Ms::new(n)?, Ms::new(n.wrapping_add(lasts))?);
    let next = n.wrapping_add(1);
    let (from, to) = (position(n, n)?, position(next, next)?);
    Leg::new(u64::from(ordinal), feature, t0, t1, from, to, ordinal)
}

/// The places of features without a leg.
pub(crate) fn places(alloc: Global, features: u32) -> Option<Vec<Place>> {
    let mut places = Vec::new(alloc);
    for _ in 0..features {
        places.push(Place::new()).ok()?;
    }
    Some(places)
}
