//! Legs drawn by chance, the same ones in each run.
use fixedpoint::Coord;
use legs::{Box3, Leg};
use mfcsv::Position;
use rand_core::utils::NextWord;
use rand_pcg::Pcg32;
use std::alloc::Global;
use timebase::Ms;

/// Numbers without a pattern.
#[derive(Drop)]
pub(crate) struct Numbers {
    words: Pcg32,
}

impl Numbers {
    /// Those of a stream.
    pub(crate) fn new(stream: u64) -> Numbers {
        Numbers {
            words: Pcg32::new(42, stream),
        }
    }

    /// A number below another one, which is not 0.
    fn below(&mut self, end: u32) -> u32 {
        self.words.next_word() % end.max(1)
    }

    /// A point of a square of the plane.
    fn point(&mut self) -> Option<Position> {
        Some(Position {
            x: Coord::new(i64::from(self.below(1 << 20)))?,
            y: Coord::new(i64::from(self.below(1 << 20)))?,
            z: Coord::new(0)?,
        })
    }

    /// A leg in a second of its ordinal and its feature. Some legs of a feature begin when its last one ends.
    fn leg(&mut self, ordinal: u32, feature: u32) -> Option<Leg> {
        let second = i64::from(ordinal).wrapping_add(i64::from(feature).wrapping_mul(12));
        let start = second.wrapping_mul(1000);
        let t0 = start.wrapping_add(i64::from(self.below(2)).wrapping_mul(250));
        let t1 = start.wrapping_add(i64::from(self.below(3)).wrapping_mul(250).wrapping_add(500));
        let (from, to) = (self.point()?, self.point()?);
        Leg::new(
            u64::from(ordinal),
            feature,
            Ms::new(t0)?,
            Ms::new(t1)?,
            from,
            to,
            ordinal,
        )
    }

    /// The box of one of some legs, or that of its last corner.
    fn box_of(&mut self, legs: &[Leg]) -> Option<Box3> {
        let end = u32::try_from(legs.len()).ok()?;
        let bounds = Box3::of(legs.get(self.below(end) as usize)?);
        if self.below(2) == 0 {
            return Some(bounds);
        }
        Some(Box3 {
            x_min: bounds.x_max,
            y_min: bounds.y_max,
            t_min: bounds.t_max,
            x_max: bounds.x_max,
            y_max: bounds.y_max,
            t_max: bounds.t_max,
        })
    }

    /// Such a box, what holds two of them, or the box of a leg that is drawn for it.
    pub(crate) fn query(&mut self, legs: &[Leg]) -> Option<Box3> {
        let one = self.box_of(legs)?;
        match self.below(3) {
            0 => Some(one),
            1 => Some(one.cover(&self.box_of(legs)?)),
            _ => {
                let ordinal = self.below(100);
                Some(Box3::of(&self.leg(ordinal, 0)?))
            }
        }
    }
}

/// That many legs of that many features, which come in the order of their first legs.
pub(crate) fn feed(alloc: Global, count: u32, features: u32) -> Option<Vec<Leg>> {
    let mut numbers = Numbers::new(1);
    let mut legs = Vec::new(alloc);
    let mut known = 0u32;
    for ordinal in 0..count {
        let feature = numbers.below(features).min(known);
        known = known.max(feature.wrapping_add(1));
        legs.push(numbers.leg(ordinal, feature)?).ok()?;
    }
    Some(legs)
}
