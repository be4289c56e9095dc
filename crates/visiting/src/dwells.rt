//! How long features stay in all.
ghost use Rattle.std.specs.Prelude.{◌≡◌, ◌+◌, ◌*◌, ◌≤◌, All, IfOk};
ghost use Rattle.visiting.specs.Dwells.{dwells_of};

use crate::joined::{Joined, joined_of};
use std::alloc::{AllocError, Global};

/// How long a feature stays in all.
#[derive(Clone, Copy, PartialEq, Eq, Debug)]
pub struct Dwell {
    pub feature: u32,
    /// How many visits it pays.
    pub visits: u64,
    /// It stays for at least so many microseconds,
    pub least: u64,
    /// and for at most so many, unless that is the greatest number that there is, at which each of the three stops.
    pub most: u64,
}

/// A visit of a feature, which lasts for some time.
pub trait Lasting {
    ghost use Rattle.std.specs.Prelude.{ℕ, ◌≡◌, ◌≤◌, ◌+◌};

    /// Its feature.
    ghost feature: { Self → ℕ };

    /// It lasts for at least so many microseconds.
    ghost least: { Self → ℕ };

    /// And for at most so many.
    ghost most: { Self → ℕ };

    /// Its feature.
    fn feature(&self) -> u32
        ensures { result ≡ feature self.now };

    /// How long it lasts, in whole microseconds: at least the first number and at most the second.
    fn lasts(&self) -> (u64, u64)
        // The first number is the least.
        ensures least { result.0 ≡ least self.now }
        // The second is the most.
        ensures most { result.1 ≡ most self.now };

    /// The two are 2 apart at most.
    ghost near: { (visit : Self) → most visit ≤ (least visit + 2) };
}

impl Dwell {
    ghost use Rattle.std.specs.Prelude.{◌≡◌};
    ghost use Rattle.visiting.specs.Dwells.{dwell_of, dwell_with};

    /// A feature's dwell before any visit.
    fn new(feature: u32) -> Dwell
        ensures { result ≡ dwell_of feature }
    {
        Dwell {
            feature,
            visits: 0,
            least: 0,
            most: 0,
        }
    }

    /// With a visit more, that lasts so long.
    fn with(self, least: u64, most: u64) -> Dwell
        ensures { result ≡ dwell_with self least most }
    {
        Dwell {
            feature: self.feature,
            visits: self.visits.saturating_add(1),
            least: self.least.saturating_add(least),
            most: self.most.saturating_add(most),
        }
    }
}

impl<V: Lasting> Joined<V> for Dwell {
    ghost use Rattle.std.specs.Prelude.{true, refl};
    ghost use Rattle.visiting.specs.Dwells.{dwell_of, dwell_with};

    ghost feature = { λ dwell. dwell.feature };

    ghost part_feature = { V.feature };

    ghost of = { λ visit. dwell_with (dwell_of (V.feature visit)) (V.least visit) (V.most visit) };

    ghost goes_on = { λ dwell visit. true };

    ghost with_part = { λ dwell visit. dwell_with dwell (V.least visit) (V.most visit) };

    ghost begins = { λ visit. refl };

    ghost keeps = { λ dwell visit. refl };

    fn feature_of(visit: &V) -> u32 {
        visit.feature()
    }

    fn of(visit: &V) -> Dwell {
        let (least, most) = visit.lasts();
        Dwell::new(visit.feature()).with(least, most)
    }

    fn goes_on(&self, _visit: &V) -> bool {
        true
    }

    fn with_part(self, visit: &V) -> Dwell {
        let (least, most) = visit.lasts();
        self.with(least, most)
    }
}

/// How long each feature stays, in the order of the features' first visits.
pub fn dwells_of<V: Lasting>(alloc: Global, visits: &[V]) -> Result<Vec<Dwell>, AllocError>
    // Each feature of the visits has one dwell, with its visits counted and their lengths summed.
    ensures value { IfOk result (λ dwells. dwells.items ≡ dwells_of V.feature V.least V.most visits.now) }

    // The two sums are 2 microseconds a visit apart at most.
    ensures near { IfOk result (λ dwells. All
        (λ dwell. dwell.most ≤ dwell.least + 2 * dwell.visits) dwells.items) }
{
    joined_of::<V, Dwell>(alloc, visits)
}
