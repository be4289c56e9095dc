//! Visits of features: stays that go on over several legs, joined.
ghost use Rattle.std.specs.Prelude.{◌≡◌, All, IfOk};
ghost use Rattle.moments.specs.Lengths.{IsNoLater};
ghost use Rattle.moments.specs.Visits.{visits_of};

use crate::ends::End;
use crate::moment::Moment;
use crate::stay::Stay;
use mfcsv::Position;
use std::alloc::{AllocError, Global};
use visiting::{Joined, Lasting, Micros, joined_of, length};

/// A visit: one stay of a feature, or several, each of which begins at the moment at which the one before it ends.
#[derive(Clone, Copy, PartialEq, Eq, Debug)]
pub struct Visit {
    pub feature: u32,
    /// The first moment of its first stay.
    pub enters: Moment,
    /// The last moment of its last stay.
    pub leaves: Moment,
    /// Where the feature is at the first moment, each coordinate rounded down to the unit.
    pub entry: Position,
    /// Where it is at the last, rounded likewise.
    pub exit: Position,
    /// What the first moment is, of its first stay.
    pub enters_by: End,
    /// What the last one is, of its last stay.
    pub leaves_by: End,
    /// How many legs it goes over.
    pub legs: u64,
}

impl Visit {
    ghost use Rattle.std.specs.Prelude.{◌≡◌};
    ghost use Rattle.moments.specs.Lengths.{IsBetween, IsNoLater, least_of, most_of};

    /// How long the visit lasts, in whole microseconds: at least the first number and at most the second.
    pub fn lasts(&self) -> (u64, u64)
        // The first number is the visit with both moments rounded inwards, and not below 0.
        ensures least { result.0 ≡ least_of self.now }
        // The second number is the visit with both moments rounded outwards.
        ensures most { result.1 ≡ most_of self.now }

        // Of a visit that does not end before it begins, as none of `visits_of` does.
        ensures between { IsNoLater self.now.enters self.now.leaves
            → IsBetween self.now.enters self.now.leaves result.0 result.1 }
    {
        let enters = Micros {
            down: self.enters.micros_down(),
            up: self.enters.micros_up(),
        };
        let leaves = Micros {
            down: self.leaves.micros_down(),
            up: self.leaves.micros_up(),
        };
        length(enters, leaves)
    }
}

impl Joined<Stay> for Visit {
    ghost use Rattle.std.specs.Prelude.{refl};
    ghost use Rattle.moments.specs.Visits as visits;

    ghost feature = { λ visit. visit.feature };

    ghost part_feature = { λ stay. stay.leg.feature };

    ghost of = { visits.visit_of };

    ghost goes_on = { visits.goes_on };

    ghost with_part = { visits.visit_with };

    ghost begins = { λ stay. refl };

    ghost keeps = { λ visit stay. refl };

    fn feature_of(stay: &Stay) -> u32 {
        stay.leg.feature
    }

    fn of(stay: &Stay) -> Visit {
        Visit {
            feature: stay.leg.feature,
            enters: stay.enters,
            leaves: stay.leaves,
            entry: stay.entry,
            exit: stay.exit,
            enters_by: stay.enters_by,
            leaves_by: stay.leaves_by,
            legs: 1,
        }
    }

    fn goes_on(&self, stay: &Stay) -> bool {
        self.leaves.num == stay.enters.num && self.leaves.den == stay.enters.den
    }

    fn with_part(self, stay: &Stay) -> Visit {
        Visit {
            leaves: stay.leaves,
            exit: stay.exit,
            leaves_by: stay.leaves_by,
            legs: self.legs.saturating_add(1),
            ..self
        }
    }
}

impl Lasting for Visit {
    ghost use Rattle.moments.specs.Lengths.{least_of, most_of};
    ghost use Rattle.visiting.proofs.LengthLemmas.{always_near};

    ghost feature = { λ visit. visit.feature };

    ghost least = { least_of };

    ghost most = { most_of };

    ghost near = { λ visit. always_near visit.enters.num visit.leaves.num visit.enters.den
        visit.leaves.den visit.enters.positive visit.leaves.positive };

    fn feature(&self) -> u32 {
        self.feature
    }

    fn lasts(&self) -> (u64, u64) {
        self.lasts()
    }
}

/// The visits of stays, in the order of their first stays. Where the stays of a feature are not in the order of time, its
/// visits may overlap.
pub fn visits_of(alloc: Global, stays: &[Stay]) -> Result<Vec<Visit>, AllocError>
    // A stay that begins when its feature's last visit ends goes on with that visit; any other
    // begins a new one.
    ensures value { IfOk result (λ visits. visits.items ≡ visits_of stays.now) }

    // Where no stay ends before it begins, as none of `stays_of` does, no visit does.
    ensures ordered { IfOk result
        (λ visits. All (λ stay. IsNoLater stay.enters stay.leaves) stays.now
        → All (λ visit. IsNoLater visit.enters visit.leaves) visits.items) }
{
    joined_of::<Stay, Visit>(alloc, stays)
}
