//! The stays of legs in a zone.
ghost use Rattle.std.specs.Prelude.{◌≡◌, All, IfOk, MatchOption, None};
ghost use Rattle.zoning.specs.Courses.{is_own};
ghost use Rattle.zoning.specs.Ends.{IsEndBy};
ghost use Rattle.zoning.specs.Stays.{AllInside, AreOver, AreStays, IsInside, IsOf, IsOver};

use crate::asked::asked_of;
use crate::ends::end_by;
use crate::moment::Moment;
use crate::part::{moment_at, position_at};
use crate::sides::{Side, side_after, side_before};
use fractions::Fraction;
use legs::Leg;
use mfcsv::Position;
use std::alloc::{AllocError, Global};
use timebase::Period;
use visiting::End;
use zones::{CoursePlace, Cut, Gate, Ring, stays};

/// When and where a leg is in a zone in a period: from `enters` to `leaves`, both included, and at each moment between
/// them.
#[derive(Clone, Copy, PartialEq, Eq, Debug)]
pub struct Stay {
    pub leg: Leg,
    /// The first moment.
    pub enters: Moment,
    /// The last moment, which may be the first.
    pub leaves: Moment,
    /// Where the leg is at the first moment, each coordinate rounded down to the unit.
    pub entry: Position,
    /// Where it is at the last, rounded in the same way.
    pub exit: Position,
    /// What the stay begins by.
    pub enters_by: End,
    /// What it ends by.
    pub leaves_by: End,
    /// On a gate: the side on which the leg is just before; `None` if the leg or the period begins there, or the leg
    /// runs along the gate's line.
    pub from: Option<Side>,
    /// The side on which it is just after.
    pub to: Option<Side>,
}

/// Whether an end is the leg's or the period's, and no edge of the zone.
fn is_own(end: End) -> bool
    ensures { result ≡ is_own end }
{
    match end {
        End::Leg | End::Period => true,
        End::Edge => false,
    }
}

impl Stay {
    ghost use Rattle.std.specs.Prelude.{◌≡◌};
    ghost use Rattle.zoning.specs.Courses.{holds_first, holds_last, is_whole};

    /// Whether the leg is in the zone at its first moment in the period.
    pub fn holds_first(&self) -> bool
        // It begins by the leg or the period, and not at an edge.
        ensures { result ≡ holds_first self.now }
    {
        is_own(self.enters_by)
    }

    /// Whether it is at its last.
    pub fn holds_last(&self) -> bool
        // It ends by the leg or the period, and not at an edge.
        ensures { result ≡ holds_last self.now }
    {
        is_own(self.leaves_by)
    }

    /// Whether it is at all of its moments in the period.
    pub fn is_whole(&self) -> bool
        // It holds the first moment and the last.
        ensures { result ≡ is_whole self.now }
    {
        self.holds_first() && self.holds_last()
    }
}

/// The side just before a stay that begins so.
fn side_from(gate: Option<&Gate>, leg: &Leg, enters_by: End) -> Option<Side> {
    match gate {
        Some(gate) if enters_by == End::Edge => side_before(gate, leg),
        _ => None,
    }
}

/// The side just after a stay that ends so.
fn side_to(gate: Option<&Gate>, leg: &Leg, leaves_by: End) -> Option<Side> {
    match gate {
        Some(gate) if leaves_by == End::Edge => side_after(gate, leg),
        _ => None,
    }
}

/// The stay of a leg in a cut of its course.
fn stay_in(gate: Option<&Gate>, leg: &Leg, period: &Period, cut: &Cut) -> Stay
    requires { IsInside cut.now }
    ensures over { IsOver leg.now cut.now result }
    ensures same { result.leg ≡ leg.now }
    ensures begun { IsEndBy result.enters leg.now.t0 period.now.start result.enters_by }
    ensures ended { IsEndBy result.leaves leg.now.t1 period.now.end result.leaves_by }
{
    let (lo, hi) = (fraction_of(cut.lo), fraction_of(cut.hi));
    let (enters, leaves) = (moment_at(leg, lo), moment_at(leg, hi));
    let enters_by = end_by(&enters, leg.t0, period.start());
    let leaves_by = end_by(&leaves, leg.t1, period.end());
    Stay {
        leg: *leg,
        enters,
        leaves,
        entry: position_at(leg, lo),
        exit: position_at(leg, hi),
        enters_by,
        leaves_by,
        from: side_from(gate, leg, enters_by),
        to: side_to(gate, leg, leaves_by),
    }
}

fn fraction_of(place: CoursePlace) -> Fraction
    ensures num { result.num ≡ place.num }
    ensures den { result.den ≡ place.den }
{
    Fraction {
        num: place.num,
        den: place.den,
    }
}

/// The stays of a leg in the cuts of its course.
fn stays_in(
    alloc: Global,
    gate: Option<&Gate>,
    leg: &Leg,
    period: &Period,
    cuts: &[Cut],
) -> Result<Vec<Stay>, AllocError>
    requires { AllInside cuts.now }
    ensures over { IfOk result (λ stays. AreOver leg.now cuts.now stays.items) }
    ensures each { IfOk result (λ stays. All (IsOf leg.now period.now) stays.items) }
{
    let mut stays = Vec::with_capacity(alloc, cuts.len())?;
    for cut in cuts {
        stays.push(stay_in(gate, leg, period, cut))?;
    }
    Ok(stays)
}

/// The stays of a leg in a zone in a period, in the order of time. A gate among the arguments has the zone's one ring,
/// and gives the stays sides.
#[tactic(auto, using(crate::proofs::HeldLemmas::are_stays, crate::proofs::HeldLemmas::none_stays, crate::proofs::HeldLemmas::asked_inside))]
pub fn stays_of(
    alloc: Global,
    rings: &[Ring],
    gate: Option<&Gate>,
    leg: &Leg,
    period: &Period,
) -> Result<Vec<Stay>, AllocError>
    // At each moment of the leg in the period, the leg is in the zone exactly if one of the stays holds the moment.
    // The stays are in the order of time and apart; each is of the leg, and says what it begins and ends by.
    ensures { IfOk result (λ stays. AreStays rings.now leg.now period.now stays.items) }
{
    match asked_of(leg, period) {
        Some(asked) => {
            let cuts = stays(rings, &asked.course, asked.first, asked.last, alloc)?;
            stays_in(alloc, gate, leg, period, &cuts)
        }
        None => Ok(Vec::new(alloc)),
    }
}
