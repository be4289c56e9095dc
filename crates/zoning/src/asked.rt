//! The course of a leg, and the part of it that is in a period.
ghost use Rattle.std.specs.Prelude.{◌≡◌, ◌-ℤ◌, ◌<ℤ◌, ◌≤ℤ◌, MatchOption};
ghost use Rattle.legs.specs.Legs.{HasMoment, first_moment, last_moment};
ghost use Rattle.clipping.specs.Inside.{duration};
ghost use Rattle.zoning.specs.Asking.{IsAsked};
ghost use Rattle.zoning.specs.Stays.{course_of};

use legs::Leg;
use timebase::{Ms, Period};
use zones::{CoursePlace, Segment};

/// A leg's course, and the first and last place of it that is asked for.
#[derive(Clone, Copy)]
pub(crate) struct Asked {
    pub(crate) course: Segment,
    pub(crate) first: CoursePlace,
    pub(crate) last: CoursePlace,
}

/// The course of a leg.
pub(crate) fn course_of(leg: &Leg) -> Segment
    ensures { result ≡ course_of leg.now }
{
    Segment {
        x0: leg.x0.units(),
        y0: leg.y0.units(),
        x1: leg.x1.units(),
        y1: leg.y1.units(),
    }
}

/// The first moment of a leg in a period, if it has one.
fn first_of(leg: &Leg, period: &Period) -> Ms
    ensures { result ≡ first_moment leg.now period.now }
{
    leg.t0.max(period.start())
}

/// The last.
fn last_of(leg: &Leg, period: &Period) -> Ms
    ensures { result ≡ last_moment leg.now period.now }
{
    leg.t1.min(period.end())
}

/// The place of a leg's course at one of its moments.
fn place_at(leg: &Leg, at: Ms) -> CoursePlace
    requires from { leg.now.t0 ≤ℤ at }
    requires to { at ≤ℤ leg.now.t1 }
    ensures num { result.num ≡ at -ℤ leg.now.t0 }
    ensures den { result.den ≡ duration leg.now }
    ensures rises { leg.now.t0 <ℤ leg.now.t1 }
{
    let (t0, t1) = (leg.t0.millis(), leg.t1.millis());
    CoursePlace {
        num: (at.millis() - t0) as i128,
        den: (t1 - t0) as i128,
    }
}

/// The course of a leg, and the part of it that is in a period; `None` if the leg has no moment there.
#[tactic(auto, using(crate::proofs::LiveLemmas::first_from, crate::proofs::LiveLemmas::first_to, crate::proofs::LiveLemmas::last_from, crate::proofs::LiveLemmas::last_to))]
pub(crate) fn asked_of(leg: &Leg, period: &Period) -> Option<Asked>
    ensures { MatchOption result (HasMoment leg.now period.now → ⊥)
        (λ asked. IsAsked leg.now period.now asked.course asked.first asked.last) }
{
    if !leg.is_live(period) {
        return None;
    }
    Some(Asked {
        course: course_of(leg),
        first: place_at(leg, first_of(leg, period)),
        last: place_at(leg, last_of(leg, period)),
    })
}
