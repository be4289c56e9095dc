//! What one pass over legs has to keep of them.
ghost use Rattle.std.specs.Prelude.{[], ◌∷◌, ◌≡◌, ◌↔◌, IsTrue, Some};
ghost use Rattle.clipping.specs.Inside.{HasMomentInside, InRect, live_ends};
ghost use Rattle.legs.specs.Sieves.{first_live, last_live};
ghost use Rattle.predicates.specs.Courses.{IsCourse, ends_of, no_course, outside_course, tells, then_of};

use crate::Predicate;
use clipping::{clip, inside_at, live};
use legs::{Box3, Leg, Rect};
use timebase::{Ms, Period};

/// What legs have to do with a rectangle over a period, or with anything else that they can be inside of.
#[derive(Clone, Copy, PartialEq, Eq, Debug)]
pub struct Course {
    /// There is a moment.
    pub live: bool,
    /// They are inside at the first moment.
    pub first: bool,
    /// They are inside at the last moment.
    pub last: bool,
    /// They are inside at all moments.
    pub always: bool,
    /// They are inside at some moment.
    pub ever: bool,
}

/// Whether the box of a leg meets the box over a rectangle and a period; else the leg is inside the
/// rectangle at no moment of the period.
fn may_be_inside(leg: &Leg, rect: &Rect, period: &Period) -> bool
    ensures { HasMomentInside leg.now rect.now period.now → IsTrue result }
{
    prove!(leg.t0.millis() < leg.t1.millis());
    Box3::of(leg).meets(&Box3::new(rect, period))
}

/// Whether a leg is inside a rectangle at some moment of a period, as it is where it is known to be.
fn is_ever_inside(leg: &Leg, rect: &Rect, period: &Period, is_known: bool) -> bool
    requires { IsTrue is_known → HasMomentInside leg.now rect.now period.now }
    ensures { IsTrue result ↔ HasMomentInside leg.now rect.now period.now }
{
    if is_known {
        return true;
    }
    clip(leg, rect, period).is_some()
}

impl Course {
    /// The course of no legs.
    pub fn empty() -> Course
        // No moment, so no moment inside, and none outside.
        ensures { result ≡ no_course }
    {
        Course {
            live: false,
            first: false,
            last: false,
            always: true,
            ever: false,
        }
    }

    /// The course of one leg that has a moment and is inside at none.
    pub fn outside() -> Course
        // Only `live` is true.
        ensures { result ≡ outside_course }
    {
        Course {
            live: true,
            first: false,
            last: false,
            always: false,
            ever: false,
        }
    }

    /// The course of one leg whose first and last moment in the period are those ends. It moves
    /// linearly: between two moments inside it is inside.
    fn between(leg: &Leg, rect: &Rect, period: &Period, ends: (Ms, Ms)) -> Course
        requires { live_ends leg.now period.now ≡ Some ends }
        ensures { IsCourse (InRect rect.now) result (leg.now ∷ []) period.now }
    {
        let first = inside_at(leg, rect, ends.0);
        let last = inside_at(leg, rect, ends.1);
        Course {
            live: true,
            first,
            last,
            always: first && last,
            ever: is_ever_inside(leg, rect, period, first || last),
        }
    }

    /// The course of one leg with a rectangle. One whose box is off the rectangle is inside at no moment.
    pub fn of(leg: &Leg, rect: &Rect, period: &Period) -> Course
        // It is the course of that leg alone.
        ensures { IsCourse (InRect rect.now) result (leg.now ∷ []) period.now }
    {
        match live(leg, period) {
            Some(ends) => {
                if may_be_inside(leg, rect, period) {
                    Course::between(leg, rect, period, ends)
                } else {
                    Course::outside()
                }
            }
            None => Course::empty(),
        }
    }

    /// The course of these legs and then of others.
    pub fn then(self, next: Course) -> Course
        // The first moment is of these legs, if they have one, and the last of the others, if they have.
        ensures { result ≡ then_of self next }
    {
        if !self.live {
            return next;
        }
        if !next.live {
            return self;
        }
        Course {
            live: true,
            first: self.first,
            last: next.last,
            always: self.always && next.always,
            ever: self.ever || next.ever,
        }
    }

    /// Whether a predicate holds for the legs.
    pub fn answer(self, predicate: Predicate) -> bool
        // It is what these five facts tell of the predicate.
        ensures { result ≡ tells predicate self }
    {
        match predicate {
            Predicate::Ever => self.ever,
            Predicate::Always => self.live && self.always,
            Predicate::Enters => self.live && !self.first && self.last,
            Predicate::Leaves => self.live && self.first && !self.last,
            Predicate::Crosses => self.live && !self.first && !self.last && self.ever,
            Predicate::Bypasses => self.live && !self.ever,
        }
    }
}

/// The course of legs, in their order.
pub(crate) fn course_of(legs: &[Leg], rect: &Rect, period: &Period) -> Course
    ensures { IsCourse (InRect rect.now) result legs.now period.now }
{
    let mut course = Course::empty();
    for leg in legs {
        course = course.then(Course::of(leg, rect, period));
    }
    course
}

/// The first leg that has a moment in a period.
fn first_live(legs: &[Leg], period: &Period) -> Option<Leg>
    ensures { result ≡ first_live period.now legs.now }
{
    for leg in legs {
        if live(leg, period).is_some() {
            return Some(*leg);
        }
    }
    None
}

/// The last leg that has a moment in a period.
fn last_live(legs: &[Leg], period: &Period) -> Option<Leg>
    ensures { result ≡ last_live period.now legs.now }
{
    let mut i = legs.len();
    'legs: while i > 0 {
        i -= 1;
        if live(&legs[i], period).is_some() {
            return Some(legs[i]);
        }
    }
    None
}

/// The course of the first and of the last leg that have a moment, which alone count for where legs
/// enter and leave.
pub(crate) fn course_of_ends(legs: &[Leg], rect: &Rect, period: &Period) -> Course
    ensures { IsCourse (InRect rect.now) result (ends_of period.now legs.now) period.now }
{
    match first_live(legs, period) {
        Some(first) => match last_live(legs, period) {
            Some(last) => {
                let entry = Course::of(&first, rect, period);
                entry.then(Course::of(&last, rect, period))
            }
            None => Course::empty(),
        },
        None => Course::empty(),
    }
}
