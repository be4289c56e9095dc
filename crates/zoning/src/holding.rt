//! The features of which a predicate holds with a zone.
ghost use Rattle.std.specs.Prelude.{◌≡◌, ◌<◌, IfOk, IfSome, List};
ghost use Rattle.timebase.specs.Period.{PeriodView};
ghost use Rattle.legs.specs.Legs.{LegView};
ghost use Rattle.predicates.specs.declared.Predicate.TheVariants.{Ever};
ghost use Rattle.zones.specs.Places.{Corner};
ghost use Rattle.zoning.specs.Holding.{AreCourses, AreHolding, AreNear, AreTallies, completed, holds_with, near_with, same_leg, tally_with};

use crate::courses::course_of_stays;
use crate::site::Site;
use legs::Leg;
use predicates::{Course, Predicate};
use std::alloc::{AllocError, Global};
use std::collections::BTreeMap;
use timebase::Period;

/// What is known of a feature's legs.
#[derive(Clone, Copy)]
struct Tally {
    /// How many they are.
    legs: u64,
    first: Leg,
    last: Leg,
}

/// The tally of each feature that has a leg.
#[derive(Drop)]
pub struct Tallies {
    by_feature: BTreeMap<u32, Tally>,
}

/// What is known of a feature's legs near a zone.
#[derive(Clone, Copy)]
struct Near {
    tally: Tally,
    /// What they have to do with the zone.
    course: Course,
}

/// What legs have to do with a zone, feature by feature.
#[derive(Drop)]
pub struct Courses {
    by_feature: BTreeMap<u32, Near>,
}

/// A tally, if there is one, with a leg more. It has fewer than `most`.
fn tally_with(tally: Option<Tally>, leg: &Leg, most: usize) -> Tally
    requires { IfSome tally (λ tally. tally.legs < most) }
    ensures { result ≡ tally_with tally leg.now }
{
    match tally {
        Some(tally) => Tally {
            legs: tally.legs + 1,
            first: tally.first,
            last: *leg,
        },
        None => Tally {
            legs: 1,
            first: *leg,
            last: *leg,
        },
    }
}

impl Tallies {
    ghost use Rattle.std.specs.Prelude.{◌≡◌, All, IfOk, true};
    ghost use Rattle.legs.specs.Legs.{is_live};
    ghost use Rattle.timebase.specs.Period.{PeriodView};
    ghost use Rattle.zoning.specs.Holding.{AreTallies};

    /// The tallies of legs, feature by feature.
    pub fn of(alloc: Global, legs: &[Leg]) -> Result<Tallies, AllocError>
        // Where all of the legs have a moment in a period, each tally is of all legs of its feature.
        ensures { (period : PeriodView) → All (λ leg. is_live period leg ≡ true) legs.now
            → IfOk result (λ tallies. AreTallies period legs.now tallies) }
    {
        let mut by_feature: BTreeMap<u32, Tally> = BTreeMap::new(alloc);
        for leg in legs {
            let found = by_feature.get(&leg.feature).copied();
            let tally = tally_with(found, leg, legs.len());
            by_feature.insert(leg.feature, tally)?;
        }
        Ok(Tallies { by_feature })
    }
}

/// The tally and the course, if there are any, with a leg more. They have fewer than `most`.
fn near_with(near: Option<Near>, leg: &Leg, course: Course, most: usize) -> Near
    requires { IfSome near (λ near. near.tally.legs < most) }
    ensures { result ≡ near_with near leg.now course }
{
    match near {
        Some(near) => Near {
            tally: tally_with(Some(near.tally), leg, most),
            course: near.course.then(course),
        },
        None => Near {
            tally: tally_with(None, leg, most),
            course,
        },
    }
}

impl Courses {
    ghost use Rattle.std.specs.Prelude.{◌≡◌, All, IfOk, true};
    ghost use Rattle.legs.specs.Legs.{is_live};
    ghost use Rattle.zoning.specs.Holding.{AreCourses};

    /// What legs have to do with a zone over a period.
    pub fn of(
        alloc: Global,
        site: &Site,
        legs: &[Leg],
        period: &Period,
    ) -> Result<Courses, AllocError>
        // Where all of the legs have a moment in the period, each course is of all legs of its feature.
        ensures { All (λ leg. is_live period.now leg ≡ true) legs.now
            → IfOk result (λ courses. AreCourses site.now period.now legs.now courses) }
    {
        let mut by_feature: BTreeMap<u32, Near> = BTreeMap::new(alloc);
        for leg in legs {
            let course = site.course_of(alloc, leg, period)?;
            let found = by_feature.get(&leg.feature).copied();
            let near = near_with(found, leg, course, legs.len());
            by_feature.insert(leg.feature, near)?;
        }
        Ok(Courses { by_feature })
    }

    /// Whether some leg is in the zone at some moment.
    pub fn is_ever(&self) -> bool {
        for (_, near) in &self.by_feature {
            if near.course.ever {
                return true;
            }
        }
        false
    }
}

/// Whether a leg is another.
fn is_same(a: &Leg, b: &Leg) -> bool
    ensures { result ≡ same_leg a.now b.now }
{
    *a == *b
}

/// The course of all legs of a feature, by that of those that are near: the others are outside.
fn completed(all: &Tally, near: Near) -> Course
    ensures { result ≡ completed all.now near }
{
    Course {
        live: true,
        first: near.course.first && is_same(&near.tally.first, &all.first),
        last: near.course.last && is_same(&near.tally.last, &all.last),
        always: near.course.always && near.tally.legs == all.legs,
        ever: near.course.ever,
    }
}

/// Whether a predicate holds of a feature.
fn holds_with(predicate: Predicate, all: &Tally, near: Option<Near>) -> bool
    ensures { result ≡ holds_with predicate all.now near }
{
    match near {
        Some(near) => completed(all, near).answer(predicate),
        None => Course::outside().answer(predicate),
    }
}

/// The features of which a predicate holds with a zone over a period, in the order of their numbers.
pub fn features_of(
    alloc: Global,
    predicate: Predicate,
    tallies: &Tallies,
    courses: &Courses,
) -> Result<Vec<u32>, AllocError>
    // Where all legs are tallied, those near the zone have these courses and the others are outside,
    // these are exactly the features of which the predicate holds, by its definition over all legs.
    ensures exact { (rings : List (List Corner)) (period : PeriodView) (legs near : List LegView)
        → AreTallies period legs tallies.now → AreNear rings period legs near
        → AreCourses rings period near courses.now
        → IfOk result (λ features. AreHolding predicate rings legs period features.items) }
    // Of `Ever` the tallies of the legs near the zone alone say the same.
    ensures ever { (rings : List (List Corner)) (period : PeriodView) (legs near : List LegView)
        → predicate ≡ Ever → AreTallies period near tallies.now → AreNear rings period legs near
        → AreCourses rings period near courses.now
        → IfOk result (λ features. AreHolding Ever rings legs period features.items) }
{
    let mut features = Vec::new(alloc);
    for (feature, tally) in &tallies.by_feature {
        if holds_with(predicate, tally, courses.by_feature.get(feature).copied()) {
            features.push(*feature)?;
        }
    }
    Ok(features)
}
