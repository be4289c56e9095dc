//! What is asked of a database.
ghost use Rattle.std.specs.Prelude.{◌≡◌, IfOk};
ghost use Rattle.trajdb.specs.Answers.{HoldsOfLeg};
ghost use Rattle.trajdb.specs.Picks.{Picks};

use crate::RunFault;
use crate::answer::{ok_text, refusal_text};
use crate::database::Core;
use crate::start::Start;
use legs::{BookHead, Box3, Leg, Rect, Sieve};
use mfcsv::Dimension;
use predicates::{Predicate, holds, search_box, sieve};
use std::alloc::{AllocError, Global};
use std::slice;
use timebase::{Ms, Period};
use writer::{Entry, Frame, push_features, push_file, push_leg_records};

/// The legs for which, each taken alone, a predicate holds.
fn holding(
    alloc: Global,
    legs: &[Leg],
    predicate: Predicate,
    rect: &Rect,
    period: &Period,
) -> Result<Vec<Leg>, AllocError>
    ensures { IfOk result (λ picked. Picks
        (HoldsOfLeg predicate rect.now period.now) legs.now picked.items) }
{
    let mut picked = Vec::new(alloc);
    for leg in legs {
        if holds(predicate, slice::from_ref(leg), rect, period) {
            picked.push(*leg)?;
        }
    }
    Ok(picked)
}

impl<I: Start> Core<I> {
    ghost use Rattle.std.specs.Prelude.{◌≡◌, ◌↔◌, ◌≤◌, ◌<◌, All, IsTrue, None, Some, length, map};
    ghost use Rattle.std.specs.List.{range_with_len};
    ghost use Rattle.legs.specs.Boxes.{box_over, everything};
    ghost use Rattle.legs.specs.Index.{legs_in_box, legs_of, live_legs_of};
    ghost use Rattle.legs.specs.Limits.{greatest_limit};
    ghost use Rattle.legs.specs.Book.{feature_named};
    ghost use Rattle.trajdb.specs.Picks.{Picks};
    ghost use Rattle.trajdb.specs.Answers.{HoldsOfFeature, HoldsOfLeg, PicksFeatures, book_frame, named_leg_of, file_answer, legs_text, feature_name, names_text, track_of};
    ghost use Rattle.legs.specs.Costs.{search_cost};
    ghost use Rattle.predicates.specs.Near.{box_near};
    ghost use Rattle.legs.specs.Law.{IsThere};
    ghost use Rattle.legs.specs.Questions.{InBox, OfFeature};
    ghost use Rattle.legs.specs.Sieves.{IsSieved};
    ghost use Rattle.trajdb.specs.Telling.{ArePickedOf, AreSievedLive, AreToldOf, DeniesNamed, DeniesSome, HoldsLive, MakingCall, Names, PicksLive, QuestionCall, TextCall};
    ghost use Rattle.trajdb.specs.Calls.{Asks, AsksAtMost, feature_bound, features_bound, track_asks};
    ghost use Rattle.querylang.specs.declared.Command.{Command};

    /// How legs are written.
    fn frame(&self) -> Frame
        ensures { result ≡ book_frame self.now.book.head }
    {
        match &self.head {
            Some(head) => Frame {
                dimension: head.dimension,
                base: head.base,
            },
            None => match Ms::new(0) {
                Some(epoch) => Frame {
                    dimension: Dimension::Two,
                    base: epoch,
                },
                None => unreachable!(),
            },
        }
    }

    /// The name of a feature.
    fn name(&self, feature: u32) -> Result<&str, RunFault>
        ensures { MakingCall result (λ name. name.now ≡ feature_name self.now.book feature)
            (feature < length self.now.book.names) }
    {
        match self.tracks.name(feature) {
            Some(name) => Ok(name),
            None => Err(RunFault::Damaged(0)),
        }
    }

    /// A leg with the name of its feature and the attribute values of its record.
    fn entry<'a>(&'a self, leg: &'a Leg) -> Result<Entry<'a>, RunFault>
        ensures { MakingCall result (λ entry. entry ≡ named_leg_of self.now.book leg.now)
            (IsThere self.now.book leg.now) }
    {
        let name = self.name(leg.feature)?;
        let Some(values) = self.rows.row(leg.row as usize) else {
            return Err(RunFault::Damaged(0));
        };
        Ok(Entry { name, leg, values })
    }

    /// The answer of legs.
    pub(crate) fn legs_text(&self, alloc: Global, legs: &[Leg]) -> Result<Vec<u8>, RunFault>
        ensures { MakingCall result (λ text. text.items ≡ legs_text self.now.book legs.now)
            (All (IsThere self.now.book) legs.now) }
    {
        let entries = self.entries(alloc, legs)?;
        let mut text = ok_text(alloc, legs.len() as u64)?;
        push_leg_records(alloc, &mut text, self.frame(), entries.as_slice())?;
        Ok(text)
    }

    /// The legs whose box meets the box over a rectangle and a period.
    pub(crate) fn legs_in(&mut self, rect: &Rect, period: &Period) -> Result<Vec<Leg>, RunFault>
        ensures { QuestionCall I.Listed self.old self.new result
            (λ legs. legs.items ≡ legs_in_box (box_over rect.now period.now) self.old.book.legs)
            (λ legs. I.tells self.old.index (InBox (box_over rect.now period.now)) legs.items)
            (Names I.Listed self.old (λ page. I.denies self.old.index
            (InBox (box_over rect.now period.now)) page))
            (Asks I.Listed self.old self.new (search_cost (box_over rect.now period.now))) }
    {
        Ok(self.index.search(&Box3::new(rect, period))?)
    }

    /// The legs of the feature of a name.
    pub(crate) fn legs_of(&mut self, alloc: Global, name: &str) -> Result<Vec<Leg>, RunFault>
        ensures { QuestionCall I.Listed self.old self.new result
            (λ legs. legs.items
            ≡ track_of (feature_named self.old.book.names name.now) self.old.book.legs)
            (λ legs. length self.old.book.names ≤ greatest_limit → AreToldOf I.Listed self.old
            (feature_named self.old.book.names name.now) legs.items)
            (Names I.Listed self.old (DeniesNamed I.Listed self.old name.now))
            (Asks I.Listed self.old self.new
            (track_asks (feature_named self.old.book.names name.now))) }
    {
        match self.tracks.feature(name) {
            Some(feature) => Ok(self.index.track(feature)?),
            None => Ok(Vec::new(alloc)),
        }
    }

    /// The legs for which, each taken alone, a predicate holds.
    pub(crate) fn legs_for(
        &mut self,
        alloc: Global,
        predicate: Predicate,
        rect: &Rect,
        period: &Period,
    ) -> Result<Vec<Leg>, RunFault>
        ensures { QuestionCall I.Listed self.old self.new result
            (λ legs. Picks (HoldsOfLeg predicate rect.now period.now) self.old.book.legs legs.items)
            (λ legs. ArePickedOf I.Listed self.old predicate rect.now period.now legs.items)
            (Names I.Listed self.old (λ page. I.denies self.old.index
            (InBox (box_near predicate rect.now period.now)) page))
            (Asks I.Listed self.old self.new
            (search_cost (box_near predicate rect.now period.now))) }
    {
        let near = self.index.search(&search_box(predicate, rect, period))?;
        Ok(holding(alloc, near.as_slice(), predicate, rect, period)?)
    }

    /// What a sieve keeps of the legs of a feature that have a moment in a period. Nothing is asked for a feature
    /// whose last leg ends before the period.
    fn live_legs(
        &mut self,
        alloc: Global,
        feature: u32,
        period: &Period,
        sieve: &Sieve,
    ) -> Result<Vec<Leg>, RunFault>
        ensures { QuestionCall I.Listed self.old self.new result
            (λ legs. IsSieved sieve.now period.now
            (live_legs_of feature period.now self.old.book.legs) legs.items)
            (λ legs. AreSievedLive I.Listed self.old sieve.now period.now feature legs.items)
            (Names I.Listed self.old (λ page. I.denies self.old.index
            (OfFeature feature (Some period.now)) page))
            (feature < length self.old.book.names
            → AsksAtMost I.Listed self.old self.new (feature_bound feature period.now)) }
    {
        if self.tracks.is_over(feature, period) {
            return Ok(Vec::new(alloc));
        }
        Ok(self.index.track_in(feature, period, sieve)?)
    }

    /// Whether a predicate holds for the whole list of legs of a feature.
    fn holds_for(
        &mut self,
        alloc: Global,
        feature: u32,
        predicate: Predicate,
        rect: &Rect,
        period: &Period,
    ) -> Result<bool, RunFault>
        ensures { QuestionCall I.Listed self.old self.new result
            (λ yes. IsTrue yes
            ↔ HoldsOfFeature predicate rect.now period.now self.old.book.legs feature)
            (λ yes. HoldsLive I.Listed self.old predicate rect.now period.now feature (IsTrue yes))
            (Names I.Listed self.old (λ page. I.denies self.old.index
            (OfFeature feature (Some period.now)) page))
            (feature < length self.old.book.names
            → AsksAtMost I.Listed self.old self.new (feature_bound feature period.now)) }
    {
        let wanted = sieve(predicate, rect);
        let legs = self.live_legs(alloc, feature, period, &wanted)?;
        Ok(holds(predicate, legs.as_slice(), rect, period))
    }

    /// How many features there are.
    fn feature_count(&self) -> u32
        ensures { length self.now.book.names ≤ greatest_limit
            → result ≡ length self.now.book.names }
    {
        u32::try_from(self.tracks.feature_count()).unwrap_or(u32::MAX)
    }

    /// The features for whose whole list of legs a predicate holds, in order of first acceptance.
    pub(crate) fn features_for(
        &mut self,
        alloc: Global,
        predicate: Predicate,
        rect: &Rect,
        period: &Period,
    ) -> Result<Vec<u32>, RunFault>
        ensures { QuestionCall I.Listed self.old self.new result
            (λ features. PicksFeatures self.old.book predicate rect.now period.now features.items)
            (λ features. length self.old.book.names ≤ greatest_limit
            → PicksLive I.Listed self.old predicate rect.now period.now
            (range_with_len 0 (length self.old.book.names)) features.items)
            (Names I.Listed self.old (DeniesSome I.Listed self.old period.now))
            (AsksAtMost I.Listed self.old self.new
            (features_bound (range_with_len 0 (length self.old.book.names)) period.now)) }
    {
        let mut features = Vec::new(alloc);
        for feature in 0..self.feature_count() {
            if self.holds_for(alloc, feature, predicate, rect, period)? {
                features.push(feature)?;
            }
        }
        Ok(features)
    }

    /// The names of features.
    fn names(&self, alloc: Global, features: &[u32]) -> Result<Vec<&str>, RunFault>
        ensures { MakingCall result (λ names. map (λ n. n.now) names.items
            ≡ map (feature_name self.now.book) features.now)
            (All (λ feature. feature < length self.now.book.names) features.now) }
    {
        let mut names = Vec::with_capacity(alloc, features.len())?;
        for feature in features {
            names.push(self.name(*feature)?)?;
        }
        Ok(names)
    }

    /// The answer of features.
    pub(crate) fn names_text(&self, alloc: Global, features: &[u32]) -> Result<Vec<u8>, RunFault>
        ensures { MakingCall result (λ text. text.items ≡ names_text self.now.book features.now)
            (All (λ feature. feature < length self.now.book.names) features.now) }
    {
        let names = self.names(alloc, features)?;
        let mut text = ok_text(alloc, features.len() as u64)?;
        push_features(alloc, &mut text, names.as_slice())?;
        Ok(text)
    }

    fn entries<'a>(&'a self, alloc: Global, legs: &'a [Leg]) -> Result<Vec<Entry<'a>>, RunFault>
        ensures { MakingCall result
            (λ entries. entries.items ≡ map (named_leg_of self.now.book) legs.now)
            (All (IsThere self.now.book) legs.now) }
    {
        let mut entries = Vec::with_capacity(alloc, legs.len())?;
        for leg in legs {
            entries.push(self.entry(leg)?)?;
        }
        Ok(entries)
    }

    /// The answer of legs as a file.
    fn file_text(&self, alloc: Global, head: &BookHead, legs: &[Leg]) -> Result<Vec<u8>, RunFault>
        ensures { MakingCall result
            (λ text. text.items ≡ file_answer self.now.book head.now legs.now)
            (All (IsThere self.now.book) legs.now) }
    {
        let entries = self.entries(alloc, legs)?;
        let mut text = ok_text(alloc, (legs.len() as u64).saturating_add(2))?;
        push_file(alloc, &mut text, head, entries.as_slice())?;
        Ok(text)
    }

    /// All legs.
    fn all_legs(&mut self) -> Result<Vec<Leg>, RunFault>
        ensures { QuestionCall I.Listed self.old self.new result
            (λ legs. legs.items ≡ self.old.book.legs)
            (λ legs. I.tells self.old.index (InBox everything) legs.items)
            (Names I.Listed self.old (λ page. I.denies self.old.index (InBox everything) page))
            (Asks I.Listed self.old self.new (search_cost everything)) }
    {
        Ok(self.index.search(&Box3::everything())?)
    }

    /// The answer to `write`; it asks for nothing where there is no head.
    pub(crate) fn write_text(&mut self, alloc: Global) -> Result<Vec<u8>, RunFault>
        ensures { TextCall I.Listed self.old self.new Command.Write result }
    {
        if self.head.is_none() {
            return Ok(refusal_text(alloc, "Q10")?);
        }
        let legs = self.all_legs()?;
        match &self.head {
            Some(head) => self.file_text(alloc, head, legs.as_slice()),
            None => Ok(refusal_text(alloc, "Q10")?),
        }
    }

    /// The answer to `box`.
    pub(crate) fn box_text(
        &mut self,
        alloc: Global,
        rect: &Rect,
        period: &Period,
    ) -> Result<Vec<u8>, RunFault>
        ensures { TextCall I.Listed self.old self.new (Command.Box rect.now period.now) result }
    {
        let legs = self.legs_in(rect, period)?;
        self.legs_text(alloc, legs.as_slice())
    }

    /// The answer to `trajectory`.
    pub(crate) fn track_text(&mut self, alloc: Global, name: &str) -> Result<Vec<u8>, RunFault>
        ensures { TextCall I.Listed self.old self.new (Command.Trajectory name.now) result }
    {
        let legs = self.legs_of(alloc, name)?;
        self.legs_text(alloc, legs.as_slice())
    }

    /// The answer to `legs`.
    pub(crate) fn picked_text(
        &mut self,
        alloc: Global,
        predicate: Predicate,
        rect: &Rect,
        period: &Period,
    ) -> Result<Vec<u8>, RunFault>
        ensures { TextCall I.Listed self.old self.new
            (Command.Legs predicate rect.now period.now) result }
    {
        let legs = self.legs_for(alloc, predicate, rect, period)?;
        self.legs_text(alloc, legs.as_slice())
    }

    /// The answer to `features`.
    pub(crate) fn features_text(
        &mut self,
        alloc: Global,
        predicate: Predicate,
        rect: &Rect,
        period: &Period,
    ) -> Result<Vec<u8>, RunFault>
        ensures { TextCall I.Listed self.old self.new
            (Command.Features predicate rect.now period.now) result }
    {
        let features = self.features_for(alloc, predicate, rect, period)?;
        self.names_text(alloc, features.as_slice())
    }
}
