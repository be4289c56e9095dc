//! A book on the way: the book before a file, with the file's records so far.
ghost use Rattle.std.specs.Prelude.{ℕ, ◌≡◌, ◌+◌, ◌≤◌, ◌^◌, ◌++◌, length, map, OnOk};
ghost use Rattle.std.specs.Option.{option_map};
ghost use Rattle.std.specs.List.{range_with_len};
ghost use Rattle.mfcsv.specs.Views.{leg_count};
ghost use Rattle.legs.specs.Legs.{leg_of, step_at};
ghost use Rattle.legs.specs.Limits.{greatest_limit};
ghost use Rattle.legs.specs.Book.{is_before};
ghost use Rattle.legs.specs.Names.{new_count, feature_or_next};

use crate::cutting::{leg_count, step_at};
use crate::joining::{JoinCode, JoinFault};
use crate::leg::Leg;
use crate::limits::Limits;
use crate::names::Names;
use crate::tracks::Tracks;
use mfcsv::Record;
use std::alloc::{AllocError, Global};
use timebase::Ms;

/// The number of a feature, and the end of its last leg.
#[derive(Clone, Copy)]
pub(crate) struct Latest {
    pub(crate) feature: u32,
    pub(crate) end: Ms,
}

/// What is known of a book on the way: the tracks before the file, the names that the file's
/// records so far have, and how many features, legs and rows there are.
#[derive(Drop)]
pub(crate) struct Draft<'a> {
    pub(crate) tracks: &'a Tracks,
    pub(crate) names: Names,
    pub(crate) features: u64,
    pub(crate) legs: u64,
    pub(crate) rows: u64,
}

fn refused(code: JoinCode, record: &Record) -> JoinFault
    ensures { result ≡ JoinFault.Refused code «record».now.number }
{
    JoinFault::Refused {
        code,
        number: record.number,
    }
}

/// Whether a record starts before its feature's last leg ends.
fn starts_before_end(record: &Record, latest: Option<Latest>) -> bool
    ensures { result ≡ is_before «record».now.t0 (option_map (λ last. last.end) latest) }
{
    match latest {
        Some(latest) => record.t0 < latest.end,
        None => false,
    }
}

/// The number of a feature: that which is known, or the next one.
fn feature_or_next(latest: Option<Latest>, features: u64) -> u32
    requires { features + new_count latest ≤ greatest_limit }
    ensures { result ≡ feature_or_next latest features }
{
    match latest {
        Some(latest) => latest.feature,
        None => features as u32,
    }
}

/// Appends the legs of a record.
fn push_legs(
    legs: &mut Vec<Leg>,
    record: &Record,
    ordinal: u64,
    feature: u32,
    row: u32,
) -> Result<(), AllocError>
    requires { ordinal + leg_count (length «record».now.positions) ≤ 2 ^ 64 }
    ensures { OnOk result (legs.new.items ≡ legs.old.items
        ++ map (λ k. leg_of (ordinal + k) feature row (step_at «record».now k)) (range_with_len 0
        (leg_count (length «record».now.positions)))) }
{
    for k in 0..leg_count(record) {
        legs.push(step_at(record, k).numbered(ordinal + k as u64, feature, row))?;
    }
    Ok(())
}

impl<'a> Draft<'a> {
    ghost use Rattle.std.specs.Prelude.{◌≡◌, ◌≤◌, ◌+◌, ◌^◌, ◌++◌, [], ◌<◌, length, OnOk, IfErr, IfNone, IfSome};
    ghost use Rattle.mfcsv.specs.Views.{IsRecord};
    ghost use Rattle.legs.specs.Limits.{greatest_limit};
    ghost use Rattle.legs.specs.Book.{Book, feature_named, join_faults_of};
    ghost use Rattle.legs.specs.Tracks.{StandsFor};
    ghost use Rattle.legs.specs.FirstFault.{IsFirstOf, first_code};
    ghost use Rattle.legs.specs.Drafts.{IsDraft, TakesRecord, known, latest_of};

    /// A book before a file's first record.
    pub(crate) fn new(alloc: Global, tracks: &'a Tracks) -> Draft<'a>
        ensures book { (book : Book) → StandsFor tracks.now book → IsDraft result book }
        ensures names { result.names.names ≡ [] }
        ensures tracks { result.tracks.now ≡ tracks.now }
        ensures rows { result.rows ≡ tracks.now.rows }
        ensures few { result.rows ≤ result.legs }
    {
        Draft {
            tracks,
            names: Names::new(alloc, tracks.keys()),
            features: tracks.feature_count(),
            legs: tracks.leg_count(),
            rows: tracks.row_count(),
        }
    }

    /// What is known of a name that has that place among those of the file, or none.
    fn latest(&self, place: Option<usize>, name: &str) -> Option<Latest>
        requires { IfSome place (λ place. place < length self.now.names.latest) }
        ensures { place ≡ feature_named self.now.names.names name.now
            → length self.now.tracks.now.names ≤ 2 ^ 32 → result ≡ known self.now name.now }
    {
        match place {
            Some(place) => Some(self.names.latest(place)),
            None => {
                let feature = self.tracks.feature(name)?;
                let end = self.tracks.track(feature)?.end;
                Some(Latest { feature, end })
            }
        }
    }

    /// The first fault of a record, of whose name `latest` is known.
    fn fault(&self, limits: &Limits, record: &Record, latest: Option<Latest>) -> Option<JoinCode>
        ensures first { (book : Book) → IsDraft self.now book
            → latest ≡ latest_of book «record».now.mfidref
            → result ≡ first_code (join_faults_of limits.now book «record».now) }
        ensures few_legs { IfNone result (self.now.legs + leg_count
            (length «record».now.positions) ≤ greatest_limit) }
        ensures few_features { IfNone result (self.now.features + new_count latest
            ≤ greatest_limit) }
    {
        if starts_before_end(record, latest) {
            return Some(JoinCode::F18);
        }
        let legs = self.legs.saturating_add(leg_count(record) as u64);
        if legs > limits.legs() {
            return Some(JoinCode::F19);
        }
        let features = self.features.saturating_add(u64::from(latest.is_none()));
        if features > u64::from(limits.features()) {
            return Some(JoinCode::F20);
        }
        None
    }

    /// Adds a record without a fault, of whose name the place in the file and `latest` are known.
    fn add(
        &mut self,
        record: &Record,
        place: Option<usize>,
        latest: Option<Latest>,
        legs: &mut Vec<Leg>,
    ) -> Result<(), AllocError>
        requires place { place ≡ feature_named self.old.names.names «record».now.mfidref }
        requires within { IfSome place (λ place. place < length self.old.names.latest) }
        requires few_rows { self.old.rows ≤ self.old.legs }
        requires few_legs { self.old.legs + leg_count (length «record».now.positions)
            ≤ greatest_limit }
        requires few_features { self.old.features + new_count latest ≤ greatest_limit }
        ensures { TakesRecord self.old self.new «record».now legs.old.items legs.new.items
            (λ book. latest ≡ latest_of book «record».now.mfidref) result }
    {
        let feature = feature_or_next(latest, self.features);
        push_legs(legs, record, self.legs, feature, self.rows as u32)?;
        let last = Latest {
            feature,
            end: record.t1,
        };
        self.names.put(place, record.mfidref.as_str(), last)?;
        self.features += u64::from(latest.is_none());
        self.legs += leg_count(record) as u64;
        self.rows += 1;
        Ok(())
    }

    /// Joins a record: its legs are appended, or its first fault is answered.
    pub(crate) fn join(
        &mut self,
        limits: &Limits,
        record: &Record,
        legs: &mut Vec<Leg>,
    ) -> Result<(), JoinFault>
        requires { self.old.rows ≤ self.old.legs }
        ensures faultless { OnOk result ((book : Book) → IsDraft self.old book
            → join_faults_of limits.now book «record».now ≡ []) }
        ensures takes { TakesRecord self.old self.new «record».now legs.old.items legs.new.items
            (λ _. Unit {0}) result }
        ensures record { IsRecord «record».now }
        ensures refused { IfErr result (λ fault. (book : Book) → IsDraft self.old book
            → IsFirstOf fault (join_faults_of limits.now book «record».now) «record».now.number) }
    {
        let place = self.names.find(record.mfidref.as_str());
        let latest = self.latest(place, record.mfidref.as_str());
        match self.fault(limits, record, latest) {
            Some(code) => Err(refused(code, record)),
            None => Ok(self.add(record, place, latest, legs)?),
        }
    }
}
