//! What is kept of a book beside its legs: the features' names, and where each feature ends.
ghost use Rattle.std.specs.Prelude.{◌≡◌, ◌+◌, if◌then◌else◌, length, map, fold, OnOk, OnErr, IfOk};
ghost use Rattle.std.specs.String.{string_bytes};
ghost use Rattle.legs.specs.Book.{names_with};
ghost use Rattle.legs.specs.Counting.{counted};

use crate::draft::Latest;
use crate::joiner::Joined;
use crate::leg::Leg;
use crate::names::Names;
use indexmap::IndexSet;
use std::alloc::{AllocError, Global};
use std::hash::RandomState;
use std::marker::Model;
use timebase::{Ms, Period};

/// The end of a feature's last leg, and the number of its legs.
#[derive(Clone, Copy, PartialEq, Eq, Debug)]
pub struct Track {
    pub end: Ms,
    pub legs: u64,
}

/// The names of a book's features in order of first acceptance, each with its track; the number of
/// all legs, and of all rows of attribute values (one row for each record).
pub struct Tracks {
    alloc: Global,
    keys: RandomState,
    names: IndexSet<String, RandomState>,
    tracks: Vec<Track>,
    legs: u64,
    rows: u64,
}

// In one place, and not at each end of what owns it.
impl Drop for Tracks {
    fn drop(self) {
        let Tracks {
            alloc,
            keys,
            names,
            tracks,
            legs,
            rows,
        } = self;
    }
}

impl Model for Tracks {
    ghost use Rattle.std.specs.Prelude.{◌≡◌, ◌≤◌, map, length};
    ghost use Rattle.std.specs.String.{string_bytes};
    ghost use Rattle.legs.specs.Tracks.{TracksView};

    ghost Value = { TracksView };

    ghost view = { λ a.
        record {
          names = map string_bytes a.names.keys;
          tracks = a.tracks.items;
          legs = a.legs;
          rows = a.rows;
        } };

    ghost invariant = { λ a. (length a.tracks.items ≡ length a.names.keys) × (a.rows ≤ a.legs) };
}

/// Counts legs, each in the track of its feature.
fn count(tracks: &mut [Track], legs: &[Leg])
    ensures { tracks.new ≡ fold counted tracks.old legs.now }
{
    for leg in legs {
        let feature = leg.feature as usize;
        if feature < tracks.len() {
            let legs = tracks[feature].legs.saturating_add(1);
            tracks[feature] = Track { end: leg.t1, legs };
        }
    }
}

/// Adds a name, and says whether it was new.
fn insert_name(
    names: &mut IndexSet<String, RandomState>,
    alloc: Global,
    name: &str,
) -> Result<bool, AllocError>
    ensures names { OnOk result (map string_bytes names.new.keys
        ≡ names_with (map string_bytes names.old.keys) name.now) }
    ensures count { IfOk result (λ new. length names.new.keys
        ≡ length names.old.keys + (if new then 1 else 0)) }
    ensures err { OnErr result (names.new.keys ≡ names.old.keys) }
{
    if names.contains(name) {
        return Ok(false);
    }
    let name = String::from_str(alloc, name)?;
    names.insert(name)?;
    Ok(true)
}

impl Tracks {
    ghost use Rattle.std.specs.Prelude.{ℕ, ◌≡◌, ◌↔◌, ◌≢◌, ◌≤◌, ◌<◌, ◌+◌, ◌-◌, ◌^◌, ◌++◌, ◌∷◌, [], Ok, true, false, if◌then◌else◌, length, map, min, nat_le, fold, slice_get, bytes_eq, OnOk, OnErr, IfOk, IsTrue, All};
    ghost use Rattle.std.specs.List.{list_any};
    ghost use Rattle.legs.specs.Costs.{reaches};
    ghost use Rattle.std.specs.String.{string_bytes};
    ghost use Rattle.std.specs.Option.{option_copied, option_map};
    ghost use Rattle.legs.specs.Limits.{LimitsView, IsLimits};
    ghost use Rattle.mfcsv.specs.declared.File.{File};
    ghost use Rattle.legs.specs.Book.{Book, empty_book, feature_named, with_file};
    ghost use Rattle.legs.specs.Joining.{IsJoinedBy};
    ghost use Rattle.legs.specs.Names.{fresh_names};
    ghost use Rattle.legs.specs.Tracks.{IsOver, StandsFor};
    ghost use Rattle.legs.specs.Law.{IsBook};
    ghost use Rattle.legs.specs.Legs.{IsLeg};
    ghost use Rattle.legs.specs.Index.{legs_of, live_legs_of};
    ghost use Rattle.legs.specs.Counting.{AddsNames, Extends, TakesNames};
    ghost use Rattle.mfcsv.specs.FileText.{HasWholeRows};

    /// The tracks of a book without legs. Names are hashed with the keys, which a stranger who
    /// chooses the names of a file is not to know.
    pub fn new(alloc: Global, keys: RandomState) -> Result<Tracks, AllocError>
        // They stand for the book without legs.
        ensures empty { IfOk result (λ tracks. StandsFor tracks empty_book) }
        // They have no name, no track, no leg and no row.
        ensures none { IfOk result (λ tracks. tracks ≡ record {
          names = [];
          tracks = [];
          legs = 0;
          rows = 0;
        }) }
    {
        Ok(Tracks {
            alloc,
            keys,
            names: IndexSet::with_hasher(alloc, keys),
            tracks: Vec::new(alloc),
            legs: 0,
            rows: 0,
        })
    }

    /// The keys with which names are hashed.
    pub fn keys(&self) -> RandomState {
        self.keys
    }

    /// How many features there are.
    pub fn feature_count(&self) -> u64
        ensures { result ≡ length self.now.names }
    {
        self.names.len() as u64
    }

    /// How many legs there are.
    pub fn leg_count(&self) -> u64
        ensures { result ≡ self.now.legs }
    {
        self.legs
    }

    /// How many rows of attribute values there are.
    pub fn row_count(&self) -> u64
        // It is the number of rows.
        ensures value { result ≡ self.now.rows }
        // There are no more rows than legs.
        ensures few { self.now.rows ≤ self.now.legs }
    {
        self.rows
    }

    /// The number of the feature of that name.
    pub fn feature(&self, name: &str) -> Option<u32>
        ensures { length self.now.names ≤ 2 ^ 32 → result ≡ feature_named self.now.names name.now }
    {
        let feature = self.names.get_index_of(name)?;
        u32::try_from(feature).ok()
    }

    /// The name of the feature of that number.
    pub fn name(&self, feature: u32) -> Option<&str>
        ensures { option_copied result ≡ slice_get self.now.names feature }
    {
        match self.names.get_index(feature as usize) {
            Some(name) => Some(name.as_str()),
            None => None,
        }
    }

    /// The track of the feature of that number.
    pub fn track(&self, feature: u32) -> Option<Track>
        // It is the track of the feature of that number, if there is one.
        ensures value { result ≡ slice_get self.now.tracks feature }
        // There are as many tracks as names.
        ensures paired { length self.now.tracks ≡ length self.now.names }
    {
        self.tracks.get(feature as usize).copied()
    }

    /// Whether the last leg of the feature of that number ends before a period, so that none of its
    /// legs has a moment in it.
    pub fn is_over(&self, feature: u32, period: &Period) -> bool
        // It is true exactly if the feature's track ends before the period starts.
        ensures exact { IsTrue result ↔ IsOver self.now feature period.now }
        // Then no leg of the feature is live in the period.
        ensures none { IsTrue result → (limits : LimitsView) (book : Book) → StandsFor self.now book
            → IsBook limits book → All IsLeg book.legs
            → live_legs_of feature period.now book.legs ≡ [] }
        // If not, some leg of the feature ends no earlier than the period starts.
        ensures reached { result ≡ false → (book : Book) → StandsFor self.now book
            → feature < length book.names
            → reaches period.now (legs_of feature book.legs) ≡ true }
    {
        match self.track(feature) {
            Some(track) => track.end < period.start(),
            None => false,
        }
    }

    /// Takes a file that was joined to the book of the tracks. They then stand for the book with
    /// that file. If memory runs out, they are as before.
    pub fn accept(&mut self, joined: &Joined) -> Result<(), AllocError>
        // The tracks then stand for the book with the file.
        ensures ok { OnOk result ((limits : LimitsView) (book : Book) (file : File)
            → IsLimits limits → StandsFor self.old book
            → IsJoinedBy limits book file joined.now
            → StandsFor self.new (with_file book file)) }
        // The law of a book is kept.
        ensures law { OnOk result ((limits : LimitsView) (book : Book) (file : File)
            → IsLimits limits → IsBook limits book → HasWholeRows file
            → IsJoinedBy limits book file joined.now
            → IsBook limits (with_file book file)) }
        // If memory runs out, they are as before.
        ensures err { OnErr result (self.new ≡ self.old) }
    {
        self.add_names(&joined.names)?;
        let legs = joined.legs.as_slice();
        count(&mut self.tracks, legs);
        self.legs = self.legs.saturating_add(legs.len() as u64);
        // A row has at least one leg.
        self.rows = self.rows.saturating_add(joined.records).min(self.legs);
        Ok(())
    }

    /// Adds a feature with its track if its name is not there yet, and returns whether it was new.
    pub fn add(&mut self, name: String, track: Track) -> Result<bool, AllocError>
        // A new feature has the last number, and its legs are counted.
        ensures added { IfOk result (λ new. new ≡ true
            → All (λ other. other ≢ string_bytes name) self.old.names
            × (self.new ≡ record {
              names = self.old.names ++ string_bytes name ∷ [];
              tracks = self.old.tracks ++ track ∷ [];
              legs = min (self.old.legs + track.legs) (2 ^ 64 - 1);
              rows = self.old.rows;
            })) }
        // A name that is there changes nothing.
        ensures there { IfOk result (λ new. new ≡ false
            → IsTrue (list_any (bytes_eq (string_bytes name)) self.old.names)
            × (self.new ≡ self.old)) }
        // If memory runs out, the tracks are as before.
        ensures err { OnErr result (self.new ≡ self.old) }
    {
        if self.names.contains(name.as_str()) {
            return Ok(false);
        }
        let legs = track.legs;
        self.tracks.reserve(1)?;
        self.names.insert(name)?;
        self.tracks.push(track).unwrap();
        self.legs = self.legs.saturating_add(legs);
        Ok(true)
    }

    /// Sets the number of rows if there are no more than legs, and returns whether it did.
    pub fn set_rows(&mut self, rows: u64) -> bool
        // It succeeds exactly if there are no more rows than legs.
        ensures fits { result ≡ nat_le rows self.old.legs }
        // If it does, that is the number of rows; if not, nothing changes.
        ensures set { self.new ≡ if result then record self.old { rows = rows } else self.old }
    {
        if rows > self.legs {
            return false;
        }
        self.rows = rows;
        true
    }

    /// Adds the names of the new features, each with an empty track.
    fn add_names(&mut self, names: &Names) -> Result<(), AllocError>
        ensures { TakesNames self.old self.new (fresh_names (length self.old.names)
            names.now.names names.now.latest) result }
    {
        let known = self.names.len();
        match self.push_names(names) {
            Ok(()) => Ok(()),
            Err(memory) => {
                self.names.truncate(known);
                self.tracks.truncate(known);
                Err(memory)
            }
        }
    }

    /// The same, but some names may be there where memory runs out.
    fn push_names(&mut self, names: &Names) -> Result<(), AllocError>
        ensures ok { OnOk result (AddsNames self.old self.new (fresh_names (length self.old.names)
            names.now.names names.now.latest)) }
        ensures err { OnErr result (Extends self.old self.new) }
    {
        let known = self.feature_count();
        for place in 0..names.len() {
            self.push_new(known, names.name(place), names.latest(place))?;
        }
        Ok(())
    }

    /// Adds a name where its feature has that number or a greater one.
    fn push_new(&mut self, known: u64, name: &str, latest: Latest) -> Result<(), AllocError>
        ensures { TakesNames self.old self.new
            (if nat_le known latest.feature then name.now ∷ [] else []) result }
    {
        if u64::from(latest.feature) < known {
            return Ok(());
        }
        self.push_name(name, latest.end)
    }

    fn push_name(&mut self, name: &str, end: Ms) -> Result<(), AllocError>
        ensures { TakesNames self.old self.new (name.now ∷ []) result }
    {
        self.tracks.reserve(1)?;
        if insert_name(&mut self.names, self.alloc, name)? {
            self.tracks.push(Track { end, legs: 0 }).unwrap();
        }
        Ok(())
    }
}
