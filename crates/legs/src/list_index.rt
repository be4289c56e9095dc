//! An index that keeps a list.
ghost use Rattle.std.specs.Prelude.{◌≡◌, map, filter, IfOk, OnOk};
ghost use Rattle.legs.specs.Legs.{is_live};
ghost use Rattle.legs.specs.Places.{places_with};

use crate::boxes::Box3;
use crate::index::{IndexFault, LegIndex};
use crate::leg::Leg;
use crate::listed::Listed;
use crate::sieve::Sieve;
use std::alloc::{AllocError, Global};
use std::marker::Model;
use timebase::Period;

/// Legs in a vector, and for each feature the places of its legs.
pub struct ListIndex {
    alloc: Global,
    legs: Vec<Leg>,
    places: Vec<Vec<usize>>,
    spent: bool,
}

// In one place, and not at each end of what owns it.
impl Drop for ListIndex {
    fn drop(self) {
        let ListIndex {
            alloc,
            legs,
            places,
            spent,
        } = self;
    }
}

impl Model for ListIndex {
    ghost use Rattle.std.specs.Prelude.{◌≡◌, map, false};
    ghost use Rattle.legs.specs.Places.{ListView, IsPlaced};

    ghost Value = { ListView };

    ghost view = { λ a. record { legs = a.legs.items; spent = a.spent } };

    ghost invariant = { λ a. a.spent ≡ false
        → IsPlaced a.legs.items (map (λ places. places.items) a.places.items) };
}

/// Adds a place of a feature that is there or is the next one.
fn push_place(
    places: &mut Vec<Vec<usize>>,
    alloc: Global,
    feature: usize,
    place: usize,
) -> Result<(), AllocError>
    ensures { OnOk result (map (λ row. row.items) places.new.items
        ≡ places_with (map (λ row. row.items) places.old.items) feature place) }
{
    if feature < places.len() {
        places[feature].push(place)?;
    } else {
        let mut first = Vec::new(alloc);
        first.push(place)?;
        places.push(first)?;
    }
    Ok(())
}

impl ListIndex {
    ghost use Rattle.std.specs.Prelude.{◌≡◌, ◌<◌, ◌≤◌, [], ◌++◌, ◌∷◌, false, true, length, All, OnOk, OnErr, IfOk};
    ghost use Rattle.legs.specs.Places.{legs_at};
    ghost use Rattle.legs.specs.Index.{legs_in_box, legs_of, feature_count};

    /// An index without legs.
    pub fn new(alloc: Global) -> ListIndex
        // It has no leg.
        ensures legs { result.legs ≡ [] }
        // It is not spent.
        ensures lasts { result.spent ≡ false }
    {
        ListIndex {
            alloc,
            legs: Vec::new(alloc),
            places: Vec::new(alloc),
            spent: false,
        }
    }

    /// Puts a leg at the end; the index is spent until the leg is there.
    fn put(&mut self, leg: Leg) -> Result<(), AllocError>
        requires spent { self.old.spent ≡ false }
        requires feature { leg.feature ≤ feature_count self.old.legs }
        ensures ok { OnOk result (self.new ≡ record {
          legs = self.old.legs
              ++ leg ∷ [];
          spent = false;
        }) }
        ensures err { OnErr result (self.new.spent ≡ true) }
    {
        self.spent = true;
        push_place(
            &mut self.places,
            self.alloc,
            leg.feature as usize,
            self.legs.len(),
        )?;
        self.legs.push(leg)?;
        self.spent = false;
        Ok(())
    }

    fn legs_in(&self, query: &Box3) -> Result<Vec<Leg>, AllocError>
        ensures { IfOk result (λ legs. legs.items ≡ legs_in_box query.now self.now.legs) }
    {
        self.legs
            .iter()
            .copied()
            .filter(|leg| Box3::of(leg).meets(query))
            .collect(self.alloc)
    }

    fn legs_of(&self, feature: u32) -> Result<Vec<Leg>, AllocError>
        requires { self.now.spent ≡ false }
        ensures { IfOk result (λ legs. legs.items ≡ legs_of feature self.now.legs) }
    {
        match self.places.get(feature as usize) {
            Some(places) => self.legs_at(places.as_slice()),
            None => Ok(Vec::new(self.alloc)),
        }
    }

    fn legs_at(&self, places: &[usize]) -> Result<Vec<Leg>, AllocError>
        requires { All (λ place. place < length self.now.legs) places.now }
        ensures { IfOk result (λ legs. legs.items ≡ legs_at self.now.legs places.now) }
    {
        let mut legs = Vec::with_capacity(self.alloc, places.len())?;
        for place in places {
            legs.push(self.legs[*place])?;
        }
        Ok(legs)
    }
}

fn live_legs(alloc: Global, legs: &[Leg], period: &Period) -> Result<Vec<Leg>, AllocError>
    ensures { IfOk result (λ live. live.items ≡ filter (is_live period.now) legs.now) }
{
    legs.iter()
        .copied()
        .filter(|leg| leg.is_live(period))
        .collect(alloc)
}

impl Listed for ListIndex {
    ghost use Rattle.std.specs.Prelude.{◌≡◌, false, All, None, Some, []};
    ghost use Rattle.std.specs.Prelude.{length, true};
    ghost use Rattle.std.specs.List.{Contains};
    ghost use Rattle.legs.specs.Finding.{no_finding};
    ghost use Rattle.legs.specs.Index.{feature_count};
    ghost use Rattle.legs.specs.Legs.{IsLeg};
    ghost use Rattle.legs.specs.Questions.{answer_in};

    ghost content = { λ index. index.legs };

    ghost is_sound = { λ index. (index.spent ≡ false) × All IsLeg index.legs };

    ghost tells = { λ index question legs. legs ≡ answer_in question index.legs };

    ghost denies = { λ index question page. ⊥ };

    ghost counted = { λ index. length index.legs };

    ghost features = { λ index. feature_count index.legs };

    ghost is_spent = { λ index. index.spent };

    ghost faults = { λ index. 0 };

    ghost is_store_full = { λ index. ⊥ };

    ghost asked = { λ index. 0 };

    ghost plan = { λ index. None };

    ghost found_by = { λ index. no_finding };

    ghost is_faithful = { λ index. ⊥ };

    ghost is_clean = { λ index. ⊥ };

    ghost is_marked = { λ index. ⊥ };

    ghost is_synced = { λ index. Unit {0} };

    ghost written = { λ index. [] };
}

impl LegIndex for ListIndex {
    ghost use Rattle.std.proofs.Common.{refl};
    ghost use Rattle.std.specs.Prelude.{◌≡◌, false, All};
    ghost use Rattle.legs.specs.Legs.{IsLeg};

    ghost sound_lasts = { λ index sound. sound.0 };

    ghost faithful = { λ index sound over. over refl };

    ghost lawful = { λ index sound. sound.1 };

    fn len(&self) -> u64 {
        self.legs.len() as u64
    }

    fn spent(&self) -> bool {
        self.spent
    }

    #[tactic(auto, unfolding(crate::specs::Costs::add_bound))]
    fn add(&mut self, leg: Leg) -> Result<(), IndexFault> {
        if self.spent {
            return Err(IndexFault::Spent);
        }
        if leg.feature as usize > self.places.len() {
            self.spent = true;
            return Err(IndexFault::Spent);
        }
        Ok(self.put(leg)?)
    }

    fn add_all(&mut self, legs: &[Leg]) -> Result<(), IndexFault> {
        if self.spent() {
            return Err(IndexFault::Spent);
        }
        for leg in legs {
            self.add(*leg)?;
        }
        Ok(())
    }

    fn asked(&self) -> u64 {
        0
    }

    #[tactic(auto, unfolding(crate::specs::Costs::search_cost))]
    fn search(&mut self, query: &Box3) -> Result<Vec<Leg>, IndexFault> {
        if self.spent {
            return Err(IndexFault::Spent);
        }
        Ok(self.legs_in(query)?)
    }

    #[tactic(auto, unfolding(crate::specs::Costs::track_cost))]
    fn track(&mut self, feature: u32) -> Result<Vec<Leg>, IndexFault> {
        if self.spent {
            return Err(IndexFault::Spent);
        }
        Ok(self.legs_of(feature)?)
    }

    /// All legs, whatever the sieve.
    #[tactic(auto, unfolding(crate::specs::Costs::track_in_bound))]
    fn track_in(
        &mut self,
        feature: u32,
        period: &Period,
        _sieve: &Sieve,
    ) -> Result<Vec<Leg>, IndexFault> {
        if self.spent {
            return Err(IndexFault::Spent);
        }
        let legs = self.legs_of(feature)?;
        Ok(live_legs(self.alloc, legs.as_slice(), period)?)
    }
}
