//! What contracts see of an index over pages, and its calls.
use crate::answers::answer;
use crate::descent::search;
use crate::joining::join_all;
use crate::known::make_room;
use crate::tree_index::TreeIndex;
use crate::turns::turns_of;
use chains::{trajectory, trajectory_in};
use legs::{Box3, IndexFault, Leg, LegIndex, Listed, Sieve};
use pages::PageStore;
use timebase::Period;

impl<S: PageStore> Listed for TreeIndex<S> {
    ghost use Rattle.std.specs.Prelude.{IsTrue, Some, length, min, ◌≡◌, ◌-◌, ◌^◌};
    ghost use Rattle.pagecache.specs.Cache.{IsClean};
    ghost use Rattle.boxsearch.specs.Index.{content, denies, found_by, tells, written, IsSoundIndex, IsMarked};
    ghost use Rattle.pages.specs.Store.{IsSynced};

    ghost content = { λ index. content index };

    ghost tells = { λ index question legs. tells index question legs };

    ghost denies = { λ index question page. denies index question page };

    ghost counted = { λ index. index.legs };

    ghost features = { λ index. length index.places };

    ghost is_sound = { λ index. IsSoundIndex index };

    ghost is_spent = { λ index. index.tree.spent };

    ghost faults = { λ index. index.cache.store.faults };

    ghost is_store_full = { λ index. index.cache.count ≡ index.cache.store.most };

    ghost asked = { λ index. min index.cache.asked (2 ^ 64 - 1) };

    ghost plan = { λ index. Some index.tree.shape };

    ghost found_by = { λ index. found_by index };

    ghost is_faithful = { λ index. IsTrue index.cache.store.is_faithful };

    ghost is_clean = { λ index. IsClean index.cache };

    ghost is_marked = { λ index. IsMarked index.cache };

    ghost is_synced = { λ index. IsSynced index.cache.store };

    ghost written = { λ index. written index };
}

impl<S: PageStore> LegIndex for TreeIndex<S> {
    ghost sound_lasts = { λ index sound. sound.works };

    ghost faithful = { λ index sound over. sound.faithful };

    ghost lawful = { λ index sound. sound.lawful };

    fn len(&self) -> u64 {
        self.legs
    }

    fn spent(&self) -> bool {
        self.tree.spent
    }

    fn asked(&self) -> u64 {
        self.cache.asked()
    }

    fn add(&mut self, leg: Leg) -> Result<(), IndexFault> {
        if self.tree.spent {
            return Err(IndexFault::Spent);
        }
        let feature = leg.feature as usize;
        if self.make_place(feature).is_err() {
            self.tree.spent = true;
            return Err(IndexFault::Memory);
        }
        if feature >= self.places.len() {
            self.tree.spent = true;
            return Err(IndexFault::Spent);
        }
        answer(self.put(leg))
    }

    fn add_all(&mut self, legs: &[Leg]) -> Result<(), IndexFault> {
        if self.tree.spent {
            return Err(IndexFault::Spent);
        }
        let most = u64::from(self.tree.shape.leaf());
        let turns = match turns_of(self.alloc, self.places.as_slice(), most, legs) {
            Ok(turns) => turns,
            Err(fault) => {
                self.tree.spent = true;
                return Err(fault);
            }
        };
        join_all(self, legs, turns.as_slice())
    }

    fn search(&mut self, query: &Box3) -> Result<Vec<Leg>, IndexFault> {
        answer(search(self.alloc, &mut self.cache, &self.tree, query))
    }

    fn track(&mut self, feature: u32) -> Result<Vec<Leg>, IndexFault> {
        if self.tree.spent {
            return Err(IndexFault::Spent);
        }
        let Some(place) = self.place(feature) else {
            return Ok(Vec::new(self.alloc));
        };
        if make_room(self.alloc, &mut self.known, feature as usize).is_err() {
            return Err(IndexFault::Memory);
        }
        let shape = self.tree.shape;
        let spans = &mut self.known[feature as usize];
        answer(trajectory(self.alloc, &mut self.cache, &shape, feature, &place, spans))
    }

    fn track_in(
        &mut self,
        feature: u32,
        period: &Period,
        sieve: &Sieve,
    ) -> Result<Vec<Leg>, IndexFault> {
        if self.tree.spent {
            return Err(IndexFault::Spent);
        }
        let Some(place) = self.place(feature) else {
            return Ok(Vec::new(self.alloc));
        };
        if make_room(self.alloc, &mut self.known, feature as usize).is_err() {
            return Err(IndexFault::Memory);
        }
        let shape = self.tree.shape;
        let spans = &mut self.known[feature as usize];
        let cache = &mut self.cache;
        answer(trajectory_in(
            self.alloc, cache, &shape, feature, &place, period, sieve, spans,
        ))
    }
}
