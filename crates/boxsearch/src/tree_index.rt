//! An index of legs over pages.
use crate::answers::of_pages;
use crate::marking::mark_page;
use chains::LeafSpan;
use legs::{IndexFault, Leg};
use pagecache::PageCache;
use pages::PageStore;
use std::alloc::{AllocError, Global};
use std::marker::Model;
use tbtree::{Place, Shape, TbTree, TreeFault, insert, insert_all};

/// An index of legs in pages: a TB-tree, the places of its features, and the cache of its pages.
///
/// It stands for the legs that its pages say, and keeps no leg beside them. A page that is not there or not what the
/// tree expects is answered as `Damaged`.
///
/// What it keeps beside them are the spans of the leaves that were read, by feature, until a page may be another one: a
/// leaf that is known to be off a period is not read again.
pub struct TreeIndex<S: PageStore> {
    pub(crate) alloc: Global,
    pub(crate) cache: PageCache<S>,
    pub(crate) tree: TbTree,
    pub(crate) places: Vec<Place>,
    pub(crate) legs: u64,
    pub(crate) known: Vec<Vec<LeafSpan>>,
}

// In one place, and not at each end of what owns it.
impl<S: PageStore + Drop> Drop for TreeIndex<S> {
    fn drop(self) {
        let TreeIndex {
            alloc,
            cache,
            tree,
            places,
            legs,
            known,
        } = self;
    }
}

impl<S: PageStore> Model for TreeIndex<S> {
    ghost use Rattle.boxsearch.specs.Index.{IndexView};

    ghost Value = { IndexView };

    ghost use Rattle.std.specs.Prelude.{map};
    ghost use Rattle.boxsearch.specs.Known.{AreKnown};

    ghost view = { λ a.
        record {
          cache = a.cache;
          tree = a.tree;
          places = a.places.items;
          legs = a.legs;
          known = map (λ spans. spans.items) a.known.items;
        } };

    ghost invariant = { λ a. AreKnown a.cache a.tree.shape a.places.items
        (map (λ spans. spans.items) a.known.items) };
}

impl<S: PageStore> TreeIndex<S> {
    ghost use Rattle.std.specs.Prelude.{◌≡◌, ◌+◌, ◌-◌, ◌*◌, ◌<◌, ◌≤◌, ◌∷◌, [], false};
    ghost use Rattle.std.specs.Prelude.{length, slice_get, IfErr, IsTrue, OnErr, OnOk};
    ghost use Rattle.pages.specs.Store.{IsSynced};
    ghost use Rattle.pagecache.specs.Cache.{IsSettled, IsWritten};
    ghost use Rattle.tbtree.specs.Nodes.{pages_of_cache};
    ghost use Rattle.chains.specs.Chains.{AreHeld};
    ghost use Rattle.boxsearch.specs.Index.{new_index, words, IsSoundIndex, with_place};
    ghost use Rattle.legs.specs.Asking.{Leaves, Starts, Refusals};
    ghost use Rattle.legs.specs.Index.{MayRefuse};
    ghost use Rattle.chains.specs.Reads.{OnlyReads};
    ghost use Rattle.boxsearch.specs.Beside.{with_cache};
    ghost use Rattle.boxsearch.specs.Putting.{PutsAll};

    /// An index without legs over the pages of a cache. It is sound where the store is faithful, has
    /// a page 0, all its pages are sealed, and the cache counts all of them.
    pub fn new(alloc: Global, cache: PageCache<S>, shape: Shape) -> TreeIndex<S>
        // It has this cache, a tree without pages, no place, and no legs.
        ensures value { result ≡ new_index cache shape }
        // It is sound over a faithful store with a page 0, if all pages are sealed and counted.
        ensures sound { IsTrue cache.store.is_faithful → 0 < cache.count
            → AreHeld (pages_of_cache cache) → cache.count ≡ cache.store.count
            → IsSoundIndex result }
    {
        prove!(shape.leaf() > 0);
        TreeIndex {
            alloc,
            cache,
            tree: TbTree::new(shape),
            places: Vec::new(alloc),
            legs: 0,
            known: Vec::new(alloc),
        }
    }

    /// Marks the store as one that is not finished, in its page 0. A page 0 that says so, and is
    /// written so, is left as it is; any other is made to, and all that is changed is written.
    ///
    /// Refused are a spent index, and what the cache refuses.
    pub fn mark(&mut self) -> Result<(), IndexFault>
        // The legs stay. After `Ok` page 0 of a faithful store, as written, says that it is not
        // finished. Where no page was changed, an error has written none but page 0.
        ensures starts { Starts words self.old self.new result }
        // A sound index fails only if memory runs out or the store fails, and a spent one always.
        ensures refusals { Refusals words self.old self.new result }
    {
        if self.tree.spent {
            return Err(IndexFault::Spent);
        }
        self.known = Vec::new(self.alloc);
        of_pages(mark_page(&mut self.cache))
    }

    /// Writes all that is changed to the store, and makes the store last. Nothing is written where no page is changed.
    ///
    /// Refused are a spent index, want of memory, and a store that fails.
    pub fn flush(&mut self) -> Result<(), IndexFault>
        // After `Ok` no page is changed, and the store's pages seal the payloads.
        ensures written { OnOk result (IsWritten self.new.cache) }
        // After `Ok` every page is synced, and no sync of the store ever failed.
        ensures synced { OnOk result (IsSynced self.new.cache.store) }

        // Nothing else changes.
        ensures same { self.new ≡ with_cache self.old self.new.cache self.new.known }
        // No payload changes, and no page that was not changed is written.
        ensures reads { OnlyReads self.old.cache self.new.cache }
        // The index tells the same legs, sound where it was, and spent where it was.
        ensures leaves { Leaves words self.old self.new }
        // No page is asked for.
        ensures asked { self.new.cache.asked ≡ self.old.cache.asked }

        // A sound index fails only if memory runs out or the store fails, and a spent one always.
        ensures refusals { Refusals words self.old self.new result }
        // An index that is not spent fails only if memory runs out or the store fails.
        ensures works { IfErr result (λ fault. self.old.tree.spent ≡ false → MayRefuse fault) }
    {
        if self.tree.spent {
            return Err(IndexFault::Spent);
        }
        self.known = Vec::new(self.alloc);
        of_pages(self.cache.flush())
    }

    /// How many pages its cache counts.
    pub fn page_count(&self) -> u32
        // It is the cache's count of pages.
        ensures value { result ≡ self.now.cache.count }
        // A page that is not changed has the payload that the page as written seals.
        ensures settled { IsSettled self.now.cache }
    {
        self.cache.count()
    }

    /// The cache of its pages, as it stands.
    pub fn into_cache(self) -> PageCache<S>
        ensures { result ≡ self.cache }
    {
        let TreeIndex {
            alloc,
            cache,
            tree,
            places,
            legs,
            known,
        } = self;
        cache
    }

    /// The place of a feature; none of one that is not there.
    pub(crate) fn place(&self, feature: u32) -> Option<Place>
        ensures { result ≡ slice_get self.now.places feature }
    {
        self.places.get(feature as usize).copied()
    }

    /// Makes a place for a feature that is the next one.
    pub(crate) fn make_place(&mut self, feature: usize) -> Result<(), AllocError>
        ensures ok { OnOk result (self.new
            ≡ record self.old { places = with_place self.old.places feature; known = [] }) }
        ensures err { OnErr result (self.new ≡ record self.old { known = [] }) }
    {
        self.known = Vec::new(self.alloc);
        if feature == self.places.len() {
            self.places.push(Place::new())?;
        }
        Ok(())
    }

    /// Puts a leg into the tree, at the place of its feature.
    pub(crate) fn put(&mut self, leg: Leg) -> Result<(), TreeFault>
        requires works { self.old.tree.spent ≡ false }
        requires feature { leg.feature < length self.old.places }
        // It is put as a list of one leg is.
        ensures puts { PutsAll self.old self.new leg.feature (leg ∷ []) result }
        ensures asked { OnOk result (self.new.cache.asked
            ≤ self.old.cache.asked + (2 * (self.new.tree.levels - 1) + 4)) }
    {
        prove!(self.tree.shape.leaf() > 0);
        let (alloc, feature) = (self.alloc, leg.feature as usize);
        self.known = Vec::new(alloc);
        let mut place = self.places[feature];
        let result = insert(&mut self.tree, &mut self.cache, &mut place, leg);
        self.places[feature] = place;
        prove!(self.cache.count() <= u32::MAX);
        if result.is_ok() {
            self.legs = self.legs.saturating_add(1);
        }
        result
    }

    /// Puts legs of one feature into the tree, at the place of that feature.
    pub(crate) fn put_all(&mut self, feature: usize, legs: &[Leg]) -> Result<(), TreeFault>
        requires works { self.old.tree.spent ≡ false }
        requires feature { feature < length self.old.places }
        ensures { PutsAll self.old self.new feature legs.now result }
    {
        prove!(self.tree.shape.leaf() > 0);
        let memory = self.alloc;
        self.known = Vec::new(memory);
        let mut place = self.places[feature];
        let result = insert_all(&mut self.tree, &mut self.cache, &mut place, legs);
        self.places[feature] = place;
        prove!(self.cache.count() <= u32::MAX);
        if result.is_ok() {
            self.legs = self.legs.saturating_add(legs.len() as u64);
        }
        result
    }
}
