//! The parts of an index, for what is kept beside its tree.
ghost use Rattle.std.specs.Prelude.{◌≡◌};

use crate::tree_index::TreeIndex;
use pagecache::PageCache;
use pages::PageStore;
use std::alloc::Global;
use std::mem;
use tbtree::{Place, TbTree};

/// Notes that the last leaves of features are likely to be asked for in turn.
fn note_lasts<S: PageStore>(cache: &mut PageCache<S>, places: &[Place])
    ensures { cache.new ≡ cache.old }
{
    let mut last = u32::MAX;
    for place in places {
        cache.note_next(last, place.last);
        last = place.last;
    }
}

impl<S: PageStore> TreeIndex<S> {
    ghost use Rattle.std.specs.Prelude.{◌≡◌, []};
    ghost use Rattle.std.specs.Borrow.{sem};
    ghost use Rattle.boxsearch.specs.Lending.{LendsCache};

    /// An index of these parts: the cache of its pages, its tree, the place of each feature, and how many legs it has.
    /// It is sound where they belong together, which is not tested.
    pub fn from_parts(
        alloc: Global,
        cache: PageCache<S>,
        tree: TbTree,
        places: Vec<Place>,
        legs: u64,
    ) -> TreeIndex<S>
        ensures { result
            ≡ record {
              cache = cache;
              tree = tree;
              places = places.items;
              legs = legs;
              known = [];
            } }
    {
        let mut cache = cache;
        note_lasts(&mut cache, places.as_slice());
        TreeIndex {
            alloc,
            cache,
            tree,
            places,
            legs,
            known: Vec::new(alloc),
        }
    }

    /// The value of its tree.
    pub fn tree(&self) -> TbTree
        ensures { result ≡ self.now.tree }
    {
        self.tree
    }

    /// The place of each feature, in the order of their numbers.
    pub fn places(&self) -> &[Place]
        ensures { result.now ≡ self.now.places }
    {
        self.places.as_slice()
    }

    /// What its lists take their memory from.
    pub fn allocator(&self) -> Global {
        self.alloc
    }

    /// How many legs it counts.
    pub fn leg_count(&self) -> u64
        ensures { result ≡ self.now.legs }
    {
        self.legs
    }

    /// Gives the places away, for as long as its cache is lent to who needs both; `put_places` brings them back.
    pub fn take_places(&mut self) -> Vec<Place>
        // It returns the places of all features.
        ensures taken { result.items ≡ self.old.places }
        // Until they come back the index has no place, and knows no leaf's span.
        ensures rest { self.new ≡ record self.old { places = []; known = [] } }
    {
        self.known = Vec::new(self.alloc);
        mem::replace(&mut self.places, Vec::new(self.alloc))
    }

    /// Brings places back, or other ones.
    pub fn put_places(&mut self, places: Vec<Place>)
        ensures { self.new ≡ record self.old { places = places.items; known = [] } }
    {
        self.known = Vec::new(self.alloc);
        note_lasts(&mut self.cache, places.as_slice());
        self.places = places;
    }

    /// The cache of its pages, for what is kept in pages beside those of the tree.
    pub fn cache_mut(&mut self) -> &mut PageCache<S>
        // What is done to the cache is done to the index's cache. What was known of leaves' spans
        // is forgotten.
        ensures* lends { sem 𝓛 (LendsCache S.row S.PageStore self.entry result) }
        // It is the index's cache, as it is now.
        ensures value { result.now ≡ self.old.cache }
    {
        self.known = Vec::new(self.alloc);
        &mut self.cache
    }
}
