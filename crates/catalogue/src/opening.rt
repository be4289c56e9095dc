//! A store is opened.
ghost use Rattle.std.specs.Prelude.{◌<◌, IfErr, IfOk};
ghost use Rattle.catalogue.specs.Holding.{IsOpened, IsRestored, NotOpened, NotRestored};

use boxsearch::TreeIndex;
use pagecache::PageCache;
use pages::PageStore;
use register::{Catalogue, CatalogueFault, Restored, lawful, read_back};
use std::alloc::Global;
use std::hash::RandomState;

/// The catalogue that the pages of a finished store keep, and the index of its legs.
///
/// The cache is handed back where they keep none, memory runs out, or the store fails. Of page 0 it
/// is said first that it is not there (`Malformed`), is damaged, is no header (`Malformed`), has
/// another version, is of a store that was not finished, or of one in another state (`Malformed`);
/// then the first page along the text that is damaged, or that the text up to there is malformed, as
/// met.
pub fn restore<S: PageStore>(
    alloc: Global,
    keys: RandomState,
    mut cache: PageCache<S>,
) -> Result<(Catalogue, TreeIndex<S>), (PageCache<S>, CatalogueFault)>
    // What the pages keep is given back; they are only read.
    ensures restored { IfOk result (λ r. IsRestored cache r.0 r.1) }
    // Where nothing is restored, the cache is handed back, only read, and why.
    ensures refused { IfErr result (λ back. NotRestored cache back.0 back.1) }
{
    let result = read_back(alloc, keys, &mut cache);
    lawful(&cache);
    match result {
        Ok(
            Restored {
                catalogue,
                tree,
                places,
            },
        ) => {
            let legs = catalogue.tracks.leg_count();
            let index = TreeIndex::from_parts(alloc, cache, tree, places, legs);
            Ok((catalogue, index))
        }
        Err(fault) => Err((cache, fault)),
    }
}

/// Opens a store, with a cache of at most that many pages, at least 1: the catalogue that its pages
/// keep, and the index of its legs. Nothing is written.
///
/// The store is handed back where it is refused, as by [`restore`].
pub fn open<S: PageStore>(
    alloc: Global,
    keys: RandomState,
    store: S,
    cache_pages: usize,
) -> Result<(Catalogue, TreeIndex<S>), (S, CatalogueFault)>
    // The cache has room for a page.
    requires { 0 < cache_pages }
    // A store whose pages hold a book gives that book; it stays as it is.
    ensures opened { IfOk result (λ r. IsOpened (S.seen store) cache_pages r.0 r.1) }
    // A store that is not opened is handed back as it was, and why; faults of page 0 come first.
    ensures refused { IfErr result (λ back. NotOpened (S.seen store) (S.seen back.0) back.1) }
{
    register::laws();
    let cache = match PageCache::new(alloc, store, cache_pages) {
        Ok(cache) => cache,
        Err((store, _)) => return Err((store, CatalogueFault::Memory)),
    };
    match restore(alloc, keys, cache) {
        Ok(restored) => Ok(restored),
        Err((cache, fault)) => Err((cache.into_store(), fault)),
    }
}
