//! A store of version 1 is brought over.
ghost use Rattle.std.specs.Prelude.{◌≡◌, ◌<◌, ◌≤◌, IsTrue, IfErr, IfOk};
ghost use Rattle.pages.specs.Store.{IsLawful, Stays};
ghost use Rattle.catalogue.specs.Beginning.{IsLeftOver};
ghost use Rattle.version1.specs.Migrating.{brought_fault, IsMigrated, IsReadOld, NotMigrated};

use crate::old_legs::take_old_legs;
use crate::old_store::{OldRestored, read_old};
use boxsearch::TreeIndex;
use catalogue::begin;
use legs::IndexFault;
use pagecache::PageCache;
use pages::PageStore;
use register::{Catalogue, CatalogueFault, fault_of, lawful};
use std::alloc::Global;
use std::hash::RandomState;

/// How a fault of bringing legs over is answered.
fn brought(fault: IndexFault) -> CatalogueFault
    ensures { result ≡ brought_fault fault }
{
    match fault {
        IndexFault::Memory => CatalogueFault::Memory,
        IndexFault::Store => CatalogueFault::Store,
        IndexFault::Damaged(page) => CatalogueFault::Damaged(page),
        IndexFault::StoreFull => CatalogueFault::StoreFull,
        IndexFault::Spent => CatalogueFault::Malformed,
    }
}

/// What is read of a lent store of version 1 beside its legs, and the new store, which has no page
/// and is left as it is.
fn read_beside<S: PageStore, T: PageStore>(
    alloc: Global,
    keys: RandomState,
    old: &mut S,
    new: T,
) -> Result<(OldRestored, T), (T, CatalogueFault)>
    requires empty { (T.seen new).count ≡ 0 }
    ensures read { IfOk result (λ r. IsReadOld (S.seen old.old) (T.seen new) r.0.catalogue r.0.leaf
        r.0.shape r.0.places.items) }
    ensures refused { IfErr result (λ back. NotMigrated (S.seen old.old) (S.seen old.new)
        (T.seen new) (T.seen back.0) back.1) }
    ensures stays { Stays (S.seen old.old) (S.seen old.new) }
    ensures stored { IfOk result (λ r. Stays (T.seen new) (T.seen r.1)) }
    ensures back { IfErr result (λ back. Stays (T.seen new) (T.seen back.0)) }
{
    let mut cache = match PageCache::new(alloc, new, 1) {
        Ok(cache) => cache,
        Err((new, _)) => return Err((new, CatalogueFault::Memory)),
    };
    let read = read_old(alloc, keys, old, &mut cache);
    lawful(&cache);
    match read {
        Ok(restored) => Ok((restored, cache.into_store())),
        Err(fault) => Err((cache.into_store(), fault)),
    }
}

/// The store below an index, as it stands.
fn store_of<T: PageStore>(index: TreeIndex<T>) -> T
    ensures store { T.seen result ≡ index.cache.store }
    ensures few { index.cache.count ≤ index.cache.store.count }
    ensures lawful { IsLawful index.cache.store }
{
    let cache = index.into_cache();
    lawful(&cache);
    cache.count();
    cache.into_store()
}

/// Brings a store of version 1, which is lent, over into an empty one: the catalogue that its pages
/// keep, and an index of its legs, with leaves of 50 legs at most, over a page 0 that says that the
/// new store is not finished. The cache has at most that many pages, at least 1.
///
/// The legs are put in many at a time, and of them is kept in memory what [`take_old_legs`] keeps. The
/// store of version 1 is read, each page of it by its seal, and never written. Of its page 0 it is
/// said first that it is not there (`Malformed`), is damaged, is no header (`Malformed`), has
/// another version, is of a store that was not finished, or of one in another state (`Malformed`);
/// then the first page that is damaged, or malformed, as met; a chain of leaves that is not whole
/// is `Damaged`, with the page at which the walk along it fails, or page 0 where all of them do not
/// have the legs that are to be.
///
/// Where it is refused the new store is handed back: without pages, with a page 0 that says that it
/// is not finished, or with page 0 alone, whose write failed.
pub fn migrate<S: PageStore, T: PageStore>(
    alloc: Global,
    keys: RandomState,
    old: &mut S,
    new: T,
    cache_pages: usize,
) -> Result<(Catalogue, TreeIndex<T>), (T, CatalogueFault)>
    // The new store has no page.
    requires empty { (T.seen new).count ≡ 0 }
    // The cache has room for a page.
    requires cache_pages { 0 < cache_pages }
    // The book of the store of version 1 is in the new store, which is marked unfinished.
    ensures migrated { IfOk result (λ r. IsMigrated (S.seen old.old) (T.seen new) r.0 r.1) }
    // Why nothing is brought over; faults of the old page 0 come first.
    ensures refused { IfErr result (λ back. NotMigrated (S.seen old.old) (S.seen old.new)
        (T.seen new) (T.seen back.0) back.1) }
    // The new store has no page, an unfinished page 0, or page 0 alone, whose write failed.
    ensures left { IfErr result (λ back. IsTrue (S.seen old.old).is_faithful
        → IsTrue (T.seen new).is_faithful → IsLeftOver (T.seen new) (T.seen back.0)) }
    // The store of version 1 stays as it is.
    ensures stays { Stays (S.seen old.old) (S.seen old.new) }
{
    let (restored, new) = match read_beside(alloc, keys, old, new) {
        Ok(read) => read,
        Err(back) => return Err(back),
    };
    let OldRestored {
        catalogue,
        leaf,
        shape,
        places,
    } = restored;
    let mut index = match begin(alloc, new, shape, cache_pages, &catalogue.limits) {
        Ok(index) => index,
        Err((new, fault)) => return Err((new, fault_of(fault))),
    };
    let most = u64::from(leaf);
    let rows = catalogue.tracks.row_count();
    let legs = take_old_legs(
        alloc,
        keys,
        old,
        most,
        places.as_slice(),
        &catalogue.tracks,
        rows,
        &mut index,
    );
    match legs {
        Ok(()) => Ok((catalogue, index)),
        Err(fault) => Err((store_of(index), brought(fault))),
    }
}
