//! A store is closed.
ghost use Rattle.std.specs.Prelude.{ℕ, ◌≡◌, ◌≤◌, List, Some};
ghost use Rattle.legs.specs.declared.head.BookHead.{BookHead};
ghost use Rattle.pages.specs.Store.{IsLawful};
ghost use Rattle.pagecache.specs.Cache.{IsSettled};
ghost use Rattle.timebase.specs.Instant.{IsMoment};
ghost use Rattle.chains.specs.declared.spans.LeafSpan.{LeafSpan};
ghost use Rattle.catalogue.specs.Closing.{CloseStoreCall};

use crate::finishing::finish;
use boxsearch::TreeIndex;
use legs::BookHead;
use pagecache::PageCache;
use pages::PageStore;
use register::{Catalogue, CatalogueFault, fault_of, keep, lawful};
use std::alloc::Global;
use tbtree::{Place, TbTree};

/// What holds of the base of any head, for the proofs of a caller. It does nothing.
fn dated(head: &Option<BookHead>)
    ensures { (first : BookHead) → head.now ≡ Some first → IsMoment first.base }
{
    match head {
        None => {}
        Some(head) => {
            let _ = head.base.millis();
        }
    }
}

/// Keeps the catalogue beside a tree and the places of its features, writes all that is changed, and marks the store
/// as finished.
fn keep_and_finish<S: PageStore>(
    alloc: Global,
    catalogue: &Catalogue,
    tree: TbTree,
    places: &[Place],
    cache: &mut PageCache<S>,
) -> Result<(), CatalogueFault>
    // So it closes any index with this tree and these places over the cache.
    ensures { (legs : ℕ) (known : List (List LeafSpan)) → IsLawful cache.new.store
        → cache.new.count ≤ cache.new.store.count
        → CloseStoreCall catalogue.now
        (record {
          cache = cache.old;
          tree = tree;
          places = places.now;
          legs = legs;
          known = known;
        }) cache.new.store result }
{
    register::laws();
    dated(&catalogue.head);
    // For its clause alone: a page that is not changed is as written.
    let _ = cache.store();
    keep(alloc, catalogue, tree, places, cache)?;
    match finish(cache) {
        Ok(()) => Ok(()),
        Err(fault) => Err(fault_of(fault)),
    }
}

/// Closes the store of a database: its catalogue is saved, all that is changed is written and
/// synced, and page 0 says last that the store is finished, and is synced too. The store is handed
/// back, whatever is answered.
///
/// Refused for want of memory, and where the store fails or is full. Where page 0 said that the store is not finished, it
/// says so still where memory ran out or the store is full; where the store failed, it does, or all pages but page 0 are
/// written as those of the closed store, and synced. Where page 0 is damaged, it is named, and a store without a page is
/// malformed.
pub fn close<S: PageStore>(
    alloc: Global,
    catalogue: &Catalogue,
    mut index: TreeIndex<S>,
) -> (S, Result<(), CatalogueFault>)
    ensures call { CloseStoreCall catalogue.now index (S.seen result.0) result.1 }
    // It has no more pages than it may, and fewer than 2^32.
    ensures lawful { IsLawful (S.seen result.0) }
{
    let tree = index.tree();
    let places = index.take_places();
    let mut cache = index.into_cache();
    let result = keep_and_finish(alloc, catalogue, tree, &places, &mut cache);
    lawful(&cache);
    // For its contract alone: the cache counts no more pages than the store.
    cache.count();
    (cache.into_store(), result)
}

/// The store of an index that is at rest, as it stands; nothing is written.
pub fn rest<S: PageStore>(index: TreeIndex<S>) -> S
    // It is the store below the cache, as it stands.
    ensures store { S.seen result ≡ index.cache.store }
    // It has no more pages than it may, and fewer than 2^32.
    ensures lawful { IsLawful index.cache.store }
    // A page that is not changed has the payload that the page as written seals.
    ensures settled { IsSettled index.cache }
{
    let cache = index.into_cache();
    let _ = cache.store();
    cache.into_store()
}
