//! A new store.
ghost use Rattle.std.specs.Prelude.{◌≡◌, ◌<◌, IfOk, IfErr, OnOk};
ghost use Rattle.pages.specs.Sealed.{sealed};
ghost use Rattle.pages.specs.Store.{IsSynced, Writes};
ghost use Rattle.catalogue.specs.Beginning.{IsBegun, NotBegun};
ghost use Rattle.header.specs.Fields.{header_payload};

use boxsearch::TreeIndex;
use header::new_payload;
use legs::Limits;
use pagecache::{CacheFault, PageCache};
use pages::{PageStore, Payload, seal};
use std::alloc::Global;
use tbtree::Shape;

/// Writes page 0 of a store that has no page, whole and at once, and makes it last.
fn write_first<S: PageStore>(store: &mut S, payload: &Payload) -> Result<(), CacheFault>
    requires empty { (S.seen store.old).count ≡ 0 }
    ensures written { OnOk result (Writes 0 (sealed 0 payload.now) (S.seen store.old)
        (S.seen store.new)) }
    ensures synced { OnOk result (IsSynced (S.seen store.new)) }
    ensures refused { IfErr result (NotBegun payload.now (S.seen store.old) (S.seen store.new)) }
{
    if store.most() == 0 {
        return Err(CacheFault::StoreFull);
    }
    store.write(0, &seal(0, payload))?;
    store.sync()?;
    Ok(())
}

/// An index without legs over an empty store, to which it adds page 0: the header of a store that
/// is not finished, of this shape and these limits, written whole at once and synced. The cache
/// holds at most that many pages, at least 1.
///
/// Refused for want of memory, and where the store fails or has no room for a page; the store is
/// then handed back.
pub fn begin<S: PageStore>(
    alloc: Global,
    store: S,
    shape: Shape,
    cache_pages: usize,
    limits: &Limits,
) -> Result<TreeIndex<S>, (S, CacheFault)>
    // The store has no page.
    requires empty { (S.seen store).count ≡ 0 }
    // The cache has room for a page.
    requires cache_pages { 0 < cache_pages }
    // The index has no legs, this shape and these limits, and over a faithful store it is sound and marked as unfinished.
    ensures begun { IfOk result (IsBegun shape limits.now cache_pages (S.seen store)) }
    // The store is handed back without pages, or with page 0 alone, and it is said truly why.
    ensures refused { IfErr result (λ back. NotBegun (header_payload shape limits.now)
        (S.seen store) (S.seen back.0) back.1) }
{
    let mut store = store;
    let payload = new_payload(shape, *limits);
    match write_first(&mut store, &payload) {
        Ok(()) => {}
        Err(fault) => return Err((store, fault)),
    }
    match PageCache::new(alloc, store, cache_pages) {
        Ok(cache) => Ok(TreeIndex::new(alloc, cache, shape)),
        Err((store, _)) => Err((store, CacheFault::Memory)),
    }
}
