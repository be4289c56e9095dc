//! What is read back is what the pages of a finished store keep.
ghost use Rattle.std.specs.Prelude.{IfOk, IsTrue};
ghost use Rattle.pagecache.specs.Cache.{payload_of};
ghost use Rattle.register.specs.Lasting.{IsKept};

use pagecache::PageCache;
use pages::PageStore;
use register::{CatalogueFault, Restored};
use std::alloc::Global;
use std::hash::RandomState;

/// What the pages of a finished store keep.
///
/// Wrong bodies: an empty book, or an unfinished store, is opened.
pub fn read_back<S: PageStore>(
    alloc: Global,
    keys: RandomState,
    cache: &mut PageCache<S>,
) -> Result<Restored, CatalogueFault>
    ensures kept { IfOk result (λ r. IsTrue cache.old.store.is_faithful
        → IsKept (payload_of cache.old) cache.old.count r.catalogue r.tree r.places.items) }
{
    register::read_back(alloc, keys, cache)
}
