//! Pages that are changed.
ghost use Rattle.std.specs.Prelude.{ℕ, ◌≡◌, IfOk, IsTrue};
ghost use Rattle.pagecache.specs.Cache.{payload_of};

use pagecache::{CacheFault, PageCache};
use pages::PageStore;
use std::alloc::Global;

/// A cache, once nothing of it is changed any more.
///
/// Wrong bodies: a changed page is dropped.
pub fn settled<S: PageStore + Drop>(
    alloc: Global,
    cache: PageCache<S>,
) -> Result<PageCache<S>, CacheFault>
    ensures stays { IfOk result (λ kept. IsTrue cache.store.is_faithful
        → (n : ℕ) → payload_of kept n ≡ payload_of cache n) }
{
    let mut kept = cache;
    kept.flush()?;
    Ok(kept)
}
