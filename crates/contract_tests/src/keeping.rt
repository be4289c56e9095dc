//! Page 0 is not written with the other pages of a catalogue.
ghost use Rattle.std.specs.Prelude.{◌≡◌, ◌<◌, false, IsTrue};
ghost use Rattle.pagecache.specs.Cache.{is_changed, page_of};

use pagecache::PageCache;
use pages::PageStore;
use register::{Catalogue, CatalogueFault};
use std::alloc::Global;
use tbtree::{Place, TbTree};

/// Keeps a catalogue in pages: its text, and page 0, which is not written yet.
///
/// Wrong bodies: page 0 is written with the others.
pub fn keep<S: PageStore>(
    alloc: Global,
    catalogue: &Catalogue,
    tree: TbTree,
    places: &[Place],
    cache: &mut PageCache<S>,
) -> Result<(), CatalogueFault>
    ensures first_written { IsTrue cache.old.store.is_faithful → 0 < cache.old.count
        → is_changed cache.old 0 ≡ false
        → page_of cache.new 0 ≡ page_of cache.old 0 }
{
    register::keep(alloc, catalogue, tree, places, cache)
}
