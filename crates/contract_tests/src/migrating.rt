//! A store of version 1 that is brought over stays as it is.
ghost use Rattle.std.specs.Prelude.{◌≡◌, ◌<◌};
ghost use Rattle.pages.specs.Store.{Stays};

use boxsearch::TreeIndex;
use pages::PageStore;
use register::{Catalogue, CatalogueFault};
use std::alloc::Global;
use std::hash::RandomState;

/// Brings a store of version 1, which is lent, over into an empty one.
///
/// Wrong bodies: the old store is written.
pub fn migrate<S: PageStore, T: PageStore>(
    alloc: Global,
    keys: RandomState,
    old: &mut S,
    new: T,
    cache_pages: usize,
) -> Result<(Catalogue, TreeIndex<T>), (T, CatalogueFault)>
    requires empty { (T.seen new).count ≡ 0 }
    requires cache_pages { 0 < cache_pages }
    ensures stays { Stays (S.seen old.old) (S.seen old.new) }
{
    version1::migrate(alloc, keys, old, new, cache_pages)
}
