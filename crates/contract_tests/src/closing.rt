//! A store says that it is finished only once all else is written.
ghost use Rattle.std.specs.Prelude.{IfErr};
ghost use Rattle.boxsearch.specs.Index.{IsMarked};
ghost use Rattle.catalogue.specs.Closing.{IsNoStoreFault};
ghost use Rattle.catalogue.specs.Holding.{IsUnfinishedStore};

use boxsearch::TreeIndex;
use pages::PageStore;
use register::{Catalogue, CatalogueFault};
use std::alloc::Global;

/// Closes the store of a database.
///
/// Wrong bodies: the store says that it is finished before it is saved.
pub fn close<S: PageStore>(
    alloc: Global,
    catalogue: &Catalogue,
    index: TreeIndex<S>,
) -> (S, Result<(), CatalogueFault>)
    ensures unfinished { IfErr result.1 (λ fault. IsNoStoreFault fault → IsMarked index.cache
        → IsUnfinishedStore (S.seen result.0)) }
{
    catalogue::close(alloc, catalogue, index)
}
