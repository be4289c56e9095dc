//! A store that is marked says so in its file.
ghost use Rattle.std.specs.Prelude.{IsTrue, OnOk};
ghost use Rattle.boxsearch.specs.Index.{IsMarked};

use boxsearch::TreeIndex;
use legs::IndexFault;
use pages::PageStore;

/// Marks the store as one that is not finished.
///
/// Wrong bodies: the mark stays in memory.
pub fn mark<S: PageStore>(index: &mut TreeIndex<S>) -> Result<(), IndexFault>
    ensures marked { OnOk result (IsTrue index.old.cache.store.is_faithful
        → IsMarked index.new.cache) }
{
    index.mark()
}
