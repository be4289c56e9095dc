//! The mark of a store that is not finished, in its page 0.
ghost use Rattle.std.specs.Prelude.{◌≡◌, drop, IsTrue, IfErr, OnErr, OnOk};
ghost use Rattle.pages.specs.Store.{Faulted, IsSynced};
ghost use Rattle.pagecache.specs.Cache.{IsClean, pages_as_written};
ghost use Rattle.boxsearch.specs.Index.{IsMarked};
ghost use Rattle.boxsearch.specs.Marking.{Marks, IsNotMarked};

use header::{is_unfinished, set_unfinished};
use pagecache::{CacheFault, PageCache};
use pages::PageStore;

/// Marks page 0, where it is not marked and written so, and writes all that is changed.
pub(crate) fn mark_page<S: PageStore>(cache: &mut PageCache<S>) -> Result<(), CacheFault>
    ensures marks { Marks cache.old cache.new }
    ensures unmarked { OnOk result (IsTrue cache.old.store.is_faithful
        → (IsMarked cache.old → ⊥) → IsSynced cache.new.store) }
    ensures marked { OnOk result (IsTrue cache.old.store.is_faithful → IsMarked cache.new) }
    ensures others { OnErr result (IsTrue cache.old.store.is_faithful → IsClean cache.old
        → drop 1 (pages_as_written cache.new) ≡ drop 1 (pages_as_written cache.old)) }
    ensures first { OnErr result (IsTrue cache.old.store.is_faithful → IsClean cache.old
        → (Faulted cache.old.store cache.new.store → ⊥)
        → pages_as_written cache.new ≡ pages_as_written cache.old) }
    ensures caused { IfErr result (IsNotMarked cache.old cache.new) }
{
    let is_changed = cache.is_changed(0);
    if is_unfinished(cache.page(0)?) && !is_changed {
        return Ok(());
    }
    set_unfinished(cache.page_mut(0)?);
    cache.flush()
}
