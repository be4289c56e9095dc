//! A store is marked as finished.
ghost use Rattle.std.specs.Prelude.{IfErr, OnErr, OnOk};
ghost use Rattle.pagecache.specs.Cache.{IsRefused, Rests};
ghost use Rattle.catalogue.specs.Finishing.{FinishesAll, SetsState};

use header::set_finished;
use pagecache::{CacheFault, PageCache};
use pages::PageStore;

/// Makes page 0 say that the store is finished; it is not written yet.
fn set_state<S: PageStore>(cache: &mut PageCache<S>) -> Result<(), CacheFault>
    ensures sets { OnOk result (SetsState cache.old cache.new) }
    ensures rests { OnErr result (Rests cache.old cache.new) }
    ensures caused { IfErr result (λ fault. IsRefused 0 fault cache.old cache.new) }
{
    match cache.page_mut(0) {
        Ok(payload) => {
            set_finished(payload);
            Ok(())
        }
        Err(fault) => Err(fault),
    }
}

/// Marks a store as finished: all that is changed is written, then page 0 says so, and is written
/// last.
///
/// Refused for want of memory, and where the store fails; page 0 as written then still says that
/// the store is not finished, unless the store failed when it was to be written and to last. Where no
/// other page is changed, no other one is written, and none is left unsynced.
pub(crate) fn finish<S: PageStore>(cache: &mut PageCache<S>) -> Result<(), CacheFault>
    ensures { FinishesAll cache.old cache.new result }
{
    cache.flush()?;
    set_state(cache)?;
    cache.flush()
}
