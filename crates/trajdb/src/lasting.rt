//! A database that lasts between runs.
ghost use Rattle.std.specs.Prelude.{◌≡◌};
ghost use Rattle.trajdb.specs.Faults.{closed_answer};

use crate::database::Core;
use crate::db::Db;
use crate::start::Start;
use crate::{OpenFault, RunFault};
use boxsearch::TreeIndex;
use catalogue::Catalogue;
use pages::PageStore;
use std::alloc::Global;
use std::hash::RandomState;

/// What closing answers, as an answer of the database.
fn closed(answer: Result<(), OpenFault>) -> Result<(), RunFault>
    ensures { result ≡ closed_answer answer }
{
    match answer {
        Ok(()) => Ok(()),
        Err(fault) => Err(RunFault::from(fault)),
    }
}

impl<I: Start> Core<I> {
    ghost use Rattle.std.specs.Prelude.{◌≡◌, false};
    ghost use Rattle.legs.specs.Limits.{IsLimits};
    ghost use Rattle.trajdb.specs.Database.{restored};

    /// A database of a catalogue and the index of its legs: one that was made, or one that was opened
    /// and into which no file was accepted since.
    pub(crate) fn restored(catalogue: Catalogue, index: I, begun: bool) -> Core<I>
        ensures core { result ≡ restored I.Listed catalogue index begun }
        ensures limits { IsLimits result.limits }
    {
        let Catalogue {
            head,
            limits,
            tracks,
            rows,
        } = catalogue;
        prove!(limits.legs() > 0);
        Core {
            index,
            head,
            tracks,
            rows,
            limits,
            begun,
            failed: false,
        }
    }
}

impl<S: PageStore> Db<S> {
    ghost use Rattle.std.specs.Prelude.{◌≡◌, ◌<◌, true};
    ghost use Rattle.legs.specs.Limits.{IsLimits};
    ghost use Rattle.boxsearch.specs.Index.{words};
    ghost use Rattle.pages.specs.Store.{Store};
    ghost use Rattle.catalogue.specs.Holding.{IsUnfinishedStore};
    ghost use Rattle.trajdb.specs.Database.{restored};
    ghost use Rattle.trajdb.specs.Db.{HasPages};
    ghost use Rattle.trajdb.specs.Lasting.{IsSafe, IsSafeStore};
    ghost use Rattle.trajdb.specs.Promises.{CloseCall, OpenCall};

    /// Opens the database that a store keeps. Its cache holds at most that many pages, at least 1.
    /// Nothing is written before a file is accepted. Names are hashed with the keys, which a
    /// stranger who chooses the names of a file is not to know.
    ///
    /// On an error the store is handed back. What is wrong with page 0 comes first, in this order:
    /// it is not there (`Malformed`), is damaged, is no header (`Malformed`), has another version,
    /// says unfinished, or has another state (`Malformed`). Then comes the first page along the
    /// catalogue's text that is damaged, or `Malformed` for the text up to there.
    pub fn open(
        alloc: Global,
        keys: RandomState,
        store: S,
        cache_pages: usize,
    ) -> Result<Db<S>, (S, OpenFault)>
        // The cache has room for a page.
        requires cache_pages { 0 < cache_pages }
        ensures { OpenCall S.seen (S.seen store) cache_pages result }
    {
        match catalogue::open(alloc, keys, store, cache_pages) {
            Ok((catalogue, index)) => Ok(Db {
                core: Core::restored(catalogue, index, false),
            }),
            Err(back) => Err(back),
        }
    }

    /// Makes a database of its parts: what is known beside the legs, their index, and whether it
    /// has begun. It is sound if they belong together, which is not tested.
    pub fn from_parts(catalogue: Catalogue, index: TreeIndex<S>, begun: bool) -> Db<S>
        // It has exactly this catalogue and this index, and has not failed.
        ensures parts { result ≡ restored words catalogue index begun }
        // Its limits are in range.
        ensures limits { IsLimits result.limits }
    {
        Db {
            core: Core::restored(catalogue, index, begun),
        }
    }

    /// Closes the database, and hands its store back, whatever is returned. What the store is to
    /// keep is saved, and all that is changed is written and synced. Then page 0 says that the
    /// store is finished, and is synced too.
    ///
    /// Nothing is written if the database was opened and accepted no file since, or has failed. A
    /// failed one returns `Failed`. It fails too if memory runs out, or the store fails or is full.
    /// Page 0 then still says that the store is not finished, unless the store failed and all other
    /// pages are those of the closed store, and synced.
    pub fn close(self, alloc: Global) -> (S, Result<(), RunFault>)
        ensures { CloseCall self (S.seen result.0) result.1 }
    {
        let (failed, begun) = (self.core.failed, self.core.begun);
        let (catalogue, index) = self.core.into_parts();
        if failed {
            return (catalogue::rest(index), Err(RunFault::Failed));
        }
        if !begun {
            return (catalogue::rest(index), Ok(()));
        }
        let (store, result) = catalogue::close(alloc, &catalogue, index);
        (store, closed(result))
    }

    /// Gives up the database, and returns its store as it stands. What was changed and not written
    /// is lost.
    pub fn abandon(self) -> S
        // It is the store below the cache, as it stands.
        ensures store { S.seen result ≡ self.index.cache.store }

        // The store of a database that has begun says that it is not finished.
        ensures unfinished { HasPages self → self.begun ≡ true → IsUnfinishedStore (S.seen result) }

        // After a failed load it says so too, or is the store that was there before.
        ensures safe { (was : Store) → IsSafe was self → IsSafeStore was (S.seen result) }
    {
        let (_, index) = self.core.into_parts();
        catalogue::rest(index)
    }
}
