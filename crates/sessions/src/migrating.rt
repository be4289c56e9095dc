//! A store of version 1 that is brought over into a new one, and closed.
ghost use Rattle.std.specs.Prelude.{◌≡◌, ◌⊎◌, Err, IfErr, IsErrOf, IsTrue, OnOk};
ghost use Rattle.legs.specs.Costs.{ShapeView};
ghost use Rattle.legs.specs.Limits.{LimitsView};
ghost use Rattle.legs.specs.Book.{Book};
ghost use Rattle.pages.specs.Store.{IsSynced, Stays};
ghost use Rattle.catalogue.specs.Beginning.{IsLeftOver};
ghost use Rattle.catalogue.specs.Holding.{HoldsBook, HoldsButFirst, IsUnfinishedStore};
ghost use Rattle.version1.specs.OldStore.{present_shape, HoldsOldBook};
ghost use Rattle.register.specs.declared.fault.CatalogueFault.{CatalogueFault};
ghost use Rattle.trajdb.specs.declared.RunFault.{RunFault};
ghost use Rattle.sessions.specs.Answers.{IsNotOver, IsOverFault};

use crate::fault::Fault;
use crate::session::CACHE_PAGES;
use pages::PageStore;
use std::alloc::Global;
use std::hash::RandomState;
use trajdb::{Db, OpenFault};

/// Migrates a database of version 1 into a new store. With this trait `Db::migrate` is a call of
/// [`Db`].
pub trait Migrate<T: PageStore> {
    ghost use Rattle.std.specs.Prelude.{◌≡◌, ◌<◌, ◌≤◌, None, IsTrue, IfErr, IfOk, false, true};
    ghost use Rattle.legs.specs.Book.{Book};
    ghost use Rattle.legs.specs.Costs.{ShapeView};
    ghost use Rattle.legs.specs.Limits.{LimitsView};
    ghost use Rattle.pages.specs.Store.{Stays};
    ghost use Rattle.pagecache.specs.Cache.{stored_payload};
    ghost use Rattle.catalogue.specs.Beginning.{IsLeftOver};
    ghost use Rattle.version1.specs.Migrating.{IsBrought, NotMigrated};
    ghost use Rattle.version1.specs.OldStore.{old_first_fault, present_shape, HoldsOldBook};
    ghost use Rattle.trajdb.specs.Database.{catalogue_of};
    ghost use Rattle.trajdb.specs.Db.{HasPages};
    ghost use Rattle.trajdb.specs.Lasting.{HasBook};

    /// Migrates the database of a finished store of version 1 into an empty store: the same legs,
    /// names, attribute values, base, coordinate reference system, columns and limits, in two
    /// dimensions. The cache holds at most that many pages, at least 1. A leaf takes as many legs
    /// as before, but 50 at most; an inner page takes as many entries. Names and legs are hashed
    /// with the keys, which a stranger who chooses the names of a file is not to know.
    ///
    /// The store of version 1 is read, each page by its seal, and never written. The legs are put
    /// in 65,536 at a time. In memory are about 64 bytes a leaf, and 8 bytes a leg while the chains
    /// are walked. Then there are the legs of at most one leaf a feature, and those that wait. No
    /// clause says what memory is taken.
    ///
    /// What is wrong with page 0 of the old store comes first, in this order: it is not there
    /// (`Malformed`), is damaged, is no header (`Malformed`), has another version than 1, says
    /// unfinished, or has another state (`Malformed`). Then comes the first page that is damaged or
    /// malformed. If the leaves of a feature are not whole, `Damaged` names the page at which the
    /// walk along them fails, or page 0 if all of them do not have the legs that they should.
    ///
    /// `StoreFull` is the new store's. On an error the new store is handed back: without pages,
    /// with a page 0 that says that it is not finished, or with page 0 alone, whose write failed.
    fn migrate<S: PageStore>(
        alloc: Global,
        keys: RandomState,
        old: &mut S,
        new: T,
        cache_pages: usize,
    ) -> Result<Db<T>, (T, OpenFault)>
        // The new store has no page.
        requires empty { (T.seen new).count ≡ 0 }
        // The cache has room for a page.
        requires cache_pages { 0 < cache_pages }

        // A store whose pages hold a book gives a sound database with that book.
        ensures book { IfOk result (λ db. IsTrue (S.seen old.old).is_faithful
            → IsTrue (T.seen new).is_faithful
            → (shape : ShapeView) (limits : LimitsView) (book : Book)
            → HoldsOldBook (S.seen old.old) shape limits book
            → HasBook (present_shape shape) limits book db) }
        // It is said truly why none is brought over: a fault of page 0 comes first, and a store that
        // holds a book is refused only if memory runs out, a store fails, or the new one is full.
        ensures refused { IfErr result (λ back. NotMigrated (S.seen old.old) (S.seen old.new)
            (T.seen new) (T.seen back.0) back.1) }

        // Whatever the pages keep is brought over, and else it is said why not.
        ensures brought { IfOk result (λ db. IsTrue (S.seen old.old).is_faithful
            → IsTrue (T.seen new).is_faithful
            → IsBrought (S.seen old.old) (catalogue_of db) db.index) }

        // It has begun: page 0 of the new store says that it is not finished.
        ensures begun { IfOk result (λ db. db.begun ≡ true) }
        // The new database has not failed.
        ensures lives { IfOk result (λ db. db.failed ≡ false) }
        // Over faithful stores page 0 of the new store as written says that it is not finished.
        ensures pages { IfOk result (λ db. IsTrue (S.seen old.old).is_faithful
            → IsTrue (T.seen new).is_faithful → HasPages db) }

        // A faithful store of version 1 that is migrated has a page 0 without a fault.
        ensures finished { IfOk result (λ db. IsTrue (S.seen old.old).is_faithful
            → old_first_fault (S.seen old.old).count (stored_payload (S.seen old.old) 0) ≡ None) }

        // The store of version 1 stays as it is; of the other this is left.
        ensures stays { Stays (S.seen old.old) (S.seen old.new) }
        // The new store's count of faults never falls.
        ensures faults { IfOk result (λ db. (T.seen new).faults ≤ db.index.cache.store.faults) }
        // The new store has no page, an unfinished page 0, or page 0 alone, whose write failed.
        ensures left { IfErr result (λ back. IsTrue (S.seen old.old).is_faithful
            → IsTrue (T.seen new).is_faithful → IsLeftOver (T.seen new) (T.seen back.0)) };
}

impl<T: PageStore> Migrate<T> for Db<T> {
    fn migrate<S: PageStore>(
        alloc: Global,
        keys: RandomState,
        old: &mut S,
        new: T,
        cache_pages: usize,
    ) -> Result<Db<T>, (T, OpenFault)> {
        match version1::migrate(alloc, keys, old, new, cache_pages) {
            Ok((catalogue, index)) => Ok(Db::from_parts(catalogue, index, true)),
            Err(back) => Err(back),
        }
    }
}

/// Brings a store of version 1 over into an empty one, with a cache of `CACHE_PAGES` pages, closes
/// that, and gives it back. Names are hashed with the keys, which a stranger who chooses the names
/// of a file is not to know.
///
/// Where it is not brought over, `Open`, as [`Migrate::migrate`] says it; where the new
/// store is not closed, `Run`.
pub fn migrate_and_close<S: PageStore, T: PageStore>(
    alloc: Global,
    keys: RandomState,
    old: &mut S,
    new: T,
) -> (T, Result<(), Fault>)
    // The new store has no page.
    requires { (T.seen new).count ≡ 0 }
    // The new store then holds the book that the other holds.
    ensures holds { OnOk result.1 (IsTrue (S.seen old.old).is_faithful
        → IsTrue (T.seen new).is_faithful
        → (shape : ShapeView) (limits : LimitsView) (book : Book)
        → HoldsOldBook (S.seen old.old) shape limits book
        → HoldsBook (T.seen result.0) (present_shape shape) limits book) }
    // After `Ok` all pages of the new store are synced.
    ensures synced { OnOk result.1 (IsSynced (T.seen result.0)) }

    // It was a finished one of version 1, whose catalogue and chains of leaves are whole, and the new
    // one keeps that catalogue and an index of those legs; one that holds a book is refused for
    // memory, a store that failed, or a full one alone, and then the new one is not taken for a
    // finished one, unless it failed in the closing.
    ensures left { IfErr result.1 (λ fault. IsTrue (S.seen old.old).is_faithful
        → IsTrue (T.seen new).is_faithful
        → (shape : ShapeView) (limits : LimitsView) (book : Book)
        → HoldsOldBook (S.seen old.old) shape limits book
        → IsNotOver (T.seen new) (T.seen result.0) fault) }

    // Whatever the other store holds, where it is not brought over the new one has no page, says that
    // it is not finished, or has a page 0 alone, whose write failed.
    ensures refused { (fault : CatalogueFault) → result.1 ≡ Err (Fault.Open fault)
        → IsTrue (S.seen old.old).is_faithful → IsTrue (T.seen new).is_faithful
        → IsLeftOver (T.seen new) (T.seen result.0) }
    // `Store` is returned only if a store failed, and `StoreFull` only if the new one is full.
    ensures caused { IfErr result.1 (IsOverFault (S.seen old.old) (S.seen old.new) (T.seen new)
        (T.seen result.0)) }

    // Where the closing is refused, the new one is not finished, or all of its pages but page 0 are
    // those of a store that holds the book, and are synced; so it is of whatever the other store
    // keeps.
    ensures closing { (why : RunFault) → IsErrOf result.1 (Fault.Run why)
        → IsTrue (S.seen old.old).is_faithful → IsTrue (T.seen new).is_faithful
        → (shape : ShapeView) (limits : LimitsView) (book : Book)
        → HoldsOldBook (S.seen old.old) shape limits book
        → IsUnfinishedStore (T.seen result.0)
        ⊎ HoldsButFirst (T.seen result.0) (present_shape shape) limits book }

    // The store of version 1 stays as it is.
    ensures stays { Stays (S.seen old.old) (S.seen old.new) }
{
    match Db::migrate(alloc, keys, old, new, CACHE_PAGES as usize) {
        Ok(database) => {
            let (store, closed) = database.close(alloc);
            match closed {
                Ok(()) => (store, Ok(())),
                Err(fault) => (store, Err(Fault::Run(fault))),
            }
        }
        Err((store, fault)) => (store, Err(Fault::Open(fault))),
    }
}
