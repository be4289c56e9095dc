//! The database.
ghost use Rattle.std.specs.Prelude.{◌≡◌};
ghost use Rattle.trajdb.specs.Faults.{open_fault_of};

use crate::database::Core;
use crate::files::Files;
use crate::start::Start;
use crate::{Counts, LoadFault, OpenFault, RunFault};
use boxsearch::TreeIndex;
use catalogue::begin;
use legs::{IndexFault, Limits};
use outputs::Output;
use pagecache::CacheFault;
use pages::PageStore;
use querylang::Command;
use std::alloc::Global;
use std::hash::RandomState;
use std::marker::Model;
use tbtree::Shape;

impl<S: PageStore> Start for TreeIndex<S> {
    fn start(&mut self) -> Result<(), IndexFault> {
        self.mark()
    }
}

/// A database over a store of pages: files are accepted into it, and scripts are run over it.
#[derive(Drop)]
pub struct Db<S: PageStore> {
    pub(crate) core: Core<TreeIndex<S>>,
}

impl<S: PageStore> Model for Db<S> {
    ghost use Rattle.trajdb.specs.Db.{DbView};

    ghost Value = { DbView };

    ghost view = { λ a. a.core };
}

/// What a fault of the cache is to a new database.
fn fault_of(fault: CacheFault) -> OpenFault
    ensures { result ≡ open_fault_of fault }
{
    match fault {
        CacheFault::NoPage => OpenFault::Damaged(0),
        CacheFault::Store => OpenFault::Store,
        CacheFault::Damaged(page) => OpenFault::Damaged(page),
        CacheFault::StoreFull => OpenFault::StoreFull,
        CacheFault::Memory => OpenFault::Memory,
    }
}

impl<S: PageStore> Db<S> {
    ghost use Rattle.std.specs.Prelude.{◌≡◌, ◌<◌, Some, IfOk, IfErr, IsTrue, OnOk, true};
    ghost use Rattle.pages.specs.Sealed.{sealed};
    ghost use Rattle.pages.specs.Store.{IsSynced, Keeps, Writes};
    ghost use Rattle.boxsearch.specs.Index.{words};
    ghost use Rattle.catalogue.specs.Beginning.{IsLeft};
    ghost use Rattle.header.specs.Fields.{header_payload};
    ghost use Rattle.trajdb.specs.Database.{fresh};
    ghost use Rattle.trajdb.specs.Script.{lines_of};
    ghost use Rattle.trajdb.specs.Run.{Runs};
    ghost use Rattle.trajdb.specs.Promises.{CommandCall, KeepsStore, LoadCall, RunCall};
    ghost use Rattle.register.specs.Saving.{IsSavingStop};
    ghost use Rattle.trajdb.specs.Db.{HasPages, IsCaused, IsSoundDb};

    /// Makes a database over an empty store. Its cache holds at most that many pages, at least 1.
    /// Names are hashed with the keys, which a stranger who chooses the names of a file is not to
    /// know.
    ///
    /// On an error the store is handed back. It fails if memory runs out, or the store fails or has
    /// no room for a page.
    pub fn create(
        alloc: Global,
        keys: RandomState,
        store: S,
        shape: Shape,
        cache_pages: usize,
        limits: Limits,
    ) -> Result<Db<S>, (S, OpenFault)>
        // The store has no page.
        requires empty { (S.seen store).count ≡ 0 }
        // The cache has room for a page.
        requires cache_pages { 0 < cache_pages }
        // Over a faithful store the new database is sound.
        ensures sound { IfOk result (λ db. IsTrue (S.seen store).is_faithful → IsSoundDb db) }
        // No file was accepted, so the book is the empty one. It keeps the limits that were given.
        // It has not failed, and it has begun, so `close` will save it.
        ensures made { IfOk result (λ db. db ≡ fresh limits db.index true) }
        // Its tree has the shape that was given.
        ensures shape { IfOk result (λ db. words.plan db.index ≡ Some shape) }
        // Its cache holds at most that many pages.
        ensures capacity { IfOk result (λ db. db.index.cache.capacity ≡ cache_pages) }
        // Page 0 is the only page: the header of an unfinished store, with this shape and these
        // limits.
        ensures stored { IfOk result (λ db. Writes 0 (sealed 0 (header_payload shape limits))
            (S.seen store) db.index.cache.store) }
        // That page is synced.
        ensures synced { IfOk result (λ db. IsSynced db.index.cache.store) }
        // Over a faithful store page 0 as written says that the store is not finished. So if it is
        // given up, the store is refused as unfinished.
        ensures pages { IfOk result (λ db. IsTrue (S.seen store).is_faithful → HasPages db) }
        // Over a faithful store it fails only if memory runs out, or the store fails or is full.
        ensures only { IfErr result (λ back. IsTrue (S.seen store).is_faithful
            → IsSavingStop back.1) }
        // `Store` is returned only if the store failed, and `StoreFull` only if it has room for no
        // page.
        ensures caused { IfErr result (λ back. IsCaused (S.seen store) (S.seen back.0) back.1) }

        // The store that is handed back.
        ensures kept { IfErr result (λ back. Keeps (S.seen store) (S.seen back.0)) }
        // It has no page, or page 0 alone, which is exactly the header unless the store failed.
        ensures left { IfErr result (λ back. IsLeft shape limits (S.seen store) (S.seen back.0)) }
    {
        let index = match begin(alloc, store, shape, cache_pages, &limits) {
            Ok(index) => index,
            Err((store, fault)) => return Err((store, fault_of(fault))),
        };
        match Core::new(alloc, keys, index, limits, true) {
            Ok(core) => Ok(Db { core }),
            Err((index, _)) => Err((index.into_cache().into_store(), OpenFault::Memory)),
        }
    }

    /// How many pages were asked for.
    pub fn asked(&self) -> u64
        ensures { result ≡ words.asked self.now.index }
    {
        self.core.asked()
    }

    /// Accepts a file, whole or not at all. Returns how many data records, legs and distinct
    /// features it has, or its first fault: of its text, else of joining it. A refused file changes
    /// nothing.
    ///
    /// If the database cannot tell, as when memory runs out, it has failed, and does nothing more
    /// (`Failed`).
    pub fn load(&mut self, alloc: Global, bytes: &[u8]) -> Result<Counts, LoadFault>
        ensures call { LoadCall words self.old self.new bytes.now result }
        ensures keeps { KeepsStore self.old self.new }
    {
        self.core.load(alloc, bytes)
    }

    /// Returns the whole answer to a command, with the named files at hand.
    ///
    /// A command that fails changes nothing, unless it is a `load`. Then the database has failed,
    /// and does nothing more (`Failed`).
    pub fn command(
        &mut self,
        alloc: Global,
        command: &Command,
        files: &Files,
    ) -> Result<Vec<u8>, RunFault>
        ensures call { CommandCall words files.now self.old self.new command.now result }
        ensures keeps { KeepsStore self.old self.new }
    {
        self.core.command(alloc, command, files)
    }

    /// Runs a script, with the named files at hand, and sends its answers.
    ///
    /// The run stops at a line that fails. The answers to the lines before were sent whole, and
    /// flushed unless the output fails. The database is as after these lines; or it has failed, and
    /// the line is a `load` of a file that is there. If the output fails (`Output`), a prefix of
    /// the answers was sent, all but the last of them whole. A failed database does nothing
    /// (`Failed`).
    pub fn run<O: Output>(
        &mut self,
        alloc: Global,
        script: &[u8],
        files: &Files,
        out: &mut O,
    ) -> Result<(), RunFault>
        // What was sent is exactly the text of the run, and the book is the one after it.
        ensures ok { OnOk result (IsSoundDb self.old
            → Runs files.now (O.seen out.old).contents (O.seen out.new).contents
            self.old self.new (lines_of script.now)) }
        ensures call { RunCall words O.seen files.now out.old out.new self.old self.new
            (lines_of script.now) result }
        ensures keeps { KeepsStore self.old self.new }
    {
        self.core.run(alloc, script, files, out)
    }
}
