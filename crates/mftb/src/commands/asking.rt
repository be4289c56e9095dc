//! Databases that are only asked.
ghost use Rattle.std.specs.Prelude.{◌<◌};

use crate::system::leftovers::sweep;
use crate::system::opening::{AskedStore, absence_of, open_asked};
use crate::system::store_names::Names;
use mfcsv::Dimension;
use pages::PageStore;
use reports::Frame;
use sessions::{Fault, Named};
use std::alloc::Global;
use std::fs::File;
use std::hash::RandomState;
use std::random::RandomSource;
use std::rt::Files;
use timebase::Ms;
use trajdb::{Db, RunFault};

/// Opens a store to be read alone; what a run left there that was killed is taken away. A file that is absent is made,
/// without a byte.
pub(crate) fn open_swept<R: Files<File = File>>(
    rt: &R,
    names: &Names,
) -> Result<AskedStore, Fault> {
    sweep(rt, names);
    open_asked(rt, names)
}

/// Opens a store that is there to be read alone; none is made.
fn open_present<R: Files<File = File>>(rt: &R, names: &Names) -> Result<AskedStore, Fault> {
    match absence_of(rt, names.store.as_str()) {
        Some(cause) => Err(Fault::CannotRead(Named::Store, cause)),
        None => open_swept(rt, names),
    }
}

/// The store of a file that is there, opened to be read alone; none is made.
pub(crate) fn store_to_ask<R: Files<File = File> + AllocGlobal>(
    rt: &R,
    store: &str,
) -> Result<AskedStore, Fault> {
    let names = Names::new(rt, store)?;
    open_present(rt, &names)
}

/// How many pages a cache keeps where so many are asked for: from 1 to 2^24, which are 64 GiB. The table of a cache takes
/// memory for each, before a page is read.
pub(crate) fn cached_pages(asked: u32) -> u32
    ensures { 0 < result }
{
    if asked < 1 {
        1
    } else if asked > 1 << 24 {
        1 << 24
    } else {
        asked
    }
}

/// What names are hashed with: a stranger who chooses the names of a file is not to know it.
pub(crate) fn keys_of<R: RandomSource>(rt: &R) -> Result<RandomState, Fault> {
    match RandomState::new(rt) {
        Ok(keys) => Ok(keys),
        Err(_) => Err(Fault::Run(RunFault::Memory)),
    }
}

/// Opens the database of a store.
fn open_database<S: PageStore + Drop>(
    alloc: Global,
    keys: RandomState,
    store: S,
    cache_pages: u32,
) -> Result<Db<S>, Fault> {
    match Db::open(alloc, keys, store, cached_pages(cache_pages) as usize) {
        Ok(database) => Ok(database),
        Err((_store, fault)) => Err(Fault::Open(fault)),
    }
}

/// The database of a store.
pub(crate) fn database_to_ask<R: AllocGlobal + RandomSource, S: PageStore + Drop>(
    rt: &R,
    store: S,
    cache_pages: u32,
) -> Result<Db<S>, Fault> {
    match keys_of(rt) {
        Ok(keys) => open_database(rt.alloc(), keys, store, cache_pages),
        Err(fault) => Err(fault),
    }
}

/// Closes a database that was asked.
fn close_asked<S: PageStore + Drop>(alloc: Global, database: Db<S>) -> Result<(), RunFault> {
    let (_store, closed) = database.close(alloc);
    closed
}

/// What a database told, or why it told nothing, or else why it was not closed.
fn told_and_closed<T: Drop>(
    told: Result<T, RunFault>,
    closed: Result<(), RunFault>,
) -> Result<T, Fault> {
    match (told, closed) {
        (Ok(told), Ok(())) => Ok(told),
        (Err(fault), _) | (Ok(_), Err(fault)) => Err(Fault::Run(fault)),
    }
}

/// What is asked of a database.
pub(crate) trait Question {
    /// What it tells.
    type Told: Drop;

    /// Asks a database.
    fn ask<S: PageStore>(self, database: &mut Db<S>) -> Result<Self::Told, RunFault>;
}

/// What the database of a store tells.
fn told_of<R: AllocGlobal + RandomSource, S: PageStore + Drop, Q: Question + Drop>(
    rt: &R,
    store: S,
    cache_pages: u32,
    question: Q,
) -> Result<Q::Told, Fault> {
    let mut database = database_to_ask(rt, store, cache_pages)?;
    let told = question.ask(&mut database);
    told_and_closed(told, close_asked(rt.alloc(), database))
}

/// Opens a store to be read alone, and gives what its database tells.
pub(crate) fn told_by<R: Files<File = File> + AllocGlobal + RandomSource, Q: Question + Drop>(
    rt: &R,
    store: &str,
    cache_pages: u32,
    question: Q,
) -> Result<Q::Told, Fault> {
    let store = store_to_ask(rt, store)?;
    told_of(rt, store, cache_pages, question)
}

/// How a database's records are written, behind a label.
pub(crate) fn frame_of<'l, S: PageStore>(database: &Db<S>, label: &'l [u8]) -> Frame<'l> {
    match database.head() {
        Some(head) => Frame {
            base: head.base,
            dimension: head.dimension,
            label,
        },
        None => match Ms::new(0) {
            Some(base) => Frame {
                base,
                dimension: Dimension::Two,
                label,
            },
            None => unreachable!(),
        },
    }
}
