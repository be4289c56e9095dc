//! `mftb migrate`: a store of version 1 is brought over into a new one.
use crate::commands::asking::keys_of;
use crate::system::file::{LastCause, caused};
use crate::system::opening::{AskedStore, is_absent, open_asked, open_in_place};
use crate::system::store_names::Names;
use arguments::Migrate;
use outputs::Output;
use pages::{FileStore, PageStore};
use sessions::{Fault, migrate_and_close, send_all};
use std::alloc::Global;
use std::cell::Cell;
use std::fs::File;
use std::hash::RandomState;
use std::random::RandomSource;
use std::rt::Files;
use trajdb::{OpenFault, RunFault};

/// Why a file is not taken for a new store: it has bytes, or is not opened.
fn not_new<R: Files<File = File> + AllocGlobal>(rt: &R, name: &str) -> Fault {
    match FileStore::open(rt, name) {
        Ok(_) => Fault::NotEmpty,
        Err(_) => Fault::Run(RunFault::Store),
    }
}

/// Brings a store of version 1 over into a new one.
fn bring<S: PageStore + Drop, T: PageStore + Drop>(
    alloc: Global,
    keys: RandomState,
    mut old: S,
    new: T,
) -> Result<(), Fault> {
    if new.len() != 0 {
        return Err(Fault::NotEmpty);
    }
    let (_store, brought) = migrate_and_close(alloc, keys, &mut old, new);
    brought
}

/// Brings a store of version 1 over into the new file of these names.
fn bring_into<R: Files<File = File> + AllocGlobal, S: PageStore + Drop>(
    rt: &R,
    keys: RandomState,
    old: S,
    names: &Names,
    cause: &LastCause,
) -> Result<(), Fault> {
    let new = open_in_place(rt, names, cause)?;
    bring(rt.alloc(), keys, old, new)
}

/// Brings a store of version 1 over into the new file of these names. A fault of the store says why a call on that file
/// failed.
fn bring_and_say<R: Files<File = File> + AllocGlobal, S: PageStore + Drop>(
    rt: &R,
    keys: RandomState,
    old: S,
    names: &Names,
) -> Result<(), Fault> {
    let cause = Cell::new(None);
    match bring_into(rt, keys, old, names, &cause) {
        Ok(()) => Ok(()),
        Err(fault) => Err(caused(&cause, fault)),
    }
}

/// Brings a store of version 1 over into the new file of that name.
fn bring_over<R: Files<File = File> + AllocGlobal, S: PageStore + Drop>(
    rt: &R,
    keys: RandomState,
    old: S,
    new: &str,
) -> Result<(), Fault> {
    let names = Names::new(rt, new)?;
    bring_and_say(rt, keys, old, &names)
}

/// Opens a store to be read alone.
fn store_to_read<R: Files<File = File> + AllocGlobal>(
    rt: &R,
    name: &str,
) -> Result<AskedStore, Fault> {
    let names = Names::new(rt, name)?;
    open_asked(rt, &names)
}

/// Brings the store of one name over into the file of the other.
fn bring_named<R: Files<File = File> + AllocGlobal + RandomSource>(
    rt: &R,
    migrate: &Migrate<'_>,
) -> Result<(), Fault> {
    let keys = keys_of(rt)?;
    let old = store_to_read(rt, migrate.old)?;
    bring_over(rt, keys, old, migrate.new)
}

/// Brings a store of version 1, which is opened to be read alone, over into a new file. Where the old
/// one is absent or has no bytes, no file is made.
pub(crate) fn migrate<R: Files<File = File> + AllocGlobal + RandomSource, O: Output>(
    rt: &R,
    migrate: &Migrate<'_>,
    out: &mut O,
) -> Result<(), Fault> {
    if !is_absent(rt, migrate.new) {
        return Err(not_new(rt, migrate.new));
    }
    if is_absent(rt, migrate.old) {
        return Err(Fault::Open(OpenFault::Malformed));
    }
    bring_named(rt, migrate)?;
    send_all(out, "ok 0\n".as_bytes())
}
