//! `mftb check`: whether the pages of a file hold one database.
use crate::commands::asking::{database_to_ask, open_swept};
use crate::system::opening::AskedStore;
use crate::system::store_names::Names;
use arguments::Check;
use outputs::Output;
use pages::PageStore;
use sessions::{Fault, check_and_close, send_all};
use std::alloc::{AllocError, Global};
use std::fs::File;
use std::random::RandomSource;
use std::rt::Files;
use trajdb::Report;

/// What is said of a database that passed.
fn text_of(alloc: Global, report: &Report) -> Result<String, AllocError> {
    let Report {
        pages,
        legs,
        features,
    } = *report;
    format!(in alloc; "ok 1\n{pages},{legs},{features}\n")
}

/// Opens the store to be read alone. A file that is absent is made, without a byte.
fn store_to_check<R: Files<File = File> + AllocGlobal>(
    rt: &R,
    store: &str,
) -> Result<AskedStore, Fault> {
    let names = Names::new(rt, store)?;
    open_swept(rt, &names)
}

/// Checks the database of a store: how much it holds.
fn check_store<R: AllocGlobal + RandomSource, S: PageStore + Drop>(
    rt: &R,
    store: S,
    cache_pages: u32,
) -> Result<Report, Fault> {
    let database = database_to_ask(rt, store, cache_pages)?;
    let (_store, checked) = check_and_close(rt.alloc(), database);
    match checked {
        Ok(report) => Ok(report),
        Err(fault) => Err(Fault::Run(fault)),
    }
}

/// Checks the database of the store of that name: how much it holds.
fn report_of<R: Files<File = File> + AllocGlobal + RandomSource>(
    rt: &R,
    check: &Check<'_>,
) -> Result<Report, Fault> {
    let store = store_to_check(rt, check.store)?;
    check_store(rt, store, check.cache_pages)
}

/// Checks the database of the store of that name, and prints how much it holds.
pub(crate) fn check<R: Files<File = File> + AllocGlobal + RandomSource, O: Output>(
    rt: &R,
    check: &Check<'_>,
    out: &mut O,
) -> Result<(), Fault> {
    let report = report_of(rt, check)?;
    let text = text_of(rt.alloc(), &report)?;
    send_all(out, text.as_bytes())
}
