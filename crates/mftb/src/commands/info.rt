//! `mftb info`: what a store holds.
use crate::commands::asking::store_to_ask;
use crate::system::stored::{Seen, look};
use arguments::{Info, InfoForm};
use legs::Box3;
use outputs::Output;
use pagecache::PageCache;
use pages::PageStore;
use register::{Summary, summarize};
use reports::{StoreReport, push_json, push_lines};
use sessions::{CACHE_PAGES, Fault, send_all};
use std::alloc::Global;
use std::fs::File;
use std::rt::Files;
use trajdb::{OpenFault, RunFault};

/// What is known of a store.
#[derive(Drop)]
struct Known {
    summary: Summary,
    seen: Seen,
    /// The box over all legs.
    extent: Option<Box3>,
}

/// What a store says of its database without its rows.
fn summary_of<S: PageStore + Drop>(alloc: Global, store: S) -> Result<Summary, Fault> {
    let Ok(mut cache) = PageCache::new(alloc, store, CACHE_PAGES as usize) else {
        return Err(Fault::Open(OpenFault::Memory));
    };
    match summarize(alloc, &mut cache) {
        Ok(summary) => Ok(summary),
        Err(fault) => Err(Fault::Open(fault)),
    }
}

/// What a store says of its database without its rows, and what is seen of its pages. Why it says nothing of a database
/// comes first.
fn known_of<S: PageStore + Drop>(alloc: Global, mut store: S) -> Result<Known, Fault> {
    let seen = look(&mut store);
    with_seen(summary_of(alloc, store)?, seen)
}

/// What is known of a store by its summary and by what is seen of its pages.
fn with_seen(summary: Summary, seen: Result<Seen, Fault>) -> Result<Known, Fault> {
    let seen = seen?;
    Ok(Known {
        summary,
        seen,
        extent: seen.extent?,
    })
}

/// Appends a report in a form.
fn push(text: &mut Vec<u8>, said: &StoreReport<'_>, form: InfoForm) -> Result<(), RunFault> {
    match form {
        InfoForm::Json => push_json(text, said),
        InfoForm::Lines => push_lines(text, said),
    }
}

/// The text of what is known of a store.
fn text_of(alloc: Global, known: &Known, form: InfoForm) -> Result<Vec<u8>, RunFault> {
    let Known {
        summary,
        seen,
        extent,
    } = known;
    let said = StoreReport {
        version: seen.header.front.version,
        pages: seen.pages,
        head: summary.head.as_ref(),
        legs: summary.legs,
        features: summary.features,
        limits: summary.limits,
        extent: *extent,
    };
    let mut text = Vec::new(alloc);
    match push(&mut text, &said, form) {
        Ok(()) => Ok(text),
        Err(fault) => Err(fault),
    }
}

/// Opens the store of that name to be read alone: what is known of it.
fn known_by<R: Files<File = File> + AllocGlobal>(rt: &R, name: &str) -> Result<Known, Fault> {
    let store = store_to_ask(rt, name)?;
    known_of(rt.alloc(), store)
}

/// The text of what a store holds.
fn told_of<R: Files<File = File> + AllocGlobal>(rt: &R, task: &Info<'_>) -> Result<Vec<u8>, Fault> {
    let known = known_by(rt, task.store)?;
    Ok(text_of(rt.alloc(), &known, task.form)?)
}

/// Opens the store to be read alone, and prints what it holds.
pub(crate) fn print_info<R: Files<File = File> + AllocGlobal, O: Output>(
    rt: &R,
    task: &Info<'_>,
    out: &mut O,
) -> Result<(), Fault> {
    let text = told_of(rt, task)?;
    send_all(out, &text)
}
