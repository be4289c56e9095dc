//! `mftb run`: a script over the database that a file keeps.
ghost use Rattle.std.specs.Prelude.{◌<◌, ◌≤◌, ◌^◌};

use crate::commands::asking::{cached_pages, keys_of, open_swept};
use crate::commands::run_files::read_files;
use crate::explain::notes::{Given, tell_made, tell_notes, tell_sources};
use crate::outcome::Outcome;
use crate::system::file::{LastCause, caused};
use crate::system::folder::SystemFolder;
use crate::system::leftovers::clear;
use crate::system::locks::{Held, give_back, hold_name};
use crate::system::opening::{is_absent, is_special, open_in_place};
use crate::system::store_names::Names;
use crate::system::stored::{Header, look_at};
use arguments::{Run, StoreMode, Telling, WriteMode};
use legs::Limits;
use monitor::{Followed, Noted, Notes, Progress, Told};
use outputs::Output;
use pages::PageStore;
use sessions::{
    Ended, Fault, MOST_BYTES, MOST_FEATURES, MOST_LEGS, Named, Opening, answer, database,
    read_named, run_on_copy,
};
use std::cell::Cell;
use std::fs::File;
use std::io::Eprint;
use std::random::RandomSource;
use std::rt;
use trajdb::{Files, RunFault, has_load};

/// What a run works on.
#[derive(Clone, Copy)]
struct Work<'w> {
    script: &'w [u8],
    files: &'w Files,
    names: &'w Names,
    cause: &'w LastCause,
    how: Opening,
    /// Whether the store has no legs.
    is_empty: bool,
    ghost cached: { 0 < how.cache_pages },
}

/// A run that was refused before it began.
fn refused(fault: Fault) -> Ended {
    Ended {
        ran: Err(fault),
        kept: Err(fault),
    }
}

/// Why a run failed: it was not brought to its end, or else what it did is not kept.
fn said(ended: Ended) -> Result<(), Fault> {
    match ended.ran {
        Ok(()) => ended.kept,
        Err(fault) => Err(fault),
    }
}

/// Why what a run did is not kept, where its own fault does not say so; of a database that failed it does.
fn unsaid(ended: Ended) -> Option<Fault> {
    match (ended.ran, ended.kept) {
        (Err(ran), Err(kept)) if kept != ran && kept != Fault::Run(RunFault::Failed) => Some(kept),
        _ => None,
    }
}

/// Runs the script over a store that was opened, as `sessions::answer` does; or is refused as that was.
fn run_over<S: PageStore + Drop, R: rt::Clock + Eprint, O: Output>(
    opened: Result<S, Fault>,
    work: &Work<'_>,
    progress: &Progress<'_, R>,
    out: &mut O,
) -> Ended {
    let store = match opened {
        Ok(store) => store,
        Err(fault) => return refused(fault),
    };
    let how = &work.how;
    let opened = database(how, Noted::new(store, progress));
    let (_store, ended) = answer(how.alloc, opened, work.script, work.files, out);
    ended
}

/// Runs a script that only asks over a store that is there. It is opened to be read alone.
fn ask<R: rt::Files<File = File> + rt::Clock + Eprint, O: Output>(
    rt: &R,
    work: &Work<'_>,
    progress: &Progress<'_, R>,
    out: &mut O,
) -> Ended {
    run_over(open_swept(rt, work.names), work, progress, out)
}

/// Runs a script that may write over the store as it lies there. Where the folder may not be written,
/// the lock of the store's file alone keeps others out.
fn run_in_place<R: rt::Files<File = File> + rt::Clock + Eprint, O: Output>(
    rt: &R,
    work: &Work<'_>,
    progress: &Progress<'_, R>,
    out: &mut O,
) -> Ended {
    match hold_name(rt, work.names.lock.as_str()) {
        Err(Fault::InUse) => refused(Fault::InUse),
        held => run_held(rt, work, progress, held.ok(), out),
    }
}

/// Runs a script over the store as it lies there, and gives the lock back that is held, if one is.
fn run_held<R: rt::Files<File = File> + rt::Clock + Eprint, O: Output>(
    rt: &R,
    work: &Work<'_>,
    progress: &Progress<'_, R>,
    lock: Option<Held>,
    out: &mut O,
) -> Ended {
    let names = work.names;
    let ended = run_over(open_in_place(rt, names, work.cause), work, progress, out);
    if let Some(lock) = lock {
        let _ = clear(rt, names, &lock);
        give_back(rt, names.lock.as_str());
    }
    ended
}

/// Runs a script that may write over a copy of the store.
fn run_beside<R: rt::Files<File = File> + rt::Clock + Eprint, O: Output>(
    rt: &R,
    work: &Work<'_>,
    progress: &Progress<'_, R>,
    out: &mut O,
) -> Ended {
    match SystemFolder::take(rt, work.names, work.cause, progress) {
        Ok(folder) => run_in(folder, work, out),
        Err(fault) => refused(fault),
    }
}

/// Runs a script over a copy that is made in the folder of the store, and gives the folder back.
fn run_in<R: rt::Files<File = File> + rt::Clock + Eprint, O: Output>(
    mut folder: SystemFolder<'_, '_, R>,
    work: &Work<'_>,
    out: &mut O,
) -> Ended {
    let ended = run_on_copy(&mut folder, &work.how, work.script, work.files, out);
    folder.give_back();
    ended
}

/// Runs the script over the store, in the way that it asks for.
fn run_as_asked<R: rt::Files<File = File> + rt::Clock + Eprint, O: Output>(
    rt: &R,
    mode: WriteMode,
    work: &Work<'_>,
    progress: &Progress<'_, R>,
    out: &mut O,
) -> Ended {
    let how = &work.how;
    let loads = match has_load(how.alloc, work.script) {
        Ok(loads) => loads,
        Err(fault) => return refused(Fault::Run(fault)),
    };
    if !how.is_new && !loads {
        ask(rt, work, progress, out)
    } else if matches!(mode, WriteMode::InPlace) || is_special(rt, work.names.store.as_str()) {
        run_in_place(rt, work, progress, out)
    } else {
        run_beside(rt, work, progress, out)
    }
}

/// A limit, from 1 to 2^31, as it is read from the words.
fn within(limit: u64) -> u64
    ensures least { 1 ≤ result }
    ensures most { result ≤ 2 ^ 31 }
{
    if limit < 1 {
        1
    } else if limit > 1 << 31 {
        1 << 31
    } else {
        limit
    }
}

/// How much a store may hold that a run makes.
fn limits(run: &Run<'_>) -> Limits {
    let legs = match run.most_legs {
        Some(most) => u64::from(most),
        None => MOST_LEGS,
    };
    let features = u64::from(run.most_features.unwrap_or(MOST_FEATURES));
    Limits::new(within(legs), within(features) as u32).unwrap()
}

/// Whether a limit is asked for that a store does not have.
fn is_other(asked: Option<u32>, limit: u64) -> bool {
    match asked {
        Some(most) => u64::from(most) != limit,
        None => false,
    }
}

/// Whether a run asks for limits that are not these.
fn asks_for_others(run: &Run<'_>, limits: Limits) -> bool {
    is_other(run.most_legs, limits.legs())
        || is_other(run.most_features, u64::from(limits.features()))
}

/// Refuses a store whose page 0 says so, where a run asks for other limits than it has.
fn hold_limits(run: &Run<'_>, header: Option<Header>) -> Result<(), Fault> {
    match header {
        Some(
            Header {
                limits: Some(limits),
                ..
            },
        ) if asks_for_others(run, limits) => {
            Err(Fault::OtherLimits(limits.legs(), limits.features()))
        }
        _ => Ok(()),
    }
}

/// Whether page 0 of a store says that there is no leg.
fn has_no_legs(header: Option<Header>) -> bool {
    match header {
        Some(header) => header.root == 0,
        None => false,
    }
}

/// What page 0 of a store says, where it is a plain file.
fn header_of<R: rt::Files<File = File>>(rt: &R, names: &Names) -> Option<Header> {
    match look_at(rt, names.store.as_str()) {
        Some(seen) => Some(seen.header),
        None => None,
    }
}

/// Refuses a store that is not there, where none is to be made.
fn hold_store(run: &Run<'_>, is_new: bool) -> Result<(), Fault> {
    match run.store_mode {
        StoreMode::Existing if is_new => Err(Fault::NoSuchStore),
        _ => Ok(()),
    }
}

/// Says why what a run did is not kept, where its own fault does not say so.
fn tell_unsaid<R: Eprint>(rt: &R, work: &Work<'_>, ended: Ended) {
    if let Some(fault) = unsaid(ended) {
        let fault = caused(work.cause, fault);
        let _ = eprintln!(rt; "mftb: {fault}");
    }
}

/// Says that a store was made without a load, and which files are of another form, where it is not said why lines and
/// files were refused.
fn tell_hints<R: Eprint + AllocGlobal>(
    rt: &R,
    run: &Run<'_>,
    work: &Work<'_>,
    is_made: bool,
    is_hinted: bool,
) {
    if matches!(run.telling, Telling::Never) {
        return;
    }
    if is_made {
        tell_made(rt, run.store);
    }
    if is_hinted {
        tell_sources(rt, &run.files, work.files);
    }
}

/// How a run ended, and what was seen of it.
#[derive(Drop)]
struct Ran {
    ended: Ended,
    notes: Notes,
    /// How many legs it loaded, and how many lines that load.
    legs: u64,
    loads: u64,
}

/// Runs the script over the store, and follows its answers.
fn follow<R: rt::Files<File = File> + rt::Clock + Eprint, O: Output>(
    rt: &R,
    run: &Run<'_>,
    work: &Work<'_>,
    out: &mut O,
    is_terminal: bool,
) -> Ran {
    let is_shown = is_terminal && !matches!(run.telling, Telling::Never);
    let progress = Progress::new(rt, Told::new(run.progress, is_shown), work.script);
    let is_told = run.telling.is_told(is_terminal);
    let notes = Notes::new(work.how.alloc, is_told, work.is_empty);
    let mut out = Followed::new(out, &progress, notes);
    let ended = run_as_asked(rt, run.write_mode, work, &progress, &mut out);
    progress.clear();
    let notes = out.into_notes();
    Ran {
        ended,
        notes,
        legs: progress.legs(),
        loads: progress.loads(),
    }
}

/// Says what is noted of a run.
fn tell_run<R: rt::Files<File = File> + Eprint + AllocGlobal + RandomSource>(
    rt: &R,
    run: &Run<'_>,
    work: &Work<'_>,
    ran: &Ran,
) {
    let legs = if ran.ended.kept.is_ok() { ran.legs } else { 0 };
    let given = Given {
        name: run.script,
        script: work.script,
        files: work.files,
        legs,
    };
    tell_notes(rt, run.store, &given, &ran.notes);
}

/// Runs the script over the store, and says what its answers do not say.
fn run_work<R: rt::Files<File = File> + rt::Clock + Eprint + AllocGlobal + RandomSource, O: Output>(
    rt: &R,
    run: &Run<'_>,
    work: &Work<'_>,
    out: &mut O,
    is_terminal: bool,
) -> Result<Outcome, Fault> {
    let ran = follow(rt, run, work, out, is_terminal);
    tell_unsaid(rt, work, ran.ended);
    let ended = said(ran.ended);
    let refused = ran.notes.refused();
    let is_made = ended.is_ok() && work.how.is_new && ran.loads == 0;
    let is_hinted = refused > 0 && !run.telling.is_told(is_terminal);
    tell_hints(rt, run, work, is_made, is_hinted);
    tell_run(rt, run, work, &ran);
    match ended {
        Ok(()) => Ok(Outcome::of_run(run.is_strict, refused)),
        Err(fault) => Err(caused(work.cause, fault)),
    }
}

/// Refuses a store that a run may not work on.
fn hold(run: &Run<'_>, is_new: bool, header: Option<Header>) -> Result<(), Fault> {
    match hold_store(run, is_new) {
        Ok(()) => hold_limits(run, header),
        Err(fault) => Err(fault),
    }
}

/// Opens the store of these names, and runs a script that was read.
fn run_script<
    R: rt::Files<File = File> + rt::Clock + Eprint + AllocGlobal + RandomSource,
    O: Output,
>(
    rt: &R,
    run: &Run<'_>,
    names: &Names,
    script: &[u8],
    files: &Files,
    out: &mut O,
    is_terminal: bool,
) -> Result<Outcome, Fault> {
    let is_new = is_absent(rt, names.store.as_str());
    let header = header_of(rt, names);
    hold(run, is_new, header)?;
    let how = Opening {
        alloc: rt.alloc(),
        keys: keys_of(rt)?,
        is_new,
        limits: limits(run),
        cache_pages: cached_pages(run.cache_pages),
    };
    let cause = Cell::new(None);
    let work = Work {
        script,
        files,
        names,
        cause: &cause,
        how,
        is_empty: is_new || has_no_legs(header),
    };
    run_work(rt, run, &work, out, is_terminal)
}

/// Reads all that is named, opens the store, and then runs the script.
pub(crate) fn run<
    R: rt::Files<File = File> + rt::Clock + Eprint + AllocGlobal + RandomSource,
    O: Output,
>(rt: &R, run: &Run<'_>, out: &mut O, is_terminal: bool) -> Result<Outcome, Fault> {
    let script = read_named(rt, Named::Script, run.script, MOST_BYTES)?;
    run_read(rt, run, &script, out, is_terminal)
}

/// Reads the files that a script may load, and then runs the script.
fn run_read<R: rt::Files<File = File> + rt::Clock + Eprint + AllocGlobal + RandomSource, O: Output>(
    rt: &R,
    run: &Run<'_>,
    script: &[u8],
    out: &mut O,
    is_terminal: bool,
) -> Result<Outcome, Fault> {
    let files = read_files(rt, &run.files)?;
    let names = Names::new(rt, run.store)?;
    run_script(rt, run, &names, script, &files, out, is_terminal)
}
