//! Why the program failed, beyond what the line of the fault says.
use crate::commands::bounds::is_word;
use crate::explain::misplaced_words::tell_instants;
use crate::explain::saying::{say_of, tell};
use arguments::{Corners, Moments, Task, Telling, Where};
use querylang::LineCode;
use reasons::{Code, Sentence, Shown, say_line};
use sessions::{Cause, Fault, Named};
use std::alloc::{AllocError, Global};
use std::fs::File;
use std::io::Eprint;
use std::{fs, rt};
use trajdb::OpenFault;

/// The store that the program is to work on. Where a store is brought over, it is the new one.
fn store_of<'a>(task: &Task<'a>) -> &'a str {
    match task {
        Task::Run(run) => run.store,
        Task::Check(check) => check.store,
        Task::Migrate(migrate) => migrate.new,
        Task::Part(part) => part.file,
        Task::Parts(parts) => parts.file,
        Task::Moments(moments) => moments.store,
        Task::Zones(zones) => zones.store,
        Task::Gaps(gaps) => gaps.store,
        Task::Info(info) => info.store,
    }
}

/// The data file of that place among those of the command line.
fn file_of<'a>(task: &Task<'a>, place: usize) -> &'a str {
    match task {
        Task::Run(run) => match run.files.get(place) {
            Some(name) => *name,
            None => "",
        },
        _ => store_of(task),
    }
}

/// The file of rectangles or zones.
fn areas_of<'a>(task: &Task<'a>) -> &'a str {
    match task {
        Task::Moments(
            Moments {
                place: Where::Rects(file),
                ..
            },
        ) => *file,
        Task::Zones(zones) => zones.zones,
        _ => "",
    }
}

/// What the command line names so.
pub(crate) fn name_of<'a>(task: &Task<'a>, named: Named) -> &'a str {
    match (named, task) {
        (Named::Store, _) => store_of(task),
        (Named::Script, Task::Run(run)) => run.script,
        (Named::File(place), _) => file_of(task, place),
        (Named::Areas, _) => areas_of(task),
        (Named::Folder, Task::Parts(parts)) => parts.folder,
        _ => "",
    }
}

/// When it is said why the program could not do what it is to do.
fn telling_of(task: &Task<'_>) -> Telling {
    match task {
        Task::Run(run) => run.telling,
        Task::Check(check) => check.telling,
        Task::Moments(moments) => moments.telling,
        Task::Zones(zones) => zones.telling,
        Task::Gaps(gaps) => gaps.telling,
        _ => Telling::OnTerminal,
    }
}

/// The store that failed: of one that is brought over the old one, where it cannot be read.
fn failed_store<'a, R: rt::Files<File = File>>(rt: &R, task: &Task<'a>) -> &'a str {
    match task {
        Task::Migrate(migrate) if File::open(rt, migrate.old).is_err() => migrate.old,
        _ => store_of(task),
    }
}

/// Why a store failed: it is a folder, or what was noted.
fn cause_of_store<R: rt::Files<File = File>>(rt: &R, store: &str, cause: Cause) -> Cause {
    match fs::metadata(rt, store) {
        Ok(about) if about.is_dir() => Cause::Folder,
        _ => cause,
    }
}

/// Whether there is no file of that name.
fn is_missing<R: rt::Files<File = File>>(rt: &R, name: &str) -> bool {
    fs::symlink_metadata(rt, name).is_err()
}

/// Why a store was not opened, beyond what the fault's line says.
fn opening_words(fault: &Fault) -> Option<&'static str> {
    match fault {
        Fault::NoSuchStore => Some(
            "there is no such file, or one without a byte; --existing makes none",
        ),
        Fault::Open(OpenFault::Malformed) => {
            Some("its pages are not those of a store; is it a file of another kind?")
        }
        Fault::Open(OpenFault::Version) => {
            Some("another version made it; mftb migrate OLD NEW brings a store of version 1 over")
        }
        Fault::Open(OpenFault::Unfinished) => {
            Some("what wrote it was cut short; load its files into a new store")
        }
        Fault::InUse => Some("another run holds it"),
        Fault::OtherLimits(..) => {
            Some("a store keeps the limits that it was made with; load its files into a new store")
        }
        _ => None,
    }
}

/// The corners of a rectangle that is no word of the command line.
const ORIGIN: Corners<'static> = Corners {
    x1: "0",
    y1: "0",
    x2: "0",
    y2: "0",
};

/// The line of a script that asks for the `box` of a rectangle and a period.
fn line_of(alloc: Global, corners: Corners<'_>, times: [&str; 2]) -> Result<String, AllocError> {
    let Corners { x1, y1, x2, y2 } = corners;
    let [t1, t2] = times;
    let mut line = Sentence::new(alloc);
    for word in ["box ", x1, " ", y1, " ", x2, " ", y2, " ", t1, " ", t2] {
        line.text(word);
    }
    line.end()
}

/// Says of a time of that name that it is no word.
fn say_blank(said: &mut Sentence, name: &str, text: &str) {
    said.text(name);
    said.value(" '{}' is no instant: it is empty, or has a blank", text);
}

/// Says which of these words is refused as the line of a script is.
fn say_refused(said: &mut Sentence, corners: Corners<'_>, times: [&str; 2], code: LineCode) {
    if let Some(code) = Code::read(code.as_str())
        && let Ok(line) = line_of(said.alloc(), corners, times)
    {
        say_line(said, line.as_bytes(), code);
    }
}

/// Says which of these words is refused, and why.
fn say_words(said: &mut Sentence, corners: Corners<'_>, times: [&str; 2], code: LineCode) {
    let [t1, t2] = times;
    if !is_word(t1) {
        say_blank(said, "T1", t1);
    } else if !is_word(t2) {
        say_blank(said, "T2", t2);
    } else {
        say_refused(said, corners, times, code);
    }
}

/// The corners that are words of the command line.
fn corners_of<'a>(place: Where<'a>) -> Corners<'a> {
    match place {
        Where::Rect(corners) => corners,
        Where::Rects(_) => ORIGIN,
    }
}

/// Says which word of a rectangle and a period is refused, and why.
fn say_bounds(said: &mut Sentence, task: &Task<'_>, code: LineCode) {
    match task {
        Task::Moments(task) => say_words(said, corners_of(task.place), task.times, code),
        Task::Zones(task) => say_words(said, ORIGIN, task.times, code),
        Task::Gaps(task) => say_words(said, ORIGIN, task.times, code),
        _ => {}
    }
}

/// Says which word of a rectangle and a period is refused, and why.
fn tell_bounds<R: Eprint + AllocGlobal>(rt: &R, task: &Task<'_>, code: LineCode) {
    // That there are too few words is said of the line of a script alone.
    if !matches!(code, LineCode::Q3) {
        let mut said = Sentence::new(rt.alloc());
        say_bounds(&mut said, task, code);
        tell(rt, said);
    }
    if let Task::Zones(task) = task {
        tell_instants(rt, task);
    }
}

/// Says why a store was not opened, beyond what the fault's line says.
fn tell_opening<R: Eprint>(rt: &R, store: &str, fault: &Fault) {
    if let Some(words) = opening_words(fault) {
        say_of(rt, store, words);
    }
}

/// Says why a fault is so, where that is known.
fn tell_cause<R: rt::Files<File = File> + Eprint + AllocGlobal>(
    rt: &R,
    task: &Task,
    store: &str,
    fault: &Fault,
) {
    match fault {
        Fault::CannotRead(named, cause) | Fault::CannotWrite(named, cause) => {
            say_of(rt, name_of(task, *named), cause.as_str());
        }
        Fault::Bounds(code) => tell_bounds(rt, task, *code),
        fault if fault.is_of_store() => {
            let cause = match fault {
                Fault::NoStore(cause) => *cause,
                _ => Cause::Other,
            };
            say_of(rt, store, cause_of_store(rt, store, cause).as_str());
        }
        fault => tell_opening(rt, store, fault),
    }
}

/// What is known before the program begins, to say more of a fault: whether that is to be said, and
/// whether a store that is checked is absent.
#[derive(Clone, Copy)]
pub(crate) struct Before {
    is_told: bool,
    is_absent: bool,
}

impl Before {
    /// What is known of what the program is to do.
    pub(crate) fn new<R: rt::Files<File = File>>(rt: &R, task: &Task, is_terminal: bool) -> Before {
        Before {
            is_told: telling_of(task).is_told(is_terminal),
            is_absent: matches!(task, Task::Check(_)) && is_missing(rt, store_of(task)),
        }
    }

    /// Says, below the line of a fault, why it is so, and that a check made the file that it was to
    /// check.
    pub(crate) fn tell<R: rt::Files<File = File> + Eprint + AllocGlobal>(
        self,
        rt: &R,
        task: &Task,
        fault: &Fault,
    ) {
        if !self.is_told {
            return;
        }
        let store = failed_store(rt, task);
        if self.is_absent && !is_missing(rt, store) {
            let name = Shown(store);
            let _ = eprintln!(rt; "mftb: there was no file {name}: an empty one was made");
        } else {
            tell_cause(rt, task, store, fault);
        }
    }
}
