//! The program, over any runtime and writers.
use crate::commands::check::check;
use crate::commands::gaps::print_gaps;
use crate::commands::info::print_info;
use crate::commands::migrate::migrate;
use crate::commands::moments_command::print_moments;
use crate::commands::part::print_part;
use crate::commands::parts_command::write_parts;
use crate::commands::run::run;
use crate::commands::zones_command::print_zones;
use crate::explain::faults::{Before, name_of};
use crate::outcome::Outcome;
use arguments::{Task, read_words};
use clap::Error;
use clap::error::ErrorKind;
use outputs::{CountedOutput, Output};
use reasons::is_command;
use sessions::Fault;
use std::fs::File;
use std::io::{Eprint, Write};
use std::random::RandomSource;
use std::rt;

/// How the program ended that has nothing to say of what it did.
fn done(ended: Result<(), Fault>) -> Result<Outcome, Fault> {
    match ended {
        Ok(()) => Ok(Outcome::Done),
        Err(fault) => Err(fault),
    }
}

/// Does what the program is asked to do.
fn perform<R: rt::Files<File = File> + rt::Clock + Eprint + AllocGlobal + RandomSource, O: Output>(
    rt: &R,
    task: &Task<'_>,
    out: &mut O,
    is_terminal: bool,
) -> Result<Outcome, Fault> {
    let ended = match task {
        Task::Run(task) => return run(rt, task, out, is_terminal),
        Task::Check(task) => check(rt, task, out),
        Task::Migrate(task) => migrate(rt, task, out),
        Task::Part(task) => print_part(rt, task, out),
        Task::Parts(task) => write_parts(rt, task),
        Task::Moments(task) => print_moments(rt, task, out, is_terminal),
        Task::Zones(task) => return print_zones(rt, task, out, is_terminal),
        Task::Gaps(task) => print_gaps(rt, task, out),
        Task::Info(task) => print_info(rt, task, out),
    };
    done(ended)
}

/// Says of the first word, where it is that of a line of a script, how a script is run.
fn tell_script<V: Write>(words: &[String], faults: &mut V) {
    let Some(word) = words.get(1) else {
        return;
    };
    let word = word.as_str();
    if is_command(word) {
        let how = "Write the lines into a file SCRIPT, and run:";
        let _ = writeln!(faults, "\n'{word}' begins a line of a script. {how}\n");
        let _ = writeln!(faults, "  mftb run STORE SCRIPT [FILES]...");
    }
}

/// Says why the words are not read, or gives the help that they ask for: the exit status.
fn answer_words<W: Write, V: Write>(
    error: &Error,
    words: &[String],
    out: &mut W,
    faults: &mut V,
) -> u8 {
    if error.kind() == ErrorKind::OutOfMemory {
        let _ = writeln!(faults, "mftb: memory");
        1
    } else if error.use_stderr() {
        let _ = write!(faults, "{error}");
        if error.kind() == ErrorKind::InvalidSubcommand {
            tell_script(words, faults);
        }
        2
    } else {
        let _ = write!(out, "{error}");
        0
    }
}

/// The exit status of a task that ended so: of one that failed 2 where its words are wrong, else 1.
fn status_of(ended: &Result<Outcome, Fault>) -> u8 {
    match ended {
        Ok(Outcome::Done) => 0,
        Ok(Outcome::Refused) => 3,
        Ok(Outcome::ZonesRefused) => 2,
        Err(Fault::NoPart(..) | Fault::OtherLimits(..) | Fault::Bounds(_) | Fault::Rects(..)) => 2,
        Err(_) => 1,
    }
}

/// The line of a fault, with the name of the file or folder that it is of.
fn tell_fault<V: Write>(task: &Task<'_>, fault: &Fault, faults: &mut V) {
    let _ = match fault.named() {
        Some(named) => {
            let name = name_of(task, named);
            writeln!(faults, "mftb: {fault} {name}")
        }
        None => writeln!(faults, "mftb: {fault}"),
    };
}

/// Performs a task, and says what went wrong: the exit status.
fn answer_task<
    R: rt::Files<File = File> + rt::Clock + Eprint + AllocGlobal + RandomSource,
    W: Write,
    V: Write,
>(rt: &R, task: &Task<'_>, out: &mut W, faults: &mut V, is_terminal: bool) -> u8 {
    let before = Before::new(rt, task, is_terminal);
    let ended = perform(rt, task, &mut CountedOutput::new(out), is_terminal);
    if let Err(fault) = &ended {
        tell_fault(task, fault, faults);
        before.tell(rt, task, fault);
    }
    status_of(&ended)
}

/// Runs the program, and answers its exit status: that of the task for which the words ask, and
/// else 0 where they ask for help or the version, 2 where they are wrong, and 1 where memory ran
/// out.
///
/// Of a task it is 0, or 3 where a line or a file was refused and `--strict` is among the words, or
/// 2 for bounds, a part or a zone file that are wrong, or 1 for any other fault.
///
/// `words` has the program's name first. Answers and help go to `out`, faults to `faults`.
/// What a long run is doing, and in words what went wrong, is said on standard error, which may be a
/// terminal.
pub fn start<
    R: rt::Files<File = File> + rt::Clock + Eprint + AllocGlobal + RandomSource,
    W: Write,
    V: Write,
>(rt: &R, words: &[String], out: &mut W, faults: &mut V, is_terminal: bool) -> u8 {
    match read_words(rt.alloc(), words) {
        Ok(task) => answer_task(rt, &task, out, faults, is_terminal),
        Err(error) => answer_words(&error, words, out, faults),
    }
}
