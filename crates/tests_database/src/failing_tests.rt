//! Stores and outputs that fail, and want of memory.
use crate::lasting_tests::check;
use crate::run_tests::{database, listed, ran, ran_listed};
use crate::worked_files::STANDARD;
use legs::{Limits, ListIndex};
use outputs::CountedOutput;
use pages::{Fuse, MemStore, PageStore};
use std::alloc::Global;
use std::hash::RandomState;
use std::io;
use std::io::{ErrorKind, Write};
use std::test::Fail;
use trajdb::{Core, Db, Files, RunFault};

/// A line that loads the example, and what it answers.
const LOAD: (&str, &str) = ("# first\nload S1.csv\n", "ok 1\n4,5,3\n");

/// One that counts it.
const COUNT: (&str, &str) = ("count\n", "ok 1\n5,3\n");

/// One that asks for the legs in a box.
const BOX: (&str, &str) = (
    "box 11.5 2.5 13 4 2012-01-17T12:33:41Z 2012-01-17T12:37:00Z\n",
    "ok 2\na,10,150,11 2 12 3,walking,1\na,150,190,12 3 10 3,walking,2\n",
);

/// The lines of the program's example.
const EXAMPLE: [(&str, &str); 3] = [LOAD, COUNT, BOX];

/// These lines and more.
const LINES: [(&str, &str); 9] = [
    LOAD,
    COUNT,
    BOX,
    (
        "legs ever 11.5 2.5 13 4 2012-01-17T12:33:41Z 2012-01-17T12:37:00Z\n",
        "ok 2\na,10,150,11 2 12 3,walking,1\na,150,190,12 3 10 3,walking,2\n",
    ),
    (
        "features crosses 11.5 2.5 13 4 2012-01-17T12:33:41Z 2012-01-17T12:37:00Z\n",
        "ok 1\na\n",
    ),
    (
        "legs enters 11.5 2.5 13 4 2012-01-17T12:33:41Z 2012-01-17T12:37:00Z\n",
        "ok 1\na,10,150,11 2 12 3,walking,1\n",
    ),
    (
        "legs leaves 11.5 2.5 13 4 2012-01-17T12:33:41Z 2012-01-17T12:37:00Z\n",
        "ok 1\na,150,190,12 3 10 3,walking,2\n",
    ),
    (
        "legs crosses 11.5 2.5 13 4 2012-01-17T12:33:41Z 2012-01-17T12:37:00Z\n",
        "ok 0\n",
    ),
    (
        "write\n",
        concat!(
            "ok 7\n@stboundedby,urn:x-ogc:def:crs:EPSG:6.6:4326,2D,10 1,12 3,",
            "2012-01-17T12:33:41.000Z,2012-01-17T12:36:51.000Z,sec\n",
            "@columns,mfidref,trajectory,state,xsd:token,type code,xsd:integer\n",
            "a,10,150,11 2 12 3,walking,1\n",
            "b,10,190,10 2 11 3,walking,2\n",
            "a,150,190,12 3 10 3,walking,2\n",
            "c,10,100,12 1 10 2,vehicle,1\n",
            "c,100,190,10 2 11 3,vehicle,1\n"
        ),
    ),
];

/// A file of that name.
fn named(alloc: Global, name: &str, bytes: &[u8]) -> Result<Files, RunFault> {
    let mut files = Files::new(alloc);
    files.add(name, Vec::from_slice(alloc, bytes)?)?;
    Ok(files)
}

/// A script of some lines.
fn script_of(alloc: Global, lines: &[(&str, &str)]) -> Result<Vec<u8>, RunFault> {
    let mut script = Vec::new(alloc);
    for (line, _) in lines {
        script.extend_from_slice(line.as_bytes())?;
    }
    Ok(script)
}

/// What the lines answer.
fn text_of(alloc: Global, lines: &[(&str, &str)]) -> Result<Vec<u8>, RunFault> {
    let mut text = Vec::new(alloc);
    for (_, answer) in lines {
        text.extend_from_slice(answer.as_bytes())?;
    }
    Ok(text)
}

/// Of how many of the lines these bytes are the answers, where they are whole answers.
fn answered(out: &[u8]) -> Option<usize> {
    let mut rest = out;
    for (number, (_, answer)) in LINES.iter().enumerate() {
        if rest.is_empty() {
            return Some(number);
        }
        rest = rest.strip_prefix(answer.as_bytes())?;
    }
    if rest.is_empty() {
        Some(LINES.len())
    } else {
        None
    }
}

/// What is asked when so many of the lines are answered: the next one, but for the load.
fn line_behind(done: usize) -> &'static str {
    match LINES.get(done) {
        Some((line, _)) if done > 0 => line,
        _ => "count\n",
    }
}

/// How the script went.
#[derive(Clone, Copy, PartialEq, Eq)]
enum Outcome {
    /// It answered all.
    Whole,
    /// It stopped behind whole answers, and what followed is as it should be.
    Stopped,
    /// Neither.
    Wrong,
}

/// How a run went: how many lines were answered, where those are whole answers, what it sent, and the same of the line
/// behind, which may not be answered where the fault may last.
fn judged(
    done: Option<usize>,
    ran: Result<(), RunFault>,
    (behind, then): (&[u8], Result<(), RunFault>),
    may_last: bool,
) -> Outcome {
    let Some(done) = done else {
        return Outcome::Wrong;
    };
    let is_right = match (ran, then) {
        (Ok(()), _) => done == LINES.len(),
        // The load failed, and the database with it.
        (Err(RunFault::Store | RunFault::Memory), Err(RunFault::Failed)) => done == 0,
        // No memory to read the line of the load: nothing is there.
        (Err(RunFault::Memory), Ok(())) if done == 0 => behind == "ok 1\n0,0\n".as_bytes(),
        (Err(RunFault::Store | RunFault::Memory), Ok(())) => done > 0 && is_answer(done, behind),
        (Err(RunFault::Store), Err(RunFault::Store)) => {
            may_last && done > 0 && behind.is_empty()
        }
        _ => false,
    };
    match is_right {
        true if done == LINES.len() => Outcome::Whole,
        true => Outcome::Stopped,
        false => Outcome::Wrong,
    }
}

/// Whether that is the answer to the line of a number.
fn is_answer(number: usize, text: &[u8]) -> bool {
    match LINES.get(number) {
        Some((_, answer)) => text == answer.as_bytes(),
        None => false,
    }
}

/// Whether a check of a database with the example or without it answers as it may.
fn may_answer<S: PageStore>(db: &mut Db<S>) -> bool {
    match check(db) {
        Ok(report) => report.legs == 5 || report.legs == 0,
        Err(RunFault::Memory | RunFault::Store | RunFault::Failed) => true,
        Err(_) => false,
    }
}

/// How a script of all lines goes over a database.
fn went<S: PageStore>(
    alloc: Global,
    db: &mut Db<S>,
    (script, files): (&[u8], &Files),
    may_last: bool,
) -> Outcome {
    let (out, first) = ran(alloc, db, script, files);
    let done = answered(out.as_slice());
    let line = line_behind(done.unwrap_or(0));
    let (behind, then) = ran(alloc, db, line.as_bytes(), files);
    judged(done, first, (behind.as_slice(), then), may_last)
}

/// How it goes, and a check behind it.
fn went_and_checked<S: PageStore>(
    alloc: Global,
    db: &mut Db<S>,
    may_last: bool,
) -> Result<Outcome, RunFault> {
    let script = script_of(alloc, &LINES)?;
    let files = named(alloc, "S1.csv", STANDARD.as_bytes())?;
    let outcome = went(alloc, db, (script.as_slice(), &files), may_last);
    match may_answer(db) {
        true => Ok(outcome),
        false => Ok(Outcome::Wrong),
    }
}

/// How the script goes over a store, with one page in memory, and a check behind it.
fn paged<S: PageStore + Drop>(
    alloc: Global,
    keys: RandomState,
    store: S,
    may_last: bool,
) -> Result<Outcome, RunFault> {
    match database(alloc, keys, store, (50, 72, 1)) {
        Ok(mut db) => went_and_checked(alloc, &mut db, may_last),
        Err(fault) => Err(fault),
    }
}

/// How a script of all lines goes over a list.
fn went_listed(
    alloc: Global,
    core: &mut Core<ListIndex>,
    (script, files): (&[u8], &Files),
) -> Outcome {
    let (out, first) = ran_listed(alloc, core, script, files);
    let done = answered(out.as_slice());
    let line = line_behind(done.unwrap_or(0));
    let (behind, then) = ran_listed(alloc, core, line.as_bytes(), files);
    judged(done, first, (behind.as_slice(), then), false)
}

/// The same of a new list.
fn over_new_list(
    alloc: Global,
    keys: RandomState,
    asked: (&[u8], &Files),
) -> Result<Outcome, RunFault> {
    let limits = Limits::new(1000, 1000).ok_or(RunFault::Failed)?;
    match listed(alloc, keys, limits) {
        Ok(mut core) => Ok(went_listed(alloc, &mut core, asked)),
        Err(fault) => Err(fault),
    }
}

/// How the script goes over a list.
fn over_list(alloc: Global, keys: RandomState) -> Result<Outcome, RunFault> {
    let script = script_of(alloc, &LINES)?;
    let files = named(alloc, "S1.csv", STANDARD.as_bytes())?;
    over_new_list(alloc, keys, (script.as_slice(), &files))
}

/// How the script goes over a store that fails when so many calls have passed, once or for good.
fn fused(alloc: Global, keys: RandomState, calls: u64, once: bool) -> Outcome {
    let store = Fuse::new(MemStore::new(alloc, 100), calls, once);
    match paged(alloc, keys, store, !once) {
        Ok(outcome) => outcome,
        // No database was made.
        Err(RunFault::Store) => Outcome::Stopped,
        Err(_) => Outcome::Wrong,
    }
}

/// How often of 50 the script is answered over a store that fails when so many calls have passed; `None` where it neither
/// stops nor is answered, or stops behind a call with which it was answered.
fn answered_of(alloc: Global, keys: RandomState, once: bool) -> Option<u32> {
    let mut whole = 0u32;
    for calls in 0..50 {
        match fused(alloc, keys, calls, once) {
            Outcome::Whole => whole = whole.wrapping_add(1),
            Outcome::Stopped if whole == 0 => {}
            _ => return None,
        }
    }
    Some(whole)
}

#[test]
fn a_store_that_fails_at_each_call(rt: HostRuntime) -> Result<(), Fail> {
    let keys = RandomState::new(&rt)?;
    for once in [true, false] {
        let whole = answered_of(rt.alloc(), keys, once).unwrap_or(0);
        // A load and the questions make more than ten calls, and not so many.
        assert!(rt; 0 < whole && whole < 40);
    }
    Ok(())
}

/// Whether that is no wrong outcome: want of memory is none.
fn is_none_wrong(outcome: Result<Outcome, RunFault>) -> bool {
    match outcome {
        Ok(outcome) => outcome != Outcome::Wrong,
        Err(fault) => fault == RunFault::Memory || fault == RunFault::Store,
    }
}

/// Passes wherever memory runs out, too; it is run with each allocation refused in turn.
#[test]
fn no_wrong_answer_without_memory(rt: HostRuntime) -> Result<(), Fail> {
    let alloc = rt.alloc();
    let keys = match RandomState::new(&rt) {
        Ok(keys) => keys,
        Err(_) => RandomState::new(&rt)?,
    };
    let over_pages = paged(alloc, keys, MemStore::new(alloc, 100), false);
    assert!(rt; is_none_wrong(over_list(alloc, keys)) && is_none_wrong(over_pages));
    Ok(())
}

/// An output that takes so many bytes at a call, and so many in all, and fails then.
#[derive(Drop)]
struct Narrow {
    taken: Vec<u8>,
    step: usize,
    room: usize,
    /// Whether it may be flushed.
    flushes: bool,
}

impl Write for Narrow {
    fn write(&mut self, bytes: &[u8]) -> io::Result<usize> {
        let count = bytes.len().min(self.step).min(self.room);
        if count == 0 {
            return Err(io::Error::from(ErrorKind::StorageFull));
        }
        self.taken.extend_from_slice(&bytes[..count])?;
        self.room = self.room.saturating_sub(count);
        Ok(count)
    }

    fn flush(&mut self) -> io::Result<()> {
        if self.flushes {
            return Ok(());
        }
        Err(io::Error::from(ErrorKind::StorageFull))
    }
}

/// What a script answers over an output that takes so many bytes at a call and in all, and may be flushed, and what that
/// took.
fn sent(
    alloc: Global,
    db: &mut Db<MemStore>,
    (script, files): (&[u8], &Files),
    (step, room, flushes): (usize, usize, bool),
) -> (Result<(), RunFault>, Vec<u8>) {
    let mut out = Narrow {
        taken: Vec::new(alloc),
        step,
        room,
        flushes,
    };
    let ran = db.run(alloc, script, files, &mut CountedOutput::new(&mut out));
    (ran, out.taken)
}

/// The front of a text that has room there.
fn front(text: &[u8], room: usize) -> &[u8] {
    if room < text.len() {
        return &text[..room];
    }
    text
}

/// Whether such an output has as much of the text as it has room for, and is said to have failed where that is not all or
/// it may not be flushed.
fn is_sent(
    alloc: Global,
    db: &mut Db<MemStore>,
    asked: (&[u8], &Files),
    (step, room, flushes): (usize, usize, bool),
    text: &[u8],
) -> bool {
    let (ran, taken) = sent(alloc, db, asked, (step, room, flushes));
    let is_whole = flushes && room >= text.len();
    taken.as_slice() == front(text, room)
        && (ran == Ok(())) == is_whole
        && (is_whole || ran == Err(RunFault::Output))
}

/// Whether a database counts the example.
fn counts(alloc: Global, db: &mut Db<MemStore>, files: &Files) -> bool {
    let (text, answer) = ran(alloc, db, b"count", files);
    answer == Ok(()) && text.as_slice() == "ok 1\n5,3\n".as_bytes()
}

/// Whether the program's example goes so over such an output, and the database counts the example then.
fn is_sent_and_counted(
    alloc: Global,
    db: &mut Db<MemStore>,
    how: (usize, usize, bool),
    text: &[u8],
) -> Result<bool, RunFault> {
    let script = script_of(alloc, &EXAMPLE)?;
    let files = named(alloc, "S1.csv", STANDARD.as_bytes())?;
    let is_sent = is_sent(alloc, db, (script.as_slice(), &files), how, text);
    Ok(is_sent && counts(alloc, db, &files))
}

/// The same of a new database.
fn has_front(
    alloc: Global,
    keys: RandomState,
    how: (usize, usize, bool),
    text: &[u8],
) -> Result<bool, RunFault> {
    match database(alloc, keys, MemStore::new(alloc, 100), (50, 72, 256)) {
        Ok(mut db) => is_sent_and_counted(alloc, &mut db, how, text),
        Err(fault) => Err(fault),
    }
}

/// The first length of which an output that takes so many bytes at a call has no front of the text, if any.
fn wrong_front(alloc: Global, keys: RandomState, step: usize) -> Result<Option<usize>, RunFault> {
    let text = text_of(alloc, &EXAMPLE)?;
    for room in 0..=text.len() {
        if !has_front(alloc, keys, (step, room, true), text.as_slice())? {
            return Ok(Some(room));
        }
    }
    if has_front(alloc, keys, (step, text.len(), false), text.as_slice())? {
        Ok(None)
    } else {
        Ok(Some(text.len()))
    }
}

#[test]
fn an_output_that_fails_has_a_prefix(rt: HostRuntime) -> Result<(), Fail> {
    let keys = RandomState::new(&rt)?;
    for step in [1, 1000] {
        let wrong = wrong_front(rt.alloc(), keys, step);
        assert!(rt; wrong == Ok(None), "by {step}: {wrong:?}");
    }
    Ok(())
}
