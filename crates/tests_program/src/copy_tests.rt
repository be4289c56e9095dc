//! A run on a copy in a folder in memory, of which each call fails in turn, or whose output does.
use crate::memory_folder::{Calls, MemFolder};
use legs::Limits;
use outputs::CountedOutput;
use sessions::{Ended, Fault, Opening, run_on_copy};
use std::alloc::Global;
use std::hash::RandomState;
use std::test::Fail;
use trajdb::{Files, RunFault};

/// A file of two features, and one of a third.
const FIRST: &str = "\
@stboundedby,metres,2D,,,2024-01-01T00:00:00Z,,sec
@columns,mfidref,trajectory
a,0,1,0 0 1 1
b,0,2,0 0 2 2
";

const SECOND: &str = "\
@stboundedby,metres,2D,,,2024-01-01T00:00:00Z,,sec
@columns,mfidref,trajectory
c,0,3,0 0 3 3
";

/// More than any answer here has.
const ROOM: usize = 100;

/// The files.
fn files(alloc: Global) -> Result<Files, Fail> {
    let mut files = Files::new(alloc);
    files.add("first", Vec::from_slice(alloc, FIRST.as_bytes())?)?;
    files.add("second", Vec::from_slice(alloc, SECOND.as_bytes())?)?;
    Ok(files)
}

/// How a run of a script over the folder ends, with one page in memory and an output that takes so many bytes, and what
/// that took.
fn ends(
    rt: &HostRuntime,
    folder: &mut MemFolder,
    script: &str,
    room: usize,
) -> Result<(Ended, [u8; ROOM]), Fail> {
    let how = Opening {
        alloc: rt.alloc(),
        keys: RandomState::new(rt)?,
        is_new: folder.file().is_none(),
        limits: Limits::new(100, 10).unwrap(),
        cache_pages: 1,
    };
    let files = files(rt.alloc())?;
    let mut taken = [0u8; ROOM];
    let mut left = &mut taken[..room.min(ROOM)];
    let mut output = CountedOutput::new(&mut left);
    let ended = run_on_copy(folder, &how, script.as_bytes(), &files, &mut output);
    Ok((ended, taken))
}

/// Whether a script is run over the folder, and what it did is kept.
fn runs(rt: &HostRuntime, folder: &mut MemFolder, script: &str) -> Result<bool, Fail> {
    let (ended, _) = ends(rt, folder, script, ROOM)?;
    Ok(ended.ran.is_ok() && ended.kept.is_ok())
}

/// The loads of a store, one after another.
const LOADS: [&str; 2] = ["load first\n", "load second\n"];

/// A folder in which so many of the loads were answered.
fn loaded(rt: &HostRuntime, loads: usize) -> Result<MemFolder, Fail> {
    let mut folder = MemFolder::new(rt.alloc(), Calls::new(u64::MAX));
    for script in LOADS.iter().take(loads) {
        if !runs(rt, &mut folder, script)? {
            return Err("a load is refused".into());
        }
    }
    Ok(folder)
}

/// Whether a name stands for what it stood for in the other folder, and was given as often; no copy is
/// left.
fn is_as(folder: &MemFolder, other: &MemFolder) -> bool {
    folder.file() == other.file() && folder.given() == other.given() && !folder.has_copy()
}

/// Whether the next load, of which so many calls pass, is answered. The name stands for the whole new
/// file then, and is settled, and stands for what it stood for elsewhere.
fn loads(rt: &HostRuntime, before: usize, calls: u64) -> Result<bool, Fail> {
    let mut folder = loaded(rt, before)?;
    folder.set_calls(Calls::new(calls));
    let script = LOADS.get(before).unwrap_or(&"");
    if !runs(rt, &mut folder, script)? {
        return match is_as(&folder, &loaded(rt, before)?) {
            true => Ok(false),
            false => Err("a refused load is seen".into()),
        };
    }
    match is_as(&folder, &loaded(rt, before.saturating_add(1))?) && folder.is_settled() {
        true => Ok(true),
        false => Err("a load is not seen".into()),
    }
}

/// How many calls a load makes: with fewer it is refused.
fn calls_of(rt: &HostRuntime, before: usize) -> Result<u64, Fail> {
    for calls in 0..1000 {
        if loads(rt, before, calls)? {
            return Ok(calls);
        }
    }
    Err("a load is always refused".into())
}

#[test]
fn each_call_of_a_load_fails_in_turn(rt: HostRuntime) -> Result<(), Fail> {
    // The copy, what is written and read, what is made last, and the name.
    assert!(rt; calls_of(&rt, 0)? > 5);
    assert!(rt; calls_of(&rt, 1)? > 5);
    Ok(())
}

/// A script whose answers have 11, 9 and 11 bytes.
const SCRIPT: &str = "load first\ncount\nload second\n";

/// Bytes for which an output has room, and what the store counts then: a load is done before it is answered.
const ROOMS: [(usize, &str); 6] = [
    (0, "ok 1\n2,2\n"),
    (10, "ok 1\n2,2\n"),
    (11, "ok 1\n2,2\n"),
    (20, "ok 1\n3,3\n"),
    (30, "ok 1\n3,3\n"),
    (31, "ok 1\n3,3\n"),
];

/// Whether a run stops for its output where that has no room for all answers, and what it did is kept.
fn stops(rt: &HostRuntime, folder: &mut MemFolder, room: usize) -> Result<bool, Fail> {
    let (ended, _) = ends(rt, folder, SCRIPT, room)?;
    let is_said = match ended.ran {
        Ok(()) => room == 31,
        Err(fault) => room < 31 && fault == Fault::Run(RunFault::Output),
    };
    Ok(is_said && ended.kept.is_ok() && folder.given() == 1 && !folder.has_copy())
}

/// Whether the store of a folder counts so.
fn counts(rt: &HostRuntime, folder: &mut MemFolder, text: &str) -> Result<bool, Fail> {
    let (ended, taken) = ends(rt, folder, "count\n", ROOM)?;
    let front = &taken[..9];
    Ok(ended.ran.is_ok() && front == text.as_bytes())
}

#[test]
fn what_was_done_is_kept_where_the_output_fails(rt: HostRuntime) -> Result<(), Fail> {
    for (room, text) in &ROOMS {
        let mut folder = MemFolder::new(rt.alloc(), Calls::new(u64::MAX));
        assert!(rt; stops(&rt, &mut folder, *room)?);
        assert!(rt; counts(&rt, &mut folder, text)?);
    }
    Ok(())
}
