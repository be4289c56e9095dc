//! The pages of a database: how many it asks for, a store that has no room, and pages that others change.
use crate::lasting_tests::{is_said, payload_of, put, said};
use crate::run_tests::database;
use pages::{FileStore, MemStore};
use std::alloc::Global;
use std::fs::File;
use std::hash::RandomState;
use std::test::Fail;
use std::{fs, rt};
use trajdb::{Db, RunFault};

/// Questions, and for how many pages each asks, at least and at most.
const QUESTIONS: [(&str, u64, u64); 5] = [
    (
        "box 11.5 2.5 13 4 2012-01-17T12:33:41Z 2012-01-17T12:37:00Z",
        5,
        5,
    ),
    ("trajectory c", 1, 1),
    ("count", 0, 0),
    (
        "features crosses 11.5 2.5 13 4 2012-01-17T12:33:41Z 2012-01-17T12:37:00Z",
        0,
        3,
    ),
    ("write", 0, 6),
];

/// For how many pages a line asks once the example is loaded.
fn asked_by(alloc: Global, db: &mut Db<MemStore>, line: &str) -> Result<u64, RunFault> {
    said(alloc, db, "load S1.csv").1?;
    let before = db.asked();
    said(alloc, db, line).1?;
    Ok(db.asked().wrapping_sub(before))
}

/// The same in leaves and inner pages of two, with so many pages in memory.
fn asked(
    alloc: Global,
    keys: RandomState,
    cache_pages: usize,
    line: &str,
) -> Result<u64, RunFault> {
    match database(alloc, keys, MemStore::new(alloc, 1000), (2, 2, cache_pages)) {
        Ok(mut db) => asked_by(alloc, &mut db, line),
        Err(fault) => Err(fault),
    }
}

/// The first question that asks for other numbers of pages, if any.
fn wrong_cost(alloc: Global, keys: RandomState) -> Result<Option<usize>, RunFault> {
    for (at, (line, least, most)) in QUESTIONS.iter().enumerate() {
        for cache_pages in [1, 256] {
            let pages = asked(alloc, keys, cache_pages, line)?;
            if pages < *least || pages > *most {
                return Ok(Some(at));
            }
        }
    }
    Ok(None)
}

#[test]
fn a_question_asks_for_so_many_pages(rt: HostRuntime) -> Result<(), Fail> {
    let keys = RandomState::new(&rt)?;
    assert!(rt; wrong_cost(rt.alloc(), keys) == Ok(None));
    Ok(())
}

/// How many bytes the load of the example sends, why it is refused, and why the database then does
/// not count, and does not run an empty script.
fn refusals(alloc: Global, db: &mut Db<MemStore>) -> (usize, [Option<RunFault>; 3]) {
    let (out, load) = said(alloc, db, "load S1.csv");
    let count = said(alloc, db, "count").1;
    let empty = said(alloc, db, "").1;
    (out.len(), [load.err(), count.err(), empty.err()])
}

/// The same over a store of three pages.
fn refused(alloc: Global, keys: RandomState) -> Result<(usize, [Option<RunFault>; 3]), RunFault> {
    let mut db = database(alloc, keys, MemStore::new(alloc, 3), (50, 72, 256))?;
    Ok(refusals(alloc, &mut db))
}

#[test]
fn a_store_without_room_fails_the_database(rt: HostRuntime) -> Result<(), Fail> {
    // Page 0, two leaves and the root above them are four pages.
    let keys = RandomState::new(&rt)?;
    let (load, failed) = (Some(RunFault::StoreFull), Some(RunFault::Failed));
    assert!(rt; refused(rt.alloc(), keys) == Ok((0, [load, failed, failed])));
    Ok(())
}

/// The file that two stores open.
const FILE: &str = "changed.mftb";

/// A store over that file, which is made anew.
fn file_store<R: rt::Files<File = File>>(rt: &R) -> Option<FileStore> {
    fs::write(rt, FILE, b"").ok()?;
    FileStore::open(rt, FILE).ok()
}

/// Lets the first leg of page 1 end at x = 13.
fn move_leg(store: &mut FileStore) -> Option<()> {
    let mut payload = payload_of(store, 1)?;
    payload.bytes[64..72].copy_from_slice(&[0, 0, 0, 0, 7, 0xbf, 0xa4, 0x80]);
    put(store, 1, &payload)
}

/// The same by another store over that file.
fn change<R: rt::Files<File = File>>(rt: &R) -> Option<()> {
    let mut store = FileStore::open(rt, FILE).ok()?;
    move_leg(&mut store)
}

/// What is asked after the change, and its answer.
const CHANGED: [(&str, &str); 5] = [
    (
        "trajectory a",
        "ok 2\na,10,150,11 2 13 3,walking,1\na,150,190,12 3 10 3,walking,2\n",
    ),
    (
        "box 11.5 2.5 13 4 2012-01-17T12:33:41Z 2012-01-17T12:37:00Z",
        "ok 2\na,10,150,11 2 13 3,walking,1\na,150,190,12 3 10 3,walking,2\n",
    ),
    (
        "legs ever 11.5 2.5 13 4 2012-01-17T12:33:41Z 2012-01-17T12:37:00Z",
        "ok 2\na,10,150,11 2 13 3,walking,1\na,150,190,12 3 10 3,walking,2\n",
    ),
    (
        "write",
        "ok 7\n@stboundedby,urn:x-ogc:def:crs:EPSG:6.6:4326,2D,10 1,13 3,2012-01-17T12:33:41.000Z,2012-01-17T12:36:51.000Z,sec\n@columns,mfidref,trajectory,state,xsd:token,type code,xsd:integer\na,10,150,11 2 13 3,walking,1\nb,10,190,10 2 11 3,walking,2\na,150,190,12 3 10 3,walking,2\nc,10,100,12 1 10 2,vehicle,1\nc,100,190,10 2 11 3,vehicle,1\n",
    ),
    (
        "features crosses 12.5 2 13 3 2012-01-17T12:33:41Z 2012-01-17T12:37:00Z",
        "ok 1\na\n",
    ),
];

/// The first of these that is answered otherwise, if any.
fn wrong_answer(alloc: Global, db: &mut Db<FileStore>) -> Option<usize> {
    for (at, (line, want)) in CHANGED.iter().enumerate() {
        if is_said(alloc, db, line, want) != Ok(true) {
            return Some(at);
        }
    }
    Some(CHANGED.len())
}

/// The same where the example is loaded, the page in memory is that of `b`, and the file changes
/// then.
fn wrong_behind_a_change(rt: &HostRuntime, db: &mut Db<FileStore>) -> Option<usize> {
    said(rt.alloc(), db, "load S1.csv\ntrajectory b").1.ok()?;
    change(rt)?;
    wrong_answer(rt.alloc(), db)
}

/// The same through a cache of one page.
fn wrong_in_a_file(rt: &HostRuntime, keys: RandomState) -> Option<usize> {
    let mut db = database(rt.alloc(), keys, file_store(rt)?, (50, 72, 1)).ok()?;
    wrong_behind_a_change(rt, &mut db)
}

#[test]
fn answers_are_those_of_the_pages(rt: HostRuntime) -> Result<(), Fail> {
    let keys = RandomState::new(&rt)?;
    assert_eq!(rt; wrong_in_a_file(&rt, keys), Some(CHANGED.len()));
    Ok(())
}
