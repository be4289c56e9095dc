//! A database that is closed and opened again.
use crate::run_tests::{add_all, database, ran};
use crate::worked_files::STANDARD;
use pages::{Fuse, MemStore, PageStore, Payload, seal, unseal};
use std::alloc::Global;
use std::hash::RandomState;
use std::test::Fail;
use trajdb::{Db, Files, OpenFault, Report, RunFault};

/// The header lines of the example, and then these lines.
macro_rules! headed {
    ($lines:literal) => {
        concat!(
            "@stboundedby,urn:x-ogc:def:crs:EPSG:6.6:4326,2D,50.23 9.23,50.31 9.27,",
            "2012-01-17T12:33:41Z,2012-01-17T12:37:00Z,sec\n",
            "@columns,mfidref,trajectory,state,xsd:token,\"type code\",xsd:integer\n",
            $lines
        )
    };
}

/// The example, its header lines alone, and a leg behind them, of a new feature and of the first one, and one more.
const FILES: [(&str, &str); 5] = [
    ("S1.csv", STANDARD),
    ("head.csv", headed!("")),
    ("more.csv", headed!("d,0,1,0 0\n")),
    ("again.csv", headed!("a,190,200,10 3 11 3,walking,2\n")),
    ("third.csv", headed!("a,200,210,11 3 12 3,walking,2\n")),
];

/// These files.
fn files(alloc: Global) -> Result<Files, RunFault> {
    let mut files = Files::new(alloc);
    add_all(alloc, &mut files, &FILES)?;
    Ok(files)
}

/// What a script answers.
pub(crate) fn said<S: PageStore>(
    alloc: Global,
    db: &mut Db<S>,
    script: &str,
) -> (Vec<u8>, Result<(), RunFault>) {
    match files(alloc) {
        Ok(files) => ran(alloc, db, script.as_bytes(), &files),
        Err(fault) => (Vec::new(alloc), Err(fault)),
    }
}

/// The same of the example; its fault, where it is not answered.
pub(crate) fn is_said<S: PageStore>(
    alloc: Global,
    db: &mut Db<S>,
    script: &str,
    want: &str,
) -> Result<bool, RunFault> {
    let (text, answer) = said(alloc, db, script);
    match answer {
        Ok(()) => Ok(text.as_slice() == want.as_bytes()),
        Err(fault) => Err(fault),
    }
}

/// The example in a new database over a store.
pub(crate) fn loaded<S: PageStore + Drop>(
    alloc: Global,
    keys: RandomState,
    store: S,
) -> Result<Db<S>, RunFault> {
    let mut db = database(alloc, keys, store, (50, 72, 256))?;
    match said(alloc, &mut db, "load S1.csv").1 {
        Ok(()) => Ok(db),
        Err(fault) => Err(fault),
    }
}

/// The store of a database that is closed, and what `close` answers.
pub(crate) fn close<S: PageStore>(alloc: Global, db: Db<S>) -> (S, Result<(), RunFault>) {
    db.close(alloc)
}

/// What a check finds.
pub(crate) fn check<S: PageStore>(db: &mut Db<S>) -> Result<Report, RunFault> {
    db.check()
}

/// The store of at most so many pages in which the example is closed, and what `close` answers.
pub(crate) fn closed(
    alloc: Global,
    keys: RandomState,
    most: u32,
) -> Result<(MemStore, Result<(), RunFault>), RunFault> {
    let db = loaded(alloc, keys, MemStore::new(alloc, most))?;
    Ok(close(alloc, db))
}

/// A database over a store that is opened with so many pages in memory, or why it is not, with the store.
fn open<S: PageStore>(
    alloc: Global,
    keys: RandomState,
    store: S,
    cache_pages: usize,
) -> Result<Db<S>, (S, OpenFault)> {
    Db::open(alloc, keys, store, cache_pages.max(1))
}

/// A database over a store that is opened with so many pages in memory, or why it is not.
pub(crate) fn opened<S: PageStore + Drop>(
    alloc: Global,
    keys: RandomState,
    store: S,
    cache_pages: usize,
) -> Result<Db<S>, OpenFault> {
    match open(alloc, keys, store, cache_pages) {
        Ok(db) => Ok(db),
        Err((_, fault)) => Err(fault),
    }
}

/// Why a store is not opened, if it is not.
pub(crate) fn refused<S: PageStore + Drop>(
    alloc: Global,
    keys: RandomState,
    store: S,
) -> Option<OpenFault> {
    opened(alloc, keys, store, 1).err()
}

/// The features that cross, and how much there is.
const QUESTIONS: &str =
    "features crosses 11.5 2.5 13 4 2012-01-17T12:33:41Z 2012-01-17T12:37:00Z\ncount";

/// Whether a script answers so over a store that is opened with so many pages in memory, and the store as it is abandoned
/// then; `None` where it is not opened.
fn asked(
    alloc: Global,
    keys: RandomState,
    store: MemStore,
    (script, cache_pages, want): (&str, usize, &str),
) -> Option<(bool, MemStore)> {
    let mut db = opened(alloc, keys, store, cache_pages).ok()?;
    let is_said = is_said(alloc, &mut db, script, want) == Ok(true);
    Some((is_said, db.abandon()))
}

/// The example, closed in a store of six pages.
fn closed_well(alloc: Global, keys: RandomState) -> Option<MemStore> {
    let (store, answer) = closed(alloc, keys, 100).ok()?;
    if answer.is_err() || store.len() != 6 {
        return None;
    }
    Some(store)
}

/// Whether a leg more is loaded into the example, as it was closed, and the store as it is closed again.
fn added(alloc: Global, keys: RandomState) -> Option<(bool, MemStore)> {
    let mut db = opened(alloc, keys, closed_well(alloc, keys)?, 2).ok()?;
    let is_said = is_said(
        alloc,
        &mut db,
        "load more.csv\ncount",
        "ok 1\n1,1,1\nok 1\n6,4\n",
    );
    let (store, answer) = close(alloc, db);
    Some((is_said == Ok(true) && answer.is_ok(), store))
}

/// Whether that goes well, and it is there when the store is opened.
fn is_added(alloc: Global, keys: RandomState) -> Option<bool> {
    let (is_said, store) = added(alloc, keys)?;
    let script = "count\ntrajectory d\ntrajectory b";
    let want = "ok 1\n6,4\nok 1\nd,0,1,0 0 0 0,,\nok 1\nb,10,190,10 2 11 3,walking,2\n";
    let (is_there, _) = asked(alloc, keys, store, (script, 2, want))?;
    Some(is_said && is_there)
}

#[test]
fn legs_are_added_to_what_was_opened(rt: HostRuntime) -> Result<(), Fail> {
    let (alloc, keys) = (rt.alloc(), RandomState::new(&rt)?);
    assert!(rt; is_added(alloc, keys) == Some(true));
    Ok(())
}

/// What is asked of the example, each time of the store as it was abandoned, and what is answered. A refused file begins
/// nothing, and the store stays finished; an accepted one does, even where it has no leg.
const ASKED: [(&str, usize, &str); 3] = [
    (QUESTIONS, 256, "ok 1\na\nok 1\n5,3\n"),
    ("load S1.csv", 256, "refused F18 at 3\n"),
    ("count\nload head.csv", 1, "ok 1\n5,3\nok 1\n0,0,0\n"),
];

/// Whether all is answered so, and the store is not finished then.
fn is_opened(alloc: Global, keys: RandomState) -> Option<bool> {
    let mut store = closed_well(alloc, keys)?;
    for question in ASKED {
        let (is_said, left) = asked(alloc, keys, store, question)?;
        if !is_said {
            return Some(false);
        }
        store = left;
    }
    Some(refused(alloc, keys, store) == Some(OpenFault::Unfinished))
}

#[test]
fn what_is_closed_is_opened(rt: HostRuntime) -> Result<(), Fail> {
    let (alloc, keys) = (rt.alloc(), RandomState::new(&rt)?);
    assert!(rt; is_opened(alloc, keys) == Some(true));
    Ok(())
}

/// Why the store of the example is not opened that was loaded, and abandoned.
fn refused_abandoned(alloc: Global, keys: RandomState) -> Option<OpenFault> {
    let db = loaded(alloc, keys, MemStore::new(alloc, 100)).ok()?;
    refused(alloc, keys, db.abandon())
}

#[test]
fn a_store_that_is_abandoned_is_unfinished(rt: HostRuntime) -> Result<(), Fail> {
    let (alloc, keys) = (rt.alloc(), RandomState::new(&rt)?);
    assert!(rt; refused_abandoned(alloc, keys) == Some(OpenFault::Unfinished));
    let empty = MemStore::new(alloc, 100);
    assert!(rt; refused(alloc, keys, empty) == Some(OpenFault::Malformed));
    Ok(())
}

/// The payload of a page.
pub(crate) fn payload_of<S: PageStore>(store: &mut S, number: u32) -> Option<Payload> {
    if number >= store.len() {
        return None;
    }
    let mut page = [0; 4096];
    store.read(number, &mut page).ok()?;
    unseal(number, &page).ok()
}

/// Puts a payload into a page that is there, under a right seal.
pub(crate) fn put<S: PageStore>(store: &mut S, number: u32, payload: &Payload) -> Option<()> {
    if number >= store.len() {
        return None;
    }
    store.write(number, &seal(number, payload)).ok()
}

/// Page 0 sealed again with other bytes at these places of its payload.
pub(crate) fn change(store: &mut MemStore, bytes: &[(usize, u8)]) -> Option<()> {
    let mut payload = payload_of(store, 0)?;
    for (place, byte) in bytes {
        if let Some(old) = payload.bytes.get_mut(*place) {
            *old = *byte;
        }
    }
    put(store, 0, &payload)
}

/// Bytes at places of page 0, and why the store is not opened: the magic, the version, the state, the shape, the limits,
/// the length of the catalogue's text, and the dimension.
const HEADERS: [(&[(usize, u8)], OpenFault); 8] = [
    (&[(0, 0), (11, 0)], OpenFault::Malformed),
    (&[(7, 9), (11, 0)], OpenFault::Version),
    (&[(11, 0)], OpenFault::Unfinished),
    (&[(11, 2)], OpenFault::Malformed),
    (&[(13, 1)], OpenFault::Malformed),
    (&[(16, 255)], OpenFault::Malformed),
    (&[(55, 80)], OpenFault::Malformed),
    (&[(59, 4)], OpenFault::Malformed),
];

/// Why the example is not opened where page 0 has these bytes.
fn refused_with(alloc: Global, keys: RandomState, bytes: &[(usize, u8)]) -> Option<OpenFault> {
    let mut store = closed_well(alloc, keys)?;
    change(&mut store, bytes)?;
    refused(alloc, keys, store)
}

/// The first of these that is refused otherwise, if any.
fn wrong_header(alloc: Global, keys: RandomState) -> Option<usize> {
    for (number, (bytes, fault)) in HEADERS.iter().enumerate() {
        if refused_with(alloc, keys, bytes) != Some(*fault) {
            return Some(number);
        }
    }
    None
}

#[test]
fn page_0_is_tested_in_order(rt: HostRuntime) -> Result<(), Fail> {
    let (alloc, keys) = (rt.alloc(), RandomState::new(&rt)?);
    assert_eq!(rt; wrong_header(alloc, keys), None);
    Ok(())
}

/// The example, closed, with damaged bytes: of each its page and its place there.
fn damaged(alloc: Global, keys: RandomState, bytes: &[(u32, usize)]) -> Option<MemStore> {
    let mut store = closed_well(alloc, keys)?;
    for (page, place) in bytes {
        if *page >= store.len() || *place >= 4096 {
            return None;
        }
        store.set_byte(*page, *place, 1);
    }
    Some(store)
}

/// Why the example is not opened with such bytes.
fn refused_damaged(alloc: Global, keys: RandomState, bytes: &[(u32, usize)]) -> Option<OpenFault> {
    refused(alloc, keys, damaged(alloc, keys, bytes)?)
}

/// Whether a count is answered, and the run stops at the question behind it, and names its leaf,
/// which is damaged.
fn is_leaf_named(alloc: Global, db: &mut Db<MemStore>) -> bool {
    let (text, answer) = said(alloc, db, "count\ntrajectory a");
    answer == Err(RunFault::Damaged(1)) && text.as_slice() == COUNT.as_bytes()
}

/// The same of the example with that leaf damaged.
fn is_named(alloc: Global, keys: RandomState) -> Option<bool> {
    let store = damaged(alloc, keys, &[(1, 100)])?;
    let mut db = opened(alloc, keys, store, 1).ok()?;
    Some(is_leaf_named(alloc, &mut db))
}

#[test]
fn a_page_that_is_damaged_is_named(rt: HostRuntime) -> Result<(), Fail> {
    let (alloc, keys) = (rt.alloc(), RandomState::new(&rt)?);
    assert!(rt; is_named(alloc, keys) == Some(true));
    // Page 0 before a leaf, and the last of the six pages, which is the catalogue's, behind the text.
    let first = refused_damaged(alloc, keys, &[(0, 50), (1, 100)]);
    let last = refused_damaged(alloc, keys, &[(5, 4000)]);
    assert!(rt; first == Some(OpenFault::Damaged(0)) && last == Some(OpenFault::Damaged(5)));
    Ok(())
}

/// Whether the example, which has five pages and a sixth one for its catalogue, is refused where it is closed in five,
/// and the store is not finished then.
fn is_full_at_closing(alloc: Global, keys: RandomState) -> Option<bool> {
    let (store, answer) = closed(alloc, keys, 5).ok()?;
    let is_unfinished = refused(alloc, keys, store) == Some(OpenFault::Unfinished);
    Some(answer == Err(RunFault::StoreFull) && is_unfinished)
}

/// Whether a leg more finds no room in a database.
fn is_full(alloc: Global, db: &mut Db<MemStore>) -> bool {
    let (text, ran) = said(alloc, db, "load more.csv");
    ran == Err(RunFault::StoreFull) && text.is_empty()
}

/// The same, and the store as it is closed then, and what `close` answers.
fn full(
    alloc: Global,
    keys: RandomState,
    store: MemStore,
) -> Option<(bool, MemStore, Result<(), RunFault>)> {
    let mut db = opened(alloc, keys, store, 256).ok()?;
    let is_full = is_full(alloc, &mut db);
    let (store, answer) = close(alloc, db);
    Some((is_full, store, answer))
}

/// Whether a leg more is refused where it is closed in six, and the store is not finished then.
fn is_full_at_a_load(alloc: Global, keys: RandomState) -> Option<bool> {
    let (store, answer) = closed(alloc, keys, 6).ok()?;
    let (is_full, store, failed) = full(alloc, keys, store)?;
    let is_unfinished = refused(alloc, keys, store) == Some(OpenFault::Unfinished);
    Some(answer.is_ok() && is_full && failed == Err(RunFault::Failed) && is_unfinished)
}

#[test]
fn a_store_without_room_stays_unfinished(rt: HostRuntime) -> Result<(), Fail> {
    let (alloc, keys) = (rt.alloc(), RandomState::new(&rt)?);
    assert!(rt; is_full_at_closing(alloc, keys) == Some(true));
    assert!(rt; is_full_at_a_load(alloc, keys) == Some(true));
    Ok(())
}

/// What `count` answers over the example.
const COUNT: &str = "ok 1\n5,3\n";

/// Whether a store opens as one that was not finished, or whose page 0 was not written whole, where that may be, or else
/// with the example.
fn may_open(alloc: Global, keys: RandomState, store: MemStore, may_be_unfinished: bool) -> bool {
    match opened(alloc, keys, store, 1) {
        Ok(mut db) => is_said(alloc, &mut db, "count", COUNT) == Ok(true),
        Err(OpenFault::Unfinished | OpenFault::Damaged(0)) => may_be_unfinished,
        Err(_) => false,
    }
}

/// Closes a database: whether its store failed before that or at that. It opens then as it may.
fn failed_at_closing(
    alloc: Global,
    keys: RandomState,
    db: Db<Fuse<MemStore>>,
) -> Result<bool, RunFault> {
    let (fuse, answer) = close(alloc, db);
    let is_kept = may_open(alloc, keys, fuse.into_inner(), answer.is_err());
    match answer {
        Ok(()) if is_kept => Ok(false),
        Err(RunFault::Store | RunFault::Failed) if is_kept => Ok(true),
        _ => Err(RunFault::Failed),
    }
}

/// Loads into a database and closes it: whether its store failed.
fn failed_when_opened(
    alloc: Global,
    keys: RandomState,
    mut db: Db<Fuse<MemStore>>,
) -> Result<bool, RunFault> {
    match said(alloc, &mut db, "load head.csv").1 {
        Ok(()) | Err(RunFault::Store) => failed_at_closing(alloc, keys, db),
        Err(fault) => Err(fault),
    }
}

/// Opens, loads and closes over a store: whether it failed. Where it failed at opening, the store,
/// which is handed back, is opened then.
fn failed(alloc: Global, keys: RandomState, store: Fuse<MemStore>) -> Result<bool, RunFault> {
    match open(alloc, keys, store, 1) {
        Ok(db) => failed_when_opened(alloc, keys, db),
        Err((fuse, OpenFault::Store)) => match refused(alloc, keys, fuse.into_inner()) {
            None => Ok(true),
            Some(_) => Err(RunFault::Failed),
        },
        Err(_) => Err(RunFault::Failed),
    }
}

/// The same over the example's store, which fails once, or for good, when so many calls have
/// passed.
fn fused(alloc: Global, keys: RandomState, calls: u64, once: bool) -> Result<bool, RunFault> {
    let (store, _) = closed(alloc, keys, 100)?;
    failed(alloc, keys, Fuse::new(store, calls, once))
}

/// Makes a database of the example and closes it over a store that fails once, or for good, when so many calls have
/// passed: whether it failed. Where it failed before the closing, its store is not looked at.
fn fused_example(
    alloc: Global,
    keys: RandomState,
    calls: u64,
    once: bool,
) -> Result<bool, RunFault> {
    let store = Fuse::new(MemStore::new(alloc, 100), calls, once);
    match loaded(alloc, keys, store) {
        Ok(db) => failed_at_closing(alloc, keys, db),
        Err(RunFault::Store) => Ok(true),
        Err(fault) => Err(fault),
    }
}

/// The last of 40 calls at which a store that is opened, and the example's, is said to have failed.
fn last_failed(alloc: Global, keys: RandomState, once: bool) -> Result<(u64, u64), RunFault> {
    let (mut last, mut last_of_example) = (0, 0);
    for calls in 0..40 {
        if fused(alloc, keys, calls, once)? {
            last = calls;
        }
        if fused_example(alloc, keys, calls, once)? {
            last_of_example = calls;
        }
    }
    Ok((last, last_of_example))
}

#[test]
fn a_store_that_fails_is_said_to(rt: HostRuntime) -> Result<(), Fail> {
    let (alloc, keys) = (rt.alloc(), RandomState::new(&rt)?);
    for once in [true, false] {
        let (last, last_of_example) = last_failed(alloc, keys, once).ok().ok_or("another answer")?;
        // Opening, a load and closing make so many calls at least, and not so many; so do making and closing.
        assert!(rt; 5 < last && last < 39, "{last}");
        assert!(rt;
            5 < last_of_example && last_of_example < 39,
            "{last_of_example}"
        );
    }
    Ok(())
}

/// Whether a fault is one of want of memory: a store, and an output, that are kept in memory fail
/// where they find no room.
fn is_want(fault: RunFault) -> bool {
    matches!(fault, RunFault::Memory | RunFault::Store | RunFault::Output)
}

/// Whether the example is counted, or memory runs out.
pub(crate) fn is_counted(alloc: Global, db: &mut Db<MemStore>) -> bool {
    match is_said(alloc, db, "count", COUNT) {
        Ok(is_said) => is_said,
        Err(fault) => is_want(fault),
    }
}

/// Whether the example is found sound, or memory runs out.
fn is_sound(db: &mut Db<MemStore>) -> bool {
    let report = Report {
        pages: 6,
        legs: 5,
        features: 3,
    };
    match check(db) {
        Ok(found) => found == report,
        Err(fault) => fault == RunFault::Memory,
    }
}

/// Whether a store opens with the example, or memory runs out.
fn is_there(alloc: Global, keys: RandomState, store: MemStore) -> bool {
    match opened(alloc, keys, store, 1) {
        Ok(mut db) => is_counted(alloc, &mut db) && is_sound(&mut db),
        Err(fault) => fault == OpenFault::Memory,
    }
}

/// Whether the example, closed and opened again, is counted and found sound, or memory runs out.
fn is_kept(alloc: Global, keys: RandomState) -> bool {
    match closed(alloc, keys, 100) {
        Ok((store, Ok(()))) => is_there(alloc, keys, store),
        Ok((_, Err(fault))) | Err(fault) => is_want(fault),
    }
}

/// Passes wherever memory runs out, too; it is run with each allocation refused in turn.
#[test]
fn no_wrong_book_without_memory(rt: HostRuntime) -> Result<(), Fail> {
    let alloc = rt.alloc();
    let keys = match RandomState::new(&rt) {
        Ok(keys) => keys,
        Err(_) => RandomState::new(&rt)?,
    };
    assert!(rt; is_kept(alloc, keys));
    Ok(())
}
