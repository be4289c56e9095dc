//! Worked scripts over worked files.
use crate::worked_files::{FILES, STANDARD, WRITTEN};
use legs::{Limits, ListIndex};
use outputs::CountedOutput;
use pages::{MemStore, PageStore};
use querylang::Command;
use std::alloc::Global;
use std::hash::RandomState;
use std::process::Abort;
use std::random::RandomSource;
use std::test::Fail;
use tbtree::Shape;
use trajdb::{Core, Counts, Db, Files, LoadFault, OpenFault, RunFault};

/// A script over the example: a question without its period, which is that of the whole example.
macro_rules! asked {
    ($question:literal) => {
        concat!(
            "load S1.csv\n",
            $question,
            " 2012-01-17T12:33:41Z 2012-01-17T12:37:00Z\n"
        )
    };
}

/// Adds these files.
pub(crate) fn add_all(
    alloc: Global,
    files: &mut Files,
    named: &[(&str, &str)],
) -> Result<(), RunFault> {
    for (name, text) in named {
        files.add(name, Vec::from_slice(alloc, text.as_bytes())?)?;
    }
    Ok(())
}

/// Adds the files of most scripts.
fn add_worked(alloc: Global, files: &mut Files) -> Result<(), RunFault> {
    add_all(alloc, files, &FILES)
}

fn named_files(alloc: Global) -> Result<Files, RunFault> {
    let mut files = Files::new(alloc);
    match add_worked(alloc, &mut files) {
        Ok(()) => Ok(files),
        Err(fault) => Err(fault),
    }
}

/// A new database over a store without pages, or why there is none, with the store.
fn create<S: PageStore>(
    alloc: Global,
    keys: RandomState,
    store: S,
    limits: Limits,
    shape: Shape,
    cache_pages: usize,
) -> Result<Db<S>, (S, OpenFault)> {
    if store.len() > 0 {
        return Err((store, OpenFault::Store));
    }
    Db::create(alloc, keys, store, shape, cache_pages.max(1), limits)
}

/// A new database over a store without pages, with leaves and inner pages of so many, and a cache of so many pages.
fn over<S: PageStore + Drop>(
    alloc: Global,
    keys: RandomState,
    store: S,
    limits: Limits,
    (leaf, inner, cache_pages): (u16, u16, usize),
) -> Result<Db<S>, RunFault> {
    let shape = Shape::new(leaf, inner).ok_or(RunFault::Failed)?;
    match create(alloc, keys, store, limits, shape, cache_pages) {
        Ok(db) => Ok(db),
        Err((_, OpenFault::Memory)) => Err(RunFault::Memory),
        Err(_) => Err(RunFault::Store),
    }
}

/// The same with room for 1000 legs and as many features.
pub(crate) fn database<S: PageStore + Drop>(
    alloc: Global,
    keys: RandomState,
    store: S,
    pages: (u16, u16, usize),
) -> Result<Db<S>, RunFault> {
    match Limits::new(1000, 1000) {
        Some(limits) => over(alloc, keys, store, limits, pages),
        None => Err(RunFault::Failed),
    }
}

/// The files, asked for again where one allocation is refused.
fn files(alloc: Global) -> Result<Files, RunFault> {
    match named_files(alloc) {
        Err(RunFault::Memory) => named_files(alloc),
        told => told,
    }
}

/// Whether bytes are whole answers of a text: what comes behind them there is another answer, or nothing.
fn is_front(out: &[u8], text: &[u8]) -> bool {
    match text.strip_prefix(out) {
        Some(rest) => {
            rest.is_empty()
                || rest.starts_with(b"ok ".as_slice())
                || rest.starts_with(b"refused ".as_slice())
        }
        None => false,
    }
}

/// Nothing of a run that sent all that is wanted; its fault, where it stopped behind whole answers for want of memory.
fn judged(ran: Result<(), RunFault>, out: &[u8], want: &[u8]) -> Result<(), RunFault> {
    match ran {
        Ok(()) if out == want => Ok(()),
        Err(RunFault::Memory | RunFault::Store) if is_front(out, want) => ran,
        _ => Err(RunFault::Failed),
    }
}

/// What a script answers, and how its run ends, without a contract, so that what calls it has little to prove.
pub(crate) fn ran<S: PageStore>(
    alloc: Global,
    db: &mut Db<S>,
    script: &[u8],
    files: &Files,
) -> (Vec<u8>, Result<(), RunFault>) {
    // With room for all, since an output that fails is another test's.
    match Vec::with_capacity(alloc, 1000) {
        Ok(mut out) => {
            let ran = db.run(alloc, script, files, &mut CountedOutput::new(&mut out));
            (out, ran)
        }
        Err(_) => (Vec::new(alloc), Err(RunFault::Memory)),
    }
}

/// A new database over an index that keeps a list.
pub(crate) fn listed(
    alloc: Global,
    keys: RandomState,
    limits: Limits,
) -> Result<Core<ListIndex>, RunFault> {
    match Core::new(alloc, keys, ListIndex::new(alloc), limits, true) {
        Ok(core) => Ok(core),
        Err((_, fault)) => Err(RunFault::from(fault)),
    }
}

/// What a script answers over such a database, and how its run ends.
pub(crate) fn ran_listed(
    alloc: Global,
    core: &mut Core<ListIndex>,
    script: &[u8],
    files: &Files,
) -> (Vec<u8>, Result<(), RunFault>) {
    match Vec::with_capacity(alloc, 1000) {
        Ok(mut out) => {
            let ran = core.run(alloc, script, files, &mut CountedOutput::new(&mut out));
            (out, ran)
        }
        Err(_) => (Vec::new(alloc), Err(RunFault::Memory)),
    }
}

/// How many pages were asked for when a script has run, if it answers what is wanted.
fn asked_for(
    alloc: Global,
    db: &mut Db<MemStore>,
    files: &Files,
    (script, want): (&[u8], &[u8]),
) -> Result<u64, RunFault> {
    let (out, ran) = ran(alloc, db, script, files);
    judged(ran, out.as_slice(), want)?;
    Ok(db.asked())
}

/// How many pages a script asks for on a new database over pages, if it answers what is wanted.
fn run_once(
    alloc: Global,
    keys: RandomState,
    limits: Limits,
    pages: (u16, u16, usize),
    files: &Files,
    asked: (&[u8], &[u8]),
) -> Result<u64, RunFault> {
    match over(alloc, keys, MemStore::new(alloc, 1_000_000), limits, pages) {
        Ok(mut db) => asked_for(alloc, &mut db, files, asked),
        Err(fault) => Err(fault),
    }
}

/// The same, asked again where one allocation is refused.
fn run_paged(
    alloc: Global,
    keys: RandomState,
    limits: Limits,
    pages: (u16, u16, usize),
    files: &Files,
    asked: (&[u8], &[u8]),
) -> Result<u64, RunFault> {
    match run_once(alloc, keys, limits, pages, files, asked) {
        Err(RunFault::Memory | RunFault::Store) => {
            run_once(alloc, keys, limits, pages, files, asked)
        }
        told => told,
    }
}

/// Runs a script over an index that keeps a list, which is to answer what is wanted.
fn answer_listed(
    alloc: Global,
    core: &mut Core<ListIndex>,
    files: &Files,
    (script, want): (&[u8], &[u8]),
) -> Result<(), RunFault> {
    let (out, ran) = ran_listed(alloc, core, script, files);
    judged(ran, out.as_slice(), want)
}

/// The same over a new one.
fn run_listed_once(
    alloc: Global,
    keys: RandomState,
    limits: Limits,
    files: &Files,
    asked: (&[u8], &[u8]),
) -> Result<(), RunFault> {
    match listed(alloc, keys, limits) {
        Ok(mut core) => answer_listed(alloc, &mut core, files, asked),
        Err(fault) => Err(fault),
    }
}

/// The same, asked again where one allocation is refused.
fn run_listed(
    alloc: Global,
    keys: RandomState,
    limits: Limits,
    files: &Files,
    asked: (&[u8], &[u8]),
) -> Result<(), RunFault> {
    match run_listed_once(alloc, keys, limits, files, asked) {
        Err(RunFault::Memory | RunFault::Store) => {
            run_listed_once(alloc, keys, limits, files, asked)
        }
        told => told,
    }
}

/// Whether a script answers so over a list, and over pages in two shapes, asking for as many whatever the cache holds.
pub(crate) fn is_answered(
    alloc: Global,
    keys: RandomState,
    limits: Limits,
    files: &Files,
    asked: (&[u8], &[u8]),
) -> Result<bool, RunFault> {
    run_listed(alloc, keys, limits, files, asked)?;
    let mut same = true;
    for (leaf, inner) in [(2, 2), (50, 72)] {
        let narrow = run_paged(alloc, keys, limits, (leaf, inner, 1), files, asked)?;
        let wide = run_paged(alloc, keys, limits, (leaf, inner, 256), files, asked)?;
        same = same && narrow == wide;
    }
    Ok(same)
}

/// The first script that does not answer what stands behind it, if any.
fn wrong_answer(
    alloc: Global,
    keys: RandomState,
    limits: Limits,
    files: &Files,
    scripts: &[(&str, &str)],
) -> Option<usize> {
    for (at, (script, want)) in scripts.iter().enumerate() {
        let asked = (script.as_bytes(), want.as_bytes());
        if is_answered(alloc, keys, limits, files, asked) != Ok(true) {
            return Some(at);
        }
    }
    None
}

/// The same over the files of most scripts.
fn wrong_script(
    alloc: Global,
    keys: RandomState,
    limits: Limits,
    scripts: &[(&str, &str)],
) -> Result<Option<usize>, RunFault> {
    let files = files(alloc)?;
    Ok(wrong_answer(alloc, keys, limits, &files, scripts))
}

/// Whether the scripts answer what stands behind them, under these limits.
fn check_under<R: Abort + AllocGlobal + RandomSource>(
    rt: &R,
    (legs, features): (u64, u32),
    scripts: &[(&str, &str)],
) -> Result<(), Fail> {
    let keys = RandomState::new(rt)?;
    let limits = Limits::new(legs, features).ok_or("limits")?;
    let wrong = wrong_script(rt.alloc(), keys, limits, scripts);
    assert!(rt; wrong == Ok(None), "{wrong:?}");
    Ok(())
}

/// Whether the scripts answer what stands behind them.
fn check<R: Abort + AllocGlobal + RandomSource>(
    rt: &R,
    scripts: &[(&str, &str)],
) -> Result<(), Fail> {
    check_under(rt, (1000, 1000), scripts)
}

/// Scripts over the example.
const EXAMPLE: [(&str, &str); 7] = [
    (
        "# first\nload S1.csv\ncount\nbox 11.5 2.5 13 4 2012-01-17T12:33:41Z 2012-01-17T12:37:00Z\n",
        "ok 1\n4,5,3\nok 1\n5,3\nok 2\na,10,150,11 2 12 3,walking,1\na,150,190,12 3 10 3,walking,2\n",
    ),
    (
        "load S1.csv\nload S1.csv\ncount",
        "ok 1\n4,5,3\nrefused F18 at 3\nok 1\n5,3\n",
    ),
    (
        "load S1.csv\nload heads\nload no columns\n",
        "ok 1\n4,5,3\nrefused F9 at 1\nrefused F10 at 2\n",
    ),
    ("load cut.csv\ncount\r", "refused F11 at 5\nok 1\n0,0\n"),
    // Its third record does not join, and its fifth has too few fields: the text comes first.
    (
        "load S1.csv\nload cut.csv\ncount\n",
        "ok 1\n4,5,3\nrefused F11 at 5\nok 1\n5,3\n",
    ),
    (
        "load S1.csv\ntrajectory c\ntrajectory d\n",
        "ok 1\n4,5,3\nok 2\nc,10,100,12 1 10 2,vehicle,1\nc,100,190,10 2 11 3,vehicle,1\nok 0\n",
    ),
    (
        "load slow\nload columns\n",
        "ok 1\n1,3,1\nrefused F10 at 2\n",
    ),
];

#[test]
fn the_standards_example(rt: HostRuntime) -> Result<(), Fail> {
    check(&rt, &EXAMPLE)
}

/// Lines that are refused, and lines that are none.
const REFUSED: [(&str, &str); 10] = [
    ("", ""),
    ("\n \r\n\t# count\n", ""),
    ("boxes\nCOUNT\n", "refused Q2\nrefused Q2\n"),
    (
        "count 1\nload\nbox 0 0 1\ntrajectory\nwrite x\nlegs near 0\n",
        "refused Q3\nrefused Q3\nrefused Q3\nrefused Q3\nrefused Q3\nrefused Q3\n",
    ),
    (
        "legs near 0 0 1 1 y z\nfeatures Ever x 0 1 1 y z\nfeatures ever x 0 1 1 y z\n",
        "refused Q4\nrefused Q4\nrefused Q5\n",
    ),
    (
        "box 0 0 x 1 y z\nbox 1 0 0 1 y z\nbox 0 0 1 1 y z\n",
        "refused Q5\nrefused Q6\nrefused Q7\n",
    ),
    (
        "box 1 0 0 1 2012-01-17T12:33:41Z 2012-01-17T12:37:00Z\n",
        "refused Q6\n",
    ),
    (
        "box 0 0 1 1 2020-01-01T00:00:01Z 2020-01-01T00:00:00Z\n",
        "refused Q8\n",
    ),
    (
        "box 0 0 1 1 2020-01-01T00:00:01Z 2020-01-01T00:00:01Z\n",
        "ok 0\n",
    ),
    ("load none\nwrite\n", "refused Q9\nrefused Q10\n"),
];

/// Whether a line is refused that is no UTF-8.
fn is_bad_text_refused(alloc: Global, keys: RandomState) -> Result<bool, RunFault> {
    let limits = Limits::new(1, 1).ok_or(RunFault::Failed)?;
    let asked = (
        b"\xff\n#\xff\ncount\r".as_slice(),
        b"refused Q1\nok 1\n0,0\n".as_slice(),
    );
    is_answered(alloc, keys, limits, &Files::new(alloc), asked)
}

#[test]
fn lines_are_refused(rt: HostRuntime) -> Result<(), Fail> {
    check(&rt, &REFUSED)?;
    let keys = RandomState::new(&rt)?;
    assert!(rt; is_bad_text_refused(rt.alloc(), keys) == Ok(true));
    Ok(())
}

/// Files, what their records are cut into, and what is found of them.
const CUT_AND_FOUND: [(&str, &str); 9] = [
    ("load quick\n", "refused F17 at 3\n"),
    (
        "load slow\ntrajectory q\n",
        "ok 1\n1,3,1\nok 3\nq,0,0.001,0 0 1 1\nq,0.001,0.002,1 1 2 2\nq,0.002,0.003,2 2 3 3\n",
    ),
    (
        "load uneven\ntrajectory u\n",
        "ok 1\n1,3,1\nok 3\nu,0,0.001,0 0 1 1\nu,0.001,0.003,1 1 2 2\nu,0.003,0.005,2 2 3 3\n",
    ),
    (
        "load still\ntrajectory s\n",
        "ok 1\n1,1,1\nok 1\ns,0,5,7 8 7 8\n",
    ),
    ("load jump and gap\ncount\n", "ok 1\n3,3,1\nok 1\n3,1\n"),
    (
        "load rounded\ntrajectory n\n",
        "ok 1\n1,1,1\nok 1\nn,0,1,1.0000001 -1.0000001 0 100000000\n",
    ),
    ("load far\n", "refused F15 at 3\n"),
    (
        "load odd\ntrajectory a, b\n",
        "ok 1\n1,1,1\nok 1\n\"a, b\",0,1,0 0 1 1,\n",
    ),
    // In the order of acceptance, and a leg whose box alone meets this one.
    (
        "load two\nbox 3 3 10 4 2020-01-01T00:00:00Z 2020-01-01T00:00:04Z\n",
        "ok 1\n4,4,2\nok 3\ne,0,2,0 0 10 10\nf,0,1,2 2 3 3\nf,1,2,3 3 4 4\n",
    ),
];

#[test]
fn legs_are_cut_and_found(rt: HostRuntime) -> Result<(), Fail> {
    check(&rt, &CUT_AND_FOUND)
}

/// A box that is asked for where the last leg is from (10, 10) at 2 s to (20, 20) at 4 s, and the others end at 2 s.
macro_rules! at_the_end {
    ($query:literal) => {
        concat!("load two\nbox ", $query, "\n")
    };
}

const LAST_LEG: &str = "ok 1\n4,4,2\nok 1\ne,2,4,10 10 20 20\n";

const NO_LEG: &str = "ok 1\n4,4,2\nok 0\n";

/// Boxes that meet the last leg at an edge, and that miss it.
const EDGES: [(&str, &str); 6] = [
    (
        at_the_end!("0 10 10 20 2020-01-01T00:00:03Z 2020-01-01T00:00:03Z"),
        LAST_LEG,
    ),
    (
        at_the_end!("12 12 13 13 2020-01-01T00:00:01Z 2020-01-01T00:00:02Z"),
        LAST_LEG,
    ),
    (
        at_the_end!("12 12 13 13 2020-01-01T00:00:04Z 2020-01-01T00:00:05Z"),
        LAST_LEG,
    ),
    (
        at_the_end!("20 20 21 21 2020-01-01T00:00:04Z 2020-01-01T00:00:05Z"),
        LAST_LEG,
    ),
    (
        at_the_end!("20.0000001 10 30 20 2020-01-01T00:00:03Z 2020-01-01T00:00:03Z"),
        NO_LEG,
    ),
    (
        at_the_end!("20 20 21 21 2020-01-01T00:00:04.001Z 2020-01-01T00:00:05Z"),
        NO_LEG,
    ),
];

#[test]
fn edges_count(rt: HostRuntime) -> Result<(), Fail> {
    check(&rt, &EDGES)
}

/// Legs of the example for which a predicate holds.
const ONE_BY_ONE: [(&str, &str); 6] = [
    (
        asked!("legs ever 11.5 2.5 13 4"),
        "ok 1\n4,5,3\nok 2\na,10,150,11 2 12 3,walking,1\na,150,190,12 3 10 3,walking,2\n",
    ),
    (
        asked!("legs enters 11.5 2.5 13 4"),
        "ok 1\n4,5,3\nok 1\na,10,150,11 2 12 3,walking,1\n",
    ),
    (
        asked!("legs leaves 11.5 2.5 13 4"),
        "ok 1\n4,5,3\nok 1\na,150,190,12 3 10 3,walking,2\n",
    ),
    (asked!("legs crosses 11.5 2.5 13 4"), "ok 1\n4,5,3\nok 0\n"),
    // One corner point at the period's last instant, and a millisecond earlier.
    (
        "load S1.csv\nlegs ever 11.5 0 13 2.5 2012-01-17T12:34:21Z 2012-01-17T12:35:01Z\n",
        "ok 1\n4,5,3\nok 1\na,10,150,11 2 12 3,walking,1\n",
    ),
    (
        "load S1.csv\nlegs ever 11.5 0 13 2.5 2012-01-17T12:34:21Z 2012-01-17T12:35:00.999Z\n",
        "ok 1\n4,5,3\nok 0\n",
    ),
];

#[test]
fn legs_are_tested_one_by_one(rt: HostRuntime) -> Result<(), Fail> {
    check(&rt, &ONE_BY_ONE)
}

/// Legs that go along a line, and not through its box.
const BY_LINE: [(&str, &str); 4] = [
    // Inside only between two milliseconds.
    (
        "load between\nlegs ever 3.3333333 -1 3.3333334 1 2020-01-01T00:00:00.333Z 2020-01-01T00:00:00.334Z\n",
        "ok 1\n1,1,1\nok 1\np,0,1,0 0 10 0\n",
    ),
    // A diagonal that misses a rectangle which its box meets.
    (
        "load diagonal\nbox 6 0 10 4 2020-01-01T00:00:00Z 2020-01-01T00:00:10Z\n",
        "ok 1\n1,1,1\nok 1\nd,0,10,0 0 10 10\n",
    ),
    (
        "load diagonal\nlegs ever 6 0 10 4 2020-01-01T00:00:00Z 2020-01-01T00:00:10Z\n",
        "ok 1\n1,1,1\nok 0\n",
    ),
    (
        "load diagonal\nlegs bypasses 6 0 10 4 2020-01-01T00:00:00Z 2020-01-01T00:00:10Z\n",
        "ok 1\n1,1,1\nok 1\nd,0,10,0 0 10 10\n",
    ),
];

#[test]
fn a_leg_is_tested_by_its_line(rt: HostRuntime) -> Result<(), Fail> {
    check(&rt, &BY_LINE)
}

/// Features for whose legs a predicate holds.
const WHOLE: [(&str, &str); 11] = [
    (
        asked!("features crosses 11.5 2.5 13 4"),
        "ok 1\n4,5,3\nok 1\na\n",
    ),
    (
        asked!("features always 10 2 11 3"),
        "ok 1\n4,5,3\nok 1\nb\n",
    ),
    (
        asked!("features enters 10 2 11 3"),
        "ok 1\n4,5,3\nok 1\nc\n",
    ),
    (
        asked!("features ever 10 2 11 3"),
        "ok 1\n4,5,3\nok 3\na\nb\nc\n",
    ),
    (asked!("features leaves 10 2 11 3"), "ok 1\n4,5,3\nok 0\n"),
    (asked!("features crosses 10 2 11 3"), "ok 1\n4,5,3\nok 0\n"),
    (asked!("features bypasses 10 2 11 3"), "ok 1\n4,5,3\nok 0\n"),
    // A gap has no moments.
    (
        "load gap\nfeatures bypasses 5 5 6 6 2020-01-01T00:00:20Z 2020-01-01T00:00:40Z\n",
        "ok 1\n2,2,1\nok 0\n",
    ),
    (
        "load gap\nfeatures always 5 5 6 6 2020-01-01T00:00:20Z 2020-01-01T00:00:40Z\n",
        "ok 1\n2,2,1\nok 0\n",
    ),
    (
        "load gap\nfeatures bypasses 5 5 6 6 2020-01-01T00:00:00Z 2020-01-01T00:01:00Z\n",
        "ok 1\n2,2,1\nok 1\ng\n",
    ),
    // At a jump two legs share a moment.
    (
        "load jump\nfeatures enters 5 5 6 6 2020-01-01T00:00:10Z 2020-01-01T00:00:10Z\n",
        "ok 1\n2,2,1\nok 1\nj\n",
    ),
];

#[test]
fn features_are_tested_whole(rt: HostRuntime) -> Result<(), Fail> {
    check(&rt, &WHOLE)
}

#[test]
fn the_database_is_written(rt: HostRuntime) -> Result<(), Fail> {
    check(&rt, &WRITTEN)
}

#[test]
fn limits_are_kept(rt: HostRuntime) -> Result<(), Fail> {
    for (limits, want) in [
        ((4, 2), "refused F19 at 6\nok 1\n0,0\n"),
        ((5, 2), "refused F20 at 6\nok 1\n0,0\n"),
        ((5, 3), "ok 1\n4,5,3\nok 1\n5,3\n"),
    ] {
        check_under(&rt, limits, &[("load S1.csv\ncount", want)])?;
    }
    Ok(())
}

/// What the example adds.
fn load(alloc: Global, db: &mut Db<MemStore>) -> Result<Counts, RunFault> {
    match db.load(alloc, STANDARD.as_bytes()) {
        Ok(counts) => Ok(counts),
        Err(LoadFault::Run(fault)) => Err(fault),
        Err(LoadFault::Refused { .. }) => Err(RunFault::Failed),
    }
}

/// What a database says of itself.
fn count(alloc: Global, db: &mut Db<MemStore>) -> Result<Vec<u8>, RunFault> {
    db.command(alloc, &Command::Count, &Files::new(alloc))
}

/// Whether the example adds its records, legs and features, and a database then says so of itself.
fn counts(alloc: Global, db: &mut Db<MemStore>) -> Result<bool, RunFault> {
    let want = Counts {
        records: 4,
        legs: 5,
        features: 3,
    };
    if load(alloc, db)? != want {
        return Ok(false);
    }
    Ok(count(alloc, db)?.as_slice() == b"ok 1\n5,3\n".as_slice())
}

/// The same of a new database.
fn load_and_count(alloc: Global, keys: RandomState) -> Result<bool, RunFault> {
    match database(alloc, keys, MemStore::new(alloc, 1_000_000), (2, 2, 1)) {
        Ok(mut db) => counts(alloc, &mut db),
        Err(fault) => Err(fault),
    }
}

#[test]
fn a_file_is_loaded_and_a_command_answered(rt: HostRuntime) -> Result<(), Fail> {
    let (alloc, keys) = (rt.alloc(), RandomState::new(&rt)?);
    let told = match load_and_count(alloc, keys) {
        // One allocation was refused.
        Err(RunFault::Memory | RunFault::Store) => load_and_count(alloc, keys),
        told => told,
    };
    assert!(rt; told == Ok(true));
    Ok(())
}

/// Files in three dimensions.
const IN_SPACE: [(&str, &str); 6] = [
    (
        "load up\ntrajectory u\nbox 0 0 1 1 2020-01-01T00:00:00Z 2020-01-01T00:00:01Z\n",
        "ok 1\n1,1,1\nok 1\nu,0,1,0 0 5 1 1 6\nok 1\nu,0,1,0 0 5 1 1 6\n",
    ),
    (
        "load up\nwrite\n",
        "ok 1\n1,1,1\nok 3\n@stboundedby,local,3D,0 0 5,1 1 6,2020-01-01T00:00:00.000Z,2020-01-01T00:00:01.000Z,sec\n@columns,mfidref,trajectory\nu,0,1,0 0 5 1 1 6\n",
    ),
    (
        "load still in space\ntrajectory s\n",
        "ok 1\n1,1,1\nok 1\ns,0,5,7 8 9 7 8 9\n",
    ),
    (
        "load short in space\nload four dimensions\n",
        "refused F16 at 3\nrefused F4 at 1\n",
    ),
    (
        "load heads\nload heads in space\n",
        "ok 1\n0,0,0\nrefused F9 at 1\n",
    ),
    (
        "load heads in space\nwrite\n",
        "ok 1\n0,0,0\nok 2\n@stboundedby,local,3D,0 0 0,0 0 0,2020-01-01T00:00:00.000Z,2020-01-01T00:00:00.000Z,sec\n@columns,mfidref,trajectory\n",
    ),
];

#[test]
fn a_third_dimension_is_kept(rt: HostRuntime) -> Result<(), Fail> {
    check(&rt, &IN_SPACE)
}

/// Files in other units.
const UNITS: [(&str, &str); 4] = [
    (
        "load minutes\ntrajectory m\n",
        "ok 1\n1,1,1\nok 1\nm,30,60,0 0 1 1\n",
    ),
    (
        "load instants\ntrajectory m\n",
        "ok 1\n1,1,1\nok 1\nm,1,2,0 0 1 1\n",
    ),
    (
        "load hours\nload no instants\n",
        "refused F6 at 1\nrefused F13 at 3\n",
    ),
    (
        "load S1.csv\nload S1 goes on\ntrajectory b\n",
        "ok 1\n4,5,3\nok 1\n1,1,1\nok 2\nb,10,190,10 2 11 3,walking,2\nb,240,300,11 3 12 3,,\n",
    ),
];

#[test]
fn times_count_by_the_unit_of_their_file(rt: HostRuntime) -> Result<(), Fail> {
    check(&rt, &UNITS)
}
