//! Databases that are checked.
use crate::lasting_tests::{check, close, closed, loaded, opened, payload_of, put, said};
use crate::run_tests::database;
use pages::{Fuse, MemStore, PageStore};
use std::alloc::Global;
use std::hash::RandomState;
use std::test::Fail;
use tbnode::fields::put_u32;
use trajdb::{Db, Report, RunFault};

/// A report of so many pages, legs and features.
fn found(pages: u32, legs: u64, features: u64) -> Result<Report, RunFault> {
    Ok(Report {
        pages,
        legs,
        features,
    })
}

/// What two checks find of the example where it was loaded, and the store as it is closed then.
fn checks_of_the_example(
    alloc: Global,
    keys: RandomState,
) -> Option<([Result<Report, RunFault>; 2], MemStore)> {
    let mut db = loaded(alloc, keys, MemStore::new(alloc, 100)).ok()?;
    let told = [check(&mut db), check(&mut db)];
    Some((told, close(alloc, db).0))
}

/// What they find of a database, and where a leg more is loaded into it.
fn checks_with_more(alloc: Global, db: &mut Db<MemStore>) -> Option<[Result<Report, RunFault>; 2]> {
    let first = check(db);
    said(alloc, db, "load more.csv").1.ok()?;
    Some([first, check(db)])
}

/// The same of that store where it is opened.
fn checks_of_the_opened(
    alloc: Global,
    keys: RandomState,
    store: MemStore,
) -> Option<[Result<Report, RunFault>; 2]> {
    let mut db = opened(alloc, keys, store, 1).ok()?;
    checks_with_more(alloc, &mut db)
}

/// Whether all four find what they should.
fn passes(alloc: Global, keys: RandomState) -> Option<bool> {
    let (loaded, store) = checks_of_the_example(alloc, keys)?;
    let opened = checks_of_the_opened(alloc, keys, store)?;
    let is_loaded = loaded == [found(5, 5, 3), found(5, 5, 3)];
    Some(is_loaded && opened == [found(6, 5, 3), found(7, 6, 4)])
}

#[test]
fn the_example_passes(rt: HostRuntime) -> Result<(), Fail> {
    let (alloc, keys) = (rt.alloc(), RandomState::new(&rt)?);
    assert!(rt; passes(alloc, keys) == Some(true));
    Ok(())
}

/// A page that lies, the place and the value of four bytes of its payload, and the page that is
/// named.
///
/// The leaves of the example are the pages 1, 2 and 4, the root is page 3, and page 5 has the
/// catalogue: of the first feature it has the last end at place 151 of the payload, then the first
/// and the last leaf and the number of that one, four bytes each, and the number of its legs.
const LIES: [(u32, usize, u32, u32); 13] = [
    // A leaf of 51 legs, one whose next one is itself, and one of another feature.
    (1, 12, 0x0033_0000, 1),
    (4, 8, 4, 4),
    (2, 0, 2, 2),
    // A leg has the ordinal of another one, and one no row.
    (2, 20, 2, 0),
    (2, 88, 4, 2),
    // An inner page names itself; a box is too wide by one unit, and too narrow by one.
    (3, 16, 3, 3),
    (3, 52, 0x0727_0e01, 3),
    (3, 52, 0x0727_0dff, 3),
    // There are a leaf more and a level more than page 0 says, and a level fewer.
    (0, 40, 2, 0),
    (0, 36, 1, 0),
    (0, 36, 3, 0),
    // A feature ends a millisecond later, and its last leaf has another number.
    (5, 155, 0xebab_7ab9, 1),
    (5, 167, 1, 0),
];

/// Puts a value at a place of the payload of a page, under a right seal.
fn lie(store: &mut MemStore, number: u32, place: usize, value: u32) -> Option<()> {
    if place > 4000 {
        return None;
    }
    let mut payload = payload_of(store, number)?;
    put_u32(&mut payload.bytes, place, value);
    put(store, number, &payload)
}

/// Damages a page.
fn damage(store: &mut MemStore, number: u32) -> Option<()> {
    if number >= store.len() {
        return None;
    }
    store.set_byte(number, 100, 255);
    Some(())
}

/// All questions about the example.
const QUESTIONS: &str = "\
count
box 11.5 2.5 13 4 2012-01-17T12:33:41Z 2012-01-17T12:37:00Z
legs ever 11.5 2.5 13 4 2012-01-17T12:33:41Z 2012-01-17T12:37:00Z
trajectory a
trajectory c
features crosses 11.5 2.5 13 4 2012-01-17T12:33:41Z 2012-01-17T12:37:00Z
write
";

/// Which page a line names, 0 where it is answered, and 9 where it is refused otherwise.
fn named_by(alloc: Global, db: &mut Db<MemStore>, line: &str) -> u32 {
    match said(alloc, db, line).1 {
        Ok(()) => 0,
        Err(RunFault::Damaged(page)) => page,
        Err(_) => 9,
    }
}

/// Which page each question names.
fn named(alloc: Global, db: &mut Db<MemStore>) -> [u32; 7] {
    let mut pages = [9; 7];
    for (page, question) in pages.iter_mut().zip(QUESTIONS.split('\n')) {
        *page = named_by(alloc, db, question);
    }
    pages
}

/// The example, closed and opened, with a damaged page, or with a value at a place of it under a right seal.
fn altered(
    alloc: Global,
    keys: RandomState,
    number: u32,
    value: Option<(usize, u32)>,
) -> Option<Db<MemStore>> {
    let (mut store, _) = closed(alloc, keys, 100).ok()?;
    match value {
        Some((place, value)) => lie(&mut store, number, place, value)?,
        None => damage(&mut store, number)?,
    }
    opened(alloc, keys, store, 1).ok()
}

/// Whether a check names a page, and each question is answered or names one.
fn is_named(alloc: Global, db: &mut Db<MemStore>, page: u32) -> bool {
    check(db) == Err(RunFault::Damaged(page)) && named(alloc, db).iter().all(|page| *page < 9)
}

/// The same over the example with such a page.
fn is_lie_named(
    alloc: Global,
    keys: RandomState,
    (number, place, value, named): (u32, usize, u32, u32),
) -> Option<bool> {
    let mut db = altered(alloc, keys, number, Some((place, value)))?;
    Some(is_named(alloc, &mut db, named))
}

/// The first of these pages that is not named so, if any.
fn wrong_lie(alloc: Global, keys: RandomState) -> Option<usize> {
    for (at, lie) in LIES.iter().enumerate() {
        if is_lie_named(alloc, keys, *lie) != Some(true) {
            return Some(at);
        }
    }
    None
}

#[test]
fn pages_that_lie_are_named(rt: HostRuntime) -> Result<(), Fail> {
    let (alloc, keys) = (rt.alloc(), RandomState::new(&rt)?);
    assert_eq!(rt; wrong_lie(alloc, keys), None);
    Ok(())
}

/// The leaf of the first feature, and the root, each damaged, and malformed under a right seal. The
/// trajectory of the last feature meets neither, and `features` and `trajectory` do not meet the root.
const DAMAGE: [(u32, Option<(usize, u32)>, [u32; 7]); 4] = [
    (1, None, [0, 1, 1, 1, 0, 1, 1]),
    (1, Some((12, 0x0033_0000)), [0, 1, 1, 1, 0, 1, 1]),
    (3, None, [0, 3, 3, 0, 0, 0, 3]),
    (3, Some((16, 3)), [0, 3, 3, 0, 0, 0, 3]),
];

/// Which page each question names over such a page.
fn named_over(
    alloc: Global,
    keys: RandomState,
    page: u32,
    value: Option<(usize, u32)>,
) -> Option<[u32; 7]> {
    let mut db = altered(alloc, keys, page, value)?;
    Some(named(alloc, &mut db))
}

/// The first of these over which a question names another page, if any.
fn wrong_name(alloc: Global, keys: RandomState) -> Option<usize> {
    for (at, (page, value, wanted)) in DAMAGE.iter().enumerate() {
        if named_over(alloc, keys, *page, *value) != Some(*wanted) {
            return Some(at);
        }
    }
    None
}

#[test]
fn a_question_over_damage_names_it(rt: HostRuntime) -> Result<(), Fail> {
    let (alloc, keys) = (rt.alloc(), RandomState::new(&rt)?);
    assert_eq!(rt; wrong_name(alloc, keys), None);
    Ok(())
}

/// Pages of the example that are damaged, or malformed under a right seal, what is loaded then, and the page that is
/// named, 0 where it is loaded. A leg of the first feature goes by the root to leaf 1; a new leaf gets an entry of the root.
const PUT: [(u32, Option<(usize, u32)>, &str, u32); 8] = [
    (1, None, "load again.csv", 1),
    (1, Some((12, 0x0033_0000)), "load again.csv", 1),
    (2, None, "load again.csv", 0),
    (3, None, "load again.csv", 3),
    // The root is one level too high.
    (3, Some((0, 0x0003_0002)), "load again.csv", 3),
    // The root's first entry names the root: the place's last leaf is not the one to which the way leads.
    (3, Some((16, 3)), "load again.csv", 1),
    (1, None, "load more.csv", 0),
    (3, None, "load more.csv", 3),
];

/// Which page a load names over such a page.
fn named_by_load(
    alloc: Global,
    keys: RandomState,
    (page, value): (u32, Option<(usize, u32)>),
    load: &str,
) -> Option<u32> {
    let mut db = altered(alloc, keys, page, value)?;
    Some(named_by(alloc, &mut db, load))
}

/// The first of these loads that names another page, if any.
fn wrong_load(alloc: Global, keys: RandomState) -> Option<usize> {
    for (at, (page, value, load, wanted)) in PUT.iter().enumerate() {
        if named_by_load(alloc, keys, (*page, *value), load) != Some(*wanted) {
            return Some(at);
        }
    }
    None
}

#[test]
fn a_load_over_damage_names_it(rt: HostRuntime) -> Result<(), Fail> {
    let (alloc, keys) = (rt.alloc(), RandomState::new(&rt)?);
    assert_eq!(rt; wrong_load(alloc, keys), None);
    Ok(())
}

/// The store of the example and a leg more of its first feature in leaves of two legs.
fn in_small_leaves(alloc: Global, keys: RandomState) -> Option<MemStore> {
    let mut db = database(alloc, keys, MemStore::new(alloc, 100), (2, 2, 256)).ok()?;
    let loaded = said(alloc, &mut db, "load S1.csv\nload again.csv").1;
    let (store, _) = close(alloc, db);
    match loaded {
        Ok(()) => Some(store),
        Err(_) => None,
    }
}

/// The same, opened, with that feature's first leaf damaged.
fn with_a_damaged_first_leaf(alloc: Global, keys: RandomState) -> Option<Db<MemStore>> {
    let mut store = in_small_leaves(alloc, keys)?;
    damage(&mut store, 1)?;
    opened(alloc, keys, store, 1).ok()
}

/// Which page a third leg of that feature names then.
fn named_by_a_third(alloc: Global, keys: RandomState) -> Option<u32> {
    let mut db = with_a_damaged_first_leaf(alloc, keys)?;
    Some(named_by(alloc, &mut db, "load third.csv"))
}

#[test]
fn a_load_looks_at_no_leaf_but_the_last(rt: HostRuntime) -> Result<(), Fail> {
    let (alloc, keys) = (rt.alloc(), RandomState::new(&rt)?);
    assert_eq!(rt; named_by_a_third(alloc, keys), Some(0));
    Ok(())
}

/// Exchanges the first two entries of the root, page 3, under a right seal.
fn exchange(store: &mut MemStore) -> Option<()> {
    let mut payload = payload_of(store, 3)?;
    let mut first = [0; 56];
    first.copy_from_slice(&payload.bytes[16..72]);
    payload.bytes.copy_within(72..128, 16);
    payload.bytes[72..128].copy_from_slice(&first);
    put(store, 3, &payload)
}

/// The example with these entries exchanged, opened.
fn exchanged(alloc: Global, keys: RandomState) -> Option<Db<MemStore>> {
    let (mut store, _) = closed(alloc, keys, 100).ok()?;
    exchange(&mut store)?;
    opened(alloc, keys, store, 256).ok()
}

/// What a check answers then.
fn checked_exchange(alloc: Global, keys: RandomState) -> Option<Result<Report, RunFault>> {
    let mut db = exchanged(alloc, keys)?;
    Some(check(&mut db))
}

#[test]
fn entries_in_another_order_are_told(rt: HostRuntime) -> Result<(), Fail> {
    let (alloc, keys) = (rt.alloc(), RandomState::new(&rt)?);
    assert!(rt; checked_exchange(alloc, keys) == Some(Err(RunFault::Damaged(3))));
    Ok(())
}

/// How a check went over a store that fails, once or for good.
#[derive(Clone, Copy)]
enum Checked {
    /// There is no database to check.
    Nothing,
    /// It found the example.
    Passed,
    /// The store failed, and, asked again, it found the example, or the store had failed for good.
    Again,
    /// A store that fails once failed to sync, and is refused when it is asked again: no sync is answered behind that.
    Lost,
    /// Neither.
    Wrong,
}

/// Checks a database of the example with so many pages.
fn check_twice<S: PageStore>(db: &mut Db<S>, pages: u32, once: bool) -> Checked {
    let report = check(db);
    if report == found(pages, 5, 3) {
        return Checked::Passed;
    }
    if report != Err(RunFault::Store) {
        return Checked::Wrong;
    }
    let again = check(db);
    if again == Err(RunFault::Store) {
        return if once { Checked::Lost } else { Checked::Again };
    }
    if once && again == found(pages, 5, 3) {
        Checked::Again
    } else {
        Checked::Wrong
    }
}

/// Checks a database where there is one.
fn check_any(db: Option<Db<Fuse<MemStore>>>, pages: u32, once: bool) -> Checked {
    match db {
        Some(mut db) => check_twice(&mut db, pages, once),
        None => Checked::Nothing,
    }
}

/// Checks the example as it is loaded over a store that fails when so many calls have passed.
fn checked_loaded(alloc: Global, keys: RandomState, calls: u64, once: bool) -> Checked {
    let store = Fuse::new(MemStore::new(alloc, 100), calls, once);
    check_any(loaded(alloc, keys, store).ok(), 5, once)
}

/// Checks the example as it is closed, and opened over such a store.
fn checked_opened(alloc: Global, keys: RandomState, calls: u64, once: bool) -> Checked {
    match closed(alloc, keys, 100) {
        Ok((store, _)) => {
            let store = Fuse::new(store, calls, once);
            check_any(opened(alloc, keys, store, 1).ok(), 6, once)
        }
        Err(_) => Checked::Wrong,
    }
}

/// Checks the example in one of these two ways.
fn checked_over(
    alloc: Global,
    keys: RandomState,
    calls: u64,
    (is_loaded, once): (bool, bool),
) -> Checked {
    if is_loaded {
        checked_loaded(alloc, keys, calls, once)
    } else {
        checked_opened(alloc, keys, calls, once)
    }
}

/// How often of 60 calls a check is asked again and goes well, is lost, and passes at once; `None` where one goes wrong.
fn count(alloc: Global, keys: RandomState, how: (bool, bool)) -> Option<(u32, u32, u32)> {
    let (mut again, mut lost, mut passed) = (0u32, 0u32, 0u32);
    for calls in 0..60 {
        match checked_over(alloc, keys, calls, how) {
            Checked::Nothing => {}
            Checked::Passed => passed = passed.saturating_add(1),
            Checked::Again => again = again.saturating_add(1),
            Checked::Lost => lost = lost.saturating_add(1),
            Checked::Wrong => return None,
        }
    }
    Some((again, lost, passed))
}

/// Whether both ways go so. Loaded, the three leaves are as they were added; the root, which has had its third entry since,
/// is written, and all is made to last. Opened, all is made to last, and the six pages are read for their seals, then page
/// 0, the three leaves and the root. A `sync` that failed once is the one call after which no check passes.
fn is_asked_again(alloc: Global, keys: RandomState, once: bool) -> Option<bool> {
    let (again, lost, passed) = count(alloc, keys, (true, once))?;
    let (more, as_lost, as_well) = count(alloc, keys, (false, once))?;
    let (wanted, syncs) = if once { (1, 1) } else { (2, 0) };
    let is_loaded = again == wanted && lost == syncs && passed > 0;
    let is_opened = more > 10 && as_lost == syncs && as_well > 0;
    Some(is_loaded && is_opened)
}

#[test]
fn a_check_of_a_store_that_fails_is_asked_again(rt: HostRuntime) -> Result<(), Fail> {
    let (alloc, keys) = (rt.alloc(), RandomState::new(&rt)?);
    for once in [true, false] {
        assert!(rt; is_asked_again(alloc, keys, once) == Some(true));
    }
    Ok(())
}
