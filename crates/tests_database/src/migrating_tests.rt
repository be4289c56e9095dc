//! A store of version 1 that is brought over.
use crate::lasting_tests::{
    change, check, close, is_counted, is_said, opened, refused as not_opened,
};
use crate::version_1::version_1;
use pages::{Fuse, MemStore, PageStore};
use sessions::Migrate;
use std::alloc::Global;
use std::hash::RandomState;
use std::test::Fail;
use trajdb::{Db, OpenFault, Report, RunFault};

/// The questions of the example.
const QUESTIONS: &str = "\
count
legs ever 11.5 2.5 13 4 2012-01-17T12:33:41Z 2012-01-17T12:37:00Z
features crosses 11.5 2.5 13 4 2012-01-17T12:33:41Z 2012-01-17T12:37:00Z
legs enters 11.5 2.5 13 4 2012-01-17T12:33:41Z 2012-01-17T12:37:00Z
legs leaves 11.5 2.5 13 4 2012-01-17T12:33:41Z 2012-01-17T12:37:00Z
legs crosses 11.5 2.5 13 4 2012-01-17T12:33:41Z 2012-01-17T12:37:00Z
features always 10 2 11 3 2012-01-17T12:33:41Z 2012-01-17T12:37:00Z
features enters 10 2 11 3 2012-01-17T12:33:41Z 2012-01-17T12:37:00Z
features ever 10 2 11 3 2012-01-17T12:33:41Z 2012-01-17T12:37:00Z
write
load S1.csv
";

const ANSWERS: &str = "\
ok 1
5,3
ok 2
a,10,150,11 2 12 3,walking,1
a,150,190,12 3 10 3,walking,2
ok 1
a
ok 1
a,10,150,11 2 12 3,walking,1
ok 1
a,150,190,12 3 10 3,walking,2
ok 0
ok 1
b
ok 1
c
ok 3
a
b
c
ok 7
@stboundedby,urn:x-ogc:def:crs:EPSG:6.6:4326,2D,10 1,12 3,2012-01-17T12:33:41.000Z,2012-01-17T12:36:51.000Z,sec
@columns,mfidref,trajectory,state,xsd:token,type code,xsd:integer
a,10,150,11 2 12 3,walking,1
b,10,190,10 2 11 3,walking,2
a,150,190,12 3 10 3,walking,2
c,10,100,12 1 10 2,vehicle,1
c,100,190,10 2 11 3,vehicle,1
refused F18 at 3
";

/// A store of version 1 brought over into another one, with so many pages in memory, or why it is
/// not, with what is left.
fn migrated<S: PageStore, T: PageStore + Drop>(
    alloc: Global,
    keys: RandomState,
    old: &mut S,
    new: T,
    cache_pages: usize,
) -> Result<Db<T>, (T, OpenFault)> {
    if new.len() != 0 {
        return Err((new, OpenFault::Malformed));
    }
    Db::migrate(alloc, keys, old, new, cache_pages.max(1))
}

/// Whether two stores have the same pages.
fn are_same(a: &mut MemStore, b: &mut MemStore) -> Option<bool> {
    if a.len() != b.len() {
        return Some(false);
    }
    let (mut left, mut right) = ([0; 4096], [0; 4096]);
    for number in 0..a.len() {
        if number < a.len() && number < b.len() {
            a.read(number, &mut left).ok()?;
            b.read(number, &mut right).ok()?;
            if left != right {
                return Some(false);
            }
        }
    }
    Some(true)
}

#[test]
fn a_store_of_version_1_is_not_opened(rt: HostRuntime) -> Result<(), Fail> {
    let (alloc, keys) = (rt.alloc(), RandomState::new(&rt)?);
    let store = version_1(alloc).ok_or("no store")?;
    assert!(rt; not_opened(alloc, keys, store) == Some(OpenFault::Version));
    Ok(())
}

/// What is left of a new store into which nothing was brought over.
#[derive(Clone, Copy, PartialEq, Eq)]
enum Left {
    /// No page.
    Nothing,
    /// A store that is not finished.
    Unfinished,
    /// Page 0 alone.
    First,
    /// Anything else.
    More,
}

fn what_is_left<T: PageStore + Drop>(alloc: Global, keys: RandomState, store: T) -> Left {
    let pages = store.len();
    match not_opened(alloc, keys, store) {
        _ if pages == 0 => Left::Nothing,
        Some(OpenFault::Unfinished) => Left::Unfinished,
        Some(OpenFault::Damaged(0)) if pages == 1 => Left::First,
        _ => Left::More,
    }
}

/// Why a store of version 1 is not brought over, if it is not, and what is left of the new one.
fn refused<S: PageStore>(
    alloc: Global,
    keys: RandomState,
    old: &mut S,
) -> Option<(OpenFault, Left)> {
    let (new, fault) = migrated(alloc, keys, old, MemStore::new(alloc, 100), 1).err()?;
    Some((fault, what_is_left(alloc, keys, new)))
}

/// Whether the questions of the example have their answers.
fn is_answered<S: PageStore>(alloc: Global, db: &mut Db<S>) -> bool {
    is_said(alloc, db, QUESTIONS, ANSWERS) == Ok(true)
}

/// The store into which a store was brought over, asked and closed.
fn brought(alloc: Global, keys: RandomState, old: &mut MemStore) -> Option<MemStore> {
    let mut db = migrated(alloc, keys, old, MemStore::new(alloc, 100), 1).ok()?;
    let is_answered = is_answered(alloc, &mut db);
    match close(alloc, db) {
        (store, Ok(())) if is_answered => Some(store),
        _ => None,
    }
}

/// Whether a store has the pages of version 1.
fn is_unchanged(alloc: Global, old: &mut MemStore) -> Option<bool> {
    are_same(old, &mut version_1(alloc)?)
}

/// The store into which the example was brought over, asked and closed, where the old one was not
/// changed by it.
fn brought_over(alloc: Global, keys: RandomState) -> Option<MemStore> {
    let mut old = version_1(alloc)?;
    let store = brought(alloc, keys, &mut old)?;
    match is_unchanged(alloc, &mut old) {
        Some(true) => Some(store),
        _ => None,
    }
}

/// What a check finds in that store once it is opened and answers, and the store as it is left then.
fn kept(alloc: Global, keys: RandomState) -> Option<(bool, Result<Report, RunFault>, MemStore)> {
    let mut db = opened(alloc, keys, brought_over(alloc, keys)?, 2).ok()?;
    let is_answered = is_answered(alloc, &mut db);
    let report = check(&mut db);
    Some((is_answered, report, db.abandon()))
}

/// Whether it answers, is found whole, and is not brought over again, since it is of the present version.
fn is_kept(alloc: Global, keys: RandomState) -> Option<bool> {
    let (is_answered, report, mut store) = kept(alloc, keys)?;
    let wanted = Report {
        pages: 6,
        legs: 5,
        features: 3,
    };
    let again = refused(alloc, keys, &mut store);
    let is_refused = again == Some((OpenFault::Version, Left::Nothing));
    Some(is_answered && report == Ok(wanted) && is_refused)
}

#[test]
fn the_example_is_brought_over(rt: HostRuntime) -> Result<(), Fail> {
    let (alloc, keys) = (rt.alloc(), RandomState::new(&rt)?);
    assert!(rt; is_kept(alloc, keys) == Some(true));
    Ok(())
}

/// Bytes at places of page 0, and why nothing is brought over: the magic, the version and the state.
const HEADERS: [(&[(usize, u8)], OpenFault); 4] = [
    (&[(0, 0), (11, 0)], OpenFault::Malformed),
    (&[(7, 2), (11, 0)], OpenFault::Version),
    (&[(11, 0)], OpenFault::Unfinished),
    (&[(11, 2)], OpenFault::Malformed),
];

/// Why the example is not brought over where page 0 has these bytes, and what is left then.
fn refused_with(
    alloc: Global,
    keys: RandomState,
    bytes: &[(usize, u8)],
) -> Option<(OpenFault, Left)> {
    let mut old = version_1(alloc)?;
    change(&mut old, bytes)?;
    refused(alloc, keys, &mut old)
}

/// The first of these with which it is refused otherwise, if any.
fn wrong_header(alloc: Global, keys: RandomState) -> Option<usize> {
    for (at, (bytes, fault)) in HEADERS.iter().enumerate() {
        if refused_with(alloc, keys, bytes) != Some((*fault, Left::Nothing)) {
            return Some(at);
        }
    }
    None
}

#[test]
fn page_0_is_tested_first(rt: HostRuntime) -> Result<(), Fail> {
    let (alloc, keys) = (rt.alloc(), RandomState::new(&rt)?);
    assert_eq!(rt; wrong_header(alloc, keys), None);
    let mut none = MemStore::new(alloc, 10);
    let told = refused(alloc, keys, &mut none);
    assert!(rt; told == Some((OpenFault::Malformed, Left::Nothing)));
    Ok(())
}

/// Pages that are damaged, and what is left then. Page 0 and the catalogue are read before the new store is begun, the
/// leaves after it, and the root not at all.
const DAMAGED: [(u32, Option<Left>); 6] = [
    (0, Some(Left::Nothing)),
    (1, Some(Left::Unfinished)),
    (2, Some(Left::Unfinished)),
    (3, None),
    (4, Some(Left::Unfinished)),
    (5, Some(Left::Nothing)),
];

/// Why the example is not brought over, if it is not, where that page is damaged.
fn refused_damaged(
    alloc: Global,
    keys: RandomState,
    page: u32,
) -> Option<Option<(OpenFault, Left)>> {
    let mut old = version_1(alloc)?;
    if page >= old.len() {
        return None;
    }
    old.set_byte(page, 100, 1);
    Some(refused(alloc, keys, &mut old))
}

/// The first of these of which something else is said, if any.
fn wrong_damage(alloc: Global, keys: RandomState) -> Option<u32> {
    for (page, left) in &DAMAGED {
        let wanted = match left {
            Some(left) => Some((OpenFault::Damaged(*page), *left)),
            None => None,
        };
        if refused_damaged(alloc, keys, *page) != Some(wanted) {
            return Some(*page);
        }
    }
    None
}

#[test]
fn a_page_that_is_damaged_is_said(rt: HostRuntime) -> Result<(), Fail> {
    let (alloc, keys) = (rt.alloc(), RandomState::new(&rt)?);
    assert_eq!(rt; wrong_damage(alloc, keys), None);
    Ok(())
}

/// Why a store is not brought over into a new one that fails, if it is not, and what is left of
/// that.
fn refused_new(
    alloc: Global,
    keys: RandomState,
    old: &mut MemStore,
    new: Fuse<MemStore>,
) -> Option<(OpenFault, Left)> {
    let (new, fault) = migrated(alloc, keys, old, new, 1).err()?;
    Some((fault, what_is_left(alloc, keys, new.into_inner())))
}

/// Why nothing is brought over into a new store that fails once, or for good, when so many of its calls have passed, and
/// what is left.
fn fused_new(
    alloc: Global,
    keys: RandomState,
    calls: u64,
    once: bool,
) -> Option<Option<(OpenFault, Left)>> {
    let mut old = version_1(alloc)?;
    let new = Fuse::new(MemStore::new(alloc, 100), calls, once);
    Some(refused_new(alloc, keys, &mut old, new))
}

/// The same where the old store fails so, or the new one.
fn fused(
    alloc: Global,
    keys: RandomState,
    (calls, once, is_old): (u64, bool, bool),
) -> Option<Option<(OpenFault, Left)>> {
    if !is_old {
        return fused_new(alloc, keys, calls, once);
    }
    let mut old = Fuse::new(version_1(alloc)?, calls, once);
    Some(refused(alloc, keys, &mut old))
}

/// With how many of 60 calls it is brought over; `None` where it is refused for something else than the store, leaves
/// more, or is refused though fewer calls would do.
fn whole_of(alloc: Global, keys: RandomState, (once, is_old): (bool, bool)) -> Option<u32> {
    let mut whole = 0u32;
    for calls in 0..60 {
        match fused(alloc, keys, (calls, once, is_old))? {
            None => whole = whole.saturating_add(1),
            Some((OpenFault::Store, left)) if left != Left::More && whole == 0 => {}
            Some(_) => return None,
        }
    }
    Some(whole)
}

#[test]
fn each_call_of_either_store_may_fail(rt: HostRuntime) -> Result<(), Fail> {
    let (alloc, keys) = (rt.alloc(), RandomState::new(&rt)?);
    for once in [true, false] {
        // Page 0, the catalogue, and three leaves twice, are eight calls of the old store.
        assert!(rt; whole_of(alloc, keys, (once, true)) == Some(52));
        let whole = whole_of(alloc, keys, (once, false)).unwrap_or(0);
        assert!(rt; 0 < whole && whole < 55, "{whole}");
    }
    Ok(())
}

/// Whether a store is brought over and its legs and features are the example's, or memory runs out. A store in memory fails
/// where it finds no room for a page.
fn is_brought(alloc: Global, keys: RandomState, old: &mut MemStore) -> bool {
    match migrated(alloc, keys, old, MemStore::new(alloc, 100), 1) {
        Ok(mut db) => is_counted(alloc, &mut db),
        Err((_, fault)) => fault == OpenFault::Memory || fault == OpenFault::Store,
    }
}

/// Passes wherever memory runs out, too; it is run with each allocation refused in turn.
#[test]
fn no_wrong_store_without_memory(rt: HostRuntime) -> Result<(), Fail> {
    let alloc = rt.alloc();
    let keys = match RandomState::new(&rt) {
        Ok(keys) => keys,
        Err(_) => RandomState::new(&rt)?,
    };
    if let Some(mut old) = version_1(alloc) {
        assert!(rt; is_brought(alloc, keys, &mut old));
    }
    Ok(())
}
