//! Worked calls over a store in memory, over one that fails at each call in turn, and without memory.
ghost use Rattle.std.specs.Prelude.{◌<◌};

use crate::cached_bytes::{byte, set_byte};
use pagecache::{CacheFault, Memory, PageCache};
use pages::{Fuse, Kind, MemStore, PageStore, Payload, seal};
use std::alloc::Global;
use std::test::Fail;

/// The place of the byte that the tests write.
const PLACE: usize = 7;

fn cache_over<S: PageStore + Drop>(
    alloc: Global,
    store: S,
    capacity: usize,
) -> Result<PageCache<S>, Memory>
    requires { 0 < capacity }
{
    match PageCache::new(alloc, store, capacity) {
        Ok(cache) => Ok(cache),
        Err((_, error)) => Err(error),
    }
}

#[test]
fn two_pages_in_turn(rt: HostRuntime) -> Result<(), Fail> {
    let mut cache = cache_over(rt.alloc(), MemStore::new(rt.alloc(), 10), 1)?;
    assert!(rt; cache.count() == 0 && cache.held() == 0 && cache.asked() == 0);
    assert!(rt; cache.add_page(Kind::Leaf) == Ok(0));
    assert!(rt; cache.add_page(Kind::Inner) == Ok(1));
    assert!(rt; set_byte(&mut cache, 0, PLACE, 1) == Ok(()));
    assert!(rt; set_byte(&mut cache, 1, PLACE, 2) == Ok(()));
    assert!(rt; cache.flush() == Ok(()));
    assert!(rt; byte(&mut cache, 0, PLACE) == Ok(1));
    assert!(rt; byte(&mut cache, 1, PLACE) == Ok(2));
    assert!(rt; byte(&mut cache, 2, PLACE) == Err(CacheFault::NoPage));
    assert!(rt; set_byte(&mut cache, 2, PLACE, 1) == Err(CacheFault::NoPage));
    assert!(rt; cache.asked() == 8 && cache.count() == 2 && cache.held() == 1);
    Ok(())
}

/// A leaf's payload with one byte, and zeros beside it.
fn with_byte(value: u8) -> Payload {
    let mut payload = Payload::zero(Kind::Leaf);
    payload.bytes[PLACE] = value;
    payload
}

/// Adds a leaf's page with one byte, which is to change or is not.
fn add(
    cache: &mut PageCache<Fuse<MemStore>>,
    is_to_change: bool,
    value: u8,
) -> Result<u32, CacheFault> {
    if is_to_change {
        cache.add_changed(with_byte(value))
    } else {
        cache.add(with_byte(value))
    }
}

// A page that is added is one call of the store. One that is to change is a second call when it is flushed; what
// stands there is not written again. So many calls and no more: the next one, by which the store lasts, fails.
fn adding_is_so_many_calls(alloc: Global, is_to_change: bool, calls: u64) -> Result<bool, Memory> {
    let store = Fuse::new(MemStore::new(alloc, 10), calls, false);
    let mut cache = cache_over(alloc, store, 1)?;
    Ok(
        add(&mut cache, is_to_change, 3) == Ok(0)
            && cache.flush() == Ok(())
            && cache.flush() == Err(CacheFault::Store),
    )
}

// The store fails the first call: no page is there, and the next one gets the number.
fn failed_adding_adds_none(alloc: Global, is_to_change: bool) -> Result<bool, Memory> {
    let store = Fuse::new(MemStore::new(alloc, 10), 0, true);
    let mut cache = cache_over(alloc, store, 1)?;
    Ok(
        add(&mut cache, is_to_change, 3) == Err(CacheFault::Store)
            && cache.count() == 0
            && add(&mut cache, is_to_change, 4) == Ok(0)
            && byte(&mut cache, 0, PLACE) == Ok(4),
    )
}

// Where nothing is flushed the store has no sealed page in its place.
#[test]
fn a_page_that_is_to_change_is_lost_without_a_flush(rt: HostRuntime) -> Result<(), Fail> {
    let mut cache = cache_over(rt.alloc(), MemStore::new(rt.alloc(), 2), 1)?;
    assert!(rt; cache.add_changed(with_byte(3)) == Ok(0));
    assert!(rt; byte(&mut cache, 0, PLACE) == Ok(3));
    let mut again = cache_over(rt.alloc(), cache.into_store(), 1)?;
    assert!(rt; again.count() == 1);
    assert!(rt; byte(&mut again, 0, PLACE) == Err(CacheFault::Damaged(0)));
    Ok(())
}

#[test]
fn pages_are_added_in_so_many_calls(rt: HostRuntime) -> Result<(), Fail> {
    assert!(rt; adding_is_so_many_calls(rt.alloc(), false, 2)?);
    assert!(rt; adding_is_so_many_calls(rt.alloc(), true, 3)?);
    for is_to_change in [false, true] {
        assert!(rt; failed_adding_adds_none(rt.alloc(), is_to_change)?);
    }
    Ok(())
}

/// Writes the seal of a payload under one number as the page of another one.
fn misplace(store: &mut MemStore, number: u32, place: u32) -> bool {
    let page = seal(number, &Payload::zero(Kind::Leaf));
    place <= store.len() && place < store.most() && store.write(place, &page).is_ok()
}

#[test]
fn pages_that_changed_places(rt: HostRuntime) -> Result<(), Fail> {
    let mut store = MemStore::new(rt.alloc(), 10);
    assert!(rt; misplace(&mut store, 1, 0) && misplace(&mut store, 0, 1));
    let mut cache = cache_over(rt.alloc(), store, 1)?;
    assert!(rt; byte(&mut cache, 1, PLACE) == Err(CacheFault::Damaged(1)));
    assert!(rt; byte(&mut cache, 0, PLACE) == Err(CacheFault::Damaged(0)));
    Ok(())
}

// A page is added, a byte is written, and the page added next is failed at one of its two writes.
fn add_is_failed(alloc: Global, calls: u64) -> Result<bool, Memory> {
    let store = Fuse::new(MemStore::new(alloc, 10), calls, true);
    let mut cache = cache_over(alloc, store, 1)?;
    Ok(
        cache.add_page(Kind::Leaf) == Ok(0)
            && set_byte(&mut cache, 0, PLACE, 7) == Ok(())
            && cache.add_page(Kind::Leaf) == Err(CacheFault::Store)
            && cache.count() == 1
            && byte(&mut cache, 0, PLACE) == Ok(7)
            && cache.add_page(Kind::Leaf) == Ok(1)
            && byte(&mut cache, 0, PLACE) == Ok(7),
    )
}

#[test]
fn a_page_is_added_at_the_second_ask(rt: HostRuntime) -> Result<(), Fail> {
    assert!(rt; add_is_failed(rt.alloc(), 1)?);
    assert!(rt; add_is_failed(rt.alloc(), 2)?);
    Ok(())
}

/// What a call answers that is asked again where the store failed.
fn added<S: PageStore>(cache: &mut PageCache<S>) -> Result<u32, CacheFault> {
    match cache.add_page(Kind::Leaf) {
        Err(CacheFault::Store) => cache.add_page(Kind::Leaf),
        answer => answer,
    }
}

fn is_set<S: PageStore>(cache: &mut PageCache<S>, number: u32, value: u8) -> bool {
    match set_byte(cache, number, PLACE, value) {
        Err(CacheFault::Store) => set_byte(cache, number, PLACE, value) == Ok(()),
        answer => answer == Ok(()),
    }
}

fn is_read<S: PageStore>(cache: &mut PageCache<S>, number: u32, value: u8) -> bool {
    match byte(cache, number, PLACE) {
        Err(CacheFault::Store) => byte(cache, number, PLACE) == Ok(value),
        answer => answer == Ok(value),
    }
}

fn is_flushed<S: PageStore>(cache: &mut PageCache<S>) -> bool {
    match cache.flush() {
        Err(CacheFault::Store) => cache.flush() == Ok(()),
        answer => answer == Ok(()),
    }
}

/// How many calls of the store are before its one `sync`: two pages are added, the first is read, written
/// in turn for the second, which is read, and written too.
const BEFORE_SYNC: u64 = 6;

/// Whether all goes well, each call asked again where the store failed it. A `sync` that failed is refused for good.
fn goes_well(alloc: Global, calls: u64) -> Result<bool, Memory> {
    let store = Fuse::new(MemStore::new(alloc, 10), calls, true);
    let mut cache = cache_over(alloc, store, 1)?;
    let is_made = added(&mut cache) == Ok(0) && added(&mut cache) == Ok(1);
    let is_set = is_set(&mut cache, 0, 1) && is_set(&mut cache, 1, 2);
    let is_right = is_flushed(&mut cache) == (calls != BEFORE_SYNC);
    let is_read = is_read(&mut cache, 0, 1) && is_read(&mut cache, 1, 2);
    Ok(is_made && is_set && is_right && is_read && cache.count() == 2)
}

#[test]
fn each_call_of_the_store_fails_once(rt: HostRuntime) -> Result<(), Fail> {
    for calls in 0..12u64 {
        assert!(rt; goes_well(rt.alloc(), calls)?, "at {calls}");
    }
    Ok(())
}

/// What a call answered: `.` for what it should, `S` where the store failed, `N` for no page, `M`
/// for want of memory.
fn letter(answer: Result<bool, CacheFault>) -> u8 {
    match answer {
        Ok(true) => b'.',
        Err(CacheFault::Store) => b'S',
        Err(CacheFault::NoPage) => b'N',
        Err(CacheFault::Memory) => b'M',
        _ => b'?',
    }
}

/// What seven calls answer over a store that fails for good after some calls.
fn letters(alloc: Global, calls: u64) -> Result<[u8; 7], Memory> {
    let store = Fuse::new(MemStore::new(alloc, 10), calls, false);
    let mut cache = cache_over(alloc, store, 1)?;
    let first = letter(cache.add_page(Kind::Leaf).map(|number| number == 0));
    let second = letter(cache.add_page(Kind::Leaf).map(|number| number == 1));
    let third = letter(set_byte(&mut cache, 0, PLACE, 1).map(|()| true));
    let fourth = letter(set_byte(&mut cache, 1, PLACE, 2).map(|()| true));
    let fifth = letter(cache.flush().map(|()| true));
    let sixth = letter(byte(&mut cache, 0, PLACE).map(|value| value == 1));
    let seventh = letter(byte(&mut cache, 1, PLACE).map(|value| value == 2));
    Ok([first, second, third, fourth, fifth, sixth, seventh])
}

/// What they answer after 0 to 9 calls, worked out by hand.
const LETTERS: [[u8; 7]; 10] = [
    *b"SSNNSNN",
    *b".S.NS.N",
    *b"..S.SS.",
    *b"...SS.S",
    *b"...SS.S",
    *b"....SS.",
    *b"....SS.",
    *b".....S.",
    *b"......S",
    *b".......",
];

#[test]
fn the_store_fails_for_good(rt: HostRuntime) -> Result<(), Fail> {
    for (calls, want) in LETTERS.iter().enumerate() {
        assert_eq!(rt; letters(rt.alloc(), calls as u64)?, *want, "at {calls}");
    }
    Ok(())
}

/// Makes a call that a number names, and says whether it answers as the plain map does, which has
/// the byte at `PLACE` of each page. A refused call leaves the map as it was.
fn agrees<S: PageStore>(
    cache: &mut PageCache<S>,
    map: &mut Vec<u8>,
    choice: u32,
) -> Result<bool, CacheFault> {
    let number = choice % 13;
    let value = (choice / 13 % 256) as u8;
    match choice / 4096 % 8 {
        0 => {
            if map.len() >= 12 {
                return Ok(cache.add_page(Kind::Leaf) == Err(CacheFault::StoreFull));
            }
            let added = cache.add_page(Kind::Leaf)?;
            let is_next = added as usize == map.len();
            map.push(0).ok().ok_or(CacheFault::Memory)?;
            Ok(is_next)
        }
        1 => cache.flush().map(|()| true),
        2..=4 => match map.get_mut(number as usize) {
            Some(byte) => {
                set_byte(cache, number, PLACE, value)?;
                *byte = value;
                Ok(true)
            }
            None => Ok(set_byte(cache, number, PLACE, value) == Err(CacheFault::NoPage)),
        },
        _ => match map.get(number as usize) {
            Some(want) => byte(cache, number, PLACE).map(|found| found == *want),
            None => Ok(byte(cache, number, PLACE) == Err(CacheFault::NoPage)),
        },
    }
}

/// How many calls at random answer as a plain map does, and how many are refused, with that many
/// pages in memory.
fn agreeing(alloc: Global, capacity: usize, calls: u32) -> Result<(u32, u32), Memory>
    requires { 0 < capacity }
{
    let mut cache = cache_over(alloc, MemStore::new(alloc, 12), capacity)?;
    let mut map = Vec::with_capacity(alloc, 12)?;
    let mut state = 1u32;
    let (mut right, mut refused) = (0u32, 0u32);
    for _ in 0..calls {
        state = state.wrapping_mul(1_664_525).wrapping_add(1_013_904_223);
        match letter(agrees(&mut cache, &mut map, state / 64)) {
            b'.' => right = right.wrapping_add(1),
            b'M' | b'S' => refused = refused.wrapping_add(1),
            _ => {}
        }
    }
    Ok((right, refused))
}

/// Passes wherever memory runs out, too: each call is right or is refused; it is run with each
/// allocation refused in turn.
#[test]
fn no_wrong_answer_without_memory(rt: HostRuntime) {
    if let Ok((right, refused)) = agreeing(rt.alloc(), 2, 60) {
        assert!(rt; right.wrapping_add(refused) == 60);
    }
}

/// What a fault prints.
fn prints(alloc: Global, fault: CacheFault, want: &str) -> Result<bool, Memory> {
    Ok(fault.to_string(alloc)?.as_str() == want)
}

#[test]
fn faults_print_sentences(rt: HostRuntime) -> Result<(), Fail> {
    assert!(rt; prints(rt.alloc(), CacheFault::NoPage, "there is no such page")?);
    assert!(rt; prints(rt.alloc(), CacheFault::Store, "the page store failed")?);
    assert!(rt; prints(rt.alloc(), CacheFault::Damaged(3), "page 3 is damaged")?);
    assert!(rt; prints(rt.alloc(), CacheFault::StoreFull, "the page store is full")?);
    assert!(rt; prints(rt.alloc(), CacheFault::Memory, "memory ran out")?);
    Ok(())
}

/// A cache with some pages that were added to be changed, each with its number as a byte.
fn filled(alloc: Global, capacity: usize, pages: u8) -> Result<PageCache<MemStore>, Memory>
    requires { 0 < capacity }
{
    let mut cache = cache_over(alloc, MemStore::new(alloc, 100), capacity)?;
    for number in 0..pages {
        let _ = cache.add_changed(with_byte(number));
    }
    Ok(cache)
}

/// How many pages are changed.
fn changed(cache: &PageCache<MemStore>) -> usize {
    let mut count = 0usize;
    for number in 0..cache.count() {
        if cache.is_changed(number) {
            count = count.saturating_add(1);
        }
    }
    count
}

#[test]
fn eight_pages_are_written_where_one_leaves(rt: HostRuntime) -> Result<(), Fail> {
    let mut cache = filled(rt.alloc(), 10, 10)?;
    assert!(rt; changed(&cache) == 10);
    assert!(rt; cache.add_changed(with_byte(10)) == Ok(10));
    assert!(rt; changed(&cache) == 3 && cache.held() == 10);
    assert!(rt; !cache.is_changed(7) && cache.is_changed(8));
    assert!(rt; byte(&mut cache, 0, PLACE) == Ok(0));
    Ok(())
}

#[test]
fn fewer_than_four_pages_are_written_one_by_one(rt: HostRuntime) -> Result<(), Fail> {
    let mut cache = filled(rt.alloc(), 3, 3)?;
    assert!(rt; cache.add_changed(with_byte(3)) == Ok(3));
    assert!(rt; changed(&cache) == 3 && cache.held() == 3);
    Ok(())
}

/// A cache of some capacity over the pages of another one, of which page 3 is damaged.
fn over_damaged(alloc: Global, capacity: usize) -> Result<PageCache<MemStore>, Memory>
    requires { 0 < capacity }
{
    let mut cache = filled(alloc, 64, 24)?;
    let _ = cache.flush();
    let mut store = cache.into_store();
    let _ = misplace(&mut store, 9, 3);
    cache_over(alloc, store, capacity)
}

/// The byte of a page, which is asked for with those that are asked for next.
fn byte_ahead<S: PageStore>(
    cache: &mut PageCache<S>,
    number: u32,
    next: &[u32],
) -> Result<u8, CacheFault> {
    Ok(cache.page_ahead(number, next)?.bytes[PLACE])
}

#[test]
fn sealed_pages_come_along_where_they_are_not_few(rt: HostRuntime) -> Result<(), Fail> {
    let mut cache = over_damaged(rt.alloc(), 64)?;
    assert!(rt; byte_ahead(&mut cache, 2, &[3, 4, 5, 5, 6, 99]) == Ok(2));
    assert!(rt; cache.held() == 4 && cache.asked() == 1);
    assert!(rt; byte(&mut cache, 3, PLACE) == Err(CacheFault::Damaged(3)));
    assert!(rt; byte(&mut cache, 6, PLACE) == Ok(6));
    assert!(rt; cache.held() == 4 && cache.asked() == 3);
    assert!(rt; byte_ahead(&mut cache, 7, &[8, 9]) == Ok(7));
    assert!(rt; cache.held() == 5 && cache.asked() == 4);
    Ok(())
}

#[test]
fn in_a_small_cache_no_page_comes_along(rt: HostRuntime) -> Result<(), Fail> {
    let mut cache = over_damaged(rt.alloc(), 15)?;
    assert!(rt; byte_ahead(&mut cache, 4, &[5, 6, 7, 8, 9, 10, 11]) == Ok(4));
    assert!(rt; cache.held() == 1 && cache.asked() == 1);
    Ok(())
}

/// The numbers of 24 pages.
const PAGES: [u32; 24] = [
    0, 1, 2, 3, 4, 5, 6, 7, 8, 9, 10, 11, 12, 13, 14, 15, 16, 17, 18, 19, 20, 21, 22, 23,
];

/// What a page answers, of which page 3 is damaged.
fn wanted(number: u32) -> Result<u8, CacheFault> {
    if number == 3 {
        Err(CacheFault::Damaged(3))
    } else {
        Ok(number.to_le_bytes()[0])
    }
}

/// Whether 24 pages that are asked for in turn answer as they do one by one, or that the store failed; and how many are
/// in memory at last, if each does.
fn asked_in_turn<S: PageStore>(cache: &mut PageCache<S>) -> Option<usize> {
    for i in 0..PAGES.len() {
        let given = byte_ahead(cache, PAGES[i], &PAGES[i + 1..]);
        if given != wanted(PAGES[i]) && given != Err(CacheFault::Store) {
            return None;
        }
    }
    if cache.asked() == 24 {
        Some(cache.held())
    } else {
        None
    }
}

// With fewer than sixteen pages nothing comes along. The damaged page is in memory at no time.
#[test]
fn pages_that_come_along_answer_as_one_by_one(rt: HostRuntime) -> Result<(), Fail> {
    for (capacity, held) in [(1, 1), (2, 2), (8, 8), (15, 15), (16, 16), (64, 23)] {
        let mut cache = over_damaged(rt.alloc(), capacity)?;
        assert!(rt; asked_in_turn(&mut cache) == Some(held), "{capacity}");
    }
    Ok(())
}

#[test]
fn a_page_comes_with_seven_of_the_next(rt: HostRuntime) -> Result<(), Fail> {
    let mut cache = over_damaged(rt.alloc(), 16)?;
    assert!(rt; byte_ahead(&mut cache, 4, &PAGES[5..]) == Ok(4));
    assert!(rt; cache.held() == 8 && cache.asked() == 1);
    assert!(rt; byte_ahead(&mut cache, 11, &PAGES[..]) == Ok(11));
    assert!(rt; cache.held() == 8 && cache.asked() == 2);
    Ok(())
}

#[test]
fn pages_are_noted_to_come_after_others(rt: HostRuntime) -> Result<(), Fail> {
    let mut cache = over_damaged(rt.alloc(), 64)?;
    for number in 0..24u32 {
        cache.note_next(number, number.saturating_add(2));
    }
    let next = cache.noted_after(0);
    assert!(rt; next == [2, 4, 6, 8, 10, 12, 14]);
    assert!(rt; byte_ahead(&mut cache, 0, &next) == Ok(0));
    assert!(rt; cache.held() == 8 && cache.asked() == 1);
    assert!(rt; cache.noted_after(0) == [u32::MAX; 7]);
    assert!(rt;
        cache.noted_after(22)
            == [
                24,
                u32::MAX,
                u32::MAX,
                u32::MAX,
                u32::MAX,
                u32::MAX,
                u32::MAX
            ]
    );
    assert!(rt; cache.follower(99) == u32::MAX && cache.peek(1).is_none());
    Ok(())
}

/// Whether 24 pages answer so over a store that fails a call, once or from then on.
fn over_failing(alloc: Global, capacity: usize, calls: u64, once: bool) -> Result<bool, Memory>
    requires { 0 < capacity }
{
    let store = over_damaged(alloc, 1)?.into_store();
    let mut cache = cache_over(alloc, Fuse::new(store, calls, once), capacity)?;
    Ok(asked_in_turn(&mut cache).is_some())
}

#[test]
fn pages_that_come_along_over_a_store_that_fails(rt: HostRuntime) -> Result<(), Fail> {
    for capacity in [1, 2, 8, 16, 64] {
        for calls in 0..40 {
            assert!(rt; over_failing(rt.alloc(), capacity, calls, true)?);
            assert!(rt; over_failing(rt.alloc(), capacity, calls, false)?);
        }
    }
    Ok(())
}
