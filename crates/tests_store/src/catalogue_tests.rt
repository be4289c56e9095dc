//! The pages of a store beside those of its tree: page 0, and a saved catalogue, byte by byte.
use boxsearch::TreeIndex;
use catalogue::{Catalogue, CatalogueFault, begin, close, restore, save};
use legs::{BookHead, Joined, LegIndex, Limits, Tracks, join};
use mfcsv::{File, read_file};
use pagecache::{CacheFault, PageCache};
use pages::{Fuse, MemStore, PageStore};
use rows::Rows;
use std::alloc::Global;
use std::fmt::Write;
use std::hash::RandomState;
use std::test::Fail;
use tbtree::Shape;

/// The example of the standard.
const STANDARD: &str = "\
@stboundedby,urn:x-ogc:def:crs:EPSG:6.6:4326,2D,50.23 9.23,50.31 9.27,2012-01-17T12:33:41Z,2012-01-17T12:37:00Z,sec
@columns,mfidref,trajectory,state,xsd:token,\"type code\",xsd:integer
a,10,150,11.0 2.0 12.0 3.0,walking,1
b,10,190,10.0 2.0 11.0 3.0,walking,2
a,150,190,12.0 3.0 10.0 3.0,walking,2
c,10,190,12.0 1.0 10.0 2.0 11.0 3.0,vehicle,1
";

/// Page 0 of the example's store: how it begins, the shape, the limits, the tree, where the text
/// is, and the dimension.
const HEADER: [u8; 60] = [
    77, 70, 84, 66, 0, 0, 0, 2, 0, 0, 0, 0, 0, 50, 0, 72, 0, 0, 0, 0, 1, 0, 0, 0, 0, 0, 0, 0, 0,
    16, 0, 0, 0, 0, 0, 3, 0, 0, 0, 2, 0, 0, 0, 3, 0, 0, 0, 5, 0, 0, 0, 0, 0, 0, 1, 81, 0, 0, 0, 2,
];

/// The example's one catalogue page: its head and the text, as the page format has them.
const TEXT: [u8; 353] = [
    0, 0, 0, 0, 1, 81, 0, 0, 0, 0, 0, 0, 0, 0, 0, 0, 1, 0, 0, 1, 52, 235, 168, 148, 136, 0, 0, 0,
    0, 0, 0, 0, 31, 117, 114, 110, 58, 120, 45, 111, 103, 99, 58, 100, 101, 102, 58, 99, 114, 115,
    58, 69, 80, 83, 71, 58, 54, 46, 54, 58, 52, 51, 50, 54, 0, 0, 0, 0, 0, 0, 0, 2, 0, 0, 0, 0, 0,
    0, 0, 5, 115, 116, 97, 116, 101, 0, 0, 0, 0, 0, 0, 0, 9, 120, 115, 100, 58, 116, 111, 107, 101,
    110, 0, 0, 0, 0, 0, 0, 0, 9, 116, 121, 112, 101, 32, 99, 111, 100, 101, 0, 0, 0, 0, 0, 0, 0,
    11, 120, 115, 100, 58, 105, 110, 116, 101, 103, 101, 114, 0, 0, 0, 3, 0, 0, 0, 0, 0, 0, 0, 1,
    97, 0, 0, 1, 52, 235, 171, 122, 184, 0, 0, 0, 1, 0, 0, 0, 1, 0, 0, 0, 0, 0, 0, 0, 0, 0, 0, 0,
    2, 0, 0, 0, 0, 0, 0, 0, 1, 98, 0, 0, 1, 52, 235, 171, 122, 184, 0, 0, 0, 2, 0, 0, 0, 2, 0, 0,
    0, 1, 0, 0, 0, 0, 0, 0, 0, 1, 0, 0, 0, 0, 0, 0, 0, 1, 99, 0, 0, 1, 52, 235, 171, 122, 184, 0,
    0, 0, 4, 0, 0, 0, 4, 0, 0, 0, 2, 0, 0, 0, 0, 0, 0, 0, 2, 0, 0, 0, 4, 0, 0, 0, 0, 0, 0, 0, 7,
    119, 97, 108, 107, 105, 110, 103, 0, 0, 0, 0, 0, 0, 0, 1, 49, 0, 0, 0, 0, 0, 0, 0, 7, 119, 97,
    108, 107, 105, 110, 103, 0, 0, 0, 0, 0, 0, 0, 1, 50, 0, 0, 0, 0, 0, 0, 0, 7, 119, 97, 108, 107,
    105, 110, 103, 0, 0, 0, 0, 0, 0, 0, 1, 50, 0, 0, 0, 0, 0, 0, 0, 7, 118, 101, 104, 105, 99, 108,
    101, 0, 0, 0, 0, 0, 0, 0, 1, 49,
];

/// The limits of the example's book.
fn limits() -> Option<Limits> {
    Limits::new(1 << 24, 1 << 20)
}

/// An index without legs over at most so many pages.
fn new_index(alloc: Global, most: u32) -> Option<TreeIndex<MemStore>> {
    let (shape, limits) = (Shape::new(50, 72)?, limits()?);
    match begin(alloc, MemStore::new(alloc, most), shape, 4, &limits) {
        Ok(index) => Some(index),
        Err(_) => None,
    }
}

/// Accepts what was joined.
fn accept(index: &mut TreeIndex<MemStore>, tracks: &mut Tracks, joined: &Joined) -> Option<()> {
    index.add_all(joined.legs()).ok()?;
    tracks.accept(joined).ok()
}

/// Joins a file, and accepts it.
fn put(
    alloc: Global,
    file: &File,
    index: &mut TreeIndex<MemStore>,
    tracks: &mut Tracks,
) -> Option<()> {
    match join(alloc, None, tracks, &limits()?, file) {
        Ok(joined) => accept(index, tracks, &joined),
        Err(_) => None,
    }
}

/// The attribute values of a file's records.
fn rows_of(alloc: Global, file: &File) -> Option<Rows> {
    let mut rows = Rows::new(alloc);
    for entry in file.records.as_slice() {
        rows.push(&entry.attributes).ok()?;
    }
    Some(rows)
}

/// Accepts a file: its tracks.
fn accepted(
    alloc: Global,
    keys: RandomState,
    file: &File,
    index: &mut TreeIndex<MemStore>,
) -> Option<Tracks> {
    let mut tracks = Tracks::new(alloc, keys).ok()?;
    put(alloc, file, index, &mut tracks)?;
    Some(tracks)
}

/// Accepts a file: what is known of it beside its head and its legs.
fn known(
    alloc: Global,
    keys: RandomState,
    file: &File,
    index: &mut TreeIndex<MemStore>,
) -> Option<(Tracks, Rows)> {
    let tracks = accepted(alloc, keys, file, index)?;
    Some((tracks, rows_of(alloc, file)?))
}

/// Accepts the example: its catalogue.
fn load(alloc: Global, keys: RandomState, index: &mut TreeIndex<MemStore>) -> Option<Catalogue> {
    let limits = limits()?;
    let file = read_file(alloc, STANDARD.as_bytes()).ok()?;
    let (tracks, rows) = known(alloc, keys, &file, index)?;
    Some(Catalogue {
        head: Some(BookHead::from(file.head)),
        limits,
        tracks,
        rows,
    })
}

/// The example in an index over at most so many pages, and its catalogue.
fn example(
    alloc: Global,
    keys: RandomState,
    most: u32,
) -> Option<(Catalogue, TreeIndex<MemStore>)> {
    let mut index = new_index(alloc, most)?;
    let catalogue = load(alloc, keys, &mut index)?;
    Some((catalogue, index))
}

/// Whether page 0 and the catalogue page are these, and how many pages there are.
fn as_wanted(cache: &mut PageCache<MemStore>) -> Option<(bool, bool, u32)> {
    let header = cache.page(0).ok()?.bytes[..60] == HEADER[..];
    let text = cache.page(5).ok()?.bytes[..TEXT.len()] == TEXT[..];
    Some((header, text, cache.count()))
}

/// Saves a catalogue twice: the second one takes the first one's page.
fn save_twice(
    alloc: Global,
    catalogue: &Catalogue,
    index: &mut TreeIndex<MemStore>,
) -> Result<(), CatalogueFault> {
    save(alloc, catalogue, index)?;
    save(alloc, catalogue, index)
}

/// The same of the example, saved over `most` pages; the fault, if it is not saved.
fn saved(
    alloc: Global,
    keys: RandomState,
    most: u32,
) -> Option<Result<(bool, bool, u32), CatalogueFault>> {
    let (catalogue, mut index) = example(alloc, keys, most)?;
    match save_twice(alloc, &catalogue, &mut index) {
        Ok(()) => Some(Ok(as_wanted(index.cache_mut())?)),
        Err(fault) => Some(Err(fault)),
    }
}

#[test]
fn the_example_is_saved(rt: HostRuntime) -> Result<(), Fail> {
    let keys = RandomState::new(&rt)?;
    assert!(rt; saved(rt.alloc(), keys, 6) == Some(Ok((true, true, 6))));
    assert!(rt; saved(rt.alloc(), keys, 5) == Some(Err(CatalogueFault::StoreFull)));
    Ok(())
}

/// The example's store as it was closed.
fn closed(alloc: Global, keys: RandomState) -> Option<MemStore> {
    let (catalogue, index) = example(alloc, keys, 6)?;
    let (store, answer) = close(alloc, &catalogue, index);
    match answer {
        Ok(()) => Some(store),
        Err(_) => None,
    }
}

/// The limits of a catalogue, how many features, legs and rows it has, and whether its second feature is `b`.
fn numbers_of(catalogue: &Catalogue) -> ([u64; 5], bool) {
    let numbers = [
        catalogue.limits.legs(),
        u64::from(catalogue.limits.features()),
        catalogue.tracks.feature_count(),
        catalogue.tracks.leg_count(),
        catalogue.rows.len() as u64,
    ];
    (numbers, catalogue.tracks.name(1) == Some("b"))
}

/// What is restored of the example.
fn restored_parts(alloc: Global, keys: RandomState) -> Option<(Catalogue, TreeIndex<MemStore>)> {
    let store = closed(alloc, keys)?;
    match PageCache::new(alloc, store, 4) {
        Ok(cache) => restore(alloc, keys, cache).ok(),
        Err(_) => None,
    }
}

/// How many legs of the first feature an index has.
fn count_of_first(index: &mut TreeIndex<MemStore>) -> usize {
    match index.track(0) {
        Ok(legs) => legs.len(),
        Err(_) => 0,
    }
}

/// The same of what is restored of the example, and how many legs of its first feature the index has.
fn restored(alloc: Global, keys: RandomState) -> Option<(([u64; 5], bool), usize)> {
    let (catalogue, mut index) = restored_parts(alloc, keys)?;
    Some((numbers_of(&catalogue), count_of_first(&mut index)))
}

#[test]
fn the_example_is_restored(rt: HostRuntime) -> Result<(), Fail> {
    let keys = RandomState::new(&rt)?;
    let numbers = [1 << 24, 1 << 20, 3, 5, 4];
    assert!(rt; restored(rt.alloc(), keys) == Some(((numbers, true), 2)));
    Ok(())
}

/// Adds a feature with a name by its number.
fn add_feature(alloc: Global, tracks: &mut Tracks, number: u32) -> Option<()> {
    let track = tracks.track(0)?;
    let mut name = String::new(alloc);
    write!(name, "feature {number}").ok()?;
    tracks.add(name, track).ok()?;
    Some(())
}

/// The catalogue of the example with so many features more.
fn of_features(alloc: Global, keys: RandomState, count: u32) -> Option<Catalogue> {
    let (mut catalogue, _) = example(alloc, keys, 6)?;
    for number in 0..count {
        add_feature(alloc, &mut catalogue.tracks, number)?;
    }
    Some(catalogue)
}

/// How many pages there are where a catalogue of 10,000 features more is saved, and saved again.
fn saved_twice(alloc: Global, keys: RandomState) -> Option<[u32; 2]> {
    let catalogue = of_features(alloc, keys, 10_000)?;
    let (_, mut index) = example(alloc, keys, 1_000)?;
    save(alloc, &catalogue, &mut index).ok()?;
    let first = index.cache_mut().count();
    save(alloc, &catalogue, &mut index).ok()?;
    Some([first, index.cache_mut().count()])
}

#[test]
fn a_second_saving_takes_the_pages_of_the_first(rt: HostRuntime) -> Result<(), Fail> {
    let keys = RandomState::new(&rt)?;
    let [first, second] = saved_twice(rt.alloc(), keys).ok_or("not saved")?;
    // A name and 36 bytes more for each feature, 4,040 bytes a page.
    assert!(rt; 100 < first && first < 150 && second == first);
    Ok(())
}

/// What page 0 of a new store over so many pages begins with, and how many pages there are; or why
/// none is begun, and how many pages there are then.
fn begun(alloc: Global, most: u32) -> Option<Result<([u8; 60], u32), (CacheFault, u32)>> {
    let shape = Shape::new(50, 72)?;
    let limits = Limits::new(1 << 24, 1 << 20)?;
    match begin(alloc, MemStore::new(alloc, most), shape, 4, &limits) {
        Ok(index) => {
            if index.spent() || index.len() != 0 {
                return None;
            }
            let mut cache = index.into_cache();
            let mut front = [0; 60];
            front.copy_from_slice(&cache.page(0).ok()?.bytes[..60]);
            Some(Ok((front, cache.into_store().len())))
        }
        Err((store, fault)) => Some(Err((fault, store.len()))),
    }
}

/// Why none is begun over a store of which the call after so many fails, and how many pages there
/// are then.
fn failed(alloc: Global, calls: u64) -> Option<(CacheFault, u32)> {
    let shape = Shape::new(50, 72)?;
    let limits = Limits::new(1 << 24, 1 << 20)?;
    let store = Fuse::new(MemStore::new(alloc, 2), calls, false);
    match begin(alloc, store, shape, 4, &limits) {
        Ok(_) => None,
        Err((store, fault)) => Some((fault, store.len())),
    }
}

/// Page 0 of a new store.
const NEW_HEADER: [u8; 60] = [
    77, 70, 84, 66, 0, 0, 0, 2, 0, 0, 0, 0, 0, 50, 0, 72, 0, 0, 0, 0, 1, 0, 0, 0, 0, 0, 0, 0, 0,
    16, 0, 0, 0, 0, 0, 0, 0, 0, 0, 0, 0, 0, 0, 0, 0, 0, 0, 0, 0, 0, 0, 0, 0, 0, 0, 0, 0, 0, 0, 2,
];

#[test]
fn a_store_is_begun_or_handed_back(rt: HostRuntime) {
    assert!(rt; begun(rt.alloc(), 1) == Some(Ok((NEW_HEADER, 1))));
    assert!(rt; begun(rt.alloc(), 0) == Some(Err((CacheFault::StoreFull, 0))));
    for (calls, wanted) in [
        (0, Some((CacheFault::Store, 0))),
        (1, Some((CacheFault::Store, 1))),
        (2, None),
    ] {
        assert!(rt; failed(rt.alloc(), calls) == wanted, "at call {calls}");
    }
}
