//! Page 0 of a store of version 1.
use catalogue::CatalogueFault;
use pages::{Kind, MemStore, PageStore, Payload, seal};
use std::alloc::Global;
use std::hash::RandomState;
use std::test::Fail;
use version1::migrate;

/// How page 0 of a finished store of version 1 begins into which no file was accepted: the letters
/// `MFTB`, the version, the state, 63 legs and 72 entries, the limits of 2^24 legs and 2^20
/// features, no tree, and a text of one byte in page 1. What stands behind that is not looked at.
const HEADER: [u8; 60] = [
    77, 70, 84, 66, 0, 0, 0, 1, 0, 0, 0, 1, 0, 63, 0, 72, 0, 0, 0, 0, 1, 0, 0, 0, 0, 0, 0, 0, 0,
    16, 0, 0, 0, 0, 0, 0, 0, 0, 0, 0, 0, 0, 0, 0, 0, 0, 0, 1, 0, 0, 0, 0, 0, 0, 0, 1, 9, 9, 9, 9,
];

/// How page 1 begins: no page comes next, one byte of the text, ten zeros, and that byte.
const TEXT: [u8; 60] = [
    0, 0, 0, 0, 0, 1, 0, 0, 0, 0, 0, 0, 0, 0, 0, 0, 0, 9, 9, 9, 9, 9, 9, 9, 9, 9, 9, 9, 9, 9, 9, 9,
    9, 9, 9, 9, 9, 9, 9, 9, 9, 9, 9, 9, 9, 9, 9, 9, 9, 9, 9, 9, 9, 9, 9, 9, 9, 9, 9, 9,
];

/// Makes a payload begin so.
fn set_front(payload: &mut Payload, bytes: &[u8; 60]) {
    payload.bytes[..60].copy_from_slice(bytes);
}

/// A page of a kind that begins so.
fn page(number: u32, kind: Kind, bytes: &[u8; 60]) -> [u8; 4096] {
    let mut payload = Payload::zero(kind);
    set_front(&mut payload, bytes);
    seal(number, &payload)
}

/// Page 0 with another byte at a place.
fn header(place: usize, byte: u8) -> [u8; 4096] {
    let mut bytes = HEADER;
    if place < 60 {
        bytes[place] = byte;
    }
    page(0, Kind::Header, &bytes)
}

/// What is brought over of a store of these pages: the most legs of a leaf as it will be, the most
/// entries of an inner page, and how many features there are.
fn read(
    alloc: Global,
    keys: RandomState,
    pages: &[[u8; 4096]],
) -> Option<Result<(u16, u16, u64), CatalogueFault>> {
    let mut store = MemStore::new(alloc, 4);
    for page in pages {
        let number = store.len();
        if number < store.most() {
            store.write(number, page).ok()?;
        }
    }
    match migrate(alloc, keys, &mut store, MemStore::new(alloc, 4), 1) {
        Ok((catalogue, index)) => {
            let shape = index.tree().shape;
            let features = catalogue.tracks.feature_count();
            Some(Ok((shape.leaf(), shape.inner(), features)))
        }
        Err((_, fault)) => Some(Err(fault)),
    }
}

/// What is read where page 0 has another byte at a place.
fn read_with(
    alloc: Global,
    keys: RandomState,
    place: usize,
    byte: u8,
) -> Option<Result<(u16, u16, u64), CatalogueFault>> {
    let pages = [header(place, byte), page(1, Kind::Catalogue, &TEXT)];
    read(alloc, keys, &pages)
}

/// What is brought over, or why nothing is.
type Answer = Result<(u16, u16, u64), CatalogueFault>;

/// A byte at a place of page 0, and what is read then.
const HEADERS: [(usize, u8, Answer); 13] = [
    (7, 1, Ok((50, 72, 0))),
    (13, 2, Ok((2, 72, 0))),
    // The letters, the version and the state.
    (0, 78, Err(CatalogueFault::Malformed)),
    (7, 2, Err(CatalogueFault::Version)),
    (11, 0, Err(CatalogueFault::Unfinished)),
    (11, 2, Err(CatalogueFault::Malformed)),
    // The shape, a limit, the root, and the length of the text.
    (13, 1, Err(CatalogueFault::Malformed)),
    (13, 64, Err(CatalogueFault::Malformed)),
    (15, 73, Err(CatalogueFault::Malformed)),
    (15, 2, Ok((50, 2, 0))),
    (16, 255, Err(CatalogueFault::Malformed)),
    (35, 2, Err(CatalogueFault::Malformed)),
    (55, 2, Err(CatalogueFault::Malformed)),
];

#[test]
fn page_0_is_read_or_refused(rt: HostRuntime) -> Result<(), Fail> {
    let (alloc, keys) = (rt.alloc(), RandomState::new(&rt)?);
    for (place, byte, wanted) in HEADERS {
        let told = read_with(alloc, keys, place, byte);
        assert!(rt; told == Some(wanted), "{byte} at {place}: {told:?}");
    }
    Ok(())
}

#[test]
fn a_page_is_missing_or_damaged(rt: HostRuntime) -> Result<(), Fail> {
    let (alloc, keys) = (rt.alloc(), RandomState::new(&rt)?);
    let (first, text) = (header(7, 1), page(1, Kind::Catalogue, &TEXT));
    let leaf = page(0, Kind::Leaf, &HEADER);
    for (pages, fault) in [
        ([].as_slice(), CatalogueFault::Malformed),
        ([leaf].as_slice(), CatalogueFault::Malformed),
        ([first].as_slice(), CatalogueFault::Malformed),
        ([text, text].as_slice(), CatalogueFault::Damaged(0)),
        ([first, first].as_slice(), CatalogueFault::Damaged(1)),
    ] {
        let told = read(alloc, keys, pages);
        assert!(rt; told == Some(Err(fault)), "{told:?} for {fault:?}");
    }
    Ok(())
}
