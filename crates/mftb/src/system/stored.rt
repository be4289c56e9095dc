//! What the file of a store says of it, where no database of it is open.
use catalogue::{Catalogue, restore};
use fixedpoint::Coord;
use header::{FINISHED, Front, front_of, limits_in, root_of};
use legs::{Box3, Limits};
use pagecache::PageCache;
use pages::{FileStore, PageStore, Payload, SystemFile, unseal};
use sessions::{Fault, ReadOnly};
use std::alloc::Global;
use std::fs::File;
use std::hash::RandomState;
use std::random::RandomSource;
use std::rt::Files;
use tbtree::cover_of;
use timebase::Ms;
use trajdb::RunFault;

/// How many pages are kept in memory while a catalogue is read.
const CACHE_PAGES: usize = 16;

/// What page 0 of a store says of it.
#[derive(Clone, Copy)]
pub(crate) struct Header {
    /// How it begins.
    pub(crate) front: Front,
    /// How much it may hold, where that is in range.
    pub(crate) limits: Option<Limits>,
    /// The page of the tree's root; 0 without a leg.
    pub(crate) root: u32,
}

/// What is seen of the pages of a store. Of its tree the root alone is read.
#[derive(Clone, Copy)]
pub(crate) struct Seen {
    /// How many there are.
    pub(crate) pages: u32,
    /// What page 0 says.
    pub(crate) header: Header,
    /// The box over all legs; `None` without a leg, and where the store is not a finished one of this version.
    pub(crate) extent: Result<Option<Box3>, Fault>,
}

/// The payload of a page.
fn payload_of<S: PageStore>(store: &mut S, number: u32) -> Result<Payload, Fault> {
    if number >= store.len() {
        return Err(Fault::Run(RunFault::Damaged(number)));
    }
    let mut page = [0; 4096];
    match store.read(number, &mut page) {
        Ok(()) => match unseal(number, &page) {
            Ok(payload) => Ok(payload),
            Err(_) => Err(Fault::Run(RunFault::Damaged(number))),
        },
        Err(_) => Err(Fault::Run(RunFault::Store)),
    }
}

/// What page 0 says; refused as damaged where it is no header.
fn read_header<S: PageStore>(store: &mut S) -> Result<Header, Fault> {
    let payload = payload_of(store, 0)?;
    match front_of(&payload) {
        Some(front) => Ok(Header {
            front,
            limits: limits_in(&payload.bytes),
            root: root_of(&payload),
        }),
        None => Err(Fault::Run(RunFault::Damaged(0))),
    }
}

/// Whether the bounds are those of coordinates and moments.
fn is_in_range(bounds: &Box3) -> bool {
    for edge in [bounds.x_min, bounds.x_max, bounds.y_min, bounds.y_max] {
        if Coord::new(edge).is_none() {
            return false;
        }
    }
    Ms::new(bounds.t_min).is_some() && Ms::new(bounds.t_max).is_some()
}

/// The box over all legs, by the root of their tree.
fn read_extent<S: PageStore>(store: &mut S, header: &Header) -> Result<Option<Box3>, Fault> {
    let root = header.root;
    if root == 0 || header.front != FINISHED {
        return Ok(None);
    }
    let payload = payload_of(store, root)?;
    match cover_of(&payload) {
        Some(bounds) if is_in_range(&bounds) => Ok(Some(bounds)),
        _ => Err(Fault::Run(RunFault::Damaged(root))),
    }
}

/// What is seen of a store.
pub(crate) fn look<S: PageStore>(store: &mut S) -> Result<Seen, Fault> {
    let header = read_header(store)?;
    Ok(Seen {
        pages: store.len(),
        header,
        extent: read_extent(store, &header),
    })
}

/// The store of the plain file of that name, to look at its pages.
fn plain_store<R: Files<File = File>>(rt: &R, name: &str) -> Option<FileStore<SystemFile<File>>> {
    let file = File::open(rt, name).ok()?;
    match file.metadata() {
        Ok(about) if about.is_file() => FileStore::new(SystemFile::new(file)).ok(),
        _ => None,
    }
}

/// What is seen of the store of that name; `None` where it is no plain file, or page 0 says nothing.
pub(crate) fn look_at<R: Files<File = File>>(rt: &R, name: &str) -> Option<Seen> {
    look(&mut plain_store(rt, name)?).ok()
}

/// What a store keeps beside its legs, where that can be read.
fn catalogue_in<S: PageStore + Drop>(
    alloc: Global,
    keys: RandomState,
    store: S,
) -> Option<Catalogue> {
    match PageCache::new(alloc, store, CACHE_PAGES) {
        Ok(cache) => match restore(alloc, keys, cache) {
            Ok((catalogue, _)) => Some(catalogue),
            Err(_) => None,
        },
        Err(_) => None,
    }
}

/// What the store of that name keeps beside its legs, where that can be read.
pub(crate) fn catalogue_of<R: Files<File = File> + AllocGlobal + RandomSource>(
    rt: &R,
    name: &str,
) -> Option<Catalogue> {
    let keys = RandomState::new(rt).ok()?;
    catalogue_in(rt.alloc(), keys, ReadOnly::new(plain_store(rt, name)?))
}
