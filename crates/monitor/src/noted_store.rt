//! A store that knows whether it was written.
use crate::progress::Progress;
use pages::{PageStore, StoreFault};
use std::io::Eprint;
use std::rt::Clock;

/// A store over another one that knows whether a page was to be written, and tells of each page that is
/// read or written.
///
/// A `write` is noted, be it refused or not, and stays noted; no other call changes a page or notes
/// a write. So where nothing is noted, a faithful store has the pages that it was made with.
#[derive(Drop)]
pub struct Noted<'a, 'b, S, R: Clock + Eprint> {
    store: S,
    progress: &'a Progress<'b, R>,
    is_written: bool,
}

impl<'a, 'b, S: PageStore, R: Clock + Eprint> Noted<'a, 'b, S, R> {
    /// The store over that one, of which nothing was written.
    pub fn new(store: S, progress: &'a Progress<'b, R>) -> Noted<'a, 'b, S, R> {
        Noted {
            store,
            progress,
            is_written: false,
        }
    }

    /// Whether a page was to be written.
    pub fn is_written(&self) -> bool {
        self.is_written
    }
}

impl<'a, 'b, S: PageStore, R: Clock + Eprint> PageStore for Noted<'a, 'b, S, R> {
    ghost seen = { λ s. S.seen s.store };

    ghost lawful = { λ s. S.lawful s.store };

    fn len(&self) -> u32 {
        self.store.len()
    }

    fn most(&self) -> u32 {
        self.store.most()
    }

    /// Reads a page, which is not noted.
    fn read(&mut self, number: u32, page: &mut [u8; 4096]) -> Result<(), StoreFault> {
        self.progress.page();
        self.store.read(number, page)
    }

    /// Writes a page, and notes it, be it refused or not.
    fn write(&mut self, number: u32, page: &[u8; 4096]) -> Result<(), StoreFault> {
        self.is_written = true;
        self.progress.page();
        self.store.write(number, page)
    }

    /// Makes what was written last, which changes nothing of what is noted.
    fn sync(&mut self) -> Result<(), StoreFault> {
        self.store.sync()
    }
}
