//! A store in memory.
ghost use Rattle.std.specs.Prelude.{◌≡◌, ◌<◌, ◌≤◌, ◌^◌, true, false, vec_len};
ghost use Rattle.std.proofs.Common.{arith};
ghost use Rattle.pages.specs.Store.{empty_store, with_byte};

use crate::refusals::Refusals;
use crate::store::{PageStore, StoreFault};
use crate::unsynced::Unsynced;
use std::alloc::Global;

/// A store in memory. It is faithful, and a new page that finds no memory is a fault of it.
pub struct MemStore {
    pages: Vec<[u8; 4096]>,
    most: u32,
    faults: Refusals,
    unsynced: Unsynced,
    ghost within: { vec_len pages ≤ most },
    ghost fits: { most < 2 ^ 32 },
}

// In one place, and not at each end of what owns it.
impl Drop for MemStore {
    fn drop(self) {
        let MemStore {
            pages,
            most,
            faults,
            unsynced,
        } = self;
    }
}

impl MemStore {
    /// A store with no page, of at most `most` pages.
    pub fn new(alloc: Global, most: u32) -> MemStore
        ensures { ⟦<MemStore as PageStore>⟧.seen result ≡ empty_store most }
    {
        MemStore {
            pages: Vec::new(alloc),
            most,
            faults: Refusals::none(),
            unsynced: Unsynced::Nothing,
        }
    }

    /// Changes a byte of a page as written, as a damaged disk would.
    pub fn set_byte(&mut self, page: u32, place: usize, value: u8)
        // There is a page of that number.
        requires exists { page < (⟦<MemStore as PageStore>⟧.seen self.old).count }
        // The place is in a page.
        requires within { place < 4096 }
        // The page has that byte there, and nothing else changes.
        ensures { ⟦<MemStore as PageStore>⟧.seen self.new
            ≡ with_byte page place value (⟦<MemStore as PageStore>⟧.seen self.old) }
    {
        let page = &mut self.pages[page as usize];
        page[place] = value;
    }
}

impl PageStore for MemStore {
    ghost use Rattle.pages.specs.Store.{Store, IsLawful};

    ghost seen = { λ s. record {
      count = vec_len s.pages;
      most = s.most;
      faults = s.faults;
      unsynced = s.unsynced;
      has_lost = false;
      is_faithful = true;
      pages = s.pages.items;
    } };

    ghost lawful = { λ s. record {
      within = s.within;
      small = s.fits;
      counted = λ _. Prim.omega (arith, s.pages.ok.0);
    } };

    fn len(&self) -> u32 {
        self.pages.len() as u32
    }

    fn most(&self) -> u32 {
        self.most
    }

    /// Reads a page. It never fails.
    fn read(&mut self, number: u32, page: &mut [u8; 4096]) -> Result<(), StoreFault> {
        *page = self.pages[number as usize];
        Ok(())
    }

    /// Writes a page, which may be a new one. It fails only if a new one finds no memory.
    fn write(&mut self, number: u32, page: &[u8; 4096]) -> Result<(), StoreFault> {
        self.unsynced = self.unsynced.with_written(number);
        let place = number as usize;
        if place < self.pages.len() {
            self.pages[place] = *page;
            return Ok(());
        }
        match self.pages.push(*page) {
            Ok(()) => Ok(()),
            Err(_) => self.faults.count(Err(StoreFault)),
        }
    }

    /// Syncs what was written. It never fails.
    fn sync(&mut self) -> Result<(), StoreFault> {
        self.unsynced = Unsynced::Nothing;
        Ok(())
    }
}
