//! A folder in memory, which tells what the name of its store has stood for, and fails at a call.
ghost use Rattle.std.specs.Prelude.{◌≡◌, ◌∷◌, ◌<◌, ◌^◌, ◌-◌, map, option_map, true, vec_len, Some, IfOk};
ghost use Rattle.std.proofs.Common.{arith};
ghost use Rattle.sessions.specs.Folder.{pages_in};

use pages::{PageStore, Refusals, StoreFault, Unsynced};
use sessions::{Fault, Folder, FolderRefusals};
use std::alloc::{AllocError, Global};
use std::collections::VecDeque;
use trajdb::RunFault;

/// How many calls still pass: the next one fails, and each later one.
#[derive(Clone, Copy)]
pub(crate) struct Calls {
    left: u64,
}

impl Calls {
    /// So many calls pass.
    pub(crate) fn new(left: u64) -> Calls {
        Calls { left }
    }

    /// Whether this call fails.
    fn burns(&mut self) -> bool {
        if self.left == 0 {
            return true;
        }
        self.left -= 1;
        false
    }
}

/// The file of a copy in memory, as a store. It is faithful.
#[derive(Drop)]
pub(crate) struct MemCopy {
    pages: Vec<[u8; 4096]>,
    faults: Refusals,
    unsynced: Unsynced,
    has_lost: bool,
    calls: Calls,
    ghost within: { vec_len pages < 2 ^ 32 },
}

impl PageStore for MemCopy {
    ghost use Rattle.pages.specs.Store.{Store, IsLawful};

    ghost seen = { λ s. record {
      count = vec_len s.pages;
      most = 2 ^ 32 - 1;
      faults = s.faults;
      unsynced = s.unsynced;
      has_lost = s.has_lost;
      is_faithful = true;
      pages = s.pages.items;
    } };

    ghost lawful = { λ s. record {
      within = Prim.omega (arith, s.within);
      small = Prim.omega arith;
      counted = λ _. Prim.omega (arith, s.pages.ok.0);
    } };

    fn len(&self) -> u32 {
        self.pages.len() as u32
    }

    fn most(&self) -> u32 {
        u32::MAX
    }

    fn read(&mut self, number: u32, page: &mut [u8; 4096]) -> Result<(), StoreFault> {
        if self.calls.burns() {
            return self.faults.count(Err(StoreFault));
        }
        *page = self.pages[number as usize];
        Ok(())
    }

    fn write(&mut self, number: u32, page: &[u8; 4096]) -> Result<(), StoreFault> {
        self.unsynced = self.unsynced.with_written(number);
        if self.calls.burns() {
            return self.faults.count(Err(StoreFault));
        }
        let place = number as usize;
        if place < self.pages.len() {
            self.pages[place] = *page;
            return Ok(());
        }
        match self.pages.push(*page) {
            Ok(()) => Ok(()),
            Err(_) => self.faults.count(Err(StoreFault)),
        }
    }

    fn sync(&mut self) -> Result<(), StoreFault> {
        let burns = self.calls.burns();
        if burns || self.has_lost {
            self.has_lost = true;
            return self.faults.count(Err(StoreFault));
        }
        self.unsynced = Unsynced::Nothing;
        Ok(())
    }
}

/// A folder in memory.
#[derive(Drop)]
pub(crate) struct MemFolder {
    alloc: Global,
    /// The pages of the file of the store's name, where there is one.
    file: Option<Vec<[u8; 4096]>>,
    /// Those of each moment before, the last one first.
    past: VecDeque<Option<Vec<[u8; 4096]>>>,
    calls: Calls,
    is_settled: bool,
    refused: FolderRefusals,
    has_copy: bool,
}

impl MemFolder {
    /// A folder without a file, in which so many calls pass.
    pub(crate) fn new(alloc: Global, calls: Calls) -> MemFolder {
        MemFolder {
            alloc,
            file: None,
            past: VecDeque::new(alloc),
            calls,
            is_settled: true,
            refused: FolderRefusals::nothing(),
            has_copy: false,
        }
    }

    /// So many calls pass from now on.
    pub(crate) fn set_calls(&mut self, calls: Calls) {
        self.calls = calls;
    }

    /// The pages of the file of the store's name, where there is one.
    pub(crate) fn file(&self) -> Option<&[[u8; 4096]]> {
        match &self.file {
            Some(pages) => Some(pages.as_slice()),
            None => None,
        }
    }

    /// How often the name was given.
    pub(crate) fn given(&self) -> usize {
        self.past.len()
    }

    /// Whether a copy lies beside the store.
    pub(crate) fn has_copy(&self) -> bool {
        self.has_copy
    }

    /// Whether each name that was given was made last.
    pub(crate) fn is_settled(&self) -> bool {
        self.is_settled
    }

    /// The pages of a copy of the store's file.
    fn pages(&self) -> Result<Vec<[u8; 4096]>, AllocError>
        ensures { IfOk result (λ v. v.items ≡ pages_in (option_map (λ v. v.items) self.now.file)) }
    {
        match &self.file {
            Some(pages) => Vec::from_slice(self.alloc, pages),
            None => Ok(Vec::new(self.alloc)),
        }
    }
}

impl Folder for MemFolder {
    type Store = MemCopy;

    ghost use Rattle.sessions.specs.Folder.{FolderView};

    ghost seen = { λ f. record {
      held = Some (option_map (λ v. v.items) f.file ∷ map (option_map (λ v. v.items)) f.past.items);
      is_settled = f.is_settled;
      has_copy = f.has_copy;
      refused = f.refused;
    } };

    fn copy(&mut self) -> Result<MemCopy, Fault> {
        if self.calls.burns() {
            return Err(self.refused.note(Fault::Run(RunFault::Store)));
        }
        match self.pages() {
            Ok(pages) if pages.len() <= u32::MAX as usize => {
                self.has_copy = true;
                Ok(MemCopy {
                    pages,
                    faults: Refusals::none(),
                    unsynced: Unsynced::Others,
                    has_lost: false,
                    calls: self.calls,
                })
            }
            Ok(_) | Err(_) => Err(self.refused.note(Fault::Run(RunFault::Memory))),
        }
    }

    fn differs(&self, _store: &MemCopy) -> bool {
        true
    }

    fn sync(&mut self, store: &mut MemCopy) -> Result<(), Fault> {
        if store.sync().is_err() {
            return Err(self.refused.note(Fault::Run(RunFault::Store)));
        }
        Ok(())
    }

    fn replace(&mut self, store: MemCopy) -> Result<(), Fault> {
        self.calls = store.calls;
        if self.calls.burns() {
            return Err(self.refused.note(Fault::Run(RunFault::Store)));
        }
        let old = self.file.take();
        match self.past.push_front(old) {
            Ok(()) => {
                self.file = Some(store.pages);
                self.has_copy = false;
                self.is_settled = false;
                Ok(())
            }
            Err(refused) => {
                self.file = refused.value;
                Err(self.refused.note(Fault::Run(RunFault::Memory)))
            }
        }
    }

    fn settle(&mut self) {
        self.is_settled = true;
    }

    fn discard(&mut self) {
        self.has_copy = false;
    }
}
