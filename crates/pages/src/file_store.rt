//! A store in a file.
ghost use Rattle.std.specs.Prelude.{◌≡◌, false, ◌<◌, ◌≤◌, ◌^◌, ◌-◌, ◌/◌, is_some, length, IfOk, IsErr, IsOk, IfSome, IsTrue};
ghost use Rattle.std.proofs.Common.{arith};
ghost use Rattle.pages.specs.Bytes.{HoldPages, known_pages, whole_pages};
ghost use Rattle.pages.specs.declared.unsynced.Unsynced.TheVariants.{Nothing, Others};

use crate::byte_file::ByteFile;
use crate::store::{PageStore, StoreFault};
use crate::system_file::SystemFile;
use crate::unsynced::Unsynced;
use std::fs::{File, OpenFile};
use std::os::unix::fs::FileExt;
use std::rt::Files;

/// A store in a file: page n is the bytes from 4,096 n to 4,096 n + 4,095.
///
/// It is faithful if the file tells its bytes. Each page is read and written by one call of the
/// file. It fails only if that call fails, which counts as a fault. What the file held before may
/// be unsynced, until the first `sync` that returns `Ok`.
#[derive(Drop)]
pub struct FileStore<F: ByteFile = SystemFile<File>> {
    file: F,
    count: u32,
    unsynced: Unsynced,
    ghost small: { count < 2 ^ 32 },
    ghost fits: { HoldPages 4096 count (F.bytes file) },
    ghost lasts: { unsynced ≡ Nothing → IsTrue (F.is_synced file) },
}

impl<F: ByteFile> FileStore<F> {
    /// The store of a file's whole pages. A rest of less than a page is no page. Any page may be
    /// unsynced.
    ///
    /// It fails if the file has 2^32 pages or more, or its length is not known.
    pub fn new(mut file: F) -> Result<FileStore<F>, StoreFault>
    where
        F: Drop,
        // If the file tells its bytes, the store is faithful and has exactly their whole pages.
        ensures pages { IfOk result (λ s. IfSome (F.bytes file)
            (λ xs. ⟦<FileStore<F> as PageStore>⟧.seen s
            ≡ record (whole_pages xs) { faults = F.refusals file; has_lost = F.has_lost file })) }
        // It may have 2^32 - 1 pages.
        ensures most { IfOk result (λ s.
            (⟦<FileStore<F> as PageStore>⟧.seen s).most ≡ 2 ^ 32 - 1) }
        // Its count of faults is the file's count of refusals.
        ensures faults { IfOk result (λ s.
            (⟦<FileStore<F> as PageStore>⟧.seen s).faults ≡ F.refusals file) }
        // Any page counts as unsynced.
        ensures unsynced { IfOk result (λ s.
            (⟦<FileStore<F> as PageStore>⟧.seen s).unsynced ≡ Others) }
        // A sync of it has failed if one of the file has.
        ensures lost { IfOk result (λ s.
            (⟦<FileStore<F> as PageStore>⟧.seen s).has_lost ≡ F.has_lost file) }
        // A file of 2^32 pages or more is refused.
        ensures too_long { IfSome (F.bytes file)
            (λ xs. 2 ^ 32 ≤ length xs / 4096 → IsErr result) }
        // A file that tells its bytes, and has fewer pages, is never refused.
        ensures opens { IfSome (F.bytes file)
            (λ xs. length xs / 4096 < 2 ^ 32 → IsOk result) }
    {
        let Ok(len) = file.len() else {
            return Err(StoreFault);
        };
        let Ok(count) = u32::try_from(len / 4096) else {
            return Err(StoreFault);
        };
        Ok(FileStore {
            file,
            count,
            unsynced: Unsynced::Others,
        })
    }
}

impl<F: FileExt + OpenFile + Drop> FileStore<SystemFile<F>> {
    /// The store in the file at a path. If there is none, an empty one is made. Any page may be
    /// unsynced.
    ///
    /// It fails if the system does not open the file, or it has 2^32 pages or more.
    pub fn open<R: Files<File = F>>(
        rt: &R,
        path: &str,
    ) -> Result<FileStore<SystemFile<F>>, StoreFault>
        // It may have 2^32 - 1 pages.
        ensures most { IfOk result (λ s.
            (⟦<FileStore<SystemFile<F>> as PageStore>⟧.seen s).most ≡ 2 ^ 32 - 1) }
        // No fault was counted.
        ensures faults { IfOk result (λ s.
            (⟦<FileStore<SystemFile<F>> as PageStore>⟧.seen s).faults ≡ 0) }
        // Any page counts as unsynced.
        ensures unsynced { IfOk result (λ s.
            (⟦<FileStore<SystemFile<F>> as PageStore>⟧.seen s).unsynced ≡ Others) }
        // No sync of it has failed.
        ensures lost { IfOk result (λ s.
            (⟦<FileStore<SystemFile<F>> as PageStore>⟧.seen s).has_lost ≡ false) }
    {
        match SystemFile::open(rt, path) {
            Ok(file) => FileStore::new(file),
            Err(_) => Err(StoreFault),
        }
    }
}

impl<F: ByteFile> PageStore for FileStore<F> {
    ghost use Rattle.pages.specs.Store.{Store, IsLawful};
    ghost use Rattle.pages.specs.PagesOfLemmas.{length-known_pages};

    ghost seen = { λ s. record {
      count = s.count;
      most = 2 ^ 32 - 1;
      faults = F.refusals s.file;
      unsynced = s.unsynced;
      has_lost = F.has_lost s.file;
      is_faithful = is_some (F.bytes s.file);
      pages = known_pages 4096 s.count (F.bytes s.file);
    } };

    ghost lawful = { λ s. record {
      within = Prim.omega (arith, s.small);
      small = Prim.omega arith;
      counted = length-known_pages 4096 s.count (F.bytes s.file);
    } };

    fn len(&self) -> u32 {
        self.count
    }

    fn most(&self) -> u32 {
        u32::MAX
    }

    fn read(&mut self, number: u32, page: &mut [u8; 4096]) -> Result<(), StoreFault> {
        match self.file.read_at(u64::from(number) * 4096, page) {
            Ok(()) => Ok(()),
            Err(_) => Err(StoreFault),
        }
    }

    fn write(&mut self, number: u32, page: &[u8; 4096]) -> Result<(), StoreFault> {
        self.unsynced = self.unsynced.with_written(number);
        match self.file.write_at(u64::from(number) * 4096, page) {
            Ok(()) => {
                if number == self.count {
                    self.count += 1;
                }
                Ok(())
            }
            Err(_) => Err(StoreFault),
        }
    }

    fn sync(&mut self) -> Result<(), StoreFault> {
        match self.file.sync() {
            Ok(()) => {
                self.unsynced = Unsynced::Nothing;
                Ok(())
            }
            Err(_) => Err(StoreFault),
        }
    }
}
