//! The contract of a store of pages.
ghost use Rattle.std.specs.Prelude.{◌≡◌, ◌<◌, ◌≤◌, Some, slice_get, IsTrue, OnOk, OnErr};
ghost use Rattle.pages.specs.Store.{Store, IsLawful, IsSynced, Faulted, MayUnsync, SameUnsynced, Stays, Tears, Unsyncs, Writes};

use thiserror::Error;

/// The error of a store: it failed.
#[derive(Clone, Copy, PartialEq, Eq, Debug, Error)]
#[error("the page store failed")]
pub struct StoreFault;

/// A store of pages, which have the numbers from 0 to one below `len`.
///
/// A store is faithful if every read that returns `Ok` gives the page that was last written there.
/// What is said of pages is said of a faithful store. No call changes whether it is faithful, nor
/// how many pages there may be. The count of faults rises with every error, and never otherwise.
///
/// A page that is written is unsynced until `sync` returns `Ok`. After a failed `sync`, what was
/// written before may be lost. So every later `sync` fails too.
pub trait PageStore {
    /// What contracts see of a store: how many pages there are and may be, how many calls have
    /// failed, which pages may be unsynced, whether a sync ever failed, whether it is faithful, and
    /// the pages as written. The count of faults stays at 2^64 - 1 once it is there, and then
    /// counts as risen.
    ghost seen: { Self → Store };

    /// How many pages there are.
    fn len(&self) -> u32
        ensures { result ≡ (seen self.now).count };

    /// How many pages there may be.
    fn most(&self) -> u32
        ensures { result ≡ (seen self.now).most };

    /// Reads a page. An error leaves any bytes in `page`, and no page of the store changes.
    fn read(&mut self, number: u32, page: &mut [u8; 4096]) -> Result<(), StoreFault>
        // There is a page of that number.
        requires { number < (seen self.old).count }
        // Of a faithful store it is the page that was last written there.
        ensures read { OnOk result (IsTrue (seen self.old).is_faithful
            → slice_get (seen self.old).pages number ≡ Some page.new) }
        // No page changes and none is added, on an error too.
        ensures stays { Stays (seen self.old) (seen self.new) }
        // The same pages are unsynced as before.
        ensures unsynced { SameUnsynced (seen self.old) (seen self.new) }
        // After `Ok` no fault was counted.
        ensures refuses_none { OnOk result ((seen self.new).faults ≡ (seen self.old).faults) }
        // An error is counted as a fault.
        ensures cause { OnErr result (Faulted (seen self.old) (seen self.new)) };

    /// Writes a page, which may be a new one. An error leaves any bytes in that page, which may
    /// then be there. No other page changes.
    fn write(&mut self, number: u32, page: &[u8; 4096]) -> Result<(), StoreFault>
        // The page is there, or is the next one.
        requires next { number ≤ (seen self.old).count }
        // The store may have a page of that number.
        requires room { number < (seen self.old).most }
        // After `Ok` that page is the one that was written, and no other has changed.
        ensures written { OnOk result (Writes number page.now (seen self.old) (seen self.new)) }
        // After `Ok` that page counts as unsynced.
        ensures unsynced { OnOk result (Unsyncs number (seen self.old) (seen self.new)) }
        // After `Ok` no fault was counted.
        ensures refuses_none { OnOk result ((seen self.new).faults ≡ (seen self.old).faults) }
        // After an error that page may hold any bytes, and may be new. No other has changed.
        ensures torn { OnErr result (Tears number (seen self.old) (seen self.new)) }
        // After an error that page counts as unsynced, or no page has changed.
        ensures torn_unsynced { OnErr result (MayUnsync number (seen self.old) (seen self.new)) }
        // An error is counted as a fault.
        ensures cause { OnErr result (Faulted (seen self.old) (seen self.new)) };

    /// Syncs what was written to the disk. After one error every later sync fails.
    fn sync(&mut self) -> Result<(), StoreFault>
        // No page changes and none is added, on an error too.
        ensures stays { Stays (seen self.old) (seen self.new) }
        // After `Ok` every page is synced, and no sync ever failed.
        ensures synced { OnOk result (IsSynced (seen self.new)) }
        // After `Ok` no fault was counted.
        ensures refuses_none { OnOk result ((seen self.new).faults ≡ (seen self.old).faults) }
        // An error is remembered, so that every later sync fails.
        ensures lost { OnErr result (IsTrue (seen self.new).has_lost) }
        // After an error the same pages are unsynced as before.
        ensures unsynced { OnErr result (SameUnsynced (seen self.old) (seen self.new)) }
        // An error is counted as a fault.
        ensures cause { OnErr result (Faulted (seen self.old) (seen self.new)) };

    /// What holds of every store: no more pages than may be, and fewer than 2^32 of them.
    ghost lawful: { (store : Self) → IsLawful (seen store) };
}
