//! The contract of a file of bytes.
ghost use Rattle.std.specs.Prelude.{ℕ, ◌≡◌, ◌≤◌, ◌+◌, Bool, false, IsTrue, List, Option, is_some, length, slice_range, IfOk, IfSome, IsOk, OnErr, OnOk};
ghost use Rattle.pages.specs.Bytes.{StaysAround};
ghost use Rattle.pages.specs.Store.{HasRisen};

use std::io;

/// A file whose bytes are read and written at places, each call by itself.
///
/// A file may tell contracts which bytes it holds, and then they are said exactly. A file of the
/// system tells none.
pub trait ByteFile {
    /// The bytes that the file holds, where it tells them.
    ghost bytes: { Self → Option (List ℕ) };

    /// Whether all that was written is on the disk, where the file tells it; a file that tells
    /// nothing counts as synced.
    ghost is_synced: { Self → Bool };

    /// How many calls failed. The count never falls. 2^64 - 1 stands for any greater number.
    ghost refusals: { Self → ℕ };

    /// Whether a sync ever failed. The system may then forget what it did not write, and report
    /// success the next time. So the file is not read, written or synced again.
    ghost has_lost: { Self → Bool };

    /// How many bytes there are. A file that tells its bytes never fails here.
    fn len(&mut self) -> io::Result<u64>
        // It is the number of bytes, if the file tells them.
        ensures value { IfOk result (λ n. IfSome (bytes self.old) (λ xs. n ≡ length xs)) }
        // A file that tells its bytes does not fail.
        ensures told { IsTrue (is_some (bytes self.old)) → IsOk result }
        // The bytes stay.
        ensures stays { bytes self.new ≡ bytes self.old }
        // What was synced stays synced.
        ensures synced { is_synced self.new ≡ is_synced self.old }
        // Whether a sync has ever failed stays as it was.
        ensures lost { has_lost self.new ≡ has_lost self.old }
        // After `Ok` no refusal was counted.
        ensures refuses_none { OnOk result (refusals self.new ≡ refusals self.old) }
        // An error is counted as a refusal.
        ensures cause { OnErr result (HasRisen (refusals self.old) (refusals self.new)) };

    /// Reads the bytes from a place on, as many as `buf` has, which are there.
    fn read_at(&mut self, place: u64, buf: &mut [u8]) -> io::Result<()>
        // If the file tells its bytes, all of these are there.
        requires { IfSome (bytes self.old) (λ xs. place + length buf.old ≤ length xs) }
        // After `Ok` the buffer has exactly the bytes at that place.
        ensures read { OnOk result (IfSome (bytes self.old)
            (λ xs. slice_range xs place (place + length buf.new) ≡ buf.new)) }
        // The bytes of the file stay.
        ensures stays { bytes self.new ≡ bytes self.old }
        // What was synced stays synced.
        ensures synced { is_synced self.new ≡ is_synced self.old }
        // After a failed sync it fails.
        ensures never_lost { OnOk result (has_lost self.old ≡ false) }
        // Whether a sync has ever failed stays as it was.
        ensures lost { has_lost self.new ≡ has_lost self.old }
        // After `Ok` no refusal was counted.
        ensures refuses_none { OnOk result (refusals self.new ≡ refusals self.old) }
        // An error is counted as a refusal.
        ensures cause { OnErr result (HasRisen (refusals self.old) (refusals self.new)) }
        // The count of refusals never falls.
        ensures later { refusals self.old ≤ refusals self.new };

    /// Writes bytes from a place on, which may be the file's end. An error leaves any bytes there,
    /// and no other byte changes.
    fn write_at(&mut self, place: u64, buf: &[u8]) -> io::Result<()>
        // If the file tells its bytes, the place is at its end at most.
        requires { IfSome (bytes self.old) (λ xs. place ≤ length xs) }
        // After `Ok` the file has exactly these bytes at that place.
        ensures written { OnOk result (IfSome (bytes self.new)
            (λ xs. slice_range xs place (place + length buf.now) ≡ buf.now)) }
        // All other bytes stay, and the file gets no shorter, on an error too.
        ensures around { StaysAround place (place + length buf.now)
            (bytes self.old) (bytes self.new) }
        // After a failed sync it fails.
        ensures never_lost { OnOk result (has_lost self.old ≡ false) }
        // Whether a sync has ever failed stays as it was.
        ensures lost { has_lost self.new ≡ has_lost self.old }
        // After `Ok` no refusal was counted.
        ensures refuses_none { OnOk result (refusals self.new ≡ refusals self.old) }
        // An error is counted as a refusal.
        ensures cause { OnErr result (HasRisen (refusals self.old) (refusals self.new)) }
        // The count of refusals never falls.
        ensures later { refusals self.old ≤ refusals self.new };

    /// Syncs what was written to the disk. After one error every later read, write and sync fails.
    fn sync(&mut self) -> io::Result<()>
        // The bytes stay.
        ensures stays { bytes self.new ≡ bytes self.old }
        // After `Ok` all that was written is on the disk.
        ensures synced { OnOk result (IsTrue (is_synced self.new)) }
        // After an error as much counts as synced as before.
        ensures unsynced { OnErr result (is_synced self.new ≡ is_synced self.old) }
        // After a failed sync every later one fails.
        ensures never_lost { OnOk result (has_lost self.old ≡ false) }
        // After `Ok` no sync has failed.
        ensures not_lost { OnOk result (has_lost self.new ≡ false) }
        // An error is remembered: a sync has failed.
        ensures lost { OnErr result (IsTrue (has_lost self.new)) }
        // After `Ok` no refusal was counted.
        ensures refuses_none { OnOk result (refusals self.new ≡ refusals self.old) }
        // An error is counted as a refusal.
        ensures cause { OnErr result (HasRisen (refusals self.old) (refusals self.new)) }
        // The count of refusals never falls.
        ensures later { refusals self.old ≤ refusals self.new };
}
