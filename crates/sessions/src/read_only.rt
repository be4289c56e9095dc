//! A store that cannot be written.
ghost use Rattle.std.specs.Prelude.{◌≡◌, ◌<◌, false, Some, slice_get, IsTrue, IsErr, OnErr, OnOk};
ghost use Rattle.pages.specs.Store.{Faulted, Stays};
ghost use Rattle.pages.specs.declared.unsynced.Unsynced.TheVariants.{Nothing};

use pages::{PageStore, Refusals, StoreFault};

/// A store over another one whose pages are read and never written: each `write` is refused, and
/// none reaches the store below.
///
/// Each failure counts as a fault. It is faithful where the store below is. It leaves no page
/// unsynced, since it writes none, and syncs none of the store below.
#[derive(Drop)]
pub struct ReadOnly<S> {
    store: S,
    faults: Refusals,
}

impl<S: PageStore> ReadOnly<S> {
    /// The store over that one, of which no call has failed.
    pub fn new(store: S) -> ReadOnly<S>
        ensures { ⟦<ReadOnly<S> as PageStore>⟧.seen result
            ≡ record (S.seen store) { faults = 0; unsynced = Nothing; has_lost = false } }
    {
        ReadOnly {
            store,
            faults: Refusals::none(),
        }
    }
}

impl<S: PageStore> PageStore for ReadOnly<S> {
    ghost seen = { λ s. record (S.seen s.store) { faults = s.faults; unsynced = Nothing; has_lost = false } };

    ghost lawful = { λ s. let l = S.lawful s.store in
        record { within = l.within; small = l.small; counted = l.counted } };

    fn len(&self) -> u32 {
        self.store.len()
    }

    fn most(&self) -> u32 {
        self.store.most()
    }

    /// Reads a page of the store below, and is refused only where that fails.
    fn read(&mut self, number: u32, page: &mut [u8; 4096]) -> Result<(), StoreFault>
        requires { number < (⟦<ReadOnly<S> as PageStore>⟧.seen self.old).count }
        // It fails only if the store below does.
        ensures passes { OnErr result
            (Faulted (S.seen self.old.store) (S.seen self.new.store)) }
        // Of a faithful store it is the page that was last written there.
        ensures read { OnOk result
            (IsTrue (⟦<ReadOnly<S> as PageStore>⟧.seen self.old).is_faithful
            → slice_get (⟦<ReadOnly<S> as PageStore>⟧.seen self.old).pages number
            ≡ Some page.new) }
        // No page changes.
        ensures stays { Stays (⟦<ReadOnly<S> as PageStore>⟧.seen self.old)
            (⟦<ReadOnly<S> as PageStore>⟧.seen self.new) }
        // After `Ok` no fault was counted.
        ensures refuses_none { OnOk result
            ((⟦<ReadOnly<S> as PageStore>⟧.seen self.new).faults
            ≡ (⟦<ReadOnly<S> as PageStore>⟧.seen self.old).faults) }
        // An error is counted as a fault.
        ensures cause { OnErr result
            (Faulted (⟦<ReadOnly<S> as PageStore>⟧.seen self.old)
            (⟦<ReadOnly<S> as PageStore>⟧.seen self.new)) }
    {
        self.faults.count(self.store.read(number, page))
    }

    /// Refuses to write a page: no page changes.
    fn write(&mut self, _number: u32, _page: &[u8; 4096]) -> Result<(), StoreFault>
        // It always fails.
        ensures refused { IsErr result }
        // No page changes.
        ensures stays { Stays (⟦<ReadOnly<S> as PageStore>⟧.seen self.old)
            (⟦<ReadOnly<S> as PageStore>⟧.seen self.new) }
        // The error is counted as a fault.
        ensures cause { Faulted (⟦<ReadOnly<S> as PageStore>⟧.seen self.old)
            (⟦<ReadOnly<S> as PageStore>⟧.seen self.new) }
    {
        self.faults.count(Err(StoreFault))
    }

    fn sync(&mut self) -> Result<(), StoreFault> {
        Ok(())
    }
}
