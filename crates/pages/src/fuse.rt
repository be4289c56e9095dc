//! A store that fails on purpose.
ghost use Rattle.std.specs.Prelude.{◌≡◌, false, ◌<◌, ◌≤◌};
ghost use Rattle.pages.specs.Store.{MayUnsync, Tears};

use crate::refusals::Refusals;
use crate::sealing::blank;
use crate::store::{PageStore, StoreFault};

/// A store over another one that fails once some calls of `read`, `write` and `sync` have passed,
/// to try what stands above it.
///
/// Each failure counts as a fault, also one of the store below. A `write` that it fails leaves zero
/// bytes in a page that is there, and adds none. After a failed `sync` every later one fails. It is
/// faithful if the store below is.
#[derive(Drop)]
pub struct Fuse<S> {
    store: S,
    /// How many calls still pass; `None` once the fuse has burnt and passes all.
    left: Option<u64>,
    once: bool,
    faults: Refusals,
    /// Whether a sync failed.
    has_lost: bool,
}

impl<S: PageStore> Fuse<S> {
    ghost use Rattle.pages.specs.Fuse.{inner};

    /// A store that passes `calls` calls and fails the next one, and, unless only `once`, all
    /// later ones.
    pub fn new(store: S, calls: u64, once: bool) -> Fuse<S>
        // The store below is the one that was given.
        ensures store { inner result ≡ store }
        // It has the pages of the store below, with no fault counted and no failed sync.
        ensures seen { ⟦<Fuse<S> as PageStore>⟧.seen result
            ≡ record (S.seen store) { faults = 0; has_lost = false } }
    {
        Fuse {
            store,
            left: Some(calls),
            once,
            faults: Refusals::none(),
            has_lost: false,
        }
    }

    /// The store below.
    pub fn into_inner(self) -> S
        ensures { result ≡ inner self }
    {
        self.store
    }

    /// Whether this call fails.
    fn burns(&mut self) -> bool
        ensures store { self.new.store ≡ self.old.store }
        ensures faults { self.new.faults ≡ self.old.faults }
        ensures lost { self.new.has_lost ≡ self.old.has_lost }
    {
        match self.left {
            None => false,
            Some(0) => {
                if self.once {
                    self.left = None;
                }
                true
            }
            Some(left) => {
                self.left = Some(left - 1);
                false
            }
        }
    }

    /// Leaves a page of zero bytes in place of a page, where there is one.
    fn spoil(&mut self, number: u32)
        requires next { number ≤ (S.seen self.old.store).count }
        requires room { number < (S.seen self.old.store).most }
        ensures torn { Tears number (S.seen self.old.store) (S.seen self.new.store) }
        ensures unsynced { MayUnsync number (S.seen self.old.store) (S.seen self.new.store) }
        ensures faults { self.new.faults ≡ self.old.faults }
        ensures lost { self.new.has_lost ≡ self.old.has_lost }
    {
        if number < self.store.len() {
            let _ = self.store.write(number, &blank());
        }
    }
}

impl<S: PageStore> PageStore for Fuse<S> {
    ghost use Rattle.pages.specs.Store.{Store, IsLawful};

    ghost seen = { λ s. record (S.seen s.store) { faults = s.faults; has_lost = s.has_lost } };

    ghost lawful = { λ s. let l = S.lawful s.store in
        record { within = l.within; small = l.small; counted = l.counted } };

    fn len(&self) -> u32 {
        self.store.len()
    }

    fn most(&self) -> u32 {
        self.store.most()
    }

    /// Reads a page of the store below, unless the fuse fails the call.
    fn read(&mut self, number: u32, page: &mut [u8; 4096]) -> Result<(), StoreFault> {
        if self.burns() {
            return self.faults.count(Err(StoreFault));
        }
        self.faults.count(self.store.read(number, page))
    }

    /// Writes a page of the store below, unless the fuse fails the call, and then leaves a page of
    /// zero bytes where there is one.
    fn write(&mut self, number: u32, page: &[u8; 4096]) -> Result<(), StoreFault> {
        if self.burns() {
            self.spoil(number);
            return self.faults.count(Err(StoreFault));
        }
        self.faults.count(self.store.write(number, page))
    }

    /// Syncs the store below, unless the fuse fails the call.
    fn sync(&mut self) -> Result<(), StoreFault> {
        let burns = self.burns();
        if burns || self.has_lost {
            self.has_lost = true;
            return self.faults.count(Err(StoreFault));
        }
        let answer = self.store.sync();
        self.has_lost = answer.is_err();
        self.faults.count(answer)
    }
}
