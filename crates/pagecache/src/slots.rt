//! The pages in memory, over the store: a step of the cache each.
ghost use Rattle.std.specs.Prelude.{ℕ, ◌≡◌, ◌<◌, ◌≤◌, ◌↔◌, false, Some, None, IsTrue, IsSome, OnOk, OnErr, IfOk, IfErr, IfNone, IfSome, slice_get, length};
ghost use Rattle.std.specs.Borrow.{sem};
ghost use Rattle.pagecache.specs.Cache.{fresh, AddsPage, Flushes, IsRefused, IsStopped, IsWritten, Rests, in_memory, sealed_payload, is_changed, payload_of};
ghost use Rattle.pages.specs.Store.{IsSynced, Stays as StoreStays};
ghost use Rattle.pagecache.specs.SlotLends.{LendsSlot};
ghost use Rattle.pagecache.specs.Slots.{Appends, HasFailed, HasRoom, IsFirst, IsSound, IsWithin, OnLeaving, Steps, WritesBack, changed_numbers, seen_of};

use crate::fault::CacheFault;
use lru::LruCache;
use pages::{PageStore, Payload, seal, unseal};
use std::alloc::{AllocError, Global};
use std::num::NonZeroUsize;

/// A page in memory. The payload is boxed, so that no move of an entry copies 4 KB.
#[derive(Drop)]
pub struct Held {
    pub(crate) payload: Box<Payload>,
    /// Whether the page may differ from the page as written.
    pub(crate) changed: bool,
}

/// The pages in memory, the one used last first, over the store.
pub struct Slots<S> {
    pub(crate) store: S,
    pub(crate) held: LruCache<u32, Held>,
    pub(crate) count: u32,
    pub(crate) asked: u64,
    /// The page that is likely to be asked for after each one.
    pub(crate) followers: Vec<u32>,
    alloc: Global,
}

// In one place, and not at each end of what owns it.
impl<S: Drop> Drop for Slots<S> {
    fn drop(self) {
        let Slots {
            store,
            held,
            count,
            asked,
            followers,
            alloc,
        } = self;
    }
}

/// A page of zero bytes.
pub(crate) fn blank() -> [u8; 4096] {
    [0; 4096]
}

impl<S: PageStore> Slots<S> {
    /// No page in memory yet, and room for `capacity` of them.
    pub(crate) fn new(alloc: Global, store: S, capacity: usize) -> Result<Self, (S, AllocError)>
        requires { 0 < capacity }
        ensures sound { IfOk result (λ slots. IsSound (seen_of S.seen slots)) }
        ensures fresh { IfOk result
            (λ slots. seen_of S.seen slots ≡ fresh (S.seen store) capacity) }
        ensures written { IfOk result (λ slots. IsWritten (seen_of S.seen slots)) }
        ensures back { IfErr result (λ refusal. refusal.0 ≡ store) }
    {
        let count = store.len();
        let Some(capacity) = NonZeroUsize::new(capacity) else {
            unreachable!()
        };
        match LruCache::new(alloc, capacity) {
            Ok(held) => Ok(Slots {
                store,
                held,
                count,
                asked: 0,
                followers: Vec::new(alloc),
                alloc,
            }),
            Err(error) => Err((store, error)),
        }
    }

    /// The store below, as it stands.
    pub(crate) fn into_store(self) -> S
        ensures { result ≡ self.store }
    {
        let Slots {
            store,
            held,
            count,
            asked,
            followers,
            alloc,
        } = self;
        store
    }

    /// The page that is to be written before another can come in.
    fn leaving(&self) -> Option<u32>
        ensures within { IsWithin (seen_of S.seen self.now) }
        ensures room { IfNone result (HasRoom (seen_of S.seen self.now)) }
        ensures leaves { IfSome result
            (λ number. OnLeaving (seen_of S.seen self.now) (λ last. last ≡ number)) }
    {
        if self.held.len() < self.held.cap().get() {
            return None;
        }
        match self.held.peek_lru() {
            None => None,
            Some((number, held)) => { if held.changed { Some(*number) } else { None } }
        }
    }

    /// Writes the page that would leave, where it is changed, and others that are to leave soon.
    pub(crate) fn make_room(&mut self) -> Result<(), CacheFault>
        requires { IsSound (seen_of S.seen self.old) }
        ensures writes { WritesBack (seen_of S.seen self.old) (seen_of S.seen self.new) result }
        ensures room { OnOk result (HasRoom (seen_of S.seen self.new)) }
    {
        match self.leaving() {
            None => Ok(()),
            Some(number) => self.write_leaving(number),
        }
    }

    /// Puts a page into memory that is as it was written.
    pub(crate) fn keep(&mut self, number: u32, payload: Payload) -> Result<(), CacheFault>
        requires sound { IsSound (seen_of S.seen self.old) }
        requires below { number < self.old.count }
        requires absent { in_memory (seen_of S.seen self.old) number ≡ None }
        requires room { HasRoom (seen_of S.seen self.old) }
        requires same { IsTrue (S.seen self.old.store).is_faithful
            → sealed_payload (seen_of S.seen self.old) number ≡ Some payload }
        ensures steps { Steps (seen_of S.seen self.old) (seen_of S.seen self.new) }
        ensures first { OnOk result (IsFirst (seen_of S.seen self.new) number) }
        ensures cause { IfErr result (λ fault. fault ≡ CacheFault.Memory) }
    {
        let payload = match Box::new(self.alloc, payload) {
            Ok(payload) => payload,
            Err(_) => return Err(CacheFault::Memory),
        };
        let held = Held {
            payload,
            changed: false,
        };
        match self.held.put(number, held) {
            Ok(_) => Ok(()),
            Err(_) => Err(CacheFault::Memory),
        }
    }

    /// Takes a page from the store into memory.
    fn fetch(&mut self, number: u32) -> Result<(), CacheFault>
        requires sound { IsSound (seen_of S.seen self.old) }
        requires below { number < self.old.count }
        requires absent { in_memory (seen_of S.seen self.old) number ≡ None }
        requires room { HasRoom (seen_of S.seen self.old) }
        ensures steps { Steps (seen_of S.seen self.old) (seen_of S.seen self.new) }
        ensures first { OnOk result (IsFirst (seen_of S.seen self.new) number) }
        ensures cause { IfErr result (λ fault. IsRefused number fault
            (seen_of S.seen self.old) (seen_of S.seen self.new)) }
    {
        let mut page = blank();
        self.store.read(number, &mut page)?;
        match unseal(number, &page) {
            Ok(payload) => self.keep(number, payload),
            Err(_) => Err(CacheFault::Damaged(number)),
        }
    }

    /// Whether a page is the one that was used last.
    fn is_first(&self, number: u32) -> bool
        ensures { IsTrue result → IsFirst (seen_of S.seen self.now) number }
    {
        match self.held.peek_mru() {
            Some((first, _)) => *first == number,
            None => false,
        }
    }

    /// Makes a page the one that was used last.
    fn load(&mut self, number: u32) -> Result<(), CacheFault>
        requires sound { IsSound (seen_of S.seen self.old) }
        requires below { number < self.old.count }
        ensures steps { Steps (seen_of S.seen self.old) (seen_of S.seen self.new) }
        ensures first { OnOk result (IsFirst (seen_of S.seen self.new) number) }
        ensures cause { IfErr result (λ fault. IsRefused number fault
            (seen_of S.seen self.old) (seen_of S.seen self.new)) }
    {
        if self.is_first(number) {
            return Ok(());
        }
        if self.held.promote(&number) {
            return Ok(());
        }
        match self.make_room() {
            Ok(()) => self.fetch(number),
            Err(fault) => Err(fault),
        }
    }

    /// Counts one ask, and makes the page the one that was used last. Some others that are asked for
    /// next may come with it.
    pub(crate) fn ready(&mut self, number: u32, next: &[u32]) -> Result<(), CacheFault>
        requires { IsSound (seen_of S.seen self.old) }
        ensures sound { IsSound (seen_of S.seen self.new) }
        ensures rests { Rests (seen_of S.seen self.old) (seen_of S.seen self.new) }
        ensures below { OnOk result (number < self.old.count) }
        ensures first { OnOk result (IsFirst (seen_of S.seen self.new) number) }
        ensures cause { IfErr result (λ fault. IsRefused number fault
            (seen_of S.seen self.old) (seen_of S.seen self.new)) }
        ensures no_page { self.old.count ≤ number → result ≡ Err CacheFault.NoPage }
    {
        self.asked = self.asked.saturating_add(1);
        if number >= self.count {
            return Err(CacheFault::NoPage);
        }
        self.look_ahead(number, next);
        self.load(number)
    }

    /// The page that was used last.
    pub(crate) fn first(&self) -> &Payload
        requires { IsSome (slice_get self.now.held.entries 0) }
        ensures { (n : ℕ) → IsFirst (seen_of S.seen self.now) n
            → payload_of (seen_of S.seen self.now) n ≡ Some result.now }
    {
        let (_, held) = self.held.peek_mru().unwrap();
        &*held.payload
    }

    /// Lends a page, which is marked as changed before.
    pub(crate) fn page_mut(&mut self, number: u32) -> Result<&mut Payload, CacheFault>
        requires { IsSound (seen_of S.seen self.old) }
        ensures* lends { sem 𝓛 (LendsSlot S.row S.PageStore self.entry number result) }
        ensures value { IfOk result (λ page. IsTrue (S.seen self.old.store).is_faithful
            → payload_of (seen_of S.seen self.old) number ≡ Some page.now) }
        ensures below { OnOk result (number < self.old.count) }
        ensures no_page { self.old.count ≤ number → result ≡ Err CacheFault.NoPage }
    {
        self.ready(number, &[])?;
        match self.held.get_mut(&number) {
            Some(held) => {
                held.changed = true;
                Ok(&mut *held.payload)
            }
            None => unreachable!(),
        }
    }

    /// A page's payload, where it is in memory.
    pub(crate) fn peek(&self, number: u32) -> Option<&Payload> {
        match self.held.peek(&number) {
            Some(held) => Some(&*held.payload),
            None => None,
        }
    }

    /// Whether a page is in memory and changed.
    pub(crate) fn is_changed(&self, number: u32) -> bool
        ensures { result ≡ is_changed (seen_of S.seen self.now) number }
    {
        match self.held.peek(&number) {
            Some(held) => held.changed,
            None => false,
        }
    }

    /// The numbers of the changed pages.
    fn changed(&self) -> Result<Vec<u32>, AllocError>
        ensures { IfOk result
            (λ numbers. numbers.items ≡ changed_numbers self.now.held.entries) }
    {
        self.held
            .iter()
            .filter(|(_, held)| held.changed)
            .map(|(number, _)| *number)
            .collect(self.alloc)
    }

    /// Makes the store last.
    #[tactic(auto, using(crate::proofs::CacheLemmas::store_rests))]
    fn sync(&mut self) -> Result<(), CacheFault>
        ensures rest { self.new ≡ record self.old { store = self.new.store } }
        ensures stays { StoreStays (S.seen self.old.store) (S.seen self.new.store) }
        ensures synced { OnOk result (IsSynced (S.seen self.new.store)) }
        ensures cause { IfErr result
            (λ fault. HasFailed fault (seen_of S.seen self.old) (seen_of S.seen self.new)) }
    {
        match self.store.sync() {
            Ok(()) => Ok(()),
            Err(_) => Err(CacheFault::Store),
        }
    }

    /// Writes every changed page, and makes the store last.
    pub(crate) fn flush(&mut self) -> Result<(), CacheFault>
        requires { IsSound (seen_of S.seen self.old) }
        ensures sound { IsSound (seen_of S.seen self.new) }
        ensures flushes { Flushes (seen_of S.seen self.old) (seen_of S.seen self.new) result }
    {
        let numbers = match self.changed() {
            Ok(numbers) => numbers,
            Err(_) => return Err(CacheFault::Memory),
        };
        match self.write_all(&numbers) {
            Ok(()) => {}
            Err(fault) => return Err(fault),
        }
        self.sync()
    }

    /// Whether there are as many pages as the store may have.
    fn is_full(&self) -> bool
        ensures { IsTrue result ↔ ((S.seen self.now.store).most ≤ self.now.count) }
    {
        self.count >= self.store.most()
    }

    /// Adds a page to the store.
    fn append(&mut self, payload: &Payload) -> Result<u32, CacheFault>
        requires sound { IsSound (seen_of S.seen self.old) }
        requires room { self.old.count < (S.seen self.old.store).most }
        ensures appends { Appends payload.now (seen_of S.seen self.old)
            (seen_of S.seen self.new) result }
        ensures held { self.new.held ≡ self.old.held }
        ensures cause { IfErr result
            (λ fault. HasFailed fault (seen_of S.seen self.old) (seen_of S.seen self.new)) }
    {
        let number = self.count;
        let page = seal(number, payload);
        match self.store.write(number, &page) {
            Ok(()) => {
                self.count += 1;
                Ok(number)
            }
            Err(_) => Err(CacheFault::Store),
        }
    }

    /// Adds a page with a payload, and counts one ask.
    pub(crate) fn add(&mut self, payload: Payload) -> Result<u32, CacheFault>
        requires { IsSound (seen_of S.seen self.old) }
        ensures sound { IsSound (seen_of S.seen self.new) }
        ensures page { AddsPage payload (seen_of S.seen self.old) (seen_of S.seen self.new) result }
        ensures clean { OnOk result
            (is_changed (seen_of S.seen self.new) self.old.count ≡ false) }
    {
        self.asked = self.asked.saturating_add(1);
        if self.is_full() {
            return Err(CacheFault::StoreFull);
        }
        match self.make_room() {
            Ok(()) => {}
            Err(fault) => return Err(fault),
        }
        match self.append(&payload) {
            Ok(number) => {
                // A page for which there is no memory stays in the store alone.
                let _ = self.keep(number, payload);
                Ok(number)
            }
            Err(fault) => Err(fault),
        }
    }

    /// Takes a page with a payload into memory, behind the last one. It is changed: the store has
    /// zero bytes for it, which are no sealed page, until it is written.
    fn enter(&mut self, payload: Payload) -> Result<u32, CacheFault>
        requires sound { IsSound (seen_of S.seen self.old) }
        requires most { self.old.count < (S.seen self.old.store).most }
        requires room { HasRoom (seen_of S.seen self.old) }
        ensures appends { Appends payload (seen_of S.seen self.old)
            (seen_of S.seen self.new) result }
        ensures cause { IfErr result
            (λ fault. IsStopped fault (seen_of S.seen self.old) (seen_of S.seen self.new)) }
    {
        let number = self.count;
        let payload = match Box::new(self.alloc, payload) {
            Ok(payload) => payload,
            Err(_) => return Err(CacheFault::Memory),
        };
        let held = Held {
            payload,
            changed: true,
        };
        let zeros = blank();
        match self.store.write(number, &zeros) {
            Ok(()) => {}
            Err(_) => return Err(CacheFault::Store),
        }
        match self.held.put(number, held) {
            Ok(_) => {
                self.count += 1;
                Ok(number)
            }
            Err(_) => Err(CacheFault::Memory),
        }
    }

    /// Adds a page with a payload, and counts one ask. It is written later.
    pub(crate) fn add_changed(&mut self, payload: Payload) -> Result<u32, CacheFault>
        requires { IsSound (seen_of S.seen self.old) }
        ensures sound { IsSound (seen_of S.seen self.new) }
        ensures page { AddsPage payload (seen_of S.seen self.old) (seen_of S.seen self.new) result }
    {
        self.asked = self.asked.saturating_add(1);
        if self.is_full() {
            return Err(CacheFault::StoreFull);
        }
        match self.make_room() {
            Ok(()) => {}
            Err(fault) => return Err(fault),
        }
        match self.enter(payload) {
            Ok(number) => Ok(number),
            Err(fault) => Err(fault),
        }
    }

    /// How many pages are in memory.
    pub(crate) fn held(&self) -> usize
        ensures value { result ≡ length self.now.held.entries }
        ensures within { result ≤ self.now.held.cap }
    {
        self.held.len()
    }
}
