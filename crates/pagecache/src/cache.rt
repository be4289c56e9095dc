//! The cache as its callers see it.
ghost use Rattle.std.specs.Prelude.{◌≡◌, ◌<◌, ◌≤◌, false, Some, IsTrue, IfOk, IfErr, OnOk, length};
ghost use Rattle.std.specs.Borrow.{sem};
ghost use Rattle.pagecache.specs.Cache.{fresh, is_changed, payload_of, AddsPage, Flushes, IsSettled, IsWritten};
ghost use Rattle.pages.specs.Store.{IsLawful};
ghost use Rattle.pages.specs.Zero.{zero_payload};
ghost use Rattle.pagecache.specs.PageLends.{LendsPage, ShowsPage};

use crate::fault::CacheFault;
use crate::slots::Slots;
use pages::{Kind, PageStore, Payload};
use std::alloc::{AllocError, Global};
use std::marker::Model;

/// A bounded cache of pages over a store.
///
/// Contracts see a map from numbers to payloads: the page in memory, else the one whose seal is
/// the store's page. A number whose page is not sealed has none. No refusal changes the map. Of a
/// store that is not faithful nothing is said of payloads.
#[derive(Drop)]
pub struct PageCache<S: PageStore> {
    slots: Slots<S>,
}

impl<S: PageStore> Model for PageCache<S> {
    ghost use Rattle.pagecache.specs.Cache.{Cache};
    ghost use Rattle.pagecache.specs.Slots.{IsSound, seen_of};

    ghost Value = { Cache };

    ghost view = { λ a. seen_of S.seen a.slots };

    ghost invariant = { λ a. IsSound (seen_of S.seen a.slots) };
}

impl<S: PageStore> PageCache<S> {
    /// A cache of at most `capacity` pages in memory, which has none yet. Refused for want of memory
    /// alone; the store is then handed back.
    pub fn new(alloc: Global, store: S, capacity: usize) -> Result<PageCache<S>, (S, AllocError)>
        // There is room for a page in memory.
        requires { 0 < capacity }
        // It has no page in memory, counts the store's pages, and counted no ask.
        ensures fresh { IfOk result (λ cache. cache ≡ fresh (S.seen store) capacity) }
        // No page is changed, and the store's pages seal the payloads.
        ensures written { IfOk result (λ cache. IsWritten cache) }
        // If memory runs out, the store comes back as it was.
        ensures back { IfErr result (λ refusal. refusal.0 ≡ store) }
    {
        match Slots::new(alloc, store, capacity) {
            Ok(slots) => Ok(PageCache { slots }),
            Err(refusal) => Err(refusal),
        }
    }

    /// A page, to read. It is `NoPage` exactly where `number` is not below `count`.
    pub fn page(&mut self, number: u32) -> Result<&Payload, CacheFault>
        // No payload changes and one ask is counted, on an error too. An error says what is wrong
        // with that page or the store.
        ensures* rests { sem 𝓛 (ShowsPage S.row S.PageStore self.entry number result) }
        // Over a faithful store it is the payload of that page.
        ensures value { IfOk result (λ page. IsTrue self.old.store.is_faithful
            → payload_of self.old number ≡ Some page.now) }
        // It succeeds only for a page that is there.
        ensures below { OnOk result (number < self.old.count) }
        // A number at or above the count is `NoPage`.
        ensures no_page { self.old.count ≤ number → result ≡ Err CacheFault.NoPage }
    {
        self.slots.ready(number, &[])?;
        Ok(self.slots.first())
    }

    /// A page, to read, as `page` lends it. `next` are pages that are asked for soon: where the page
    /// is not in memory, up to seven of them that are not there come with it.
    pub fn page_ahead(&mut self, number: u32, next: &[u32]) -> Result<&Payload, CacheFault>
        // No payload changes and one ask is counted, on an error too. An error says what is wrong
        // with that page or the store.
        ensures* rests { sem 𝓛 (ShowsPage S.row S.PageStore self.entry number result) }
        // Over a faithful store it is the payload of that page.
        ensures value { IfOk result (λ page. IsTrue self.old.store.is_faithful
            → payload_of self.old number ≡ Some page.now) }
        // It succeeds only for a page that is there.
        ensures below { OnOk result (number < self.old.count) }
        // A number at or above the count is `NoPage`.
        ensures no_page { self.old.count ≤ number → result ≡ Err CacheFault.NoPage }
    {
        self.slots.ready(number, next)?;
        Ok(self.slots.first())
    }

    /// A page, to write to: what is written through the reference is that page's payload, and no
    /// other page changes. It is `NoPage` exactly where `number` is not below `count`.
    pub fn page_mut(&mut self, number: u32) -> Result<&mut Payload, CacheFault>
        // What is written through the reference becomes that page's payload. No other page changes,
        // and one ask is counted.
        ensures* lends { sem 𝓛 (LendsPage S.row S.PageStore self.entry number result) }
        // Over a faithful store it is the payload of that page, as it is now.
        ensures value { IfOk result (λ page. IsTrue self.old.store.is_faithful
            → payload_of self.old number ≡ Some page.now) }
        // It succeeds only for a page that is there.
        ensures below { OnOk result (number < self.old.count) }
        // A number at or above the count is `NoPage`.
        ensures no_page { self.old.count ≤ number → result ≡ Err CacheFault.NoPage }
    {
        self.slots.page_mut(number)
    }

    /// Adds a page with a payload to the store, and returns its number, the count so far. No number from
    /// there on had a payload. The page is sealed and written at once, with that payload.
    pub fn add(&mut self, payload: Payload) -> Result<u32, CacheFault>
        // There is one page more, with this payload, and no other payload changes; or none, and an
        // error says why.
        ensures page { AddsPage payload self.old self.new result }
        // The new page is not changed: as written it seals that payload.
        ensures clean { OnOk result (is_changed self.new self.old.count ≡ false) }
    {
        self.slots.add(payload)
    }

    /// Adds a page with a payload that is likely to change once more, and returns its number, the
    /// count so far. No number from there on had a payload. It is sealed and written with its payload when it leaves
    /// memory, or by `flush`; until then the store has zero bytes in its place, which are no sealed
    /// page. Where there is no memory to hold it, it is refused.
    pub fn add_changed(&mut self, payload: Payload) -> Result<u32, CacheFault>
        // There is one page more, with this payload, and no other payload changes; or none, and an
        // error says why.
        ensures { AddsPage payload self.old self.new result }
    {
        self.slots.add_changed(payload)
    }

    /// Adds a page with a zero payload to the store, and returns its number, the count so far. No
    /// number from there on had a payload. The page is sealed and written at once, with zeros.
    pub fn add_page(&mut self, kind: Kind) -> Result<u32, CacheFault>
        // There is one page more, with this payload, and no other payload changes; or none, and an
        // error says why.
        ensures page { AddsPage (zero_payload kind) self.old self.new result }
        // The new page is not changed: as written it seals that payload.
        ensures clean { OnOk result (is_changed self.new self.old.count ≡ false) }
    {
        self.add(Payload::zero(kind))
    }

    /// Writes every changed page to the store, and makes the store last. A page that is not
    /// changed is not written.
    pub fn flush(&mut self) -> Result<(), CacheFault>
        // After `Ok` no page is changed, each is written, and the store is synced. No payload
        // changes, and an error says why it failed.
        ensures { Flushes self.old self.new result }
    {
        self.slots.flush()
    }

    /// Notes that `next` is likely to be asked for after a page, for `noted_after`. No contract says
    /// what was noted.
    pub fn note_next(&mut self, number: u32, next: u32)
        ensures { self.new ≡ self.old }
    {
        self.slots.note_next(number, next)
    }

    /// The page that was noted to come after a page; where none was, a number that no page has.
    pub fn follower(&self, number: u32) -> u32 {
        self.slots.follower(number)
    }

    /// Where a page is not in memory, those that were noted to come after it, one after the other.
    pub fn noted_after(&self, number: u32) -> [u32; 7] {
        self.slots.noted_after(number)
    }

    /// A page's payload, where it is in memory, without an ask. No contract says what it gives.
    pub fn peek(&self, number: u32) -> Option<&Payload> {
        self.slots.peek(number)
    }

    /// How many pages may be in memory.
    pub fn capacity(&self) -> usize {
        self.slots.held.cap().get()
    }

    /// Whether a page is in memory and not as it was last written.
    pub fn is_changed(&self, number: u32) -> bool
        ensures { result ≡ is_changed self.now number }
    {
        self.slots.is_changed(number)
    }

    /// How often a page was asked for or added, refused or not; 2^64 - 1 stands for any greater
    /// number.
    pub fn asked(&self) -> u64
        ensures { result ≡ self.now.asked }
    {
        self.slots.asked
    }

    /// How many pages there are.
    pub fn count(&self) -> u32
        // It is the number of pages.
        ensures value { result ≡ self.now.count }
        // The store has at least that many.
        ensures within { result ≤ self.now.store.count }
        // A page that is not changed has the payload that the page as written seals.
        ensures settled { IsSettled self.now }
    {
        self.slots.count
    }

    /// How many pages are in memory.
    pub fn held(&self) -> usize
        // It is the number of pages in memory.
        ensures value { result ≡ length self.now.held }
        // It is at most the capacity.
        ensures within { result ≤ self.now.capacity }
    {
        self.slots.held()
    }

    /// The store below, as it stands.
    pub fn store(&self) -> &S
        // It is the store below, as it stands.
        ensures value { S.seen result.now ≡ self.now.store }
        // A page that is not changed has the payload that the page as written seals.
        ensures settled { IsSettled self.now }
        // The store has no more pages than it may, and fewer than 2^32.
        ensures lawful { IsLawful self.now.store }
    {
        &self.slots.store
    }

    /// The store as it stands: what was changed and not written is lost.
    pub fn into_store(self) -> S
        ensures { S.seen result ≡ self.store }
    {
        self.slots.into_store()
    }
}
