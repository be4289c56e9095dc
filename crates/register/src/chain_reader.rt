//! A text that is read from a chain of pages.
ghost use Rattle.std.specs.Prelude.{◌≡◌, ◌<◌, ◌≤◌, length, IfErr, OnErr, OnOk, None, [], drop, take};
ghost use Rattle.register.specs.Chain.{is_part};
ghost use Rattle.register.specs.ChainReader.{fault_of};

use crate::fault::CatalogueFault;
use pagecache::{CacheFault, PageCache, behind};
use pages::{Kind, PageStore, Payload};
use std::alloc::Global;
use std::marker::Model;
use tbnode::fields::{part, u16_at, u32_at, u64_at};

/// How many bytes of a text a page has at most.
pub const MOST_USED: u64 = 4040;

/// How a fault of the cache is answered where a page is read.
pub fn fault_of(fault: CacheFault) -> CatalogueFault
    ensures { result ≡ fault_of fault }
{
    match fault {
        CacheFault::NoPage => CatalogueFault::Malformed,
        CacheFault::Store => CatalogueFault::Store,
        CacheFault::Damaged(page) => CatalogueFault::Damaged(page),
        CacheFault::StoreFull => CatalogueFault::StoreFull,
        CacheFault::Memory => CatalogueFault::Memory,
    }
}

/// Whether a page has the form of one of the chain with so many bytes of the text.
#[tactic(auto, unfolding(crate::specs::Chain::is_part))]
fn is_part(payload: &Payload, used: u64) -> bool
    requires { used ≤ 4040 }
    ensures { result ≡ is_part used payload.now }
{
    match payload.kind {
        Kind::Catalogue => {
            u64::from(u16_at(&payload.bytes, 4)) == used
                && (u16_at(&payload.bytes, 6) == 0 && u64_at(&payload.bytes, 8) == 0)
        }
        _ => false,
    }
}

/// Lets go of the first bytes, so many.
fn drop_first(bytes: &mut Vec<u8>, count: usize)
    requires { count ≤ length bytes.old.items }
    ensures { bytes.new.items ≡ drop count bytes.old.items }
{
    bytes.drain(..count);
}

/// Reads a text from a chain of pages, as much at a time as is asked for.
#[derive(Drop)]
pub struct ChainReader {
    /// The page of the chain that comes next, 0 for none.
    pub(crate) next: u32,
    /// How many bytes of the text stand there and in the pages behind it.
    pub(crate) left: u64,
    /// The bytes that were read last.
    pub(crate) bytes: Vec<u8>,
    /// How many of them are taken.
    pub(crate) taken: usize,
}

impl Model for ChainReader {
    ghost use Rattle.std.specs.Prelude.{◌≤◌, drop, length};
    ghost use Rattle.register.specs.ChainReader.{ReaderView};

    ghost Value = { ReaderView };

    ghost view = { λ a.
        record { next = a.next; left = a.left; bytes = drop a.taken a.bytes.items } };

    ghost invariant = { λ a. a.taken ≤ length a.bytes.items };
}

impl ChainReader {
    ghost use Rattle.register.specs.ChainReader.{IsPageFault, IsShorter, ReadsAhead, TakesPart};

    /// Reads a text of that length from the chain that begins with a page.
    pub fn new(alloc: Global, first: u32, length: u64) -> ChainReader
        ensures { result ≡ record { next = first; left = length; bytes = [] } }
    {
        ChainReader {
            next: first,
            left: length,
            bytes: Vec::new(alloc),
            taken: 0,
        }
    }

    /// The page of the chain that comes next, 0 for none.
    pub fn next_page(&self) -> u32
        ensures { result ≡ self.now.next }
    {
        self.next
    }

    /// How many bytes of the text stand there and in the pages behind it.
    pub fn left(&self) -> u64
        ensures { result ≡ self.now.left }
    {
        self.left
    }

    /// Lets go of the bytes that are taken.
    fn forget(&mut self)
        ensures { self.new ≡ self.old }
    {
        drop_first(&mut self.bytes, self.taken);
        self.taken = 0;
    }

    /// Takes in a page of the chain.
    pub fn take_page(&mut self, payload: &Payload) -> Result<(), CatalogueFault>
        // Some of the text is left.
        requires { 0 < self.old.left }
        // After `Ok` the page's bytes of the text are at the end of those that wait, and its next
        // page is the next.
        ensures taken { OnOk result (TakesPart payload.now self.old self.new) }
        // It fails only if memory runs out, or the page has not the form of one of the chain.
        ensures broken { IfErr result (IsPageFault payload.now self.old) }
        // After an error the reader is as it was.
        ensures same { OnErr result (self.new ≡ self.old) }
    {
        self.forget();
        let used = self.left.min(MOST_USED);
        if !is_part(payload, used) {
            return Err(CatalogueFault::Malformed);
        }
        self.bytes
            .extend_from_slice(part(&payload.bytes, 16, used as usize))?;
        self.next = u32_at(&payload.bytes, 0);
        self.left -= used;
        Ok(())
    }

    /// How many pages the chain has behind the next one, as far as they are up to seven.
    fn pages_behind(&self) -> usize
        ensures { result ≤ 7 }
    {
        let pages = self.left.div_ceil(MOST_USED).saturating_sub(1);
        pages.min(7) as usize
    }

    /// Reads the next page of the chain. Those behind it may come into memory with it, since the
    /// pages of most chains follow one another.
    fn load<S: PageStore>(&mut self, cache: &mut PageCache<S>) -> Result<(), CatalogueFault>
        requires { 0 < self.old.left }
        ensures { ReadsAhead cache.old cache.new self.old self.new (self.new.left < self.old.left)
            (λ rest. rest ≡ None) result }
    {
        let next = behind(self.next);
        match cache.page_ahead(self.next, &next[..self.pages_behind()]) {
            Ok(payload) => self.take_page(payload),
            Err(fault) => Err(fault_of(fault)),
        }
    }

    /// Reads pages until so many bytes stand ready.
    pub(crate) fn fill<S: PageStore>(
        &mut self,
        cache: &mut PageCache<S>,
        len: usize,
    ) -> Result<(), CatalogueFault>
        ensures { ReadsAhead cache.old cache.new self.old self.new (len ≤ length self.new.bytes)
            (IsShorter len) result }
    {
        while self.bytes.len() - self.taken < len {
            if self.left == 0 {
                return Err(CatalogueFault::Malformed);
            }
            self.load(cache)?;
        }
        Ok(())
    }

    /// The next bytes that stand ready.
    pub(crate) fn ahead(&self, len: usize) -> &[u8]
        requires { len ≤ length self.now.bytes }
        ensures value { result.now ≡ take len self.now.bytes }
        ensures len { length result.now ≡ len }
    {
        &self.bytes[self.taken..self.taken + len]
    }

    /// Takes them.
    pub(crate) fn skip(&mut self, len: usize)
        requires { len ≤ length self.old.bytes }
        ensures { self.new ≡ record self.old { bytes = drop len self.old.bytes } }
    {
        self.taken += len;
    }
}
