//! A text that is written to a chain of pages.
ghost use Rattle.std.specs.Prelude.{ℕ, ◌≡◌, ◌+◌, ◌<◌, ◌≤◌, ◌++◌, [], false, length, List, nat_eq, All, OnOk, OnErr, IfOk, IfErr, IfSome, IsTrue, ◌↔◌, None, Some};
ghost use Rattle.pages.specs.declared.payload.Kind.TheVariants.{Catalogue};
ghost use Rattle.pages.specs.Zero.{zero_payload};
ghost use Rattle.pagecache.specs.Cache.{payload_of, AddsPage, IsRefused, Lends, Rests};
ghost use Rattle.indexmap.specs.IndexSet.{insert_key, contains, spare};
ghost use Rattle.pages.specs.declared.payload.Payload.{Payload};
ghost use Rattle.register.specs.Chain.{part_payload};
ghost use Rattle.register.specs.ChainWriter.{AreNumbers, Fills, IsNumber, IsPutBehind, Gives, IsThere, OnlyAsks, PayloadsStay, TakesPages, IsAllowed, IsCaused};

use crate::chain_reader::MOST_USED;
use indexmap::IndexSet;
use pagecache::{CacheFault, PageCache};
use pages::{Kind, PageStore, Payload};
use std::alloc::{AllocError, Global};
use std::hash::RandomState;
use std::marker::Model;
use tbnode::fields::{put, put_u16, put_u32, u32_at};

/// How many bytes of the text a page has at most.
const FULL: usize = MOST_USED as usize;

/// Writes a text to a chain of pages: to those of an earlier chain first, and to new ones behind
/// them.
#[derive(Drop)]
pub(crate) struct ChainWriter {
    /// The pages of the text so far; all but the last one are written.
    pages: IndexSet<u32, RandomState>,
    /// The page of the earlier chain that comes next, 0 for none.
    earlier: u32,
    /// The text that is not written yet.
    text: Vec<u8>,
}

impl Model for ChainWriter {
    ghost use Rattle.register.specs.ChainWriter.{AreNumbers, WriterView};

    ghost Value = { WriterView };

    ghost view = { λ a. record { pages = a.pages.keys; earlier = a.earlier; text = a.text.items } };

    ghost invariant = { λ a. AreNumbers a.pages.keys };
}

/// The payload of a page of the chain: the page after it, 0 for none, and its bytes of the text.
fn payload_for(next: u32, text: &[u8]) -> Payload
    requires { length text.now ≤ 4040 }
    ensures { result ≡ part_payload next text.now }
{
    let mut payload = Payload::zero(Kind::Catalogue);
    put_u32(&mut payload.bytes, 0, next);
    put_u16(&mut payload.bytes, 4, text.len() as u16);
    put(&mut payload.bytes, 16, text);
    payload
}

/// Whether a page has that payload.
fn has_payload<S: PageStore>(
    cache: &mut PageCache<S>,
    page: u32,
    payload: &Payload,
) -> Result<bool, CacheFault>
    ensures same { IfOk result (λ same. IsTrue cache.old.store.is_faithful
        → IsTrue same ↔ (payload_of cache.old page ≡ Some payload.now)) }
    ensures rests { Rests cache.old cache.new }
    ensures refused { IfErr result (λ fault. IsRefused page fault cache.old cache.new) }
{
    let held = cache.page(page)?;
    Ok(*held == *payload)
}

/// Writes a page.
fn replace<S: PageStore>(
    cache: &mut PageCache<S>,
    page: u32,
    payload: Payload,
) -> Result<(), CacheFault>
    ensures lends { OnOk result (Lends page payload cache.old cache.new) }
    ensures rests { OnErr result (Rests cache.old cache.new) }
    ensures refused { IfErr result (λ fault. IsRefused page fault cache.old cache.new) }
{
    *cache.page_mut(page)? = payload;
    Ok(())
}

/// Writes a page of the chain, where it has another payload.
fn write_page<S: PageStore>(
    cache: &mut PageCache<S>,
    page: u32,
    next: u32,
    text: &[u8],
) -> Result<(), CacheFault>
    requires { length text.now ≤ 4040 }
    ensures writes { OnOk result (Fills page (part_payload next text.now) cache.old cache.new) }
    ensures rests { OnErr result (OnlyAsks cache.old cache.new) }
    ensures refused { IfErr result (λ fault. IsRefused page fault cache.old cache.new) }
{
    let payload = payload_for(next, text);
    if has_payload(cache, page, &payload)? {
        return Ok(());
    }
    replace(cache, page, payload)
}

/// What a page of a catalogue says comes after it.
fn next_of(payload: &Payload) -> Option<u32>
    ensures kind { IfSome result (λ next. payload.now.kind ≡ Catalogue) }
{
    if payload.kind != Kind::Catalogue {
        return None;
    }
    Some(u32_at(&payload.bytes, 0))
}

/// What comes after a page; none where it cannot be read, or is none of a catalogue.
fn following<S: PageStore>(cache: &mut PageCache<S>, page: u32) -> Result<Option<u32>, CacheFault>
    ensures rests { Rests cache.old cache.new }
    ensures there { IfOk result (λ o. IfSome o (λ next. IsThere cache.old page)) }
    ensures only { IfErr result IsAllowed }
    ensures caused { IfErr result (IsCaused cache.old cache.new) }
{
    match cache.page(page) {
        Ok(payload) => Ok(next_of(payload)),
        Err(CacheFault::NoPage) => Ok(None),
        Err(CacheFault::Damaged(_)) => Ok(None),
        Err(fault) => Err(fault),
    }
}

/// Adds page 0, which is the header's, where there is no page.
fn add_first<S: PageStore>(cache: &mut PageCache<S>) -> Result<(), CacheFault>
    ensures some { OnOk result (0 < cache.new.count) }
    ensures stay { PayloadsStay cache.old cache.new }
    ensures takes { TakesPages cache.old cache.new result }
{
    if cache.count() > 0 {
        return Ok(());
    }
    cache.add_page(Kind::Header)?;
    Ok(())
}

/// Adds a page of zeros, which is sealed once it has its bytes of the text, where it is still in
/// memory by then.
fn add_zeros<S: PageStore>(cache: &mut PageCache<S>) -> Result<u32, CacheFault>
    ensures { AddsPage (zero_payload Catalogue) cache.old cache.new result }
{
    cache.add_changed(Payload::zero(Kind::Catalogue))
}

/// Adds a page, above page 0.
fn add_above<S: PageStore>(cache: &mut PageCache<S>) -> Result<u32, CacheFault>
    ensures gives { IfOk result (λ page. Gives cache.old page cache.new) }
    ensures new { IfOk result (λ page. cache.old.count ≤ page) }
    ensures takes { TakesPages cache.old cache.new result }
{
    add_first(cache)?;
    let page = add_zeros(cache)?;
    Ok(page)
}

/// The page of an earlier chain that comes next, and what comes after it; none where there is no
/// such page.
fn reused<S: PageStore>(
    pages: &IndexSet<u32, RandomState>,
    earlier: u32,
    cache: &mut PageCache<S>,
) -> Result<Option<u32>, CacheFault>
    ensures apart { IfOk result (λ o. IfSome o (λ next.
        contains nat_eq pages.now earlier ≡ false)) }
    ensures gives { IfOk result (λ o. IfSome o (λ next. Gives cache.old earlier cache.new)) }
    ensures stay { PayloadsStay cache.old cache.new }
    ensures takes { TakesPages cache.old cache.new result }
{
    if earlier == 0 || pages.contains(&earlier) {
        return Ok(None);
    }
    following(cache, earlier)
}

/// A page that is none of these: that of the earlier chain, else a new one; and what comes next in
/// the earlier chain.
fn next_page<S: PageStore>(
    pages: &IndexSet<u32, RandomState>,
    earlier: u32,
    cache: &mut PageCache<S>,
) -> Result<(u32, u32), CacheFault>
    ensures gives { IfOk result (λ r. Gives cache.old r.0 cache.new) }
    ensures apart { IfOk result (λ r. All (λ p. p < cache.old.count) pages.now.keys
        → contains nat_eq pages.now r.0 ≡ false) }
    ensures takes { TakesPages cache.old cache.new result }
{
    match reused(pages, earlier, cache)? {
        Some(next) => Ok((earlier, next)),
        None => {
            let page = add_above(cache)?;
            Ok((page, 0))
        }
    }
}

/// Puts a page behind the others.
fn put_last(pages: &mut IndexSet<u32, RandomState>, page: u32)
    requires { 0 < spare pages.old }
    ensures keys { pages.new.keys ≡ insert_key nat_eq pages.old.keys page }
    ensures numbers { 0 < page → All IsNumber pages.old.keys → AreNumbers pages.new.keys }
{
    pages.insert(page).unwrap();
}

/// The same, and puts the page behind the others.
fn take_page<S: PageStore>(
    pages: &mut IndexSet<u32, RandomState>,
    earlier: u32,
    cache: &mut PageCache<S>,
) -> Result<(u32, u32), CacheFault>
    ensures gives { IfOk result (λ r. Gives cache.old r.0 cache.new) }
    ensures put { IfOk result (λ r. All (λ p. p < cache.old.count) pages.old.keys
        → IsPutBehind pages.old.keys r.0 pages.new.keys) }
    ensures numbers { OnOk result (All IsNumber pages.old.keys → AreNumbers pages.new.keys) }
    ensures same { OnErr result (pages.new.keys ≡ pages.old.keys) }
    ensures takes { TakesPages cache.old cache.new result }
{
    if pages.reserve(1).is_err() {
        return Err(CacheFault::Memory);
    }
    let (page, next) = next_page(pages, earlier, cache)?;
    put_last(pages, page);
    Ok((page, next))
}

impl ChainWriter {
    ghost use Rattle.std.specs.Prelude.{List, ℕ, [], All, ◌≡◌, ◌+◌, ◌-◌, ◌*◌, ◌<◌, ◌≤◌, ◌++◌, OnOk, OnErr, IfOk, IfErr, IsTrue, length, slice_index};
    ghost use Rattle.register.specs.ChainWriter.{behind, Closes, IsNumber, TakesPages, WritesOn, Holds};

    /// A writer of a text, to an earlier chain that begins at that page, 0 for none. The numbers of
    /// pages are hashed with the keys.
    pub(crate) fn new<S: PageStore>(
        alloc: Global,
        keys: RandomState,
        cache: &mut PageCache<S>,
        earlier: u32,
    ) -> Result<ChainWriter, CacheFault>
        ensures holds { IfOk result (λ w. Holds cache.new w []) }
        ensures takes { TakesPages cache.old cache.new result }
    {
        let mut pages = IndexSet::with_hasher(alloc, keys);
        let (_, next) = take_page(&mut pages, earlier, cache)?;
        Ok(ChainWriter {
            pages,
            earlier: next,
            text: Vec::new(alloc),
        })
    }

    /// Puts bytes at the end of the text.
    pub(crate) fn push(&mut self, bytes: &[u8]) -> Result<(), AllocError>
        ensures { OnOk result (self.new
            ≡ record self.old { text = self.old.text ++ bytes.now }) }
    {
        self.text.extend_from_slice(bytes)
    }

    /// The last page.
    fn last(&self) -> u32
        ensures last { result ≡ slice_index self.now.pages (length self.now.pages - 1) }
        ensures some { 0 < length self.now.pages }
        ensures above { 0 < result }
    {
        let pages = self.pages.as_slice();
        pages[pages.len() - 1]
    }

    /// How many bytes of the text are not written yet.
    fn left(&self) -> usize
        ensures { result ≡ length self.now.text }
    {
        self.text.len()
    }

    /// Writes the last page full, with the bytes behind the first ones that are not written, and
    /// takes another page.
    fn write_part<S: PageStore>(
        &mut self,
        cache: &mut PageCache<S>,
        done: usize,
    ) -> Result<(), CacheFault>
        requires { done + 4040 < length self.old.text }
        ensures text { self.new.text ≡ self.old.text }
        ensures holds { OnOk result ((text : List ℕ) → Holds cache.old (behind done self.old) text
            → Holds cache.new (behind (done + 4040) self.new) text) }
        ensures writes { WritesOn cache.old cache.new (behind done self.old) result }
    {
        let last = self.last();
        let (page, next) = take_page(&mut self.pages, self.earlier, cache)?;
        self.earlier = next;
        write_page(cache, last, page, &self.text[done..done + FULL])
    }
    /// Forgets the first bytes of the text that is not written.
    fn forget(&mut self, done: usize)
        requires { done ≤ length self.old.text }
        ensures { self.new ≡ behind done self.old }
    {
        self.text.drain(..done);
    }

    /// Writes all pages that the text fills, but for the last one.
    pub(crate) fn write_full<S: PageStore>(
        &mut self,
        cache: &mut PageCache<S>,
    ) -> Result<(), CacheFault>
        ensures holds { OnOk result ((text : List ℕ) → Holds cache.old self.old text
            → Holds cache.new self.new text) }
        ensures short { OnOk result (length self.new.text ≤ 4040) }
        ensures writes { WritesOn cache.old cache.new self.old result }
    {
        let len = self.left();
        let mut done = 0;
        while len - done > FULL {
            self.write_part(cache, done)?;
            done += FULL;
        }
        self.forget(done);
        Ok(())
    }

    /// How long the text is.
    fn text_len(&self) -> u64
        requires { length self.now.text ≤ 4040 }
        ensures { result ≡ 4040 * (length self.now.pages - 1) + length self.now.text }
    {
        let full = self.pages.len() as u64 - 1;
        full * FULL as u64 + self.text.len() as u64
    }

    /// The first page.
    fn first(&self) -> u32
        ensures first { result ≡ slice_index self.now.pages 0 }
        ensures small { All IsNumber self.now.pages }
    {
        self.pages.as_slice()[0]
    }
    /// Writes the last page, and answers the first one and the length of the text.
    fn close<S: PageStore>(&self, cache: &mut PageCache<S>) -> Result<(u32, u64), CacheFault>
        requires { length self.now.text ≤ 4040 }
        ensures { Closes cache.old cache.new self.now result }
    {
        let last = self.last();
        write_page(cache, last, 0, &self.text)?;
        Ok((self.first(), self.text_len()))
    }

    /// Writes what is not written yet, and answers the first page and the length of the text in
    /// bytes.
    pub(crate) fn finish<S: PageStore>(
        mut self,
        cache: &mut PageCache<S>,
    ) -> Result<(u32, u64), CacheFault>
        ensures { Closes cache.old cache.new self result }
    {
        self.write_full(cache)?;
        self.close(cache)
    }
}
