//! The values of a text, as they are read one after another.
ghost use Rattle.std.specs.Prelude.{◌≡◌, ◌∷◌, ◌≤◌, [], take, length, IsUtf8};
ghost use Rattle.byteorder.specs.Endian.{big_bytes};
ghost use Rattle.tbnode.specs.Parts.{signed_bytes};
ghost use Rattle.rows.specs.Rows.{with_value};
ghost use Rattle.register.specs.ChainReader.{Finds, Makes};

use crate::chain_reader::ChainReader;
use crate::fault::CatalogueFault;
use crate::numbers::i64_of;
use header::{u32_of, u64_of};
use mfcsv::Text;
use pagecache::PageCache;
use pages::PageStore;
use rows::GrowingRows;
use std::alloc::Global;
use std::str;

/// Bytes as a text; `None` where they are not UTF-8.
fn text_of(bytes: &[u8]) -> Option<&str>
    ensures { Finds (λ text. (text.now ≡ bytes.now) × IsUtf8 bytes.now) (IsUtf8 bytes.now → ⊥)
        result }
{
    match str::from_utf8(bytes) {
        Ok(text) => Some(text),
        Err(_) => None,
    }
}

/// Puts a text behind the values of the row that is begun.
fn put_value(rows: &mut GrowingRows, text: &str) -> Result<(), CatalogueFault>
    ensures { Makes (λ _. rows.new ≡ with_value rows.old text.now) ⊥ result }
{
    match rows.push_value(text) {
        Ok(()) => Ok(()),
        Err(_) => Err(CatalogueFault::Memory),
    }
}

impl ChainReader {
    ghost use Rattle.register.specs.ChainReader.{ReadsInto, ReadsValue};
    ghost use Rattle.register.specs.Text.{short_text, IsNumber, IsSigned, IsShortText};

    /// A number of one byte.
    pub(crate) fn byte<S: PageStore>(
        &mut self,
        cache: &mut PageCache<S>,
    ) -> Result<u8, CatalogueFault>
        ensures { ReadsValue cache.old cache.new self.old self.new
            (λ n. n ∷ []) (IsNumber 8) result }
    {
        self.fill(cache, 1)?;
        let value = self.ahead(1)[0];
        self.skip(1);
        Ok(value)
    }

    /// A number of four bytes.
    pub(crate) fn u32<S: PageStore>(
        &mut self,
        cache: &mut PageCache<S>,
    ) -> Result<u32, CatalogueFault>
        ensures { ReadsValue cache.old cache.new self.old self.new
            (big_bytes 4) (IsNumber 32) result }
    {
        self.fill(cache, 4)?;
        let value = u32_of(self.ahead(4));
        self.skip(4);
        Ok(value)
    }

    /// A number of eight bytes.
    pub(crate) fn u64<S: PageStore>(
        &mut self,
        cache: &mut PageCache<S>,
    ) -> Result<u64, CatalogueFault>
        ensures { ReadsValue cache.old cache.new self.old self.new
            (big_bytes 8) (IsNumber 64) result }
    {
        self.fill(cache, 8)?;
        let value = u64_of(self.ahead(8));
        self.skip(8);
        Ok(value)
    }

    /// A number of eight bytes, as two's complement.
    pub(crate) fn i64<S: PageStore>(
        &mut self,
        cache: &mut PageCache<S>,
    ) -> Result<i64, CatalogueFault>
        ensures { ReadsValue cache.old cache.new self.old self.new signed_bytes IsSigned result }
    {
        self.fill(cache, 8)?;
        let value = i64_of(self.ahead(8));
        self.skip(8);
        Ok(value)
    }

    /// The next bytes that stand ready, as a text; `Malformed` where they are not UTF-8.
    fn ready_text(&self, alloc: Global, len: usize) -> Result<Text, CatalogueFault>
        requires { len ≤ length self.now.bytes }
        ensures { Makes (λ text. (text ≡ take len self.now.bytes) × IsUtf8 text)
            (IsUtf8 (take len self.now.bytes) → ⊥) result }
    {
        let mut bytes = Vec::new(alloc);
        bytes.extend_from_slice(self.ahead(len))?;
        match String::from_utf8(bytes) {
            Ok(text) => Ok(Text::from(text)),
            Err(_) => Err(CatalogueFault::Malformed),
        }
    }

    /// Puts the next bytes that stand ready, as a text, behind the values of the row that is begun;
    /// `Malformed` where they are not UTF-8.
    fn put_ready(&self, len: usize, rows: &mut GrowingRows) -> Result<(), CatalogueFault>
        requires { len ≤ length self.now.bytes }
        ensures { Makes (λ _. (rows.new ≡ with_value rows.old (take len self.now.bytes))
            × IsUtf8 (take len self.now.bytes)) (IsUtf8 (take len self.now.bytes) → ⊥) result }
    {
        match text_of(self.ahead(len)) {
            Some(text) => put_value(rows, text),
            None => Err(CatalogueFault::Malformed),
        }
    }

    /// A text behind its length, put behind the values of the row that is begun.
    pub(crate) fn value<S: PageStore>(
        &mut self,
        cache: &mut PageCache<S>,
        rows: &mut GrowingRows,
    ) -> Result<(), CatalogueFault>
        ensures { ReadsInto cache.old cache.new self.old self.new
            short_text IsShortText (λ text. rows.new ≡ with_value rows.old text) result }
    {
        let len = self.u64(cache)? as usize;
        self.fill(cache, len)?;
        self.put_ready(len, rows)?;
        self.skip(len);
        Ok(())
    }

    /// A text behind its length.
    pub(crate) fn text<S: PageStore>(
        &mut self,
        alloc: Global,
        cache: &mut PageCache<S>,
    ) -> Result<Text, CatalogueFault>
        ensures { ReadsValue cache.old cache.new self.old self.new short_text IsShortText result }
    {
        let len = self.u64(cache)? as usize;
        self.fill(cache, len)?;
        let text = self.ready_text(alloc, len)?;
        self.skip(len);
        Ok(text)
    }
}
