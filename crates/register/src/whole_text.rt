//! The whole text of a catalogue.
ghost use Rattle.std.specs.Prelude.{ℕ, [], Option, Some, ◌≡◌, ◌≢◌, ◌↔◌, IsTrue};
ghost use Rattle.pages.specs.declared.payload.Payload.{Payload};

use crate::chain_reader::ChainReader;
use crate::contents::Contents;
use crate::fault::CatalogueFault;
use legs::Limits;
use pagecache::PageCache;
use pages::PageStore;
use std::alloc::Global;

impl ChainReader {
    ghost use Rattle.register.specs.ChainReader.{rest_of, ReadsPages, ReadsValue};
    ghost use Rattle.register.specs.Text.{body_text, catalogue_text, flag_of, IsRead};
    ghost use Rattle.register.specs.declared.contents.Contents.{Contents};

    /// What stands behind the byte that says whether a file was accepted.
    fn body<S: PageStore>(
        &mut self,
        alloc: Global,
        cache: &mut PageCache<S>,
        limits: &Limits,
        flag: u8,
    ) -> Result<Option<Contents>, CatalogueFault>
        ensures { ReadsValue cache.old cache.new self.old self.new
            body_text (λ contents. IsRead limits.now.legs contents × (flag_of contents ≡ flag))
            result }
    {
        match flag {
            0 => Ok(None),
            1 => match self.contents(alloc, cache, limits) {
                Ok(contents) => Ok(Some(contents)),
                Err(fault) => Err(fault),
            },
            _ => Err(CatalogueFault::Malformed),
        }
    }

    /// A whole text, whatever stands behind it.
    fn catalogue<S: PageStore>(
        &mut self,
        alloc: Global,
        cache: &mut PageCache<S>,
        limits: &Limits,
    ) -> Result<Option<Contents>, CatalogueFault>
        ensures { ReadsValue cache.old cache.new self.old self.new
            catalogue_text (IsRead limits.now.legs) result }
    {
        let flag = self.byte(cache)?;
        let contents = self.body(alloc, cache, limits, flag)?;
        Ok(contents)
    }

    /// Whether nothing is left.
    fn is_at_end(&self) -> bool
        ensures { (at : ℕ → Option Payload) → IsTrue result ↔ (rest_of at self.now ≡ Some []) }
    {
        if self.left != 0 {
            return false;
        }
        if self.next != 0 {
            return false;
        }
        self.taken == self.bytes.len()
    }

    /// The whole text, to its end; `Malformed` where it says more legs than the limit, or more
    /// rows than legs, before any row is read.
    pub fn whole<S: PageStore>(
        &mut self,
        alloc: Global,
        cache: &mut PageCache<S>,
        limits: &Limits,
    ) -> Result<Option<Contents>, CatalogueFault>
        // It returns exactly the contents whose text is left to read, with few enough legs and
        // rows. If it fails for another reason than memory or the store, no such text is left.
        ensures { ReadsPages cache.old cache.new (λ at contents. IsRead limits.now.legs contents
            × (rest_of at self.old ≡ Some (catalogue_text contents)))
            (λ at. (contents : Option Contents) → IsRead limits.now.legs contents
            → rest_of at self.old ≢ Some (catalogue_text contents)) result }
    {
        let contents = self.catalogue(alloc, cache, limits)?;
        if !self.is_at_end() {
            return Err(CatalogueFault::Malformed);
        }
        Ok(contents)
    }
}
