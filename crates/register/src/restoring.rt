//! A catalogue is read back from the pages of a store.
ghost use Rattle.std.specs.Prelude.{ℕ, ◌≡◌, ◌≤◌, ◌↔◌, [], List, Option, IsTrue};
ghost use Rattle.std.specs.Int.{div_ceil};
ghost use Rattle.pages.specs.Store.{IsLawful};
ghost use Rattle.pagecache.specs.Cache.{payload_of};
ghost use Rattle.register.specs.Chain.{most_used};
ghost use Rattle.register.specs.ChainReader.{ReadsPages};
ghost use Rattle.register.specs.Restoring.{tree_of, HoldsContents, IsRest, ReadsStore};
ghost use Rattle.register.specs.Lasting.{IsKept};
ghost use Rattle.register.specs.Saved.{CatalogueView};
ghost use Rattle.register.specs.Text.{AreFew};
ghost use Rattle.tbtree.specs.declared.tree.Place.{Place};
ghost use Rattle.tbtree.specs.declared.tree.TbTree.{TbTree};
ghost use Rattle.register.specs.declared.contents.Contents.{Contents};

use crate::building::{catalogue_of, is_within};
use crate::chain_reader::{ChainReader, MOST_USED};
use crate::contents::Contents;
use crate::fault::CatalogueFault;
use crate::page_zero::read_header;
use crate::saving::Catalogue;
use header::Fields;
use pagecache::PageCache;
use pages::PageStore;
use std::alloc::Global;
use std::hash::RandomState;
use tbtree::{Place, TbTree};

/// Whether a text of that length fills no more pages than there are.
pub(crate) fn is_short<S: PageStore>(cache: &PageCache<S>, length: u64) -> bool
    ensures { IsTrue result ↔ (div_ceil length most_used ≤ cache.now.count) }
{
    length.div_ceil(MOST_USED) <= u64::from(cache.count())
}

/// What the text of a catalogue says, of the length and in the chain of pages that page 0 says.
fn read_contents<S: PageStore>(
    alloc: Global,
    cache: &mut PageCache<S>,
    fields: &Fields,
) -> Result<Option<Contents>, CatalogueFault>
    ensures { ReadsPages cache.old cache.new
        (λ at. HoldsContents at cache.old.count fields.now.first fields.now.length)
        (λ at. (contents : Option Contents) → AreFew fields.now.limits.legs contents
        → HoldsContents at cache.old.count fields.now.first fields.now.length contents → ⊥)
        result }
{
    if !is_short(cache, fields.length) {
        return Err(CatalogueFault::Malformed);
    }
    let mut reader = ChainReader::new(alloc, fields.first, fields.length);
    reader.whole(alloc, cache, &fields.limits)
}

/// What stands behind page 0: a lawful catalogue and the places of its features, where the tree is
/// within the pages.
fn read_rest<S: PageStore>(
    alloc: Global,
    keys: RandomState,
    cache: &mut PageCache<S>,
    fields: &Fields,
) -> Result<(Catalogue, Vec<Place>), CatalogueFault>
    ensures { ReadsPages cache.old cache.new
        (λ at r. IsRest at cache.old.count fields.now r.0 r.1.items)
        (λ at. (c : CatalogueView) (places : List Place)
        → IsRest at cache.old.count fields.now c places → ⊥) result }
{
    let count = cache.count();
    if !is_within(count, fields) {
        return Err(CatalogueFault::Malformed);
    }
    let contents = read_contents(alloc, cache, fields)?;
    catalogue_of(alloc, keys, count, fields, contents)
}

/// The tree that page 0 says.
fn tree_of(fields: &Fields) -> TbTree
    ensures { result ≡ tree_of fields.now }
{
    TbTree {
        root: fields.root,
        levels: fields.levels,
        leaves: fields.leaves,
        shape: fields.shape,
        spent: false,
    }
}

/// What is read back.
#[derive(Drop)]
pub struct Restored {
    pub catalogue: Catalogue,
    /// The tree of the legs.
    pub tree: TbTree,
    /// The places of the features in it, in the order of their numbers.
    pub places: Vec<Place>,
}

/// What the pages of a finished store keep.
///
/// Refused where they keep none, memory runs out, or the store fails. Of page 0 it is said first
/// that it is not there (`Malformed`), is damaged, is no header (`Malformed`), has another version,
/// is of a store that was not finished, or of one in another state (`Malformed`); then the first
/// page along the text that is damaged, or that the text up to there is malformed, as met.
pub fn read_back<S: PageStore>(
    alloc: Global,
    keys: RandomState,
    cache: &mut PageCache<S>,
) -> Result<Restored, CatalogueFault>
    // Over a faithful store it returns what the pages of a finished store keep. If it fails for
    // another reason than memory or the store, they keep nothing.
    ensures { ReadsStore cache.old cache.new (λ r. IsKept (payload_of cache.old)
        cache.old.count r.catalogue r.tree r.places.items)
        ((c : CatalogueView) (tree : TbTree) (places : List Place)
        → IsKept (payload_of cache.old) cache.old.count c tree places → ⊥) result }
{
    let fields = read_header(cache)?;
    let (catalogue, places) = read_rest(alloc, keys, cache, &fields)?;
    Ok(Restored {
        catalogue,
        tree: tree_of(&fields),
        places,
    })
}

/// What holds of the store below any cache, for the proofs of a caller. It does nothing.
pub fn lawful<S: PageStore>(cache: &PageCache<S>)
    ensures { IsLawful cache.now.store }
{
    let _ = cache.store();
}
