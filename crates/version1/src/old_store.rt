//! The catalogue of a finished store of version 1, which is lent and read.
ghost use Rattle.std.specs.Prelude.{◌≡◌, ◌≤◌, List, Option, IsTrue, IfErr, IfOk};
ghost use Rattle.pages.specs.Store.{Stays};
ghost use Rattle.pagecache.specs.Cache.{stored_payload};
ghost use Rattle.chains.specs.Reads.{OnlyReads};
ghost use Rattle.version1.specs.Migrating.{IsReadOld, NotMigrated};
ghost use Rattle.version1.specs.OldStore.{NoOldHeader, ReadsLent, SaysOldFields};
ghost use Rattle.register.specs.Restoring.{HoldsContents, IsRest};
ghost use Rattle.register.specs.Saved.{CatalogueView};
ghost use Rattle.register.specs.Text.{AreFew};
ghost use Rattle.tbtree.specs.declared.tree.Place.{Place};
ghost use Rattle.register.specs.declared.contents.Contents.{Contents};

use crate::lent_store::{fill_lent, read_sealed};
use crate::old_header::{OldFields, old_header_of};
use header::Fields;
use pagecache::PageCache;
use pages::PageStore;
use register::{
    Catalogue, CatalogueFault, ChainReader, Contents, MOST_USED, catalogue_of, is_within,
};
use std::alloc::Global;
use std::hash::RandomState;
use tbtree::{Place, Shape};

/// What is read of a finished store of version 1 beside its legs.
#[derive(Drop)]
pub(crate) struct OldRestored {
    pub(crate) catalogue: Catalogue,
    /// How many legs a leaf of its tree has at most, from 2 to 63.
    pub(crate) leaf: u16,
    /// The shape of the present version that comes nearest to that of its tree.
    pub(crate) shape: Shape,
    /// The places of the features in its tree.
    pub(crate) places: Vec<Place>,
}

/// What page 0 of a finished store of version 1 says.
fn read_old_header<S: PageStore>(lent: &mut S) -> Result<OldFields, CatalogueFault>
    ensures says { IfOk result (λ old. IsTrue (S.seen lent.old).is_faithful
        → SaysOldFields (S.seen lent.old).count (stored_payload (S.seen lent.old) 0) old) }
    ensures leaf { IfOk result (λ old. 2 ≤ old.leaf) }
    ensures refused { IfErr result (NoOldHeader (S.seen lent.old) (S.seen lent.new)) }
    ensures stays { Stays (S.seen lent.old) (S.seen lent.new) }
{
    match read_sealed(lent, 0) {
        Ok(payload) => old_header_of(&payload),
        Err(fault) => Err(fault),
    }
}

/// What the text of a catalogue says, of the length and in the chain of pages that page 0 says. It
/// is read whole, so that the cache is asked for no page.
fn read_old_contents<S: PageStore, T: PageStore>(
    alloc: Global,
    lent: &mut S,
    cache: &mut PageCache<T>,
    fields: &Fields,
) -> Result<Option<Contents>, CatalogueFault>
    requires { cache.old.count ≡ 0 }
    ensures { ReadsLent (S.seen lent.old) (S.seen lent.new) cache.old cache.new
        (λ at contents. HoldsContents at (S.seen lent.old).count fields.now.first
        fields.now.length contents)
        (λ at. (contents : Option Contents) → AreFew fields.now.limits.legs contents
        → HoldsContents at (S.seen lent.old).count fields.now.first fields.now.length contents
        → ⊥) result }
{
    if fields.length.div_ceil(MOST_USED) > u64::from(lent.len()) {
        return Err(CatalogueFault::Malformed);
    }
    let mut reader = ChainReader::new(alloc, fields.first, fields.length);
    fill_lent(lent, &mut reader)?;
    reader.whole(alloc, cache, &fields.limits)
}

/// What stands behind page 0: a lawful catalogue and the places of its features, where the tree is
/// within the pages.
fn read_old_rest<S: PageStore, T: PageStore>(
    alloc: Global,
    keys: RandomState,
    lent: &mut S,
    cache: &mut PageCache<T>,
    fields: &Fields,
) -> Result<(Catalogue, Vec<Place>), CatalogueFault>
    requires { cache.old.count ≡ 0 }
    ensures { ReadsLent (S.seen lent.old) (S.seen lent.new) cache.old cache.new
        (λ at r. IsRest at (S.seen lent.old).count fields.now r.0 r.1.items)
        (λ at. (c : CatalogueView) (places : List Place)
        → IsRest at (S.seen lent.old).count fields.now c places → ⊥) result }
{
    let count = lent.len();
    if !is_within(count, fields) {
        return Err(CatalogueFault::Malformed);
    }
    let contents = read_old_contents(alloc, lent, cache, fields)?;
    catalogue_of(alloc, keys, count, fields, contents)
}

/// The catalogue that the pages of a finished store of version 1 keep, and what has to be known to
/// read its legs. The store is lent, and nothing is written to it.
///
/// The cache is of a store without pages, and is asked for none. Of page 0 it is said first that it
/// is not there (`Malformed`), is damaged, is no header (`Malformed`), has a version other than 1,
/// is of a store that was not finished, or of one in another state (`Malformed`); then the first
/// page that is damaged, or malformed, as met.
pub(crate) fn read_old<S: PageStore, T: PageStore>(
    alloc: Global,
    keys: RandomState,
    lent: &mut S,
    cache: &mut PageCache<T>,
) -> Result<OldRestored, CatalogueFault>
    requires { cache.old.count ≡ 0 }
    ensures read { IfOk result (λ r. IsReadOld (S.seen lent.old) cache.old.store r.catalogue r.leaf
        r.shape r.places.items) }
    ensures refused { IfErr result (NotMigrated (S.seen lent.old) (S.seen lent.new)
        cache.old.store cache.new.store) }
    ensures stays { Stays (S.seen lent.old) (S.seen lent.new) }
    ensures reads { OnlyReads cache.old cache.new }
{
    let old = read_old_header(lent)?;
    let (catalogue, places) = read_old_rest(alloc, keys, lent, cache, &old.fields)?;
    Ok(OldRestored {
        catalogue,
        leaf: old.leaf,
        shape: old.fields.shape,
        places,
    })
}
