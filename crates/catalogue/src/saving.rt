//! A catalogue is saved beside the legs of an index.
ghost use Rattle.std.specs.Prelude.{◌≡◌, ◌≢◌, ◌<◌, IfErr, IsTrue, None, OnErr, OnOk};
ghost use Rattle.pagecache.specs.Cache.{payload_of};
ghost use Rattle.boxsearch.specs.Beside.{with_cache};
ghost use Rattle.boxsearch.specs.Index.{content, IsSoundIndex};
ghost use Rattle.register.specs.Lasting.{Says};
ghost use Rattle.register.specs.Saved.{KeepsFront, SparesTree};
ghost use Rattle.register.specs.Saving.{contents_of, HasFew, IsSavingStop, IsCatalogue, IsCaused};
ghost use Rattle.register.specs.Text.{IsWhole};

use boxsearch::TreeIndex;
use pages::PageStore;
use register::{Catalogue, CatalogueFault, keep};
use std::alloc::Global;

/// Keeps a catalogue in the pages of an index, beside those of its legs: the text in a chain of
/// pages, those of an earlier catalogue first, which is then written with all else that is changed,
/// and synced; and in page 0, which is not written yet, where it is, with the limits and the tree.
/// How page 0 begins stays, finished or not.
///
/// Refused for want of memory, and where the store fails or is full; the legs stay, and so does
/// page 0. Where page 0 is damaged, it is named, and a store without a page is malformed.
pub fn save<S: PageStore>(
    alloc: Global,
    catalogue: &Catalogue,
    index: &mut TreeIndex<S>,
) -> Result<(), CatalogueFault>
    // Nothing of the index changes but its cache, and what it knows of leaves.
    ensures same { index.new ≡ with_cache index.old index.new.cache index.new.known }
    // Page 0 and a chain of pages then say exactly this catalogue, the tree and the places.
    ensures saved { OnOk result (IsTrue index.old.cache.store.is_faithful
        → Says (payload_of index.new.cache) index.new.cache.count catalogue.now index.new.tree
        index.new.places) }
    // If there are few enough features and rows, each row with all its values, everything fits into
    // the text.
    ensures whole { OnOk result (IsCatalogue catalogue.now
        → IsWhole (contents_of catalogue.now index.new.places)) }
    // Page 0 begins as it did: finished or not.
    ensures front { OnOk result (IsTrue index.old.cache.store.is_faithful
        → 0 < index.old.cache.count → KeepsFront index.old.cache index.new.cache) }
    // After an error page 0 has the payload that it had.
    ensures first { OnErr result (IsTrue index.old.cache.store.is_faithful
        → 0 < index.old.cache.count → payload_of index.new.cache 0 ≡ payload_of index.old.cache 0) }
    // The pages of the tree say what they said, on an error too.
    ensures tree { SparesTree index.old.cache index.new.cache }
    // After `Ok` the index has the same legs.
    ensures content { OnOk result (content index.new ≡ content index.old) }
    // After `Ok` a sound index is sound.
    ensures sound { OnOk result (IsSoundIndex index.old → IsSoundIndex index.new) }
    // With a page 0, and few features and rows, it fails only if memory runs out, or the store
    // fails or is full.
    ensures only { HasFew catalogue.now → IsTrue index.old.cache.store.is_faithful
        → 0 < index.old.cache.count → payload_of index.old.cache 0 ≢ None
        → IfErr result IsSavingStop }
    // `Store` is returned only if the store failed, and `StoreFull` only if it is full.
    ensures caused { IfErr result (IsCaused index.old.cache index.new.cache) }
{
    let tree = index.tree();
    let places = index.take_places();
    let result = keep(alloc, catalogue, tree, &places, index.cache_mut());
    index.put_places(places);
    result
}
