//! What a check passes is sound.
ghost use Rattle.std.specs.Prelude.{IsTrue, OnOk};
ghost use Rattle.boxsearch.specs.Index.{IsSoundIndex};

use boxsearch::TreeIndex;
use legs::{IndexFault, Tracks};
use pages::PageStore;

/// Tests that the pages of an index hold one list of legs.
///
/// Wrong bodies: the order of leaves is not tested.
pub fn check<S: PageStore>(
    index: &mut TreeIndex<S>,
    tracks: &Tracks,
    rows: u64,
    begun: bool,
) -> Result<(), IndexFault>
    ensures sound { OnOk result (IsTrue index.old.cache.store.is_faithful
        → IsSoundIndex index.new) }
{
    treecheck::check(index, tracks, rows, begun)
}
