//! A leg that is put into a tree.
ghost use Rattle.std.specs.Prelude.{◌≡◌, ◌∷◌, [], false, IsTrue};
ghost use Rattle.tbtree.specs.Joining.{JoinsAll};
ghost use Rattle.tbtree.specs.Nodes.{pages_of_cache};

use legs::Leg;
use pagecache::PageCache;
use pages::PageStore;
use tbtree::{Place, TbTree, TreeFault};

/// Puts a leg into the tree, at the place of its feature.
///
/// Wrong bodies: boxes above the leaf stay too small; a leaf is left half full; the leaf before is not linked.
pub fn insert<S: PageStore>(
    tree: &mut TbTree,
    cache: &mut PageCache<S>,
    place: &mut Place,
    leg: Leg,
) -> Result<(), TreeFault>
    ensures joins { tree.old.spent ≡ false → IsTrue cache.old.store.is_faithful
        → JoinsAll (pages_of_cache cache.old) (pages_of_cache cache.new) tree.old tree.new
        place.old place.new (leg ∷ []) result }
{
    tbtree::insert(tree, cache, place, leg)
}
