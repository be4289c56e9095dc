//! Leaves, of whichever version of the format.
ghost use Rattle.std.specs.Prelude.{◌≡◌, Some};
ghost use Rattle.legs.specs.Hull.{hull, leg_boxes};

use legs::{Box3, Leg};
use tbnode::{Leaf, LeafHead};

/// A leaf, of whichever version of the format.
pub trait AnyLeaf {
    ghost use Rattle.std.specs.Prelude.{◌≡◌, ◌<◌, ◌≤◌, Some, length, slice_get};
    ghost use Rattle.legs.specs.Legs.{LegView};
    ghost use Rattle.tbnode.specs.Nodes.{LeafView};

    /// What contracts see of it.
    ghost says: { Self → LeafView LegView };

    /// Its feature and its neighbours.
    fn head(&self) -> LeafHead
        // The feature of the leaf's legs.
        ensures feature { result.feature ≡ (says self.now).feature }
        // The page of the leaf before it, 0 for none.
        ensures previous { result.previous ≡ (says self.now).previous }
        // The page of the leaf after it, 0 for none.
        ensures next { result.next ≡ (says self.now).next };

    /// How many legs it has: one at least.
    fn len(&self) -> usize
        // It is the number of the leaf's legs.
        ensures value { result ≡ length (says self.now).legs }
        // There is at least one.
        ensures least { 1 ≤ result };

    /// Leg `i`, from 0.
    fn leg(&self, i: usize) -> Leg
        // The leaf has a leg of that number.
        requires { i < length (says self.now).legs }
        // It is exactly that leg.
        ensures { slice_get (says self.now).legs i ≡ Some result };
}

impl<'a> AnyLeaf for Leaf<'a> {
    ghost says = { λ leaf. leaf };

    fn head(&self) -> LeafHead {
        self.head()
    }

    fn len(&self) -> usize {
        self.len()
    }

    fn leg(&self, i: usize) -> Leg {
        self.leg(i)
    }
}

/// The least box that holds the legs of a leaf.
pub fn bounds_of<L: AnyLeaf>(leaf: &L) -> Box3
    ensures { hull leg_boxes (L.says leaf.now).legs ≡ Some result }
{
    let mut i = leaf.len() - 1;
    let mut bounds = Box3::of(&leaf.leg(i));
    'legs: while i > 0 {
        i -= 1;
        bounds = Box3::of(&leaf.leg(i)).cover(&bounds);
    }
    bounds
}
