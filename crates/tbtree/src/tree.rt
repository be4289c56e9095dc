//! The value of a tree, and the place of a feature in it.
ghost use Rattle.std.specs.Prelude.{ℕ, [], None, ◌≡◌, ◌≢◌, ◌<◌};
ghost use Rattle.legs.specs.Boxes.{BoxView};
ghost use Rattle.legs.specs.Legs.{LegView};
ghost use Rattle.tbtree.specs.Insert.{IsPlace, Stands};
ghost use Rattle.tbtree.specs.Nodes.{Pages};
ghost use Rattle.tbtree.specs.Stands.{empty_tree, no_place};

use crate::shape::Shape;

/// A tree: the page of its root and how many levels it has (both 0 without a leg), how many leaves,
/// its shape, and whether an insertion failed.
#[derive(Clone, Copy, PartialEq, Eq, Debug)]
pub struct TbTree {
    pub root: u32,
    pub levels: u32,
    pub leaves: u32,
    pub shape: Shape,
    pub spent: bool,
}

impl TbTree {
    /// A tree without legs. It has no page, so it stands over any pages that are all sealed and have a page 0.
    pub fn new(shape: Shape) -> TbTree
        // It has this shape, no page and no level, and is not spent.
        ensures value { result ≡ empty_tree shape }
        // Over sealed pages with a page 0 it stands for no legs.
        ensures stands { (pages : Pages LegView BoxView) → 0 < pages.count
            → ((p : ℕ) → p < pages.count → pages.at p ≢ None)
            → Stands pages result [] (λ _. []) }
        // Each feature has the place of one without legs.
        ensures places { (feature : ℕ) → IsPlace result [] (λ _. []) feature no_place }
    {
        TbTree {
            root: 0,
            levels: 0,
            leaves: 0,
            shape,
            spent: false,
        }
    }
}

/// The leaves of a feature: the pages of the first and the last one, the number of the last one, from 0, among all
/// leaves in the order in which they were made, and how many legs they have. All are 0 for a feature without legs.
#[derive(Clone, Copy, PartialEq, Eq, Debug)]
pub struct Place {
    pub first: u32,
    pub last: u32,
    pub last_index: u32,
    pub legs: u64,
}

impl Place {
    /// The place of a feature without legs.
    pub fn new() -> Place
        ensures { result ≡ no_place }
    {
        Place {
            first: 0,
            last: 0,
            last_index: 0,
            legs: 0,
        }
    }
}

/// The root of a tree, and how many levels it has.
#[derive(Clone, Copy)]
pub(crate) struct Top {
    pub(crate) root: u32,
    pub(crate) levels: u32,
}
