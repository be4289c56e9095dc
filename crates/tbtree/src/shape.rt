//! The shape of a tree.
ghost use Rattle.std.specs.Prelude.{◌≡◌};
ghost use Rattle.tbtree.specs.Shape.{shape_of, IsShape};

use std::marker::Model;

/// How many legs a leaf has at most, from 2 to 50, and how many entries an inner page, from 2 to 72.
#[derive(Clone, Copy, PartialEq, Eq, Debug)]
pub struct Shape {
    leaf: u16,
    inner: u16,
}

impl Model for Shape {
    ghost use Rattle.legs.specs.Costs.{ShapeView};
    ghost use Rattle.tbtree.specs.Shape.{IsShape};

    ghost Value = { ShapeView };

    ghost view = { λ a. record { leaf = a.leaf; inner = a.inner } };

    ghost invariant = { λ a. IsShape (record { leaf = a.leaf; inner = a.inner }) };

    ghost inverse = { λ v. record { leaf = v.leaf; inner = v.inner } };
}

impl Shape {
    /// The shape of these two numbers; `None` where one is out of range.
    pub fn new(leaf: u16, inner: u16) -> Option<Shape>
        ensures { result ≡ shape_of leaf inner }
    {
        if (2 <= leaf && leaf <= 50) && (2 <= inner && inner <= 72) {
            Some(Shape { leaf, inner })
        } else {
            None
        }
    }

    /// How many legs a leaf has at most.
    pub fn leaf(self) -> u16
        // It is the shape's number of legs.
        ensures value { result ≡ self.leaf }
        // It is in the range that a page has room for.
        ensures range { IsShape self }
    {
        self.leaf
    }

    /// How many entries an inner page has at most.
    pub fn inner(self) -> u16
        // It is the shape's number of entries.
        ensures value { result ≡ self.inner }
        // It is in the range that a page has room for.
        ensures range { IsShape self }
    {
        self.inner
    }
}
