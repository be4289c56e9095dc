//! What the text of a catalogue says.

use mfcsv::{Columns, Text};
use rows::Rows;
use std::marker::Model;
use tbtree::Place;

/// What is kept of a feature beside its name: when its last leg ends, in milliseconds since
/// 1970-01-01T00:00:00Z, and its place in the tree.
#[derive(Clone, Copy, PartialEq, Eq, Debug)]
pub struct Kept {
    pub end: i64,
    pub place: Place,
}

/// A feature.
#[derive(Debug, Drop)]
pub struct Feature {
    pub name: Text,
    pub kept: Kept,
}

/// The features in the order of their numbers, seen by contracts as a list.
#[derive(Debug, Drop)]
pub struct Features {
    pub(crate) features: Vec<Feature>,
}

impl Model for Features {
    ghost use Rattle.std.specs.Prelude.{List};
    ghost use Rattle.register.specs.declared.contents.Feature.{Feature};

    ghost Value = { List Feature };

    ghost view = { λ a. a.features.items };
}

/// The name of the coordinate reference system, and the attribute columns.
#[derive(Debug, Drop)]
pub struct Space {
    pub crs: Text,
    pub columns: Columns,
}

/// What is kept of the head of the first accepted file beside its dimension: the start instant, in
/// milliseconds since 1970-01-01T00:00:00Z, the coordinate reference system and the columns.
#[derive(Debug, Drop)]
pub struct CatalogueHead {
    pub base: i64,
    pub space: Space,
}

/// The features and the rows.
#[derive(Drop)]
pub struct Lists {
    pub features: Features,
    pub rows: Rows,
}

/// All that a text says of a database into which a file was accepted.
#[derive(Drop)]
pub struct Contents {
    pub head: CatalogueHead,
    pub lists: Lists,
}
