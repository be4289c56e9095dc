//! Nodes of a tree in pages: a page's payload as a leaf of legs or as an inner page of entries.
//!
//! A view borrows the payload, and decodes a leg or an entry when it is asked for. The calls that
//! change a payload change the fields that they name and no other.
#![tactic(auto)]

mod edit;
mod entries;
pub mod fields;
mod form;
mod laid;
mod untested_leaf;
mod views;

pub use edit::{init_inner, init_leaf, push_entry, push_leg, set_next, widen};
pub use entries::Entry;
pub use form::{inner, leaf};
pub use laid::{coord_at, has_coord, moment_at};
pub use untested_leaf::{UntestedLeaf, untested};
pub use views::{Inner, InnerHead, Leaf, LeafHead, MOST_ENTRIES, MOST_LEGS};
