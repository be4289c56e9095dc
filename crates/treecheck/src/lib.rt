//! A check of an index: whether its pages, whoever made them, hold one list of legs.
#![tactic(auto)]

mod checking;
mod leaves;
mod levels;
mod ordering;
mod walking;

pub use checking::{agree, check, is_whole};
pub use leaves::{AnyLeaf, bounds_of};
pub use ordering::sort_leaves;
pub use walking::{LeafReader, Met, Survey, Walk, take_next, walk_all};
