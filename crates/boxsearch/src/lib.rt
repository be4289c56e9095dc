//! The legs of a tree whose boxes meet a box, and an index of legs over pages.
#![tactic(auto)]

mod answers;
mod descent;
mod joining;
mod known;
mod listed;
mod marking;
mod nodes;
mod parts;
mod tree_index;
mod turns;

pub use answers::{answer, of_tree};
pub use descent::{SearchFault, search};
pub use tree_index::TreeIndex;
