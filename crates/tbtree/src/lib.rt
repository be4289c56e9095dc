//! A TB-tree of legs over pages: an R-tree-like tree over x, y and time, whose leaves each hold legs of one feature
//! alone, are linked both ways, and are made from left to right.
#![tactic(auto)]

mod fault;
mod filling;
mod insertion;
mod nodes;
mod payloads;
mod shape;
mod tree;

pub use fault::TreeFault;
pub use filling::insert_all;
pub use insertion::insert;
pub use payloads::cover_of;
pub use shape::Shape;
pub use tree::{Place, TbTree};
