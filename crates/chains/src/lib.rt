//! The legs of one feature, read along the chain of its leaves from the last one back.
#![tactic(auto)]

mod again;
mod beside;
mod kept;
mod leaves;
mod retrieval;
mod spans;

pub use retrieval::{ChainFault, trajectory, trajectory_in};
pub use spans::LeafSpan;
