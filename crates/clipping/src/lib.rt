//! When a leg is inside a rectangle, exactly: at any fraction of a millisecond.
//!
//! A feature moves linearly along a leg. Nothing here rounds, samples or takes memory: every answer
//! comes from a fixed number of products of whole numbers of 128 bits.
#![tactic(auto)]

mod inside;
mod line;
mod moments;

pub use inside::inside_at;
pub use line::{Cut, Frac};
pub use moments::{clip, live};
