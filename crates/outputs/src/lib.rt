//! Where answers go.
//!
//! An output takes bytes in order, may keep them for a while, and counts its errors.
#![tactic(auto)]

mod counted;
mod output;

pub use counted::CountedOutput;
pub use output::{Output, OutputFault};
