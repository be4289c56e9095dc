//! What stays, visits and dwells share, be they in a rectangle or in a zone: what a stay begins and ends by, and how
//! one is joined of the others.
#![tactic(auto)]

mod dwells;
mod ends;
mod joined;
mod lengths;

pub use dwells::{Dwell, Lasting, dwells_of};
pub use ends::End;
pub use joined::{Joined, joined_of};
pub use lengths::{Micros, length};
