//! Legs: the cutting of records into legs, the joining of a file to a book of legs, and the contract of an
//! index of legs.
//!
//! A leg is a straight move of one feature between two moments. Coordinates are in units of 10^-7, moments in
//! milliseconds since 1970-01-01T00:00:00Z.
#![tactic(auto)]

mod boxes;
mod cutting;
mod draft;
mod head;
mod index;
mod joiner;
mod joining;
mod leg;
mod limits;
mod list_index;
mod listed;
mod names;
mod sieve;
mod tracks;

pub use boxes::{Box3, Rect};
pub use cutting::cut;
pub use head::BookHead;
pub use index::{IndexFault, LegIndex};
pub use joiner::{FileJoiner, Joined};
pub use joining::{JoinCode, JoinFault, join};
pub use leg::{Leg, Step};
pub use limits::Limits;
pub use list_index::ListIndex;
pub use listed::Listed;
pub use sieve::Sieve;
pub use std::alloc::AllocError as Memory;
pub use tracks::{Track, Tracks};
