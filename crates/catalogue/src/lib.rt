//! A store is begun, opened and closed, and what it keeps beside its legs is saved and restored.
#![tactic(auto)]

mod beginning;
mod closing;
mod finishing;
mod opening;
mod saving;

pub use beginning::begin;
pub use closing::{close, rest};
pub use opening::{open, restore};
pub use register::{Catalogue, CatalogueFault};
pub use saving::save;
