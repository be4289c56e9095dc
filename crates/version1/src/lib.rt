//! A store of version 1, as it is brought over into a new one. Nothing below knows of that version.
#![tactic(auto)]

mod lent_store;
mod migrating;
mod old_form;
mod old_header;
mod old_laid;
mod old_legs;
mod old_store;
mod waiting;

pub use migrating::migrate;
pub use old_form::{MOST_OLD_LEGS, OldLeaf, old_leaf};
pub use old_legs::take_old_legs;
