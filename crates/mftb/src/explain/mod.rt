//! What is said in words on standard error.
pub(crate) mod empty_areas;
pub(crate) mod faults;
pub(crate) mod misplaced_words;
pub(crate) mod notes;
mod saying;
