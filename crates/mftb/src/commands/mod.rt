//! The commands, each in a file of its own, and what they share.
pub(crate) mod asking;
pub(crate) mod bounds;
pub(crate) mod check;
pub(crate) mod gaps;
pub(crate) mod info;
pub(crate) mod migrate;
pub(crate) mod moments_command;
pub(crate) mod part;
pub(crate) mod parts_command;
pub(crate) mod rectangles;
pub(crate) mod run;
pub(crate) mod run_files;
pub(crate) mod zones_command;
