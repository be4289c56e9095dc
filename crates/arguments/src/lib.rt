//! The words of the command line: what the program is asked to do.
#![tactic(auto)]

mod commands;
mod forms;
mod task;

pub use commands::read_words;
pub use task::{
    Check, Corners, Gaps, Info, InfoForm, Migrate, Moments, Part, Parts, RowKind, Run, StoreMode,
    Task, Telling, ValueMode, Where, WriteMode, ZoneRowKind, Zones,
};
