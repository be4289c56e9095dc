//! Why a line of a script, or a file, is refused: in words, with the line of the file, the field and its value.
#![tactic(auto)]

mod codes;
mod fields;
mod file_reasons;
mod foreign_files;
mod header_reasons;
mod known_of_store;
mod line_reasons;
mod moments;
mod reach;
mod record_reasons;
mod refusal;
mod refused_record;
mod sentence;
mod shown_value;

pub use codes::Code;
pub use file_reasons::say_file;
pub use foreign_files::{say_source, say_zone_source};
pub use known_of_store::{Known, LastEnds};
pub use line_reasons::{is_command, say_line};
pub use reach::{Area, misses, say_reach};
pub use refusal::Refusal;
pub use sentence::Sentence;
pub use shown_value::{Shown, is_seen};
