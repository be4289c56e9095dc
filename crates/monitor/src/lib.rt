//! What a run is doing and what is noted of its answers: an output and a store that are followed.
#![tactic(auto)]

mod answer;
mod followed_output;
mod noted_store;
mod progress;
mod run_notes;

pub use answer::Answer;
pub use followed_output::Followed;
pub use noted_store::Noted;
pub use progress::{Progress, Told};
pub use run_notes::{LineSpan, Note, Notes, What};
