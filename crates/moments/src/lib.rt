//! When legs are inside a rectangle: the first and the last moment of each, as exact fractions of a millisecond.
#![tactic(auto)]

mod asking;
mod dwells;
mod edges;
mod ends;
mod gaps;
mod listing;
mod moment;
mod stay;
mod visits;

pub use asking::stays;
pub use dwells::dwells_of;
pub use edges::{Bound, Edges};
pub use ends::End;
pub use gaps::{Gap, gaps_of};
pub use listing::stays_of;
pub use moment::Moment;
pub use stay::{Stay, stay_of};
pub use visiting::Dwell;
pub use visits::{Visit, visits_of};
