//! Legs in zones: when and where a leg is in a polygon or on a gate in a period, exactly, and what features do there.
#![tactic(auto)]

mod asked;
mod courses;
mod dwells;
mod ends;
mod holding;
mod moment;
mod part;
mod sides;
mod site;
mod stay;
mod visits;

pub use courses::course_of_stays;
pub use dwells::dwells_of;
pub use holding::{Courses, Tallies, features_of};
pub use moment::Moment;
pub use sides::Side;
pub use site::Site;
pub use stay::{Stay, stays_of};
pub use visiting::{Dwell, End};
pub use visits::{Visit, visits_of};
