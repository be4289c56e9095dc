//! Polygons, exactly: where on a straight course it is in a zone.
#![tactic(auto)]

mod cuts;
mod edges;
mod entries;
mod inside;
mod leaving;
mod places;
mod staying;
mod turns;

pub use cuts::{CoursePlace, Cut};
pub use edges::heading;
pub use inside::is_inside;
pub use places::{Gate, GridPoint, Ring, Segment};
pub use staying::stays;
