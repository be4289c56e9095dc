//! Zone files: CSV with a header line that has the columns `name` and `wkt`.
//!
//! [`read_zones`] returns the zones of the bytes, or the first fault.
#![tactic(auto)]

mod codes;
mod columns;
mod drawing;
mod faults;
mod kinds;
mod reading;
mod shapes;
mod tokens;

pub use codes::Code;
pub use faults::{Refusal, ZoneFault};
pub use reading::read_zones;
pub use shapes::{Shape, Zone, ZoneFile};
