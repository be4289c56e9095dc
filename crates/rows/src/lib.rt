//! Rows of attribute values, kept close together: the values of equal rows stand once, all in one text.
#![tactic(auto)]

mod growing;
mod guesses;
mod places;
mod row;
mod rows;

pub use growing::GrowingRows;
pub use row::Row;
pub use rows::Rows;
