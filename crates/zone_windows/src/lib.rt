//! Windows: for each course a zone with fewer corners that is the same zone on the course.
#![tactic(auto)]

mod near;
mod part;
mod windows;

pub use windows::Windows;
