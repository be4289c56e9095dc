//! Tests of what the program calls: sessions over stores and folders in memory, and when legs are
//! inside a rectangle.
#![tactic(auto)]

#[cfg(test)]
mod copy_tests;
#[cfg(test)]
mod memory_folder;
#[cfg(test)]
mod moments_tests;
#[cfg(test)]
mod session_tests;
#[cfg(test)]
mod stays_tests;
