//! Tests of the database by its public calls.
#![tactic(auto)]

#[cfg(test)]
mod checking_tests;
#[cfg(test)]
mod failing_tests;
#[cfg(test)]
mod hostile_tests;
#[cfg(test)]
mod lasting_tests;
#[cfg(test)]
mod migrating_tests;
#[cfg(test)]
mod page_tests;
#[cfg(test)]
mod run_tests;
#[cfg(test)]
mod version_1;
#[cfg(test)]
mod worked_files;
