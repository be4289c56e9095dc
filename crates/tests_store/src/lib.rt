//! Tests of what stands on stores of pages, below the database: trees and their leaves, searches, indexes, checks,
//! catalogues, and stores of version 1.
#![tactic(auto)]

#[cfg(test)]
mod catalogue_tests;
#[cfg(test)]
mod chain_tests;
#[cfg(test)]
mod insertion_tests;
#[cfg(test)]
mod known_tests;
#[cfg(test)]
mod numbers;
#[cfg(test)]
mod old_header_tests;
#[cfg(test)]
mod old_leaf_tests;
#[cfg(test)]
mod old_legs_tests;
#[cfg(test)]
mod random_tests;
#[cfg(test)]
mod samples;
#[cfg(test)]
mod search_tests;
#[cfg(test)]
mod tree_check_tests;
#[cfg(test)]
mod tree_index_tests;
#[cfg(test)]
mod trees;
