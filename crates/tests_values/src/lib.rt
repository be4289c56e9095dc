//! Tests of what stands below a store: words, numbers, moments, files, legs, rectangles, predicates,
//! scripts, answers, the parts of a file, and zones.
#![tactic(auto)]

#[cfg(test)]
mod clipping_tests;
#[cfg(test)]
mod fixedpoint_tests;
#[cfg(test)]
mod fractions_tests;
#[cfg(test)]
mod legs_tests;
#[cfg(test)]
mod mfcsv_tests;
#[cfg(test)]
mod parts_tests;
#[cfg(test)]
mod plane;
#[cfg(test)]
mod predicates_tests;
#[cfg(test)]
mod querylang_tests;
#[cfg(test)]
mod rows_tests;
#[cfg(test)]
mod timebase_tests;
#[cfg(test)]
mod words_tests;
#[cfg(test)]
mod writer_tests;
#[cfg(test)]
mod zones_tests;
