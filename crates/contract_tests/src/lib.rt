//! Public calls, each under the clauses of its contract that refuse the wrong bodies in must-fail/.
//!
//! Each body here is the call itself, so the clause is that of the call, and no proof is written. An edit puts a wrong
//! body in its place. Its name says the crate, the function and the bug.
#![tactic(auto)]

mod asking;
mod caching;
mod chain_answers;
mod checking;
mod clipping_legs;
mod closing;
mod commands;
mod copies;
mod fronts;
mod inserting;
mod keeping;
mod lasting;
mod lines;
mod loads;
mod marking;
mod migrating;
mod nodes;
mod parting;
mod predicating;
mod reading;
mod reading_back;
mod sealing;
mod searching;
mod sent;
mod stays;
mod values;
mod writing;
mod zone_stays;
