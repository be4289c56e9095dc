//! Fractions of whole numbers of 128 bits, compared exactly without wider products.
#![tactic(auto)]

mod fraction;
mod parts;
mod shares;
mod terms;

pub use fraction::{Fraction, compare, sign_at};
pub use shares::{Share, share_of};
pub use terms::{Terms, lowest_terms};
