//! The SHA-256 of the first 4,064 bytes of pages, eight pages at a time in the lanes of vectors.
#![tactic(auto)]

mod batches;
mod consts;
mod hashing;
mod lanes;
mod load;
mod rounds;

pub use batches::digest_all;
pub use hashing::digests;
