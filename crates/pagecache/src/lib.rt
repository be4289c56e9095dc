//! A bounded cache of pages over a store, which contracts see as a map from numbers to payloads.
//!
//! Pages that are changed are written when they have to leave the cache, and by `flush`. A page
//! leaves only once its write has been answered with `Ok`.
#![tactic(auto)]

mod bringing;
mod cache;
mod fault;
mod slots;
mod writing;

pub use bringing::behind;
pub use cache::PageCache;
pub use fault::CacheFault;
pub use std::alloc::AllocError as Memory;
