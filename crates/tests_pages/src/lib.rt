//! Tests of pages, of their cache and of the nodes that lie in them, and what callers of these write.
#![tactic(auto)]

#[cfg(test)]
mod cached_bytes;
#[cfg(test)]
mod digests_tests;
#[cfg(test)]
mod pagecache_tests;
#[cfg(test)]
mod pages_tests;
#[cfg(test)]
mod tbnode_tests;
