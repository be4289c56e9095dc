//! The files of the system: a store, its folder, its names and its locks.
pub(crate) mod file;
pub(crate) mod folder;
pub(crate) mod leftovers;
pub(crate) mod locks;
pub(crate) mod opening;
pub(crate) mod store_names;
pub(crate) mod stored;
