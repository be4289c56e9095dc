//! Sealed pages, and the stores that hold them.
//!
//! A page is 4,096 bytes: its number, its kind, a payload of 4,056 bytes, and the SHA-256 of all
//! that stands before it. A store holds pages by number, from 0 on without a gap; it may fail, and
//! counts each failure.
#![tactic(auto)]

mod byte_file;
mod eights;
mod file_store;
mod fuse;
mod mem_file;
mod mem_store;
mod payload;
mod refusals;
mod sealing;
mod store;
mod system_file;
mod unsynced;

pub use byte_file::ByteFile;
pub use eights::{seal_eight, unseal_eight};
pub use file_store::FileStore;
pub use fuse::Fuse;
pub use mem_file::MemFile;
pub use mem_store::MemStore;
pub use payload::{Kind, PageFault, Payload};
pub use refusals::Refusals;
pub use sealing::{seal, unseal, unseal_with};
pub use store::{PageStore, StoreFault};
pub use system_file::SystemFile;
pub use unsynced::Unsynced;
