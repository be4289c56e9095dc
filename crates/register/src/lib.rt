//! What a store keeps of a database beside its legs: page 0, and the text of its catalogue, which is
//! written to linked pages and read back.
#![tactic(auto)]

mod building;
mod chain_reader;
mod chain_writer;
mod contents;
mod encoding;
mod entries;
mod fault;
mod lasting;
mod numbers;
mod page_zero;
mod restoring;
mod saving;
mod summary;
mod values;
mod whole_text;

pub use fault::CatalogueFault;
pub use lasting::laws;
pub use restoring::{Restored, lawful, read_back};
pub use saving::{Catalogue, keep, write_all};
pub use summary::{Summary, summarize};

// What a reader of another version of the format needs: the text of a catalogue is the same there.
pub use building::{catalogue_of, is_within};
pub use chain_reader::{ChainReader, MOST_USED, fault_of};
pub use contents::{CatalogueHead, Contents, Feature, Features, Kept, Lists, Space};
pub use page_zero::test_front;
