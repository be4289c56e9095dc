//! What the program does with a store, said by contracts: it is made or opened, asked, run over as
//! it lies there or on a copy beside it, checked, and brought over; and what is sent of the parts
//! of a file.
#![tactic(auto)]

mod answering;
mod cause;
mod checking;
mod ended;
mod fault;
mod folder;
mod folder_refusals;
mod migrating;
mod on_copy;
mod part;
mod part_folder;
mod read_only;
mod session;
mod whole_files;

pub use answering::send_all;
pub use cause::Cause;
pub use checking::check_and_close;
pub use ended::Ended;
pub use fault::{Fault, Named, RectsFault};
pub use folder::Folder;
pub use folder_refusals::FolderRefusals;
pub use migrating::{Migrate, migrate_and_close};
pub use on_copy::run_on_copy;
pub use part::send_part;
pub use part_folder::{PartFolder, put_parts};
pub use read_only::ReadOnly;
pub use session::{
    CACHE_PAGES, MOST_FEATURES, MOST_LEGS, Opening, answer, database, run_and_close,
};
pub use whole_files::{MOST_BYTES, read_named};
