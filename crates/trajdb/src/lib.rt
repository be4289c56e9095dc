//! The database: files are accepted into it, and scripts are run over it.
#![tactic(auto)]

ghost use Rattle.std.specs.Prelude.{◌≡◌};

mod answer;
mod checking;
mod database;
mod db;
mod files;
mod lasting;
mod load;
mod lookups;
mod questions;
mod script;
mod start;

/// Why a database was not made, not opened or not brought over.
pub use catalogue::CatalogueFault as OpenFault;
pub use database::Core;
pub use db::Db;
pub use files::Files;
use legs::{IndexFault, JoinCode};
use mfcsv::Code;
pub use script::has_load;
pub use start::Start;
use std::alloc::{AllocError, AllocFailed};
use std::fmt;
use thiserror::Error;

/// The code of a file's refusal: a fault of its text, or of its joining to the database.
#[derive(Clone, Copy, PartialEq, Eq, Debug)]
pub enum FileCode {
    /// A fault of the text.
    Text(Code),
    /// A fault of joining.
    Join(JoinCode),
}

impl FileCode {
    ghost use Rattle.std.specs.Prelude.{◌≡◌};
    ghost use Rattle.trajdb.specs.Faults.{file_code};

    /// The code as it is printed, as `F18`.
    pub fn as_str(self) -> &'static str
        ensures { result.now ≡ file_code self }
    {
        match self {
            FileCode::Text(code) => code.as_str(),
            FileCode::Join(code) => code.as_str(),
        }
    }
}

impl fmt::Display for FileCode {
    ghost use Rattle.std.specs.Prelude.{Some};
    ghost use Rattle.trajdb.specs.Faults.{file_code};

    ghost output = { λ c. Some (file_code c) };

    fn fmt<W: fmt::Write>(&self, f: &mut fmt::Formatter<W>) -> fmt::Result {
        f.write_str(self.as_str())
    }
}

/// What an accepted file added.
#[derive(Clone, Copy, PartialEq, Eq, Debug)]
pub struct Counts {
    /// Its data records.
    pub records: u64,
    /// The legs of its records.
    pub legs: u64,
    /// The distinct features of its records.
    pub features: u64,
}

/// What a check that passed has found.
#[derive(Clone, Copy, PartialEq, Eq, Debug)]
pub struct Report {
    /// How many pages the store has.
    pub pages: u32,
    /// How many legs the book has.
    pub legs: u64,
    /// How many features.
    pub features: u64,
}

/// Why a command was not answered.
#[derive(Clone, Copy, PartialEq, Eq, Debug, Error)]
pub enum RunFault {
    /// Memory ran out.
    #[error("memory ran out")]
    Memory,
    /// The page store failed.
    #[error("the store failed")]
    Store,
    /// A page is not what it should be; 0 for a leg whose feature or attribute values are not there.
    #[error("page {0} is damaged")]
    Damaged(u32),
    /// The page store has no room for another page.
    #[error("the store is full")]
    StoreFull,
    /// An earlier load stopped half way, so the database answers nothing any more; or its index has no place for a
    /// feature that the catalogue names, and this one stops.
    #[error("the database failed earlier")]
    Failed,
    /// The output took no more bytes.
    #[error("the output failed")]
    Output,
}

impl From<AllocError> for RunFault {
    ghost use Rattle.trajdb.specs.declared.RunFault.{RunFault};

    ghost from_gives = { λ e r. r ≡ RunFault.Memory };

    fn from(_: AllocError) -> RunFault {
        RunFault::Memory
    }
}

impl<T: Drop> From<AllocFailed<T>> for RunFault {
    ghost use Rattle.trajdb.specs.declared.RunFault.{RunFault};

    ghost from_gives = { λ e r. r ≡ RunFault.Memory };

    fn from(_: AllocFailed<T>) -> RunFault {
        RunFault::Memory
    }
}

impl From<OpenFault> for RunFault {
    ghost use Rattle.trajdb.specs.Faults.{closed_fault_of};

    ghost from_gives = { λ e r. r ≡ closed_fault_of e };

    fn from(fault: OpenFault) -> RunFault {
        match fault {
            OpenFault::Memory => RunFault::Memory,
            OpenFault::Store => RunFault::Store,
            OpenFault::StoreFull => RunFault::StoreFull,
            OpenFault::Damaged(page) => RunFault::Damaged(page),
            OpenFault::Unfinished | OpenFault::Version | OpenFault::Malformed => {
                RunFault::Damaged(0)
            }
        }
    }
}

impl From<IndexFault> for RunFault {
    ghost use Rattle.trajdb.specs.Faults.{run_fault_of};

    ghost from_gives = { λ e r. r ≡ run_fault_of e };

    fn from(fault: IndexFault) -> RunFault {
        match fault {
            IndexFault::Memory => RunFault::Memory,
            IndexFault::Store => RunFault::Store,
            IndexFault::Damaged(page) => RunFault::Damaged(page),
            IndexFault::StoreFull => RunFault::StoreFull,
            IndexFault::Spent => RunFault::Failed,
        }
    }
}

/// Why a file was not accepted.
#[derive(Clone, Copy, PartialEq, Eq, Debug, Error)]
pub enum LoadFault {
    /// The file's first fault, and the number of its record (0 for the whole file).
    #[error("the file is refused: {code} at {number}")]
    Refused { code: FileCode, number: u64 },
    /// The database could not tell.
    #[error("{0}")]
    Run(RunFault),
}

impl From<RunFault> for LoadFault {
    ghost use Rattle.trajdb.specs.declared.LoadFault.{LoadFault};

    ghost from_gives = { λ e r. r ≡ LoadFault.Run e };

    fn from(fault: RunFault) -> LoadFault {
        LoadFault::Run(fault)
    }
}
