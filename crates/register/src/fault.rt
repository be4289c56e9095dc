//! Why a catalogue is not kept or given.
use std::alloc::{AllocError, AllocFailed};
use thiserror::Error;

/// Why a catalogue was not saved or restored, and so why a database was not made, or not opened.
#[derive(Clone, Copy, PartialEq, Eq, Debug, Error)]
pub enum CatalogueFault {
    /// Memory ran out.
    #[error("memory ran out")]
    Memory,
    /// The store failed.
    #[error("the store failed")]
    Store,
    /// The store has no room for another page.
    #[error("the store is full")]
    StoreFull,
    /// A page is not what it should be.
    #[error("page {0} is damaged")]
    Damaged(u32),
    /// The store was not finished: it was made, or a file was accepted, and it was not closed then.
    #[error("the store is not finished")]
    Unfinished,
    /// The store has another version.
    #[error("the store has another version")]
    Version,
    /// The file is no store, or what it says is not in order.
    #[error("the store is malformed")]
    Malformed,
}

impl From<AllocError> for CatalogueFault {
    ghost use Rattle.std.specs.Prelude.{◌≡◌};
    ghost use Rattle.register.specs.declared.fault.CatalogueFault.TheVariants.{Memory};

    ghost from_gives = { λ _ fault. fault ≡ Memory };

    fn from(_fault: AllocError) -> CatalogueFault {
        CatalogueFault::Memory
    }
}

impl<T: Drop> From<AllocFailed<T>> for CatalogueFault {
    ghost use Rattle.std.specs.Prelude.{◌≡◌};
    ghost use Rattle.register.specs.declared.fault.CatalogueFault.TheVariants.{Memory};

    ghost from_gives = { λ _ fault. fault ≡ Memory };

    fn from(_fault: AllocFailed<T>) -> CatalogueFault {
        CatalogueFault::Memory
    }
}
