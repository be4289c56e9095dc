//! What may go wrong with a page of a tree.
ghost use Rattle.std.specs.Prelude.{◌≡◌};
ghost use Rattle.pagecache.specs.declared.fault.CacheFault.{CacheFault};
ghost use Rattle.tbtree.specs.Faults.{fault_of};
ghost use Rattle.tbtree.specs.declared.fault.TreeFault.{TreeFault};

use pagecache::CacheFault;
use std::alloc::{AllocError, AllocFailed};
use thiserror::Error;

/// The errors of a tree, of a chain of its leaves and of a search. Out of memory is the cache's
/// error.
#[derive(Clone, Copy, PartialEq, Eq, Debug, Error)]
pub enum TreeFault {
    /// The cache failed, or memory ran out.
    #[error("{0}")]
    Cache(CacheFault),
    /// The page of that number is not the one that the tree, or the chain, has there.
    #[error("page {0} is malformed")]
    Malformed(u32),
    /// The tree is spent: an earlier insertion failed.
    #[error("the tree is spent")]
    Spent,
}

impl TreeFault {
    /// The tree's error for an error of the cache. A page that is not there is malformed.
    pub fn of(fault: CacheFault, page: u32) -> TreeFault
        ensures { result ≡ fault_of page fault }
    {
        match fault {
            CacheFault::NoPage => TreeFault::Malformed(page),
            fault => TreeFault::Cache(fault),
        }
    }
}

impl From<CacheFault> for TreeFault {
    ghost from_gives = { λ fault r. r ≡ TreeFault.Cache fault };

    fn from(fault: CacheFault) -> TreeFault {
        TreeFault::Cache(fault)
    }
}

impl From<AllocError> for TreeFault {
    ghost from_gives = { λ _ r. r ≡ TreeFault.Cache CacheFault.Memory };

    fn from(_fault: AllocError) -> TreeFault {
        TreeFault::Cache(CacheFault::Memory)
    }
}

impl<T: Drop> From<AllocFailed<T>> for TreeFault {
    ghost from_gives = { λ _ r. r ≡ TreeFault.Cache CacheFault.Memory };

    fn from(_fault: AllocFailed<T>) -> TreeFault {
        TreeFault::Cache(CacheFault::Memory)
    }
}
