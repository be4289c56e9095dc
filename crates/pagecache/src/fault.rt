//! Why a cache refuses a call.
ghost use Rattle.std.specs.Prelude.{◌≡◌};
ghost use Rattle.pagecache.specs.declared.fault.CacheFault.TheVariants.{Store};

use pages::StoreFault;
use thiserror::Error;

/// Why a cache refused a call. No refusal changes a page's payload.
#[derive(Clone, Copy, PartialEq, Eq, Debug, Error)]
pub enum CacheFault {
    /// There is no page of that number.
    #[error("there is no such page")]
    NoPage,
    /// The store failed.
    #[error("the page store failed")]
    Store,
    /// The page as written is no sealed page of that number.
    #[error("page {0} is damaged")]
    Damaged(u32),
    /// The store has room for no other page.
    #[error("the page store is full")]
    StoreFull,
    /// Memory ran out.
    #[error("memory ran out")]
    Memory,
}

impl From<StoreFault> for CacheFault {
    ghost from_gives = { λ _ r. r ≡ Store };

    fn from(_fault: StoreFault) -> CacheFault {
        CacheFault::Store
    }
}
