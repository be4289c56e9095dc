//! How an index over pages answers what its parts answer.
ghost use Rattle.std.specs.Prelude.{◌≡◌};
ghost use Rattle.boxsearch.specs.Answers.{answered, of_cache, of_tree};

use legs::IndexFault;
use pagecache::CacheFault;
use tbtree::TreeFault;

/// How an index says a fault of the cache.
fn of_cache(fault: CacheFault) -> IndexFault
    ensures { result ≡ of_cache fault }
{
    match fault {
        CacheFault::NoPage => IndexFault::Damaged(0),
        CacheFault::Store => IndexFault::Store,
        CacheFault::Damaged(page) => IndexFault::Damaged(page),
        CacheFault::StoreFull => IndexFault::StoreFull,
        CacheFault::Memory => IndexFault::Memory,
    }
}

/// How an index says a fault of its tree: a page that is malformed is `Damaged`.
pub fn of_tree(fault: TreeFault) -> IndexFault
    ensures { result ≡ of_tree fault }
{
    match fault {
        TreeFault::Cache(fault) => of_cache(fault),
        TreeFault::Malformed(page) => IndexFault::Damaged(page),
        TreeFault::Spent => IndexFault::Spent,
    }
}

/// What a call on its tree answers, with the fault as the index says it.
pub fn answer<T>(given: Result<T, TreeFault>) -> Result<T, IndexFault>
    ensures { result ≡ answered (λ fault. of_tree fault) given }
{
    match given {
        Ok(value) => Ok(value),
        Err(fault) => Err(of_tree(fault)),
    }
}

/// What a call on the cache answers.
pub(crate) fn of_pages(given: Result<(), CacheFault>) -> Result<(), IndexFault>
    ensures { result ≡ answered (λ fault. of_cache fault) given }
{
    match given {
        Ok(()) => Ok(()),
        Err(fault) => Err(of_cache(fault)),
    }
}
