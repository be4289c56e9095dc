//! Loads of files.
ghost use Rattle.boxsearch.specs.Index.{words};
ghost use Rattle.trajdb.specs.Calls.{LeavesPages};
ghost use Rattle.trajdb.specs.Promises.{LoadCall};

use legs::{IndexFault, Leg};
use pages::PageStore;
use std::alloc::Global;
use trajdb::{Counts, Db, LoadFault, Start};

/// What a file has, which is accepted.
///
/// Wrong bodies: records before the fault stay.
pub fn load<S: PageStore>(
    database: &mut Db<S>,
    alloc: Global,
    bytes: &[u8],
) -> Result<Counts, LoadFault>
    ensures { LoadCall words database.old database.new bytes.now result }
{
    database.load(alloc, bytes)
}

/// Legs at the end of an index, which is prepared for them first.
///
/// Wrong bodies: the store is marked behind its legs.
pub fn put_legs<I: Start>(index: &mut I, legs: &[Leg]) -> Result<(), IndexFault>
    ensures { I.is_faithful index.old → LeavesPages I.Listed index.old index.new }
{
    index.start()?;
    index.add_all(legs)
}
