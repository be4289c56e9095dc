//! Databases that are checked.
ghost use Rattle.trajdb.specs.Promises.{CheckCall};

use pages::PageStore;
use trajdb::{Db, Report, RunFault};

/// Whether the pages of a database hold its book.
///
/// Wrong bodies: no page is read.
pub fn check<S: PageStore>(database: &mut Db<S>) -> Result<Report, RunFault>
    ensures { CheckCall database.old database.new result }
{
    database.check()
}
