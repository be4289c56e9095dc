//! A database that is checked, and closed.
ghost use Rattle.std.specs.Prelude.{◌≡◌, false, IfOk, IsTrue};
ghost use Rattle.trajdb.specs.Db.{store_of, HasPages, IsSoundDb};
ghost use Rattle.trajdb.specs.Lasting.{IsIdle};
ghost use Rattle.sessions.specs.Answers.{said_checked, Checks, ChecksAndCloses, HasWritten, HoldsOrNot};

use pages::PageStore;
use std::alloc::Global;
use trajdb::{Db, Report, RunFault};

/// What a check and its closing answer: the check's own fault comes first.
fn answer_of(
    checked: Result<Report, RunFault>,
    closed: Result<(), RunFault>,
) -> Result<Report, RunFault>
    ensures { result ≡ said_checked checked closed }
{
    match checked {
        Ok(report) => match closed {
            Ok(()) => Ok(report),
            Err(fault) => Err(fault),
        },
        Err(fault) => Err(fault),
    }
}

/// Checks a database that was opened, closes it, and gives its store back: what the check has
/// found, or why it does not pass, or, where it passed, why it was not closed.
pub fn check_and_close<S: PageStore>(
    alloc: Global,
    mut database: Db<S>,
) -> (S, Result<Report, RunFault>)
    // The store then holds the book of the database, and the report is that of it.
    ensures checks { IfOk result.1 (λ report. IsTrue (store_of database).is_faithful
        → IsIdle database → Checks (S.seen result.0) database report) }

    // Whatever is answered, the store holds the book; but if the database had begun, the store may be
    // unfinished, or hold the book in all pages but page 0, which are synced.
    ensures left { IsSoundDb database → HasPages database → IsIdle database
        → database.failed ≡ false → HoldsOrNot (S.seen result.0) database }

    // Nor does it lose a page that the database counts, be that sound or not: each stays as it was
    // written.
    ensures stays { IsTrue (store_of database).is_faithful → IsIdle database
        → database.begun ≡ false → database.failed ≡ false
        → HasWritten database (S.seen result.0) }

    // Be it sound or not, it is checked as `Db::check` does it, and closed as `Db::close` does it: so
    // it is refused, and so the store is synced.
    ensures both { ChecksAndCloses database (S.seen result.0) result.1 }
{
    let checked = database.check();
    let (store, closed) = database.close(alloc);
    let answered = answer_of(checked, closed);
    (store, answered)
}
