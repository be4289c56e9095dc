//! A database over a store of any kind: it is made or opened, a script is run, and it is closed.
ghost use Rattle.std.specs.Prelude.{◌≡◌, ◌<◌, false, IfOk, IsTrue, OnErr, OnOk};
ghost use Rattle.legs.specs.Costs.{ShapeView};
ghost use Rattle.legs.specs.Limits.{LimitsView};
ghost use Rattle.legs.specs.Book.{Book};
ghost use Rattle.trajdb.specs.Script.{lines_of};
ghost use Rattle.catalogue.specs.Holding.{HoldsBook};
ghost use Rattle.trajdb.specs.Db.{shape_of, HasPages, IsSoundDb};
ghost use Rattle.trajdb.specs.Lasting.{HasBook, IsIdle};
ghost use Rattle.sessions.specs.Folder.{OpensOrMakes};
ghost use Rattle.sessions.specs.Answers.{said, Answers, RunsAndCloses, RunsOver, SendsFront};

use crate::ended::Ended;
use crate::fault::Fault;
use legs::Limits;
use outputs::Output;
use pages::PageStore;
use std::alloc::Global;
use std::hash::RandomState;
use tbtree::Shape;
use trajdb::{Db, Files, OpenFault, RunFault};

/// How many pages the cache of a database holds where no other number is given, of 4096 bytes each.
pub const CACHE_PAGES: u32 = 256;

/// The most legs of a new database where no other number is given.
pub const MOST_LEGS: u64 = 1 << 24;

/// The most features of a new database where no other number is given.
pub const MOST_FEATURES: u32 = 1 << 20;

/// How the database of a store is made or opened.
#[derive(Clone, Copy)]
pub struct Opening {
    /// Where its memory comes from.
    pub alloc: Global,
    /// With what its names are hashed: a stranger who chooses the names of a file is not to know
    /// it.
    pub keys: RandomState,
    /// Whether it is made where the store has no page.
    pub is_new: bool,
    /// How much it may hold, where it is made.
    pub limits: Limits,
    /// How many pages its cache holds at most, of 4096 bytes each; at least 1.
    pub cache_pages: u32,
}

/// The database of a store, or a new one over a store without pages that is to be made.
///
/// Where it is refused, the store is handed back, and why, as `Db::create` and `Db::open` say it.
pub fn database<S: PageStore>(how: &Opening, store: S) -> Result<Db<S>, (S, OpenFault)>
    // The cache has room for a page.
    requires { 0 < how.now.cache_pages }
    // A store that has a page, or of which none is to be made, is opened, be what it holds sound or not; any other is made
    // an empty database, which has page 0 alone, and is synced, or is handed back.
    ensures opens { OpensOrMakes S.seen (S.seen store) how.now.is_new how.now.limits
        how.now.cache_pages result }

    // One that holds a book is a database with that book, and over any faithful store its pages are as its state says.
    ensures kept { IfOk result (λ db. IsTrue (S.seen store).is_faithful
        → (shape : ShapeView) (limits : LimitsView) (book : Book)
        → HoldsBook (S.seen store) shape limits book → HasBook shape limits book db) }
    // Over a faithful store page 0 agrees with whether the database has begun.
    ensures pages { IfOk result (λ db. IsTrue (S.seen store).is_faithful → HasPages db) }
    // Over a faithful store a database that has not begun is at rest: its pages keep all that it
    // knows.
    ensures idle { IfOk result (λ db. IsTrue (S.seen store).is_faithful → IsIdle db) }
    // It has not failed.
    ensures lives { IfOk result (λ db. db.failed ≡ false) }
{
    let cache_pages = how.cache_pages as usize;
    if how.is_new && store.len() == 0 {
        let shape = Shape::new(50, 72).unwrap();
        return Db::create(how.alloc, how.keys, store, shape, cache_pages, how.limits);
    }
    Db::open(how.alloc, how.keys, store, cache_pages)
}

/// Runs the script over a database, closes it, and gives its store back, with what the run and what
/// the closing came to. `script` and `files` are bytes as they were read; the answers go to `out`.
pub fn run_and_close<S: PageStore, O: Output>(
    alloc: Global,
    mut database: Db<S>,
    script: &[u8],
    files: &Files,
    out: &mut O,
) -> (S, Result<(), RunFault>, Result<(), RunFault>)
    // Where neither is refused, what was sent is exactly the text of the run over the book, and the
    // store then holds the book after it, in a tree of the same shape.
    ensures runs { OnOk result.1 (OnOk result.2 (IsSoundDb database → HasPages database
        → IsIdle database → Answers (shape_of database) database.limits database.book
        files.now (O.seen out.old).contents (O.seen out.new).contents (lines_of script.now)
        (S.seen result.0))) }

    // Whatever is answered, what was sent is the front of that text.
    ensures sent { IsSoundDb database → database.failed ≡ false
        → SendsFront database.limits database.book files.now (O.seen out.old).contents
        (O.seen out.new).contents (lines_of script.now) }

    // Be it sound or not, it is run as `Db::run` does it, and then closed as `Db::close` does. A sound
    // one was closed with the book after the lines that were done, unless it is the load of a file
    // that failed: the store is then not finished, or the one that was there before. A run that stops
    // at a line has not done it, and says that it stops for memory or for the store. Where the closing
    // answers well, all is synced, or each page stays as it was written. The store is said to have
    // failed only where it did, as both say it.
    ensures both { RunsAndCloses O.seen database files.now out.old out.new
        (lines_of script.now) result.1 result.2 (S.seen result.0) }
{
    let ran = database.run(alloc, script, files, out);
    let (store, closed) = database.close(alloc);
    (store, ran, closed)
}

/// What a run and its closing answer, as an answer of the program: the run's own fault comes first.
fn answer_of(ran: Result<(), RunFault>, closed: Result<(), RunFault>) -> Result<(), Fault>
    ensures { result ≡ said ran closed }
{
    match ran {
        Ok(()) => match closed {
            Ok(()) => Ok(()),
            Err(fault) => Err(Fault::Run(fault)),
        },
        Err(fault) => Err(Fault::Run(fault)),
    }
}

/// Runs the script over the database of a store, closes it, and gives the store back, as
/// `run_and_close` does (`Run`). Where there is no database it is refused as that was (`Open`).
///
/// `Ended::ran` is the run's fault, or else the closing's, and `Ended::kept` the closing's.
pub fn answer<S: PageStore, O: Output>(
    alloc: Global,
    database: Result<Db<S>, (S, OpenFault)>,
    script: &[u8],
    files: &Files,
    out: &mut O,
) -> (S, Ended)
    // What was sent is exactly the text of the run over the book, and the store then holds the book
    // after it, in a tree of the same shape.
    ensures runs { OnOk result.1.ran (IfOk database (λ db. IsSoundDb db → HasPages db → IsIdle db
        → Answers (shape_of db) db.limits db.book files.now (O.seen out.old).contents
        (O.seen out.new).contents (lines_of script.now) (S.seen result.0))) }

    // Where it is refused, what was sent is the front of that text.
    ensures sent { OnErr result.1.ran (IfOk database (λ db. IsSoundDb db → db.failed ≡ false
        → SendsFront db.limits db.book files.now (O.seen out.old).contents (O.seen out.new).contents
        (lines_of script.now))) }

    // The store is left as the run and its closing leave it, whose fault is answered; where there is no
    // database it is the one that was given back, and nothing is sent.
    ensures over { RunsOver S.seen O.seen database files.now out.old out.new
        (lines_of script.now) result.1.ran result.1.kept (S.seen result.0) }
{
    match database {
        Ok(database) => {
            let (store, ran, closed) = run_and_close(alloc, database, script, files, out);
            let ended = Ended {
                ran: answer_of(ran, closed),
                kept: answer_of(Ok(()), closed),
            };
            (store, ended)
        }
        Err((store, fault)) => {
            let refused = Err(Fault::Open(fault));
            let ended = Ended {
                ran: refused,
                kept: refused,
            };
            (store, ended)
        }
    }
}
