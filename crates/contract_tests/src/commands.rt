//! Commands.
ghost use Rattle.std.specs.Prelude.{OnOk};
ghost use Rattle.boxsearch.specs.Index.{words};
ghost use Rattle.trajdb.specs.Calls.{HasLoad, RisesWithin, lines_cost};
ghost use Rattle.trajdb.specs.Db.{IsSoundDb};
ghost use Rattle.trajdb.specs.Promises.{CommandCall};
ghost use Rattle.trajdb.specs.Script.{lines_of};

use outputs::Output;
use pages::PageStore;
use querylang::Command;
use std::alloc::Global;
use trajdb::{Db, Files, RunFault};

/// The answer to a command.
///
/// Wrong bodies: `box` is answered by `legs ever`.
pub fn command<S: PageStore>(
    database: &mut Db<S>,
    alloc: Global,
    command: &Command,
    files: &Files,
) -> Result<Vec<u8>, RunFault>
    ensures { CommandCall words files.now database.old database.new command.now result }
{
    database.command(alloc, command, files)
}

/// A run.
///
/// Wrong bodies: the whole tree is searched before the lines.
pub fn run<S: PageStore, O: Output>(
    database: &mut Db<S>,
    alloc: Global,
    script: &[u8],
    files: &Files,
    out: &mut O,
) -> Result<(), RunFault>
    ensures { OnOk result (IsSoundDb database.old → (HasLoad (lines_of script.now) → ⊥)
        → RisesWithin (words.asked database.old.index) (words.asked database.new.index)
        (lines_cost database.old.book (words.plan database.old.index) (lines_of script.now))) }
{
    database.run(alloc, script, files, out)
}
