//! A run that works on a copy beside the store.
ghost use Rattle.std.specs.Prelude.{◌≡◌, ◌<◌, ◌⊎◌, Option, IfErr, IfSome, IsTrue, OnErr, OnOk, false};
ghost use Rattle.trajdb.specs.Script.{lines_of};
ghost use Rattle.sessions.specs.Answers.{SendsLines};
ghost use Rattle.sessions.specs.Folder.{store_in, History, IsDropped, IsKept, IsRefusedBeside, IsRefusedByFolder};
ghost use Rattle.sessions.specs.Folder.{IsReplaced, LeavesCopy, OfEachBook, Refuses, RunsBeside};

use crate::ended::Ended;
use crate::fault::Fault;
use crate::folder::Folder;
use crate::session::{Opening, answer, database};
use outputs::Output;
use pages::PageStore;
use trajdb::{Files, RunFault};

/// Gives the store's name to a copy whose pages are on the disk, and makes that last.
fn give<F: Folder>(folder: &mut F, mut store: F::Store) -> Result<(), Fault>
    requires { IsTrue (F.seen folder.old).has_copy }
    ensures given { OnOk result (IsReplaced (F.Store.PageStore.seen store) (F.seen folder.old)
        (F.seen folder.new) × IsTrue (F.seen folder.new).is_settled) }
    ensures refused { IfErr result (λ fault. Refuses fault (F.seen folder.old) (F.seen folder.new)) }
{
    folder.sync(&mut store)?;
    match folder.replace(store) {
        Ok(()) => {
            folder.settle();
            Ok(())
        }
        Err(fault) => Err(fault),
    }
}

/// Gives the store's name to a copy, where a page of it was written, and takes it away otherwise.
fn keep<F: Folder>(folder: &mut F, store: F::Store) -> Result<(), Fault>
    requires { IsTrue (F.seen folder.old).has_copy }
    ensures kept { OnOk result (IsKept (F.Store.PageStore.seen store) (F.seen folder.old)
        (F.seen folder.new)) }
    ensures gone { (F.seen folder.new).has_copy ≡ false }
    ensures refused { IfErr result (λ fault. IsRefusedByFolder fault (F.seen folder.old)
        (F.seen folder.new) × ((F.seen folder.new).held ≡ (F.seen folder.old).held)) }
{
    if !folder.differs(&store) {
        folder.discard();
        return Ok(());
    }
    match give(folder, store) {
        Ok(()) => Ok(()),
        Err(fault) => {
            folder.discard();
            Err(fault)
        }
    }
}

/// Runs a script over the store of a copy, and closes its database.
fn run_over<S: PageStore, O: Output>(
    store: S,
    how: &Opening,
    script: &[u8],
    files: &Files,
    out: &mut O,
) -> (S, Ended)
    requires { 0 < how.now.cache_pages }
    ensures { (held : Option History) → IfSome held (λ past. S.seen store ≡ store_in past)
        → OfEachBook held how.now.is_new how.now.limits (LeavesCopy files.now
        (O.seen out.old).contents (O.seen out.new).contents (lines_of script.now) result.1.ran
        result.1.kept (S.seen result.0)) }
{
    let database = database(how, store);
    answer(how.alloc, database, script, files, out)
}

/// Runs a script over a copy of the store, which then takes the store's name, where a page of it
/// was written. Where the run is not brought to its end, and the database has not failed, the copy has
/// what the lines before did, and takes the name all the same. Else the store stays as it is, and the
/// copy is taken away.
///
/// `script` and `files` are bytes as they were read; the answers go to `out`. It is refused as the
/// folder refuses it (`Folder::copy`, `Folder::sync`, `Folder::replace`), and as `answer` does.
pub fn run_on_copy<F: Folder, O: Output>(
    folder: &mut F,
    how: &Opening,
    script: &[u8],
    files: &Files,
    out: &mut O,
) -> Ended
    // The cache has room for a page.
    requires { 0 < how.now.cache_pages }

    // Whatever is answered, what was sent is the answers to some first lines over the book that the
    // store held, or the empty one where it is made, and to all lines where the run was brought to
    // its end; or where the output failed a front of them that has all but the last one.
    ensures sent { OfEachBook (F.seen folder.old).held how.now.is_new how.now.limits
        (λ shape limits book. SendsLines (Fault.Run RunFault.Output) limits book files.now
        (O.seen out.old).contents (O.seen out.new).contents (lines_of script.now) result.ran) }

    // The store's name stood for what it stood for until, at one moment, it was given to a file that
    // holds the book after these lines.
    ensures runs { OnOk result.kept (OfEachBook (F.seen folder.old).held how.now.is_new
        how.now.limits (λ shape limits book. RunsBeside shape limits book files.now
        (O.seen out.old).contents (O.seen out.new).contents (lines_of script.now) result.ran
        (F.seen folder.old).held (F.seen folder.new).held)) }

    // The name is on the disk as far as the system can make it so.
    ensures settled { OnOk result.kept (IsTrue (F.seen folder.old).is_settled
        → IsTrue (F.seen folder.new).is_settled) }
    // No copy is left, as far as the system lets it be taken away.
    ensures gone { (F.seen folder.new).has_copy ≡ false }
    // After `Ok` the folder refused no call.
    ensures refuses_none { OnOk result.kept
        ((F.seen folder.new).refused ≡ (F.seen folder.old).refused) }
    // Where it is not kept the name stands for what it stood for, all along.
    ensures stays { OnErr result.kept ((F.seen folder.new).held ≡ (F.seen folder.old).held) }

    // It is not kept only where the folder refused, there is no database, a load of a file failed, or
    // the database was not closed.
    ensures dropped { IfErr result.kept (λ fault.
        IsRefusedByFolder fault (F.seen folder.old) (F.seen folder.new)
        ⊎ OfEachBook (F.seen folder.old).held how.now.is_new how.now.limits
        (λ shape limits book. IsDropped files.now (O.seen out.old).contents
        (O.seen out.new).contents (lines_of script.now) result.ran fault)) }

    // Where something was sent, and the run was not brought to its end, it is said to be refused for
    // the output, for want of memory, or for a store that failed or is full.
    ensures refused { OfEachBook (F.seen folder.old).held how.now.is_new how.now.limits
        (λ shape limits book. IfErr result.ran (IsRefusedBeside (O.seen out.old).contents
        (O.seen out.new).contents)) }
{
    let store = match folder.copy() {
        Ok(store) => store,
        Err(fault) => {
            folder.discard();
            return Ended {
                ran: Err(fault),
                kept: Err(fault),
            };
        }
    };
    let (store, ended) = run_over(store, how, script, files, out);
    let closed = ended.kept;
    match closed {
        Ok(()) => Ended {
            ran: ended.ran,
            kept: keep(folder, store),
        },
        Err(_) => {
            folder.discard();
            ended
        }
    }
}
