//! The files of all parts of a file, in a folder of the system.
ghost use Rattle.std.specs.Prelude.{◌<◌, ◌≤◌, ◌+◌, None, IfOk, OnOk};

use arguments::Parts;
use pages::Refusals;
use sessions::{Cause, Fault, MOST_BYTES, Named, PartFolder, put_parts, read_named};
use std::alloc::{AllocError, Global};
use std::fs::File;
use std::io::Write;
use std::rt::Files;
use std::{fs, io};
use trajdb::RunFault;

/// A folder of the system. No contract says what it holds.
#[derive(Drop)]
struct SystemParts<'a, R: Files<File = File> + AllocGlobal> {
    rt: &'a R,
    folder: &'a str,
    /// How often it was refused to give a name.
    refusals: Refusals,
    /// Why it was refused last.
    cause: Cause,
}

/// Makes the file of a name, of those bytes.
fn write_file<R: Files<File = File>>(rt: &R, name: &str, bytes: &[u8]) -> io::Result<()> {
    let mut file = File::create(rt, name)?;
    file.write_all(bytes)
}

/// Gives a name, in one step, to a new file of those bytes, which is made beside it.
fn put_file<R: Files<File = File>>(
    rt: &R,
    name: &str,
    beside: &str,
    bytes: &[u8],
) -> io::Result<()> {
    write_file(rt, beside, bytes)?;
    fs::rename(rt, beside, name)
}

/// Puts a file as `put_file` does. Where it is refused, the file beside that name is taken away, if the system lets it be.
fn put_or_remove<R: Files<File = File>>(
    rt: &R,
    name: &str,
    beside: &str,
    bytes: &[u8],
) -> io::Result<()> {
    let answer = put_file(rt, name, beside, bytes);
    if answer.is_err() {
        let _ = fs::remove_file(rt, beside);
    }
    answer
}

/// The name of the file of a part in a folder.
fn name_of(alloc: Global, folder: &str, part: u64) -> Result<String, AllocError> {
    format!(in alloc; "{folder}/part-{part}.csv")
}

impl<'a, R: Files<File = File> + AllocGlobal> PartFolder for SystemParts<'a, R> {
    ghost use Rattle.sessions.specs.Parts.{PartsView};

    ghost seen = { λ s. record { puts = None; refusals = s.refusals } };

    fn put(&mut self, part: u64, text: &[u8]) -> Result<(), RunFault> {
        let alloc = self.rt.alloc();
        let name = name_of(alloc, self.folder, part)?;
        let beside = format!(in alloc; "{name}.new")?;
        let (name, beside) = (name.as_str(), beside.as_str());
        match put_or_remove(self.rt, name, beside, text) {
            Ok(()) => Ok(()),
            Err(error) => {
                self.cause = Cause::from(error.kind());
                self.refusals.count(Err(RunFault::Output))
            }
        }
    }
}

/// How many parts are asked for; refused where some of them are not there.
fn count_of(task: &Parts<'_>) -> Result<u32, Fault>
    ensures some { OnOk result (0 < task.now.parts) }
    ensures within { IfOk result (λ count. task.now.first + count ≤ task.now.parts) }
{
    if task.first >= task.parts {
        return Err(Fault::NoPart(task.first, task.parts));
    }
    let most = task.parts - task.first;
    match task.count {
        Some(count) if count > most => Err(Fault::NoPart(task.parts, task.parts)),
        Some(count) => Ok(count),
        None => Ok(most),
    }
}

/// Reads a file, and puts the parts of it that are asked for into a folder of the system.
pub(crate) fn write_parts<R: Files<File = File> + AllocGlobal>(
    rt: &R,
    task: &Parts<'_>,
) -> Result<(), Fault> {
    let count = match count_of(task) {
        Ok(count) => count,
        Err(fault) => return Err(fault),
    };
    let bytes = read_named(rt, Named::File(0), task.file, MOST_BYTES)?;
    let mut folder = SystemParts {
        rt,
        folder: task.folder,
        refusals: Refusals::none(),
        cause: Cause::Other,
    };
    match put_parts(
        rt.alloc(),
        &mut folder,
        task.parts as u64,
        task.first as u64,
        count as u64,
        &bytes,
    ) {
        Ok(()) => Ok(()),
        Err(RunFault::Output) => Err(Fault::CannotWrite(Named::Folder, folder.cause)),
        Err(fault) => Err(Fault::Run(fault)),
    }
}
