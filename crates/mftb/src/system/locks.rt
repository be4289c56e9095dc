//! The locks by which runs that work on one store at once tell each other.
use sessions::{Cause, Fault};
use std::fs::{File, Metadata, OpenOptions, TryLockError};
use std::os::unix::fs::MetadataExt;
use std::rt::Files;
use std::{fs, io};

/// How often a name is looked up again that another run gave to another file meanwhile.
const MOST_LOOKS: u32 = 1000;

/// How a run holds a file.
#[derive(Clone, Copy)]
pub(crate) enum Hold {
    /// Alone.
    Alone,
    /// Beside others that share it.
    Shared,
}

/// A file that a run holds open.
#[derive(Drop)]
pub(crate) struct Held {
    pub(crate) file: File,
    /// Whether its lock is held. A file system without locks gives none, and stops nobody.
    pub(crate) is_locked: bool,
}

/// Takes the lock of a file, at once or not at all, and answers whether it was given: a file system
/// without locks gives none.
fn lock(file: &File, hold: Hold) -> Result<bool, Fault> {
    let taken = match hold {
        Hold::Alone => file.try_lock(),
        Hold::Shared => file.try_lock_shared(),
    };
    match taken {
        Ok(()) => Ok(true),
        Err(TryLockError::WouldBlock) => Err(Fault::InUse),
        Err(TryLockError::Error(error)) => match error.kind() {
            io::ErrorKind::Unsupported => Ok(false),
            kind => Err(Fault::NoStore(Cause::from(kind))),
        },
    }
}

/// Whether two files are the same one.
fn is_same(one: &Metadata, other: &Metadata) -> bool {
    one.dev() == other.dev() && one.ino() == other.ino()
}

/// Whether a name is that of an open file.
pub(crate) fn is_named<R: Files<File = File>>(rt: &R, name: &str, file: &File) -> bool {
    match (fs::metadata(rt, name), file.metadata()) {
        (Ok(named), Ok(open)) => is_same(&named, &open),
        _ => false,
    }
}

/// What one look at a name gave.
#[derive(Drop)]
enum Met {
    /// The file, held.
    Held(Held),
    /// There is none of that name.
    Absent,
    /// Another file has that name by now.
    Passed,
}

/// Opens the file of a name, and holds it.
fn look<R: Files<File = File>>(
    rt: &R,
    name: &str,
    how: &OpenOptions,
    hold: Hold,
) -> Result<Met, Fault> {
    let file = match how.open(rt, name) {
        Ok(file) => file,
        Err(error) if error.kind() == io::ErrorKind::NotFound => return Ok(Met::Absent),
        Err(error) if error.kind() == io::ErrorKind::AlreadyExists => return Ok(Met::Passed),
        Err(error) => return Err(Fault::NoStore(Cause::from(error.kind()))),
    };
    let is_locked = lock(&file, hold)?;
    if is_named(rt, name, &file) {
        Ok(Met::Held(Held { file, is_locked }))
    } else {
        Ok(Met::Passed)
    }
}

/// Opens the file of a name, and holds it; `None` where there is none. A run that was given the lock
/// of a file that has lost its name meanwhile looks again.
pub(crate) fn open_held<R: Files<File = File>>(
    rt: &R,
    name: &str,
    how: &OpenOptions,
    hold: Hold,
) -> Result<Option<Held>, Fault> {
    for _ in 0..MOST_LOOKS {
        match look(rt, name, how, hold)? {
            Met::Held(held) => return Ok(Some(held)),
            Met::Absent => return Ok(None),
            Met::Passed => {}
        }
    }
    Err(Fault::InUse)
}

/// One look at a name whose file only has to be there: it is made where there is none.
fn look_or_make<R: Files<File = File>>(rt: &R, name: &str) -> Result<Met, Fault> {
    let mut how = File::options();
    how.read(true);
    match look(rt, name, &how, Hold::Alone)? {
        Met::Absent => {
            how.write(true).create_new(true);
            match look(rt, name, &how, Hold::Alone)? {
                Met::Absent => Err(Fault::NoStore(Cause::Absent)),
                met => Ok(met),
            }
        }
        met => Ok(met),
    }
}

/// Opens the file of a name, which only has to be there, or makes it, and holds it alone.
pub(crate) fn hold_name<R: Files<File = File>>(rt: &R, name: &str) -> Result<Held, Fault> {
    for _ in 0..MOST_LOOKS {
        if let Met::Held(held) = look_or_make(rt, name)? {
            return Ok(held);
        }
    }
    Err(Fault::InUse)
}

/// Gives the lock of a name back, and takes its file away. The system itself ends a lock when its
/// file is closed.
pub(crate) fn give_back<R: Files<File = File>>(rt: &R, name: &str) {
    let _ = fs::remove_file(rt, name);
}
