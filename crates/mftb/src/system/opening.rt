//! How the file of a store is opened, and held, for what a run does with it.
use crate::system::file::{HeldFile, LastCause};
use crate::system::locks::{Hold, open_held};
use crate::system::store_names::Names;
use pages::{FileStore, SystemFile};
use sessions::{Cause, Fault, ReadOnly};
use std::fs::{File, OpenOptions};
use std::rt::Files;
use std::{fs, io};

/// Why there is nothing in the file of that name: there is none, or it has no byte. `None` where there may be something.
pub(crate) fn absence_of<R: Files<File = File>>(rt: &R, name: &str) -> Option<Cause> {
    match File::open(rt, name) {
        Ok(file) => match file.metadata() {
            Ok(metadata) if metadata.len() == 0 => Some(Cause::Empty),
            _ => None,
        },
        Err(error) if error.kind() == io::ErrorKind::NotFound => Some(Cause::Absent),
        Err(_) => None,
    }
}

/// Whether there is no file of that name, or one without bytes.
pub(crate) fn is_absent<R: Files<File = File>>(rt: &R, name: &str) -> bool {
    absence_of(rt, name).is_some()
}

/// Whether a name is that of a device, a pipe or the like, of which no copy is made.
pub(crate) fn is_special<R: Files<File = File>>(rt: &R, name: &str) -> bool {
    match fs::metadata(rt, name) {
        Ok(metadata) => !metadata.is_file(),
        Err(_) => false,
    }
}

/// Whether a name is given to anything, be it a link to nothing.
pub(crate) fn has_name<R: Files<File = File>>(rt: &R, name: &str) -> bool {
    fs::symlink_metadata(rt, name).is_ok()
}

/// The file of a store that is opened so, and held.
fn open_file<R: Files<File = File>>(
    rt: &R,
    name: &str,
    how: &OpenOptions,
    hold: Hold,
) -> Result<File, Fault> {
    match open_held(rt, name, how, hold)? {
        Some(held) => Ok(held.file),
        None => Err(Fault::NoStore(Cause::Absent)),
    }
}

/// A store that is read alone.
pub(crate) type AskedStore = ReadOnly<FileStore<SystemFile<File>>>;

/// The store of a file that is read alone.
fn store_of(file: File) -> Result<AskedStore, Fault> {
    match FileStore::new(SystemFile::new(file)) {
        Ok(store) => Ok(ReadOnly::new(store)),
        Err(_) => Err(Fault::NoStore(Cause::Other)),
    }
}

/// Opens a store to be read alone, beside others that do so; a file that is absent is made, without a
/// byte.
pub(crate) fn open_asked<R: Files<File = File>>(
    rt: &R,
    names: &Names,
) -> Result<AskedStore, Fault> {
    let name = names.store.as_str();
    let mut how = File::options();
    how.read(true);
    if !has_name(rt, name) {
        how.write(true).create(true);
    }
    store_of(open_file(rt, name, &how, Hold::Shared)?)
}

/// Opens a store to be written as it lies there, alone; a file that is absent is made.
pub(crate) fn open_in_place<'c, R: Files<File = File>>(
    rt: &R,
    names: &Names,
    cause: &'c LastCause,
) -> Result<FileStore<HeldFile<'c, File>>, Fault> {
    let mut how = File::options();
    how.read(true).write(true).create(true);
    let file = open_file(rt, names.store.as_str(), &how, Hold::Alone)?;
    match FileStore::new(HeldFile::new(file, cause)) {
        Ok(store) => Ok(store),
        Err(_) => Err(Fault::NoStore(Cause::Other)),
    }
}
