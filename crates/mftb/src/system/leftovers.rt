//! What a run that was killed left beside a store: its copy, and how that is taken away.
use crate::system::locks::{Held, Hold, give_back, open_held};
use crate::system::opening::has_name;
use crate::system::store_names::Names;
use sessions::{Cause, Fault};
use std::fs::File;
use std::rt::Files;
use std::{fs, io};

/// Takes a file's name away, where it has one.
fn remove<R: Files>(rt: &R, name: &str) -> Result<(), Fault> {
    match fs::remove_file(rt, name) {
        Ok(()) => Ok(()),
        Err(error) if error.kind() == io::ErrorKind::NotFound => Ok(()),
        Err(error) => Err(Fault::NoStore(Cause::from(error.kind()))),
    }
}

/// Takes away the copy, if there is one, where the lock that is held says that no other run works on the store.
pub(crate) fn clear<R: Files<File = File>>(
    rt: &R,
    names: &Names,
    lock: &Held,
) -> Result<(), Fault> {
    if lock.is_locked {
        return remove(rt, names.copy.as_str());
    }
    Ok(())
}

/// Takes away the copy, if there is one, where no run works on the store: the lock is then free. Where there are no
/// locks the copy stays.
pub(crate) fn sweep<R: Files<File = File>>(rt: &R, names: &Names) {
    if !has_name(rt, names.copy.as_str()) {
        return;
    }
    let mut how = File::options();
    how.read(true);
    if let Ok(Some(lock)) = open_held(rt, names.lock.as_str(), &how, Hold::Alone)
        && lock.is_locked
    {
        let _ = remove(rt, names.copy.as_str());
        give_back(rt, names.lock.as_str());
    }
}
