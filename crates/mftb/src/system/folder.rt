//! The folder of a store's file, as the system has it.
ghost use Rattle.std.specs.Prelude.{◌≡◌, None, IfErr, IsTrue, OnOk};
ghost use Rattle.sessions.specs.Folder.{IsOfFolder};

use crate::system::file::{HeldFile, LastCause};
use crate::system::leftovers::clear;
use crate::system::locks::{Held, Hold, give_back, hold_name, is_named, open_held};
use crate::system::store_names::Names;
use monitor::{Noted, Progress};
use pages::{FileStore, PageStore};
use sessions::{Cause, Fault, Folder, FolderRefusals};
use std::fs::{File, Metadata};
use std::io::{Eprint, Read, Write};
use std::os::unix::fs::{MetadataExt, OpenOptionsExt, chown};
use std::rt::{Clock, Files};
use std::{fs, io};
use trajdb::RunFault;

/// Who may read and write a copy while it is made: its maker.
const OWN_MODE: u32 = 0o600;

/// How many bytes are copied by one call of the system.
const CHUNK: usize = 65_536;

/// Who may read and write a new file, but for what the system takes off.
const NEW_MODE: u32 = 0o666;

/// The folder of a store's file. A run that has it holds the store alone among runs that may write,
/// and shares it with those that ask. No contract says what the folder holds.
#[derive(Drop)]
pub(crate) struct SystemFolder<'a, 'p, R: Files<File = File> + Clock + Eprint> {
    rt: &'a R,
    names: &'a Names,
    /// Why a call on the copy failed last.
    cause: &'a LastCause,
    progress: &'a Progress<'p, R>,
    /// The store's file, where there is one.
    store: Option<File>,
    /// The file that only has to be there, and whose lock is held where the file system has locks.
    lock: Held,
    /// Whether the file beside the store is this run's own copy.
    is_made: bool,
    /// Whether the system was asked to make each name last that was given.
    is_settled: bool,
    /// What it refused: to make a copy, to make it last, or to give it the name.
    refused: FolderRefusals,
}

/// Takes the store's file to be read, where there is one that this run may write as well.
fn take_store<R: Files<File = File>>(rt: &R, names: &Names) -> Result<Option<File>, Fault> {
    let mut how = File::options();
    how.read(true).write(true);
    match open_held(rt, names.store.as_str(), &how, Hold::Shared)? {
        Some(held) => Ok(Some(held.file)),
        None => Ok(None),
    }
}

/// Takes the store's file so, where nothing that a killed run left is in the way.
fn clear_and_take<R: Files<File = File>>(
    rt: &R,
    names: &Names,
    lock: &Held,
) -> Result<Option<File>, Fault> {
    clear(rt, names, lock)?;
    take_store(rt, names)
}

/// Gives a file the rights, and where the system lets it the owner and the group, of another one.
fn set_rights<R: Files<File = File>>(
    rt: &R,
    name: &str,
    file: &File,
    like: &Metadata,
) -> io::Result<()> {
    if chown(rt, name, Some(like.uid()), Some(like.gid())).is_err() {
        let _ = chown(rt, name, None, Some(like.gid()));
    }
    file.set_permissions(like.permissions())
}

/// Makes the file of a name that no other run has made.
fn make<R: Files<File = File>>(rt: &R, name: &str, mode: u32) -> Result<File, Fault>
    ensures named { IfErr result IsOfFolder }
{
    let mut how = File::options();
    how.read(true).write(true).create_new(true).mode(mode);
    match how.open(rt, name) {
        Ok(copy) => Ok(copy),
        Err(error) if error.kind() == io::ErrorKind::AlreadyExists => Err(Fault::InUse),
        Err(error) => Err(Fault::NoStore(Cause::from(error.kind()))),
    }
}

/// Whether the store's name is still that of its file, or there still is none.
fn is_still<R: Files<File = File>>(rt: &R, name: &str, store: &Option<File>) -> bool {
    match store {
        Some(store) => is_named(rt, name, store),
        None => fs::metadata(rt, name).is_err(),
    }
}

/// Copies the bytes of a file to another one, from where both stand.
fn copy_bytes(from: &mut File, to: &mut File) -> io::Result<()> {
    let mut chunk = [0u8; CHUNK];
    let mut left = from.metadata()?.len();
    while left > 0 {
        let count = from.read(&mut chunk)?;
        if count == 0 {
            return Err(io::Error::from(io::ErrorKind::UnexpectedEof));
        }
        to.write_all(&chunk[..count])?;
        left = left.saturating_sub(count as u64);
    }
    Ok(())
}

/// Makes a new file a copy of another one, with its rights.
fn fill<R: Files<File = File>>(
    rt: &R,
    name: &str,
    copy: &mut File,
    store: &mut File,
) -> io::Result<()> {
    copy_bytes(store, copy)?;
    set_rights(rt, name, copy, &store.metadata()?)
}

impl<'a, 'p, R: Files<File = File> + Clock + Eprint> SystemFolder<'a, 'p, R> {
    /// Takes the folder of a store, and what a run left there that was killed is taken away.
    pub(crate) fn take(
        rt: &'a R,
        names: &'a Names,
        cause: &'a LastCause,
        progress: &'a Progress<'p, R>,
    ) -> Result<SystemFolder<'a, 'p, R>, Fault> {
        let lock = hold_name(rt, names.lock.as_str())?;
        match clear_and_take(rt, names, &lock) {
            Ok(store) => Ok(SystemFolder {
                rt,
                names,
                cause,
                progress,
                store,
                lock,
                is_made: false,
                is_settled: true,
                refused: FolderRefusals::nothing(),
            }),
            Err(fault) => {
                give_back(rt, names.lock.as_str());
                Err(fault)
            }
        }
    }

    /// Gives the folder back to other runs.
    pub(crate) fn give_back(self) {
        give_back(self.rt, self.names.lock.as_str());
    }

    /// Makes the copy. Where there are no locks, another run may have replaced the store before, whose
    /// copy this one would take back: it is refused then.
    fn make_copy(&mut self) -> Result<File, Fault>
        ensures settled { self.new.is_settled ≡ self.old.is_settled }
        ensures refused { self.new.refused ≡ self.old.refused }
        ensures made { OnOk result (IsTrue self.new.is_made) }
        ensures copy { IsTrue self.old.is_made → IsTrue self.new.is_made }
        ensures named { IfErr result IsOfFolder }
    {
        let (rt, name) = (self.rt, self.names.copy.as_str());
        let mode = if self.store.is_some() {
            OWN_MODE
        } else {
            NEW_MODE
        };
        let mut copy = make(rt, name, mode)?;
        self.is_made = true;
        if !is_still(rt, self.names.store.as_str(), &self.store) {
            return Err(Fault::InUse);
        }
        if let Some(store) = &mut self.store
            && let Err(error) = fill(rt, name, &mut copy, store)
        {
            return Err(Fault::NoStore(Cause::from(error.kind())));
        }
        Ok(copy)
    }
}

impl<'a, 'p, R: Files<File = File> + Clock + Eprint> Folder for SystemFolder<'a, 'p, R> {
    type Store = Noted<'a, 'p, FileStore<HeldFile<'a, File>>, R>;

    ghost use Rattle.sessions.specs.Folder.{FolderView};

    ghost seen = { λ s. record {
      held = None;
      is_settled = s.is_settled;
      has_copy = s.is_made;
      refused = s.refused;
    } };

    fn copy(&mut self) -> Result<Noted<'a, 'p, FileStore<HeldFile<'a, File>>, R>, Fault> {
        let copy = match self.make_copy() {
            Ok(copy) => copy,
            Err(fault) => return Err(self.refused.note(fault)),
        };
        match FileStore::new(HeldFile::new(copy, self.cause)) {
            Ok(store) => Ok(Noted::new(store, self.progress)),
            Err(_) => Err(self.refused.note(Fault::NoStore(Cause::Other))),
        }
    }

    /// Whether a page of the copy was to be written.
    fn differs(&self, store: &Noted<'a, 'p, FileStore<HeldFile<'a, File>>, R>) -> bool {
        store.is_written()
    }

    fn sync(
        &mut self,
        store: &mut Noted<'a, 'p, FileStore<HeldFile<'a, File>>, R>,
    ) -> Result<(), Fault> {
        if store.sync().is_err() {
            return Err(self.refused.note(Fault::Run(RunFault::Store)));
        }
        Ok(())
    }

    fn replace(
        &mut self,
        _store: Noted<'a, 'p, FileStore<HeldFile<'a, File>>, R>,
    ) -> Result<(), Fault> {
        let (copy, name) = (self.names.copy.as_str(), self.names.store.as_str());
        if let Err(error) = fs::rename(self.rt, copy, name) {
            let fault = Fault::NoStore(Cause::from(error.kind()));
            return Err(self.refused.note(fault));
        }
        self.is_made = false;
        self.is_settled = false;
        Ok(())
    }

    fn settle(&mut self) {
        self.names.sync(self.rt);
        self.is_settled = true;
    }

    fn discard(&mut self) {
        if self.is_made {
            let _ = fs::remove_file(self.rt, self.names.copy.as_str());
            self.is_made = false;
        }
    }
}
