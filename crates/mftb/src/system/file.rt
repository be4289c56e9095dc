//! A file of the system that a run holds open.
ghost use Rattle.std.specs.Prelude.{◌≡◌, true, None};

use pages::{ByteFile, SystemFile};
use sessions::{Cause, Fault};
use std::cell::Cell;
use std::fs::{File, OpenFile};
use std::io;
use std::os::unix::fs::FileExt;

/// Why a call on a file that is written failed last.
pub(crate) type LastCause = Cell<Option<Cause>>;

/// A fault, with the cause that was noted where it is one of the store.
pub(crate) fn caused(last: &LastCause, fault: Fault) -> Fault {
    match last.get() {
        Some(cause) if fault.is_of_store() => Fault::NoStore(cause),
        _ => fault,
    }
}

/// A file of the system that is open, by its handle, and that notes why a call on it failed. No contract says which
/// bytes it holds, nor that `sync` puts them on the disk: that it does is trusted.
#[derive(Drop)]
pub(crate) struct HeldFile<'a, F = File> {
    file: SystemFile<F>,
    /// Why a call on it failed last.
    cause: &'a LastCause,
}

impl<'a, F: FileExt + OpenFile> HeldFile<'a, F> {
    /// The file of a handle, which is open for what it is to be asked for.
    pub(crate) fn new(file: F, cause: &'a LastCause) -> HeldFile<'a, F> {
        HeldFile {
            file: SystemFile::new(file),
            cause,
        }
    }

    /// Notes why a call was refused.
    fn note(&self, answer: io::Result<()>) -> io::Result<()>
        ensures { result ≡ answer }
    {
        if let Err(error) = &answer {
            self.cause.set(Some(Cause::from(error.kind())));
        }
        answer
    }
}

impl<'a, F: FileExt + OpenFile> ByteFile for HeldFile<'a, F> {
    ghost bytes = { λ _. None };

    ghost is_synced = { λ _. true };

    ghost refusals = { λ f. ⟦<SystemFile<F> as ByteFile>⟧.refusals f.file };

    ghost has_lost = { λ f. ⟦<SystemFile<F> as ByteFile>⟧.has_lost f.file };

    fn len(&mut self) -> io::Result<u64> {
        self.file.len()
    }

    fn read_at(&mut self, place: u64, buf: &mut [u8]) -> io::Result<()> {
        let answer = self.file.read_at(place, buf);
        self.note(answer)
    }

    fn write_at(&mut self, place: u64, buf: &[u8]) -> io::Result<()> {
        let answer = self.file.write_at(place, buf);
        self.note(answer)
    }

    fn sync(&mut self) -> io::Result<()> {
        let answer = self.file.sync();
        self.note(answer)
    }
}
