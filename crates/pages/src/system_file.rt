//! A file of the system.
ghost use Rattle.std.specs.Prelude.{◌≡◌, true, false, None, IfOk, IsErr};

use crate::byte_file::ByteFile;
use crate::refusals::Refusals;
use std::fs::{File, OpenFile};
use std::io;
use std::os::unix::fs::FileExt;
use std::rt::Files;

/// A file of the system. No contract says which bytes it holds, nor that `sync` puts them on the
/// disk: that it does is trusted. After a failed sync every read, write and sync fails.
#[derive(Drop)]
pub struct SystemFile<F = File> {
    file: F,
    refusals: Refusals,
    has_lost: bool,
}

/// The error of a file after a failed sync.
fn lost() -> io::Result<()>
    ensures { IsErr result }
{
    Err(io::Error::from(io::ErrorKind::Other))
}

impl<F: FileExt + OpenFile> SystemFile<F> {
    /// A file that is open, and of which no call has failed.
    pub fn new(file: F) -> SystemFile<F>
        // No refusal was counted.
        ensures refusals { ⟦<SystemFile<F> as ByteFile>⟧.refusals result ≡ 0 }
        // No sync of it has failed.
        ensures lost { ⟦<SystemFile<F> as ByteFile>⟧.has_lost result ≡ false }
    {
        SystemFile {
            file,
            refusals: Refusals::none(),
            has_lost: false,
        }
    }

    /// Opens the file at a path to be read and written, and makes it, empty, where there is none.
    pub fn open<R: Files<File = F>>(rt: &R, path: &str) -> io::Result<SystemFile<F>>
        // No refusal was counted.
        ensures refusals { IfOk result
            (λ file. ⟦<SystemFile<F> as ByteFile>⟧.refusals file ≡ 0) }
        // No sync of it has failed.
        ensures lost { IfOk result
            (λ file. ⟦<SystemFile<F> as ByteFile>⟧.has_lost file ≡ false) }
    {
        let mut options = File::options();
        options.read(true).write(true).create(true);
        Ok(SystemFile::new(options.open(rt, path)?))
    }
}

impl<F: FileExt + OpenFile> ByteFile for SystemFile<F> {
    ghost bytes = { λ _. None };

    ghost is_synced = { λ _. true };

    ghost refusals = { λ f. f.refusals };

    ghost has_lost = { λ f. f.has_lost };

    fn len(&mut self) -> io::Result<u64> {
        let answer = match self.file.metadata() {
            Ok(about) => Ok(about.len()),
            Err(error) => Err(error),
        };
        self.refusals.count(answer)
    }

    fn read_at(&mut self, place: u64, buf: &mut [u8]) -> io::Result<()> {
        let answer = if self.has_lost {
            lost()
        } else {
            self.file.read_exact_at(buf, place)
        };
        self.refusals.count(answer)
    }

    fn write_at(&mut self, place: u64, buf: &[u8]) -> io::Result<()> {
        let answer = if self.has_lost {
            lost()
        } else {
            self.file.write_all_at(buf, place)
        };
        self.refusals.count(answer)
    }

    fn sync(&mut self) -> io::Result<()> {
        let answer = if self.has_lost {
            lost()
        } else {
            self.file.sync_all()
        };
        self.has_lost = answer.is_err();
        self.refusals.count(answer)
    }
}
