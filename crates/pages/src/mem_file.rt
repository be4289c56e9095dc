//! A file of bytes in memory.
ghost use Rattle.std.specs.Prelude.{◌≡◌, ◌≤◌, ◌+◌, length, true, false, Some};
ghost use Rattle.std.specs.List.{replace_range};

use crate::byte_file::ByteFile;
use crate::refusals::Refusals;
use std::io;

/// A file in memory, which tells its bytes.
#[derive(Drop)]
pub struct MemFile {
    bytes: Vec<u8>,
    refusals: Refusals,
}

/// Writes bytes over as many from a place on.
fn overwrite(bytes: &mut [u8], start: usize, buf: &[u8])
    requires { start + length buf.now ≤ length bytes.old }
    ensures { bytes.new ≡ replace_range bytes.old start (start + length buf.now) buf.now }
{
    bytes[start..start + buf.len()].copy_from_slice(buf);
}

impl MemFile {
    /// A file that holds these bytes.
    pub fn new(bytes: Vec<u8>) -> MemFile
        // It tells its bytes, which are these.
        ensures bytes { ⟦<MemFile as ByteFile>⟧.bytes result ≡ Some bytes.items }
        // It has refused nothing.
        ensures refusals { ⟦<MemFile as ByteFile>⟧.refusals result ≡ 0 }
    {
        MemFile {
            bytes,
            refusals: Refusals::none(),
        }
    }
}

impl ByteFile for MemFile {
    ghost bytes = { λ f. Some f.bytes.items };

    ghost is_synced = { λ _. true };

    ghost refusals = { λ f. f.refusals };

    ghost has_lost = { λ _. false };

    fn len(&mut self) -> io::Result<u64> {
        Ok(self.bytes.len() as u64)
    }

    /// Reads the bytes from a place on, as many as `buf` has, which are there. It never fails.
    fn read_at(&mut self, place: u64, buf: &mut [u8]) -> io::Result<()> {
        let start = place as usize;
        buf.copy_from_slice(&self.bytes[start..start + buf.len()]);
        Ok(())
    }

    /// Writes bytes from a place on, which may be the file's end. It fails only if bytes beyond the
    /// end find no memory.
    fn write_at(&mut self, place: u64, buf: &[u8]) -> io::Result<()> {
        let start = place as usize;
        let Some(end) = start.checked_add(buf.len()) else {
            let refused = Err(io::Error::from(io::ErrorKind::FileTooLarge));
            return self.refusals.count(refused);
        };
        if end > self.bytes.len() && self.bytes.resize(end, 0).is_err() {
            let refused = Err(io::Error::from(io::ErrorKind::OutOfMemory));
            return self.refusals.count(refused);
        }
        overwrite(&mut self.bytes, start, buf);
        Ok(())
    }

    /// Syncs nothing, as there is no disk. It never fails.
    fn sync(&mut self) -> io::Result<()> {
        Ok(())
    }
}
