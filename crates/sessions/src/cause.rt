//! Why a file of the system was not opened, made, read or written.
use std::io;

/// Why a file of the system was not opened, made, read or written.
#[derive(Clone, Copy, PartialEq, Eq, Debug)]
pub enum Cause {
    /// There is none of that name.
    Absent,
    /// There is no right to do so.
    NoRight,
    /// It is a folder.
    Folder,
    /// What stands before its name is no folder.
    NoFolder,
    /// The disk, or what one may have of it, is full.
    Full,
    /// The disk may not be written.
    ReadOnly,
    /// It is a file to be read, and too long.
    TooLong,
    /// It would be longer than the system lets this file, or a file of this process, be.
    Limited,
    /// It has no byte.
    Empty,
    /// Anything else.
    Other,
}

impl From<io::ErrorKind> for Cause {
    ghost use Rattle.std.specs.Prelude.{⊤};

    ghost from_gives = { λ kind cause. ⊤ };

    fn from(kind: io::ErrorKind) -> Cause {
        match kind {
            io::ErrorKind::NotFound => Cause::Absent,
            io::ErrorKind::PermissionDenied => Cause::NoRight,
            io::ErrorKind::IsADirectory => Cause::Folder,
            io::ErrorKind::NotADirectory => Cause::NoFolder,
            io::ErrorKind::StorageFull | io::ErrorKind::QuotaExceeded => Cause::Full,
            io::ErrorKind::ReadOnlyFilesystem => Cause::ReadOnly,
            io::ErrorKind::FileTooLarge => Cause::Limited,
            _ => Cause::Other,
        }
    }
}

impl Cause {
    /// The cause in words.
    pub fn as_str(&self) -> &'static str {
        match self {
            Cause::Absent => "there is no such file or folder",
            Cause::NoRight => "there is no right to do so",
            Cause::Folder => "it is a folder",
            Cause::NoFolder => "what stands before its name is no folder",
            Cause::Full => "the disk is full",
            Cause::ReadOnly => "the disk may not be written",
            Cause::TooLong => "it is too long: at most 1073741824 bytes",
            Cause::Limited => "it would be longer than the system lets it be",
            Cause::Empty => "it has no byte",
            Cause::Other => "the system refused a call",
        }
    }
}
