//! Reading a file.
ghost use Rattle.std.specs.Prelude.{◌≡◌, IfOk};
ghost use Rattle.mfcsv.specs.FileText.{HasWholeRows, file_of_bytes};
ghost use Rattle.mfcsv.specs.Answer.{Gives};

use crate::reader::FileReader;
use crate::{File, FileFault, Records};
use std::alloc::{AllocFailed, Global};

impl<T: Drop> From<AllocFailed<T>> for FileFault {
    ghost use Rattle.std.specs.Prelude.{◌≡◌};
    ghost use Rattle.mfcsv.specs.declared.FileFault.TheVariants.{Memory};

    ghost from_gives = { λ _ fault. fault ≡ Memory };

    fn from(_: AllocFailed<T>) -> FileFault {
        FileFault::Memory
    }
}

/// Reads a file: exactly the file that the bytes say, or exactly its first fault.
///
/// Byte order marks at the very start are dropped. The records are read one at a time; nothing is
/// kept of one but what the file has of it.
pub fn read_file(alloc: Global, bytes: &[u8]) -> Result<File, FileFault>
    // It returns exactly the file that the bytes say, or exactly its first fault, unless memory
    // runs out.
    ensures text { Gives result (file_of_bytes bytes.now) }
    // Each record has as many attribute values as there are columns.
    ensures rows { IfOk result HasWholeRows }
{
    let mut reader = FileReader::new(alloc, bytes);
    let mut records = Vec::new(alloc);
    'records: loop {
        match reader.next_record(alloc) {
            Ok(Some(found)) => records.push(found)?,
            Ok(None) => break,
            Err(fault) => return Err(fault),
        }
    }
    let head = reader.into_head()?;
    Ok(File {
        head,
        records: Records::from(records),
    })
}
