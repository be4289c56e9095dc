//! What is read of a file.
ghost use Rattle.mfcsv.specs.Answer.{Gives};
ghost use Rattle.mfcsv.specs.FileText.{file_of_bytes};

use mfcsv::{File, FileFault};
use std::alloc::Global;

/// Reads a file: all that its bytes say, or its first fault.
///
/// Wrong bodies: the last record is left out.
pub fn read_file(alloc: Global, bytes: &[u8]) -> Result<File, FileFault>
    ensures text { Gives result (file_of_bytes bytes.now) }
{
    mfcsv::read_file(alloc, bytes)
}
