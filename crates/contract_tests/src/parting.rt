//! Parts of a file.
ghost use Rattle.std.specs.Prelude.{◌≡◌, ◌<◌, IfOk};
ghost use Rattle.mfcsv.specs.FileText.{file_of_bytes};
ghost use Rattle.parts.specs.Part.{said_part};

use std::alloc::{AllocError, Global};

/// A part of a file: it says the records of its features, or the fault of the whole.
///
/// Wrong bodies: a part hides the fault of the whole file.
pub fn part(alloc: Global, k: u64, n: u64, bytes: &[u8]) -> Result<Vec<u8>, AllocError>
    requires { k < n }
    ensures says { IfOk result
        (λ text. file_of_bytes text.items ≡ said_part k n (file_of_bytes bytes.now)) }
{
    parts::part(alloc, k, n, bytes)
}
