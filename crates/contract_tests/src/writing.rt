//! The texts of answers.
ghost use Rattle.std.specs.Prelude.{◌≡◌, ◌++◌, OnOk};
ghost use Rattle.writer.specs.File.{file_text};

use legs::BookHead;
use std::alloc::Global;
use writer::{Entry, Memory};

/// Appends a whole file: its header lines, and the record of each leg.
///
/// Wrong bodies: the last leg is left out.
pub fn push_file(
    alloc: Global,
    out: &mut Vec<u8>,
    head: &BookHead,
    entries: &[Entry<'_>],
) -> Result<(), Memory>
    ensures ok { OnOk result (out.new.items ≡ out.old.items ++ file_text head.now entries.now) }
{
    writer::push_file(alloc, out, head, entries)
}
