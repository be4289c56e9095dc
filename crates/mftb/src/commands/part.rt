//! The part of a file that has the features of one of several parts.
use arguments::Part;
use outputs::Output;
use sessions::{Fault, MOST_BYTES, Named, read_named, send_part};
use std::rt;

/// Reads a file, and prints its part.
pub(crate) fn print_part<R: rt::Files + AllocGlobal, O: Output>(
    rt: &R,
    task: &Part<'_>,
    out: &mut O,
) -> Result<(), Fault> {
    if task.part >= task.parts {
        return Err(Fault::NoPart(task.part, task.parts));
    }
    let bytes = read_named(rt, Named::File(0), task.file, MOST_BYTES)?;
    send_part(rt.alloc(), task.part, task.parts, &bytes, out)
}
