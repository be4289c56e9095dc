//! The files that a run may load.
use sessions::{Fault, MOST_BYTES, Named, read_named};
use std::rt;
use trajdb::{Files, RunFault};

/// Reads the file of that name, which is at that place among those of the command line, to stand beside others.
fn add_file<R: rt::Files + AllocGlobal>(
    rt: &R,
    files: &mut Files,
    place: usize,
    name: &str,
) -> Result<(), Fault> {
    let bytes = read_named(rt, Named::File(place), name, MOST_BYTES)?;
    match files.add(name, bytes) {
        Ok(()) => Ok(()),
        Err(_) => Err(Fault::Run(RunFault::Memory)),
    }
}

/// The files of those names.
pub(crate) fn read_files<R: rt::Files + AllocGlobal>(
    rt: &R,
    names: &[&str],
) -> Result<Files, Fault> {
    let mut files = Files::new(rt.alloc());
    for (place, name) in names.iter().enumerate() {
        add_file(rt, &mut files, place, name)?;
    }
    Ok(files)
}
