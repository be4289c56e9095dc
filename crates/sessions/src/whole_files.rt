//! Files of the system that are read whole.
ghost use Rattle.std.specs.Prelude.{◌≤◌, IfErr, IfOk, vec_len};
ghost use Rattle.sessions.specs.Folder.{IsUnreadFile};

use crate::cause::Cause;
use crate::fault::{Fault, Named};
use std::fs::{File, OpenFile};
use std::io::Read;
use std::{io, rt};
use trajdb::RunFault;

/// The most bytes that a script or a file may have.
pub const MOST_BYTES: u64 = 1 << 30;

/// The bytes of the file of that name, which has no more than so many: where it has more, or is not
/// read, `CannotRead` of what it is, and where there is no memory for them `Memory`.
pub fn read_named<R: rt::Files + AllocGlobal>(
    rt: &R,
    named: Named,
    name: &str,
    most: u64,
) -> Result<Vec<u8>, Fault>
    // The bytes are no more than was allowed.
    ensures most { IfOk result (λ bytes. vec_len bytes ≤ most) }
    // It fails only if memory runs out, or with `CannotRead` of this file.
    ensures refused { IfErr result (IsUnreadFile named) }
{
    let fault = |error: io::Error| match error.kind() {
        io::ErrorKind::OutOfMemory => Fault::Run(RunFault::Memory),
        kind => Fault::CannotRead(named, Cause::from(kind)),
    };
    let file = File::open(rt, name).map_err(fault)?;
    // A long file of the disk is not read first.
    if file.metadata().map_err(fault)?.len() > most {
        return Err(Fault::CannotRead(named, Cause::TooLong));
    }
    let mut bytes = Vec::new(rt.alloc());
    file.take(most.saturating_add(1))
        .read_to_end(&mut bytes)
        .map_err(fault)?;
    if bytes.len() as u64 > most {
        return Err(Fault::CannotRead(named, Cause::TooLong));
    }
    Ok(bytes)
}
