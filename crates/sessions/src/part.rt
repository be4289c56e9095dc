//! The part of a file that has the features of one of several parts.
ghost use Rattle.std.specs.Prelude.{◌≡◌, ◌<◌, ◌⊎◌, IfErr, OnErr, OnOk};
ghost use Rattle.outputs.specs.Output.{HasRefused, IsFlushed};
ghost use Rattle.sessions.specs.Parts.{SendsPart, SendsSome};

use crate::answering::send_all;
use crate::fault::Fault;
use outputs::Output;
use parts::part;
use std::alloc::Global;
use trajdb::RunFault;

/// Sends part `k` of `n` of a file, of which these are the bytes; parts are numbered from 0. Where
/// there is no memory for its text, `Memory`, and where that is not all sent, or the flush is refused, `Output`.
pub fn send_part<O: Output>(
    alloc: Global,
    k: u32,
    n: u32,
    bytes: &[u8],
    out: &mut O,
) -> Result<(), Fault>
    // There is a part of that number.
    requires { k < n }
    // What was sent is the text of the part, which says exactly its records, under their numbers in
    // the whole; or the file itself where that has a fault. Where it is refused, what was sent is a
    // front of that text, or nothing.
    ensures sends { OnOk result
        (SendsPart k n bytes.now (O.seen out.old).contents (O.seen out.new).contents) }
    // After an error what was sent is a prefix of that text, or nothing.
    ensures cut { OnErr result
        (SendsSome k n bytes.now (O.seen out.old).contents (O.seen out.new).contents) }
    // After `Ok` the output refused no call, and is flushed.
    ensures flushed { OnOk result (IsFlushed (O.seen out.old) (O.seen out.new)) }
    // The error is `Output` if the output refused a call, or `Memory`, and then nothing was sent.
    ensures fault { IfErr result (λ e.
        ((e ≡ Fault.Run RunFault.Output) × HasRefused (O.seen out.old) (O.seen out.new))
        ⊎ ((e ≡ Fault.Run RunFault.Memory) × (O.seen out.new ≡ O.seen out.old))) }
{
    match part(alloc, u64::from(k), u64::from(n), bytes) {
        Ok(text) => send_all(out, &text),
        Err(_) => Err(Fault::Run(RunFault::Memory)),
    }
}
