//! Sending what is answered besides a script's answers.
ghost use Rattle.std.specs.Prelude.{ℕ, ◌≡◌, take, IfErr, OnErr, OnOk};
ghost use Rattle.std.specs.Io.KnownBytes.{Appends};
ghost use Rattle.outputs.specs.Output.{HasRefused, IsFlushed};

use crate::fault::Fault;
use outputs::Output;
use trajdb::RunFault;

/// Sends all the bytes, and flushes the output. Where they are not all sent, or the flush is refused, `Output`: then the
/// output has a front of them, or all.
pub fn send_all<O: Output>(out: &mut O, bytes: &[u8]) -> Result<(), Fault>
    // After `Ok` the output took all the bytes.
    ensures sent { OnOk result
        (Appends (O.seen out.old).contents (O.seen out.new).contents bytes.now) }
    // After `Ok` it refused no call, and is flushed.
    ensures flushed { OnOk result (IsFlushed (O.seen out.old) (O.seen out.new)) }
    // After an error it took a prefix of the bytes, perhaps all.
    ensures part { OnErr result ((n : ℕ) × Appends (O.seen out.old).contents
        (O.seen out.new).contents (take n bytes.now)) }
    // It fails only if the output refused a call.
    ensures cause { OnErr result (HasRefused (O.seen out.old) (O.seen out.new)) }
    // The error is always `Output`.
    ensures fault { IfErr result (λ e. e ≡ Fault.Run RunFault.Output) }
{
    match out.send(bytes) {
        Ok(()) => match out.flush() {
            Ok(()) => Ok(()),
            Err(_) => Err(Fault::Run(RunFault::Output)),
        },
        Err(_) => Err(Fault::Run(RunFault::Output)),
    }
}
