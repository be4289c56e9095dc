//! The contract of an output.
ghost use Rattle.std.specs.Prelude.{ℕ, ◌≡◌, ◌<◌, false, length, take, OnErr, OnOk};
ghost use Rattle.std.specs.Io.KnownBytes.{Appends, Keeps};
ghost use Rattle.outputs.specs.Output.{HasRefused, IsFlushed, OutputView};

use thiserror::Error;

/// The error of an output: it failed.
#[derive(Clone, Copy, PartialEq, Eq, Debug, Error)]
#[error("the output failed")]
pub struct OutputFault;

/// An output, which takes answers.
///
/// An output may tell contracts which bytes it took. Standard output tells none. The count of
/// refused calls stays at 2^64 - 1 once it is there, and then counts as risen.
pub trait Output {
    /// What contracts see of an output: the bytes that it took, how many calls it refused, and
    /// whether it was flushed since the last byte.
    ghost seen: { Self → OutputView };

    /// Takes all the bytes. On an error it took a prefix of them.
    fn send(&mut self, bytes: &[u8]) -> Result<(), OutputFault>
        // After `Ok` it took all the bytes, in order.
        ensures sent { OnOk result
            (Appends (seen self.old).contents (seen self.new).contents bytes.now) }
        // After `Ok` no refusal was counted.
        ensures refuses_none { OnOk result ((seen self.new).refusals ≡ (seen self.old).refusals) }
        // If there was a byte, it is not flushed.
        ensures unflushed { 0 < length bytes.now → (seen self.new).is_flushed ≡ false }
        // After an error it took a prefix of the bytes, perhaps none.
        ensures part { OnErr result ((n : ℕ) × Appends (seen self.old).contents
            (seen self.new).contents (take n bytes.now)) }
        // An error is counted as a refusal.
        ensures cause { OnErr result (HasRefused (seen self.old) (seen self.new)) };

    /// Passes on the bytes that it kept for a while.
    fn flush(&mut self) -> Result<(), OutputFault>
        // It takes no byte, and drops none.
        ensures stays { Keeps (seen self.old).contents (seen self.new).contents }
        // After `Ok` it is flushed, and no refusal was counted.
        ensures flushed { OnOk result (IsFlushed (seen self.old) (seen self.new)) }
        // An error is counted as a refusal.
        ensures cause { OnErr result (HasRefused (seen self.old) (seen self.new)) };
}
