//! An output over a writer.
ghost use Rattle.std.specs.Prelude.{ℕ, ◌≡◌, false, take, OnErr, OnOk};
ghost use Rattle.std.specs.Io.KnownBytes.{Appends};

use crate::output::{Output, OutputFault};
use pages::Refusals;
use std::io::Write;

/// An output over a writer. It tells the bytes that the writer tells, and counts the writer's
/// errors.
#[derive(Drop)]
pub struct CountedOutput<'a, W: Write> {
    out: &'a mut W,
    refusals: Refusals,
    /// Whether the writer was flushed since the last call of `send`.
    is_flushed: bool,
}

impl<'a, W: Write> CountedOutput<'a, W> {
    /// The output over that writer. It has refused nothing, and is not flushed.
    pub fn new(out: &'a mut W) -> CountedOutput<'a, W>
        // It writes through the reference that it was given.
        ensures same_reference { result.out.ghost_name ≡ out.entry.ghost_name }
        // It tells the bytes that the writer has taken so far.
        ensures contents { (⟦<CountedOutput<'a, W> as Output>⟧.seen result).contents
            ≡ W.contents out.old }
        // It has refused no call.
        ensures refusals { (⟦<CountedOutput<'a, W> as Output>⟧.seen result).refusals ≡ 0 }
        // It is not flushed.
        ensures unflushed { (⟦<CountedOutput<'a, W> as Output>⟧.seen result).is_flushed ≡ false }
    {
        CountedOutput {
            out,
            refusals: Refusals::none(),
            is_flushed: false,
        }
    }
}

/// Writes all the bytes; no byte that was taken is written again.
fn write_each<W: Write>(out: &mut W, bytes: &[u8]) -> Result<(), OutputFault>
    ensures sent { OnOk result (Appends (W.contents out.old) (W.contents out.new) bytes.now) }
    ensures part { OnErr result ((n : ℕ) × Appends (W.contents out.old) (W.contents out.new)
        (take n bytes.now)) }
{
    let mut rest = bytes;
    while !rest.is_empty() {
        match out.write(rest) {
            Ok(0) => return Err(OutputFault),
            Ok(n) => rest = &rest[n..],
            Err(_) => return Err(OutputFault),
        }
    }
    Ok(())
}

impl<'a, W: Write> Output for CountedOutput<'a, W> {
    ghost use Rattle.outputs.specs.Output.{OutputView};

    ghost seen = { λ s. record {
      contents = W.contents s.out.now;
      refusals = s.refusals;
      is_flushed = s.is_flushed;
    } };

    fn send(&mut self, bytes: &[u8]) -> Result<(), OutputFault> {
        self.is_flushed = false;
        let written = write_each(self.out, bytes);
        self.refusals.count(written)
    }

    fn flush(&mut self) -> Result<(), OutputFault> {
        match self.out.flush() {
            Ok(()) => {
                self.is_flushed = true;
                Ok(())
            }
            Err(_) => self.refusals.count(Err(OutputFault)),
        }
    }
}
