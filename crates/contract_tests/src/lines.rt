//! Lines of a script.
ghost use Rattle.querylang.specs.Answer.{Gives};
ghost use Rattle.querylang.specs.Line.{line_command};

use querylang::{Command, LineFault};
use std::alloc::Global;

/// Reads a line: the command that it is, or why it is refused.
///
/// Wrong bodies: `write` is read as `count`.
pub fn parse_line(alloc: Global, line: &[u8]) -> Result<Option<Command>, LineFault>
    ensures gives { Gives result (line_command line.now) }
{
    querylang::parse_line(alloc, line)
}
