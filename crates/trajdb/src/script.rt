//! The lines of a script.
ghost use Rattle.std.specs.Prelude.{◌≡◌, ◌<◌, ◌∷◌, ◌↔◌, length, position, IfErr, IfOk, IsTrue};
ghost use Rattle.std.specs.List.{before_first, after_first};
ghost use Rattle.trajdb.specs.Calls.{HasLoad, IsLoadLine};
ghost use Rattle.trajdb.specs.Script.{is_line_end, lines_of, pieces_of, without_return};
ghost use Rattle.trajdb.specs.declared.RunFault.{RunFault};

use crate::RunFault;
use querylang::{Command, LineFault, parse_line};
use std::alloc::Global;

fn line_end(text: &[u8]) -> Option<usize>
    ensures { result ≡ position is_line_end text.now }
{
    text.iter().position(|c| *c == b'\n')
}

/// What stands before the first line end, and behind it.
fn cut_piece(text: &[u8]) -> (&[u8], &[u8])
    requires { 0 < length text.now }
    ensures piece { result.0.now ≡ before_first is_line_end text.now }
    ensures rest { result.1.now ≡ after_first is_line_end text.now }
    ensures shorter { length result.1.now < length text.now }
{
    match line_end(text) {
        Some(end) => (&text[..end], &text[end + 1..]),
        None => (text, &text[text.len()..]),
    }
}

/// The first piece of a text that is not empty, and the text behind its end.
pub(crate) fn first_piece(text: &[u8]) -> (&[u8], &[u8])
    requires { 0 < length text.now }
    ensures pieces { pieces_of text.now ≡ result.0.now ∷ pieces_of result.1.now }
    ensures shorter { length result.1.now < length text.now }
{
    cut_piece(text)
}

/// A piece without the CR at its end.
#[tactic(auto, unfolding(crate::specs::Script::without_return))]
pub(crate) fn without_return(piece: &[u8]) -> &[u8]
    ensures { result.now ≡ without_return piece.now }
{
    if !piece.is_empty() && piece[piece.len() - 1] == b'\r' {
        &piece[..piece.len() - 1]
    } else {
        piece
    }
}

/// Whether a line is a `load`.
fn is_load(alloc: Global, line: &[u8]) -> Result<bool, RunFault>
    ensures load { IfOk result (λ loads. IsTrue loads ↔ IsLoadLine line.now) }
    ensures memory { IfErr result (λ fault. fault ≡ RunFault.Memory) }
{
    match parse_line(alloc, line) {
        Ok(Some(Command::Load(_))) => Ok(true),
        Ok(_) => Ok(false),
        Err(LineFault::Refused(_)) => Ok(false),
        Err(LineFault::Memory) => Err(RunFault::Memory),
    }
}

/// Whether some line of a script is a `load`, whether its file is there or not. A script without
/// one only asks.
pub fn has_load(alloc: Global, script: &[u8]) -> Result<bool, RunFault>
    // It is true exactly if some line is a `load`.
    ensures load { IfOk result (λ loads. IsTrue loads ↔ HasLoad (lines_of script.now)) }
    // It fails only if memory runs out.
    ensures memory { IfErr result (λ fault. fault ≡ RunFault.Memory) }
{
    let mut rest = script;
    while !rest.is_empty() {
        let (piece, others) = first_piece(rest);
        if is_load(alloc, without_return(piece))? {
            return Ok(true);
        }
        rest = others;
    }
    Ok(false)
}
