//! The texts of answers.
ghost use Rattle.std.specs.Prelude.{◌≡◌, ◌++◌, IfOk, OnOk, decimal, Err};
ghost use Rattle.trajdb.specs.Answers.{ok_text, refusal_text, count_text, counts_text, load_text};

use crate::{Counts, FileCode};
use itoa::Buffer;
use std::alloc::{AllocError, Global};

pub(crate) fn push_number(text: &mut Vec<u8>, number: u64) -> Result<(), AllocError>
    ensures { OnOk result (text.new.items ≡ text.old.items ++ decimal number) }
{
    let mut buffer = Buffer::new();
    text.extend_from_slice(buffer.format(number).as_bytes())
}

/// `ok N` and a line end.
pub(crate) fn ok_text(alloc: Global, records: u64) -> Result<Vec<u8>, AllocError>
    ensures { IfOk result (λ text. text.items ≡ ok_text records) }
{
    let mut text = Vec::from_slice(alloc, b"ok ")?;
    push_number(&mut text, records)?;
    text.push(b'\n')?;
    Ok(text)
}

/// A line of a code alone.
pub(crate) fn refusal_text(alloc: Global, code: &str) -> Result<Vec<u8>, AllocError>
    ensures { IfOk result (λ text. text.items ≡ refusal_text code.now) }
{
    let mut text = Vec::from_slice(alloc, b"refused ")?;
    text.extend_from_slice(code.as_bytes())?;
    text.push(b'\n')?;
    Ok(text)
}

/// A line of a code and the number of a record.
pub(crate) fn file_refusal_text(
    alloc: Global,
    code: FileCode,
    number: u64,
) -> Result<Vec<u8>, AllocError>
    ensures { IfOk result (λ text. text.items ≡ load_text (Err (code, number))) }
{
    let mut text = Vec::from_slice(alloc, b"refused ")?;
    text.extend_from_slice(code.as_str().as_bytes())?;
    text.extend_from_slice(b" at ")?;
    push_number(&mut text, number)?;
    text.push(b'\n')?;
    Ok(text)
}

/// The answer of one record of two numbers.
pub(crate) fn count_text(alloc: Global, legs: u64, features: u64) -> Result<Vec<u8>, AllocError>
    ensures { IfOk result (λ text. text.items ≡ count_text legs features) }
{
    let mut text = ok_text(alloc, 1)?;
    push_number(&mut text, legs)?;
    text.push(b',')?;
    push_number(&mut text, features)?;
    text.push(b'\n')?;
    Ok(text)
}

/// The answer to a load that was accepted.
pub(crate) fn counts_text(alloc: Global, counts: Counts) -> Result<Vec<u8>, AllocError>
    ensures { IfOk result (λ text. text.items ≡ counts_text counts) }
{
    let mut text = ok_text(alloc, 1)?;
    push_number(&mut text, counts.records)?;
    text.push(b',')?;
    push_number(&mut text, counts.legs)?;
    text.push(b',')?;
    push_number(&mut text, counts.features)?;
    text.push(b'\n')?;
    Ok(text)
}
