//! Parts of Moving Features files: a book that is split by feature into several.
//!
//! [`part`] gives part k of n of a file: a file with the same header lines that says exactly the
//! records of the features of that part, each under its number in the whole, or exactly the fault of
//! the whole. [`parts`] gives several parts by one pass, and leaves it to their readers to find faults.
//! What a part is stands in `specs/Part.antt`.
#![tactic(auto)]

ghost use Rattle.std.specs.Prelude.{◌≡◌, ◌<◌, ◌≤◌, ◌+◌, map, is_ok, Ok, IfOk};
ghost use Rattle.std.specs.List.{range_with_len};
ghost use Rattle.mfcsv.specs.FileText.{file_of_bytes};
ghost use Rattle.parts.specs.Faults.{FaultLaw};
ghost use Rattle.parts.specs.Part.{file_part, part_text, said_part, whole_part};

mod cutting;
mod names;
mod reading;
mod records;
mod texts;

use crate::cutting::whole_parts;
use mfcsv::{FileFault, read_file};
pub use names::part_of;
use std::alloc::{AllocError, Global};

/// The same bytes, once more.
fn copy_of(alloc: Global, bytes: &[u8]) -> Result<Vec<u8>, AllocError>
    ensures { IfOk result (λ copy. copy.items ≡ bytes.now) }
{
    let mut copy = Vec::with_capacity(alloc, bytes.len())?;
    copy.extend_from_slice(bytes)?;
    Ok(copy)
}

/// Whether the bytes of a file have no fault.
fn is_whole(alloc: Global, bytes: &[u8]) -> Result<bool, AllocError>
    ensures { IfOk result (λ whole. whole ≡ is_ok (file_of_bytes bytes.now)) }
{
    match read_file(alloc, bytes) {
        Ok(_) => Ok(true),
        Err(FileFault::Refused { .. }) => Ok(false),
        Err(FileFault::Memory) => Err(AllocError),
    }
}

/// The text of part `k` of `n`.
fn whole_part(alloc: Global, k: u64, n: u64, bytes: &[u8]) -> Result<Vec<u8>, AllocError>
    requires { k < n }
    ensures { IfOk result (λ text. text.items ≡ whole_part k n bytes.now) }
{
    let mut texts = whole_parts(alloc, k, 1, n, bytes)?;
    match texts.pop() {
        Some(text) => Ok(text),
        None => unreachable!(),
    }
}

/// Part `k` of `n` of a file: its features are those of which [`part_of`] is `k`.
///
/// A record of another feature leaves a blank record in its place, so every record keeps its number.
/// A file with a fault is given back as it is, so that each part is refused as the whole is.
pub fn part(alloc: Global, k: u64, n: u64, bytes: &[u8]) -> Result<Vec<u8>, AllocError>
    // There is a part of that number.
    requires { k < n }
    // Byte for byte, the text of its records, or the file itself where that has a fault.
    ensures text { IfOk result (λ text. text.items ≡ part_text k n bytes.now) }
    // So it says the head of the whole and its own records under their numbers, or the same fault.
    ensures says { IfOk result
        (λ text. file_of_bytes text.items ≡ said_part k n (file_of_bytes bytes.now)) }
{
    if is_whole(alloc, bytes)? {
        whole_part(alloc, k, n, bytes)
    } else {
        copy_of(alloc, bytes)
    }
}

/// The parts of `n` from `first` on, so many, in that order, by one pass over a file.
///
/// The file is not looked through for faults: a record that has one stays in the part that its name falls
/// to, and so do header lines in each part. See [`fault_laws`].
pub fn parts(
    alloc: Global,
    first: u64,
    count: u64,
    n: u64,
    bytes: &[u8],
) -> Result<Vec<Vec<u8>>, AllocError>
    // There is at least one part.
    requires some { 0 < n }
    // The parts that are asked for are among them.
    requires within { first + count ≤ n }
    // Each record stays in its place, or leaves a blank one there.
    ensures texts { IfOk result (λ texts. map (λ text. text.items) texts.items
        ≡ map (λ k. whole_part k n bytes.now) (range_with_len first count)) }
    // Of a file without a fault each part says the same head, and its own records under their numbers.
    ensures says { IfOk (file_of_bytes bytes.now) (λ file. IfOk result (λ texts.
        map (λ text. file_of_bytes text.items) texts.items
        ≡ map (λ k. Ok (file_part k n file)) (range_with_len first count))) }
{
    whole_parts(alloc, first, count, n, bytes)
}

/// What the parts of a file with a fault say, for the proofs of a caller. It does nothing.
pub fn fault_laws()
    ensures { FaultLaw }
{}
