//! The texts of the parts of a file.
ghost use Rattle.std.specs.Prelude.{◌≡◌, ◌<◌, ◌≤◌, ◌+◌, ◌==◌, ◌^◌, slice_index, false, All, map, IfOk, OnOk};
ghost use Rattle.std.specs.List.{range_with_len};
ghost use Rattle.csv.specs.Records.{fields_of};
ghost use Rattle.mfcsv.specs.Unread.{cells};
ghost use Rattle.parts.specs.Part.{owner_of, whole_part};
ghost use Rattle.parts.specs.Texts.{begun, with_fields};

use crate::names::part_of;
use crate::reading::{first_field, next_row, read_rows};
use crate::texts::PartText;
use csv::ByteRecord;
use std::alloc::{AllocError, Global};

fn is_header(tag: &[u8]) -> bool
    ensures { result ≡ (slice_index tag.now 0 == 64) }
{
    !tag.is_empty() && tag[0] == b'@'
}

/// The part that has a record alone; none for a header line, which each part has.
#[tactic(auto, unfolding(crate::specs::Part::owner_of))]
fn owner_of(n: u64, row: &ByteRecord) -> Option<u64>
    requires { 0 < n }
    ensures { result ≡ owner_of n (cells row.now) }
{
    let first = first_field(row);
    if is_header(first) {
        return None;
    }
    Some(part_of(n, first))
}

/// The texts of the parts from `first` on, so many, without a record.
fn begin(alloc: Global, first: u64, count: u64) -> Result<Vec<PartText>, AllocError>
    requires { first + count < 2 ^ 64 }
    ensures { IfOk result (λ texts. texts.items ≡ map begun (range_with_len first count)) }
{
    let mut texts = Vec::new(alloc);
    for place in 0..count {
        texts.push(PartText::new(alloc, first + place)?)?;
    }
    Ok(texts)
}

/// Writes what stands in the place of a record in each part.
fn take_all(texts: &mut [PartText], n: u64, row: &ByteRecord) -> Result<(), AllocError>
    requires some { 0 < n }
    requires clean { All (λ a. a.refused ≡ false) texts.old }
    ensures { OnOk result (texts.new ≡ map (with_fields n (fields_of row.now)) texts.old) }
{
    let owner = owner_of(n, row);
    for text in texts.iter_mut() {
        text.take(owner, n, row)?;
    }
    Ok(())
}

/// What was written of each part.
fn finish(alloc: Global, parts: Vec<PartText>) -> Result<Vec<Vec<u8>>, AllocError>
    ensures { IfOk result
        (λ texts. map (λ text. text.items) texts.items ≡ map (λ a. a.text) parts.items) }
{
    let mut texts = Vec::with_capacity(alloc, parts.len())?;
    for part in parts {
        texts.push(part.into_text()?)?;
    }
    Ok(texts)
}

/// The texts of the parts of `n` from `first` on, so many.
pub(crate) fn whole_parts(
    alloc: Global,
    first: u64,
    count: u64,
    n: u64,
    bytes: &[u8],
) -> Result<Vec<Vec<u8>>, AllocError>
    requires some { 0 < n }
    requires within { first + count ≤ n }
    ensures { IfOk result (λ texts. map (λ text. text.items) texts.items
        ≡ map (λ k. whole_part k n bytes.now) (range_with_len first count)) }
{
    let mut reader = read_rows(alloc, bytes);
    let mut row = ByteRecord::new(alloc);
    let mut texts = begin(alloc, first, count)?;
    'rows: loop {
        match next_row(&mut reader, &mut row) {
            Ok(true) => {}
            Ok(false) => return finish(alloc, texts),
            Err(error) => return Err(error),
        }
        take_all(&mut texts, n, &row)?;
    }
}
