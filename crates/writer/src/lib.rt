//! The texts of answers: records of CSV, quoted only where they need it.
#![tactic(auto)]

ghost use Rattle.std.specs.Prelude.{◌≡◌, ◌++◌, map, OnOk, OnErr};
ghost use Rattle.writer.specs.File.{entries_text, features_text, file_text};
ghost use Rattle.writer.specs.Records.{leg_record};

mod corners;
mod entry;
mod features;
mod file;
mod leg;
mod records;

pub use entry::{Entry, Frame};
use leg::{Buffers, write_leg};
use legs::{BookHead, Leg};
use records::Records;
use rows::Row;
pub use std::alloc::AllocError as Memory;
use std::alloc::Global;

/// Appends a leg's record: the name of its feature, its start and end as offsets in seconds from a
/// base, `x0 y0 x1 y1` or in three dimensions `x0 y0 z0 x1 y1 z1`, and the attribute values of its record.
pub fn push_leg_record(
    alloc: Global,
    out: &mut Vec<u8>,
    name: &str,
    frame: Frame,
    leg: &Leg,
    values: &Row<'_>,
) -> Result<(), Memory>
    // It appends exactly the record of the leg.
    ensures ok { OnOk result (out.new.items ≡ out.old.items
        ++ leg_record name.now frame leg.now values.now) }
    // If memory runs out, nothing was appended.
    ensures err { OnErr result (out.new.items ≡ out.old.items) }
{
    let mut records = Records::new(alloc);
    let mut buffers = Buffers::new(alloc);
    write_leg(alloc, &mut records, &mut buffers, name, &frame, leg, values)?;
    let text = records.into_text()?;
    out.extend_from_slice(text.as_slice())
}

/// Appends the records of legs, in their order.
pub fn push_leg_records(
    alloc: Global,
    out: &mut Vec<u8>,
    frame: Frame,
    entries: &[Entry<'_>],
) -> Result<(), Memory>
    // It appends exactly the record of each leg, in their order.
    ensures ok { OnOk result (out.new.items ≡ out.old.items ++ entries_text frame entries.now) }
    // If memory runs out, nothing was appended.
    ensures err { OnErr result (out.new.items ≡ out.old.items) }
{
    let text = file::entries_text(alloc, &frame, entries)?;
    out.extend_from_slice(text.as_slice())
}

/// Appends each name as a record of one field, in their order.
pub fn push_features(alloc: Global, out: &mut Vec<u8>, names: &[&str]) -> Result<(), Memory>
    // It appends exactly a record of each name, in their order.
    ensures ok { OnOk result (out.new.items ≡ out.old.items
        ++ features_text (map (λ n. n.now) names.now)) }
    // If memory runs out, nothing was appended.
    ensures err { OnErr result (out.new.items ≡ out.old.items) }
{
    let text = features::features_text(alloc, names)?;
    out.extend_from_slice(text.as_slice())
}

/// Appends a whole file: `@stboundedby` with the corners and the end of all legs, `@columns`, and each
/// leg's record, its times as offsets from the base of the head.
///
/// With no legs the corners are `0 0`, or `0 0 0`, and the end is the base.
pub fn push_file(
    alloc: Global,
    out: &mut Vec<u8>,
    head: &BookHead,
    entries: &[Entry<'_>],
) -> Result<(), Memory>
    // It appends exactly the two header lines and the record of each leg.
    ensures ok { OnOk result (out.new.items ≡ out.old.items ++ file_text head.now entries.now) }
    // If memory runs out, nothing was appended.
    ensures err { OnErr result (out.new.items ≡ out.old.items) }
{
    let text = file::file_text(alloc, head, entries)?;
    out.extend_from_slice(text.as_slice())
}
