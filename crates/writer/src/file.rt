//! The records of a file.
ghost use Rattle.std.specs.Prelude.{◌≡◌, ◌++◌, ◌∷◌, [], false, OnOk, IfOk, codes, map};
ghost use Rattle.timebase.specs.InstantText.{instant_text};
ghost use Rattle.writer.specs.Records.{point_text, record_text};
ghost use Rattle.writer.specs.File.{bounds_fields, column_fields, columns_fields, dimension_text, entries_text, file_text, frame_of};
ghost use Rattle.writer.specs.Written.{written};

use crate::corners::{corners_of, end_from};
use crate::entry::{Entry, Frame};
use crate::leg::{Buffers, push_point, write_leg};
use crate::records::Records;
use legs::BookHead;
use mfcsv::{Column, Dimension, Position};
use std::alloc::{AllocError, Global};
use timebase::{Ms, push_instant};

/// The text of a dimension.
fn dimension_text(dimension: Dimension) -> &'static str
    ensures { result.now ≡ dimension_text dimension }
{
    match dimension {
        Dimension::Two => "2D",
        Dimension::Three => "3D",
    }
}

/// A corner.
fn point_text(alloc: Global, dimension: Dimension, point: Position) -> Result<Vec<u8>, AllocError>
    ensures { IfOk result (λ text. text.items ≡ point_text dimension point) }
{
    let mut text = Vec::new(alloc);
    push_point(&mut text, dimension, point)?;
    Ok(text)
}

/// How the legs of a file with that head are written.
fn frame_of(head: &BookHead) -> Frame
    ensures { result ≡ frame_of head.now }
{
    Frame {
        dimension: head.dimension,
        base: head.base,
    }
}

fn instant_text(alloc: Global, at: Ms) -> Result<Vec<u8>, AllocError>
    ensures { IfOk result (λ text. text.items ≡ instant_text at) }
{
    let mut text = Vec::new(alloc);
    push_instant(&mut text, at)?;
    Ok(text)
}

/// The fields of the first header line.
fn bounds_row<'a>(
    crs: &'a [u8],
    dimension: &'a [u8],
    lower: &'a [u8],
    upper: &'a [u8],
    base: &'a [u8],
    end: &'a [u8],
) -> [&'a [u8]; 8]
    ensures { map (λ f. f.now) result ≡ codes "@stboundedby" ∷ crs.entry.now ∷ dimension.entry.now
        ∷ lower.entry.now ∷ upper.entry.now ∷ base.entry.now ∷ end.entry.now ∷ codes "sec" ∷ [] }
{
    [
        "@stboundedby".as_bytes(),
        crs,
        dimension,
        lower,
        upper,
        base,
        end,
        "sec".as_bytes(),
    ]
}

/// Writes the first header line.
fn write_bounds(
    alloc: Global,
    records: &mut Records,
    head: &BookHead,
    entries: &[Entry<'_>],
) -> Result<(), AllocError>
    requires { records.old.refused ≡ false }
    ensures { OnOk result (records.new ≡ written (records.old.text
        ++ record_text (bounds_fields head.now entries.now))) }
{
    let corners = corners_of(entries);
    let lower = point_text(alloc, head.dimension, corners.lower())?;
    let upper = point_text(alloc, head.dimension, corners.upper())?;
    let base = instant_text(alloc, head.base)?;
    let end = instant_text(alloc, end_from(head.base, entries))?;
    let fields = bounds_row(
        head.crs.as_str().as_bytes(),
        dimension_text(head.dimension).as_bytes(),
        lower.as_slice(),
        upper.as_slice(),
        base.as_slice(),
        end.as_slice(),
    );
    records.push(&fields)
}

/// Puts the names and types of columns behind the other fields.
fn push_column_fields<'a>(
    fields: &mut Vec<&'a [u8]>,
    columns: &'a [Column],
) -> Result<(), AllocError>
    ensures { OnOk result (map (λ f. f.now) fields.new.items ≡ map (λ f. f.now) fields.old.items
        ++ column_fields columns.entry.now) }
{
    for column in columns {
        fields.push(column.name.as_str().as_bytes())?;
        fields.push(column.kind.as_str().as_bytes())?;
    }
    Ok(())
}

/// Writes the second header line.
fn write_columns(alloc: Global, records: &mut Records, head: &BookHead) -> Result<(), AllocError>
    requires { records.old.refused ≡ false }
    ensures { OnOk result (records.new ≡ written (records.old.text
        ++ record_text (columns_fields head.now))) }
{
    let mut fields = Vec::new(alloc);
    fields.push("@columns".as_bytes())?;
    fields.push("mfidref".as_bytes())?;
    fields.push("trajectory".as_bytes())?;
    push_column_fields(&mut fields, head.columns.as_slice())?;
    records.push(fields.as_slice())
}

/// Writes the records of legs.
fn write_entries(
    alloc: Global,
    records: &mut Records,
    frame: &Frame,
    entries: &[Entry<'_>],
) -> Result<(), AllocError>
    requires { records.old.refused ≡ false }
    ensures { OnOk result (records.new ≡ written (records.old.text
        ++ entries_text frame.now entries.now)) }
{
    let mut buffers = Buffers::new(alloc);
    for entry in entries {
        let Entry { name, leg, values } = entry;
        write_leg(alloc, records, &mut buffers, name, frame, leg, values)?;
    }
    Ok(())
}

/// The records of legs.
pub(crate) fn entries_text(
    alloc: Global,
    frame: &Frame,
    entries: &[Entry<'_>],
) -> Result<Vec<u8>, AllocError>
    ensures { IfOk result (λ text. text.items ≡ entries_text frame.now entries.now) }
{
    let mut records = Records::new(alloc);
    write_entries(alloc, &mut records, frame, entries)?;
    records.into_text()
}

/// The records of a file.
#[tactic(auto, unfolding(crate::specs::File::file_text))]
pub(crate) fn file_text(
    alloc: Global,
    head: &BookHead,
    entries: &[Entry<'_>],
) -> Result<Vec<u8>, AllocError>
    ensures { IfOk result (λ text. text.items ≡ file_text head.now entries.now) }
{
    let mut records = Records::new(alloc);
    write_bounds(alloc, &mut records, head, entries)?;
    write_columns(alloc, &mut records, head)?;
    write_entries(alloc, &mut records, &frame_of(head), entries)?;
    records.into_text()
}
