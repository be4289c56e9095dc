//! A leg's record.
ghost use Rattle.std.specs.Prelude.{false, replicate, ◌≡◌, ◌++◌, ◌∷◌, [], ◌-ℤ◌, IfOk, OnOk, map};
ghost use Rattle.fixedpoint.specs.NumberText.{coord_text, offset_text};
ghost use Rattle.writer.specs.Records.{begin_of, last_position, leg_record, point_text, positions_text};
ghost use Rattle.writer.specs.Written.{written};

use crate::entry::Frame;
use crate::records::Records;
use fixedpoint::{Coord, Offset, push_coord, push_offset};
use legs::Leg;
use mfcsv::{Dimension, Position};
use rows::Row;
use std::alloc::{AllocError, Global};
use timebase::Ms;

/// The offset of a moment from a base.
fn offset_from(base: Ms, at: Ms) -> Offset
    ensures { result ≡ at -ℤ base }
{
    match Offset::new(at.millis() - base.millis()) {
        Some(offset) => offset,
        None => unreachable!(),
    }
}

/// Writes the offset of a moment from a base, in seconds, in place of what a buffer holds.
fn write_offset(text: &mut Vec<u8>, base: Ms, at: Ms) -> Result<(), AllocError>
    ensures { OnOk result (text.new.items ≡ offset_text (at -ℤ base)) }
{
    text.clear();
    push_offset(text, offset_from(base, at))
}

/// A blank and a coordinate.
fn push_next(text: &mut Vec<u8>, coord: Coord) -> Result<(), AllocError>
    ensures { OnOk result (text.new.items ≡ text.old.items ++ 32 ∷ [] ++ coord_text coord) }
{
    text.push(b' ')?;
    push_coord(text, coord)
}

/// `x y`, or `x y z` in three dimensions.
pub(crate) fn push_point(
    text: &mut Vec<u8>,
    dimension: Dimension,
    point: Position,
) -> Result<(), AllocError>
    ensures { OnOk result (text.new.items ≡ text.old.items ++ point_text dimension point) }
{
    push_coord(text, point.x)?;
    push_next(text, point.y)?;
    match dimension {
        Dimension::Two => Ok(()),
        Dimension::Three => push_next(text, point.z),
    }
}

/// Where a leg begins.
pub(crate) fn begin_of(leg: &Leg) -> Position
    ensures { result ≡ begin_of leg.now }
{
    Position {
        x: leg.x0,
        y: leg.y0,
        z: leg.z0,
    }
}

/// Where a leg ends.
fn end_of(leg: &Leg) -> Position
    ensures { result ≡ last_position leg.now }
{
    Position {
        x: leg.x1,
        y: leg.y1,
        z: leg.z1,
    }
}

/// Writes both positions of a leg in place of what a buffer holds.
fn write_positions(text: &mut Vec<u8>, dimension: Dimension, leg: &Leg) -> Result<(), AllocError>
    ensures { OnOk result (text.new.items ≡ positions_text dimension leg.now) }
{
    text.clear();
    push_point(text, dimension, begin_of(leg))?;
    text.push(b' ')?;
    push_point(text, dimension, end_of(leg))
}

/// Puts the attribute values of a record behind the other fields.
fn push_values<'a>(fields: &mut Vec<&'a [u8]>, values: &'a Row<'a>) -> Result<(), AllocError>
    ensures { OnOk result (map (λ f. f.now) fields.new.items ≡ map (λ f. f.now) fields.old.items
        ++ values.entry.now) }
{
    'values: for i in 0..values.len() {
        fields.push(values.value(i).as_bytes())?;
    }
    Ok(())
}

/// Buffers for the fields of a record, which last over an answer.
#[derive(Drop)]
pub(crate) struct Buffers {
    start: Vec<u8>,
    end: Vec<u8>,
    positions: Vec<u8>,
}

impl Buffers {
    pub(crate) fn new(alloc: Global) -> Buffers {
        Buffers {
            start: Vec::new(alloc),
            end: Vec::new(alloc),
            positions: Vec::new(alloc),
        }
    }

    /// Writes the times and the positions of a leg.
    fn write(&mut self, frame: &Frame, leg: &Leg) -> Result<(), AllocError>
        ensures start { OnOk result (self.new.start.items
            ≡ offset_text (leg.now.t0 -ℤ frame.now.base)) }
        ensures end { OnOk result (self.new.end.items
            ≡ offset_text (leg.now.t1 -ℤ frame.now.base)) }
        ensures positions { OnOk result (self.new.positions.items
            ≡ positions_text frame.now.dimension leg.now) }
    {
        write_offset(&mut self.start, frame.base, leg.t0)?;
        write_offset(&mut self.end, frame.base, leg.t1)?;
        write_positions(&mut self.positions, frame.dimension, leg)
    }
}

/// The fields of a leg's record.
fn leg_row<'a>(
    alloc: Global,
    name: &'a [u8],
    start: &'a [u8],
    end: &'a [u8],
    positions: &'a [u8],
    values: &'a Row<'a>,
) -> Result<Vec<&'a [u8]>, AllocError>
    ensures { IfOk result (λ row. map (λ f. f.now) row.items
        ≡ name.entry.now ∷ start.entry.now ∷ end.entry.now ∷ positions.entry.now
        ∷ values.entry.now) }
{
    let mut row = Vec::with_capacity(alloc, 8)?;
    row.push(name)?;
    row.push(start)?;
    row.push(end)?;
    row.push(positions)?;
    push_values(&mut row, values)?;
    Ok(row)
}

/// Writes a leg's record behind those that were written.
pub(crate) fn write_leg<'a>(
    alloc: Global,
    records: &mut Records,
    buffers: &mut Buffers,
    name: &'a str,
    frame: &Frame,
    leg: &Leg,
    values: &'a Row<'a>,
) -> Result<(), AllocError>
    requires { records.old.refused ≡ false }
    ensures { OnOk result (records.new ≡ written (records.old.text
        ++ leg_record name.entry.now frame.now leg.now values.entry.now)) }
{
    buffers.write(frame, leg)?;
    let fields = leg_row(
        alloc,
        name.as_bytes(),
        buffers.start.as_slice(),
        buffers.end.as_slice(),
        buffers.positions.as_slice(),
        values,
    )?;
    records.push(fields.as_slice())
}
