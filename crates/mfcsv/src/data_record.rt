//! The data records.
ghost use Rattle.std.specs.Prelude.{◌≡◌, ◌≤◌, ◌+◌, ◌<ℤ◌, ◌-ℤ◌, int_lt, pos, ℕ, Some, true, length, drop, IfOk};
ghost use Rattle.std.specs.List.{list_all};
ghost use Rattle.mfcsv.specs.Rows.{field, is_empty, words};
ghost use Rattle.mfcsv.specs.Unread.{cells};
ghost use Rattle.mfcsv.specs.Views.{leg_count};
ghost use Rattle.mfcsv.specs.DataRecord.{has_wrong_fields, has_wrong_name, moment_read, coordinates, positions_of, attributes_of, record_of};
ghost use Rattle.mfcsv.specs.Placing.{placed, waits};
ghost use Rattle.mfcsv.specs.Answer.{Judges, moment_fault, span_fault, trajectory_fault, data_fault};

use crate::header::{Clock, Given};
use crate::rows::{RowFault, copy_of, field_at};
use crate::{Code, Column, Dimension, Position, Positions, Record, Text, Values};
use csv::StringRecord;
use fixedpoint::{Coord, read_coord};
use std::alloc::{AllocError, Global};
use timebase::{Ms, TimeFault, read_time};
use words::{Separator, next_word};

/// Whether all fields from a place on are blank.
fn are_blank_from(row: &StringRecord, first: usize) -> bool
    ensures { result ≡ list_all is_empty (drop first (cells row.now)) }
{
    for place in first..row.len() {
        if !field_at(row, place).is_empty() {
            return false;
        }
    }
    true
}

#[tactic(auto, unfolding(crate::specs::DataRecord::has_wrong_fields))]
fn has_wrong_fields(row: &StringRecord, columns: &[Column]) -> bool
    ensures { result ≡ has_wrong_fields (length columns.now) (cells row.now) }
{
    row.len() < 4 || !are_blank_from(row, columns.len() + 4)
}

#[tactic(auto, unfolding(crate::specs::DataRecord::has_wrong_name))]
fn has_wrong_name(row: &StringRecord) -> bool
    ensures { result ≡ has_wrong_name (cells row.now) }
{
    let name = field_at(row, 0);
    name.is_empty() || name.len() > 255
}

/// The moment of a time field.
#[tactic(auto, unfolding(crate::specs::DataRecord::moment_read))]
fn read_moment(clock: &Clock, text: &str) -> Result<Ms, RowFault>
    ensures { Judges result (moment_fault (moment_read (Some clock.now) text.now))
        (λ m. moment_read (Some clock.now) text.now ≡ Some m) }
{
    match read_time(clock.unit, clock.start, text) {
        Ok(moment) => Ok(moment),
        Err(TimeFault::Memory) => Err(RowFault::Memory),
        Err(TimeFault::Unreadable | TimeFault::OutOfRange) => Err(RowFault::Refused(Code::F13)),
    }
}

/// The start and the end of a record.
fn read_span(clock: &Clock, row: &StringRecord) -> Result<(Ms, Ms), RowFault>
    ensures span { Judges result (span_fault (Some clock.now) (cells row.now))
        (λ s. (moment_read (Some clock.now) (field (cells row.now) 1) ≡ Some s.0)
        × (moment_read (Some clock.now) (field (cells row.now) 2) ≡ Some s.1)) }
    ensures in_order { IfOk result (λ s. s.0 <ℤ s.1) }
{
    let t0 = read_moment(clock, field_at(row, 1))?;
    let t1 = read_moment(clock, field_at(row, 2))?;
    if t1.millis() <= t0.millis() {
        return Err(RowFault::Refused(Code::F14));
    }
    Ok((t0, t1))
}

/// The coordinates of a position that were read so far, where it is not whole.
#[derive(Clone, Copy)]
pub(crate) enum Waiting {
    Nothing,
    X(Coord),
    XAndY(Coord, Coord),
}

/// What a coordinate makes of those before it.
#[derive(Clone, Copy)]
pub(crate) enum Placed {
    /// A position that is not whole.
    Part(Waiting),
    Whole(Position),
}

/// Whether coordinates wait for others.
fn waits(waiting: Waiting) -> bool
    ensures { result ≡ waits waiting }
{
    match waiting {
        Waiting::Nothing => false,
        Waiting::X(_) | Waiting::XAndY(_, _) => true,
    }
}

/// The z of a position in two dimensions.
fn zero() -> Coord
    ensures { result ≡ pos 0 }
{
    Coord::new(0).unwrap()
}

/// One coordinate more of a position.
fn place(dimension: Dimension, waiting: Waiting, coordinate: Coord) -> Placed
    ensures { result ≡ placed dimension waiting coordinate }
{
    match waiting {
        Waiting::Nothing => Placed::Part(Waiting::X(coordinate)),
        Waiting::X(x) => match dimension {
            Dimension::Two => Placed::Whole(Position {
                x,
                y: coordinate,
                z: zero(),
            }),
            Dimension::Three => Placed::Part(Waiting::XAndY(x, coordinate)),
        },
        Waiting::XAndY(x, y) => Placed::Whole(Position {
            x,
            y,
            z: coordinate,
        }),
    }
}

/// The positions of a trajectory: the coordinates of one after the other, x first.
fn read_positions(alloc: Global, dimension: Dimension, text: &str) -> Result<Positions, RowFault>
    ensures positions { Judges result (trajectory_fault (Some dimension) (words text.now))
        (λ p. positions_of (Some dimension) (words text.now) ≡ Some p) }
    ensures placed { IfOk result (λ p. 1 ≤ length p) }
{
    // Most records have two.
    let mut positions = Vec::with_capacity(alloc, 2)?;
    let mut rest = text;
    let mut waiting = Waiting::Nothing;
    while let Some((word, after)) = next_word(rest, Separator::BlankOrLineEnd) {
        let Ok(coordinate) = read_coord(word) else {
            return Err(RowFault::Refused(Code::F15));
        };
        match place(dimension, waiting, coordinate) {
            Placed::Part(part) => waiting = part,
            Placed::Whole(position) => {
                positions.push(position)?;
                waiting = Waiting::Nothing;
            }
        }
        rest = after;
    }
    if waits(waiting) || positions.is_empty() {
        return Err(RowFault::Refused(Code::F16));
    }
    Ok(Positions::from(positions))
}

/// Whether there are fewer milliseconds than legs.
fn lacks_time(t0: Ms, t1: Ms, positions: usize) -> bool
    requires in_order { t0 <ℤ t1 }
    requires placed { 1 ≤ positions }
    ensures { result ≡ int_lt (t1 -ℤ t0) (pos (leg_count positions)) }
{
    let legs = if positions == 1 { 1 } else { positions - 1 };
    let millis = t1.millis() - t0.millis();
    (millis as u64) < legs as u64
}

/// The values of the first attribute columns, that many.
fn copy_values(alloc: Global, row: &StringRecord, count: usize) -> Result<Vec<Text>, AllocError>
    requires { count ≤ length (cells row.now) }
    ensures { IfOk result (λ v. v.items ≡ attributes_of count (cells row.now)) }
{
    let mut values = Vec::with_capacity(alloc, count)?;
    for i in 0..count {
        let value = copy_of(alloc, row, 4 + i)?;
        values.push(value)?;
    }
    Ok(values)
}

/// The values of the attribute columns; one that is missing is blank, and takes no room.
fn read_attributes(
    alloc: Global,
    row: &StringRecord,
    columns: &[Column],
) -> Result<Values, AllocError>
    ensures { IfOk result (λ v. v ≡ attributes_of (length columns.now) (cells row.now)) }
{
    let count = columns.len().min(row.len().saturating_sub(4));
    let values = copy_values(alloc, row, count)?;
    Ok(Values::with_blanks(values, columns.len() - count))
}

/// The data record of a row behind both header lines.
#[tactic(auto, unfolding(crate::specs::Answer::data_fault, crate::specs::DataRecord::record_of))]
pub(crate) fn read_record(
    alloc: Global,
    number: u64,
    row: &StringRecord,
    given: &Given,
) -> Result<Record, RowFault>
    ensures { Judges result (data_fault (Some given.now.dimension) (Some given.now.clock)
        (length given.now.columns.now) (cells row.now))
        (λ r. record_of number (Some given.now.dimension) (Some given.now.clock)
        (length given.now.columns.now) (cells row.now) ≡ Some r) }
{
    if has_wrong_fields(row, given.columns) {
        return Err(RowFault::Refused(Code::F11));
    }
    if has_wrong_name(row) {
        return Err(RowFault::Refused(Code::F12));
    }
    let (t0, t1) = read_span(&given.clock, row)?;
    let positions = read_positions(alloc, given.dimension, field_at(row, 3))?;
    if lacks_time(t0, t1, positions.as_slice().len()) {
        return Err(RowFault::Refused(Code::F17));
    }
    let mfidref = copy_of(alloc, row, 0)?;
    let attributes = read_attributes(alloc, row, given.columns)?;
    Ok(Record {
        number,
        mfidref,
        t0,
        t1,
        positions,
        attributes,
    })
}
