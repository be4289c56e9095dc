//! The lines of a file, and what its two header lines say.
ghost use Rattle.std.specs.Prelude.{◌≡◌, ◌==◌, ◌≤◌, ◌<◌, ◌+◌, ◌*◌, ◌^◌, ◌&&◌, not, ℕ, Some, true, false, length, take, drop, map, slice_index, is_some, IfOk, MatchOption};
ghost use Rattle.std.specs.List.{list_all};
ghost use Rattle.std.specs.Str.{is_utf8};
ghost use Rattle.mfcsv.specs.Rows.{field, is_empty};
ghost use Rattle.mfcsv.specs.Unread.{cells};
ghost use Rattle.mfcsv.specs.Header.{kind_of, is_blank_row, is_header_row, dimension_of, unit_of, is_blank_column, pairs, columns_of, lacks_fixed_columns, bounds_of, columns_line_of, heads_after, has_heads};
ghost use Rattle.mfcsv.specs.FileText.{first_fault, no_heads, dimension_before, clock_before, columns_before};
ghost use Rattle.mfcsv.specs.Answer.{Judges, bounds_fault};

use crate::rows::{RowFault, copy_of, field_at, is_word};
use crate::{Code, Column, Columns, Dimension, Text};
use csv::StringRecord;
use std::alloc::{AllocError, Global};
use std::marker::Model;
use timebase::{Ms, TimeFault, Unit, read_instant};

/// What kind of line a record is.
#[derive(Clone, Copy)]
pub(crate) enum RowKind {
    /// A record of one blank field.
    Skipped,
    /// `@stboundedby`.
    Bounds,
    /// `@columns`.
    Columns,
    /// Any other line that begins with `@`.
    Other,
    Data,
}

fn is_blank_row(row: &StringRecord) -> bool
    ensures { result ≡ is_blank_row (cells row.now) }
{
    row.len() == 1 && field_at(row, 0).is_empty()
}

fn is_header(tag: &str) -> bool
    ensures { result ≡ (slice_index tag.now 0 == 64) }
{
    let bytes = tag.as_bytes();
    !bytes.is_empty() && bytes[0] == b'@'
}

/// What kind of line a record is.
#[tactic(auto, unfolding(crate::specs::Header::kind_of))]
pub(crate) fn kind_of(row: &StringRecord) -> RowKind
    ensures { result ≡ kind_of (cells row.now) }
{
    if is_blank_row(row) {
        return RowKind::Skipped;
    }
    let tag = field_at(row, 0);
    if !is_header(tag) {
        RowKind::Data
    } else if is_word(tag, "@stboundedby") {
        RowKind::Bounds
    } else if is_word(tag, "@columns") {
        RowKind::Columns
    } else {
        RowKind::Other
    }
}

/// The dimension that a text names; `None` where it names none that files may have.
#[tactic(auto, unfolding(crate::specs::Header::dimension_of))]
fn dimension_of(text: &str) -> Option<Dimension>
    ensures { result ≡ dimension_of text.now }
{
    if is_word(text, "2d") {
        Some(Dimension::Two)
    } else if is_word(text, "3d") {
        Some(Dimension::Three)
    } else {
        None
    }
}

/// The time unit that a text without blanks at its ends names, an empty one `sec`; `None` where it names
/// none that files may have.
#[tactic(auto, unfolding(crate::specs::Header::unit_of))]
pub fn unit_of(text: &str) -> Option<Unit>
    ensures { result ≡ unit_of text.now }
{
    if text.is_empty() || is_word(text, "sec") {
        Some(Unit::Sec)
    } else if is_word(text, "minute") {
        Some(Unit::Minute)
    } else if is_word(text, "absolute") {
        Some(Unit::Absolute)
    } else {
        None
    }
}

/// What a line `@stboundedby` says.
#[derive(Drop)]
pub(crate) struct Bounds {
    pub(crate) number: u64,
    pub(crate) crs: Text,
    pub(crate) dimension: Dimension,
    pub(crate) start: Ms,
    pub(crate) unit: Unit,
}

impl Model for Bounds {
    ghost use Rattle.std.specs.Prelude.{Some};
    ghost use Rattle.mfcsv.specs.Views.{BoundsView};

    ghost Value = { BoundsView };

    ghost view = { λ a.
        record {
          number = a.number;
          crs = a.crs;
          dimension = Some a.dimension;
          start = Some a.start;
          unit = Some a.unit;
        } };
}

#[tactic(auto, unfolding(crate::specs::Header::lacks_bounds_fields, crate::specs::Header::has_other_dimension, crate::specs::Header::start_of, crate::specs::Header::has_other_unit))]
fn read_bounds(alloc: Global, number: u64, row: &StringRecord) -> Result<Bounds, RowFault>
    ensures { Judges result (bounds_fault (cells row.now)) (λ b. b
        ≡ bounds_of number (cells row.now)) }
{
    if row.len() < 7 {
        return Err(RowFault::Refused(Code::F3));
    }
    let Some(dimension) = dimension_of(field_at(row, 2)) else {
        return Err(RowFault::Refused(Code::F4));
    };
    let start = match read_instant(field_at(row, 5)) {
        Ok(start) => start,
        Err(TimeFault::Memory) => return Err(RowFault::Memory),
        Err(TimeFault::Unreadable | TimeFault::OutOfRange) => {
            return Err(RowFault::Refused(Code::F5));
        }
    };
    let Some(unit) = unit_of(field_at(row, 7)) else {
        return Err(RowFault::Refused(Code::F6));
    };
    let crs = copy_of(alloc, row, 1)?;
    Ok(Bounds {
        number,
        crs,
        dimension,
        start,
        unit,
    })
}

#[tactic(auto, unfolding(crate::specs::Header::lacks_fixed_columns))]
fn has_fixed_columns(row: &StringRecord) -> bool
    ensures { lacks_fixed_columns (cells row.now) ≡ not result }
{
    is_word(field_at(row, 1), "mfidref") && is_word(field_at(row, 2), "trajectory")
}

/// Whether the name and the type in these two fields are both blank.
fn is_blank_pair(row: &StringRecord, place: usize) -> bool
    requires { place + 1 < 2 ^ 64 }
    ensures { result ≡ (is_empty (field (cells row.now) place) && is_empty (field (cells row.now)
        (place + 1))) }
{
    field_at(row, place).is_empty() && field_at(row, place + 1).is_empty()
}

/// How many attribute columns a line `@columns` has, without the blank pairs at its end.
fn column_count(row: &StringRecord) -> usize
    ensures small { 2 * result + 2 < 2 ^ 64 }
    ensures columns { columns_of (cells row.now) ≡ take result (pairs (drop 3 (cells row.now))) }
    ensures within { result ≤ length (pairs (drop 3 (cells row.now))) }
{
    let mut count = row.len().saturating_sub(2) / 2;
    while count > 0 && is_blank_pair(row, 2 * count + 1) {
        count -= 1;
    }
    count
}

fn read_columns(alloc: Global, row: &StringRecord) -> Result<Columns, AllocError>
    ensures { IfOk result (λ c. c ≡ columns_of (cells row.now)) }
{
    let mut columns = Vec::new(alloc);
    for i in 0..column_count(row) {
        let name = copy_of(alloc, row, 2 * i + 3)?;
        let kind = copy_of(alloc, row, 2 * i + 4)?;
        columns.push(Column { name, kind })?;
    }
    Ok(Columns::from(columns))
}

/// What a line `@columns` says.
#[derive(Drop)]
pub(crate) struct ColumnLine {
    pub(crate) number: u64,
    pub(crate) columns: Columns,
}

impl Model for ColumnLine {
    ghost use Rattle.mfcsv.specs.Views.{ColumnsView};

    ghost Value = { ColumnsView };

    ghost view = { λ a. record { number = a.number; columns = a.columns } };
}

/// By what the times of a file's records count.
#[derive(Clone, Copy)]
pub(crate) struct Clock {
    pub(crate) unit: Unit,
    pub(crate) start: Ms,
}

/// What both header lines give each data record: the dimension, the clock, and the attribute columns.
#[derive(Clone, Copy)]
pub(crate) struct Given<'a> {
    pub(crate) dimension: Dimension,
    pub(crate) clock: Clock,
    pub(crate) columns: &'a [Column],
}

/// The header lines met so far.
#[derive(Drop)]
pub(crate) struct Heads {
    pub(crate) bounds: Option<Bounds>,
    pub(crate) columns: Option<ColumnLine>,
}

impl Model for Heads {
    ghost use Rattle.mfcsv.specs.Views.{HeadsView};

    ghost Value = { HeadsView };

    ghost view = { λ a. record { bounds = a.bounds; columns = a.columns } };
}

impl Heads {
    pub(crate) fn new() -> Heads
        ensures { result ≡ no_heads }
    {
        Heads {
            bounds: None,
            columns: None,
        }
    }

    fn set_bounds(&mut self, bounds: Bounds)
        ensures { self.new ≡ record self.old { bounds = Some bounds } }
    {
        self.bounds = Some(bounds);
    }

    fn set_columns(&mut self, line: ColumnLine)
        ensures { self.new ≡ record self.old { columns = Some line } }
    {
        self.columns = Some(line);
    }

    fn has_bounds(&self) -> bool
        ensures { result ≡ is_some self.now.bounds }
    {
        self.bounds.is_some()
    }

    fn has_columns(&self) -> bool
        ensures { result ≡ is_some self.now.columns }
    {
        self.columns.is_some()
    }

    /// Takes a line `@stboundedby` in.
    pub(crate) fn take_bounds(
        &mut self,
        alloc: Global,
        number: u64,
        row: &StringRecord,
    ) -> Result<(), RowFault>
        requires kind { kind_of (cells row.now) ≡ RowKind.Bounds }
        requires text { list_all is_utf8 (cells row.now) ≡ true }
        ensures { Judges result (first_fault self.old (cells row.now)) (λ _. self.new
            ≡ heads_after number self.old (cells row.now)) }
    {
        if self.has_bounds() {
            return Err(RowFault::Refused(Code::F2));
        }
        let bounds = read_bounds(alloc, number, row)?;
        self.set_bounds(bounds);
        Ok(())
    }

    /// Takes a line `@columns` in.
    pub(crate) fn take_columns(
        &mut self,
        alloc: Global,
        number: u64,
        row: &StringRecord,
    ) -> Result<(), RowFault>
        requires kind { kind_of (cells row.now) ≡ RowKind.Columns }
        requires text { list_all is_utf8 (cells row.now) ≡ true }
        ensures { Judges result (first_fault self.old (cells row.now)) (λ _. self.new
            ≡ heads_after number self.old (cells row.now)) }
    {
        if self.has_columns() {
            return Err(RowFault::Refused(Code::F2));
        }
        if !has_fixed_columns(row) {
            return Err(RowFault::Refused(Code::F7));
        }
        let columns = read_columns(alloc, row)?;
        self.set_columns(ColumnLine { number, columns });
        Ok(())
    }

    /// What both header lines give each data record.
    pub(crate) fn given(&self) -> Option<Given<'_>>
        ensures { MatchOption result (has_heads self.now ≡ false)
            (λ g. (has_heads self.now ≡ true) × (dimension_before self.now ≡ Some g.dimension)
            × (clock_before self.now ≡ Some g.clock)
            × (columns_before self.now ≡ length g.columns.now)) }
    {
        match (&self.bounds, &self.columns) {
            (Some(bounds), Some(line)) => Some(Given {
                dimension: bounds.dimension,
                clock: Clock {
                    unit: bounds.unit,
                    start: bounds.start,
                },
                columns: line.columns.as_slice(),
            }),
            _ => None,
        }
    }
}
