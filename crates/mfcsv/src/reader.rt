//! Reading a file record by record.
ghost use Rattle.std.specs.Prelude.{◌≡◌, ◌<◌, ◌∷◌, [], true, IfErr, IfOk, IfSome, length, option_to_list};
ghost use Rattle.std.specs.List.{list_all};
ghost use Rattle.std.specs.Str.{is_utf8};
ghost use Rattle.mfcsv.specs.Unread.{bytes_left, cells, rows_left};
ghost use Rattle.mfcsv.specs.Header.{kind_of, heads_after};
ghost use Rattle.mfcsv.specs.FileText.{file_with, first_fault, line_of, records_of};
ghost use Rattle.mfcsv.specs.Answer.{Judges, fault_at};
ghost use Rattle.mfcsv.specs.Left.{GivesHead, HasNoRecord, IsUnread, ReadsNext, text_left};
ghost use Rattle.mfcsv.specs.declared.Code.{Code};
ghost use Rattle.mfcsv.specs.declared.FileFault.{FileFault};

use crate::data_record::read_record;
use crate::header::{Heads, RowKind, kind_of};
use crate::rows::{RowFault, next_row, read_rows};
use crate::{Code, FileFault, Head, Record};
use csv::{Reader, StringRecord};
use std::alloc::Global;
use std::marker::Model;

/// The data record of a row, behind these header lines.
fn data_of(
    heads: &Heads,
    alloc: Global,
    number: u64,
    row: &StringRecord,
) -> Result<Record, RowFault>
    requires kind { kind_of (cells row.now) ≡ RowKind.Data }
    requires text { list_all is_utf8 (cells row.now) ≡ true }
    ensures { Judges result (first_fault heads.now (cells row.now)) (λ r.
        records_of (line_of number heads.now (cells row.now)) ≡ r ∷ []) }
{
    match heads.given() {
        Some(given) => read_record(alloc, number, row, &given),
        None => Err(RowFault::Refused(Code::F8)),
    }
}

/// Takes a row in: the data record that it is, or none where it is a header line or is skipped.
fn take(
    heads: &mut Heads,
    alloc: Global,
    number: u64,
    row: &StringRecord,
) -> Result<Option<Record>, RowFault>
    requires { list_all is_utf8 (cells row.now) ≡ true }
    ensures { Judges result (first_fault heads.old (cells row.now)) (λ found.
        (heads.new ≡ heads_after number heads.old (cells row.now))
        × (records_of (line_of number heads.old (cells row.now)) ≡ option_to_list found)) }
{
    match kind_of(row) {
        RowKind::Bounds => {
            heads.take_bounds(alloc, number, row)?;
            Ok(None)
        }
        RowKind::Columns => {
            heads.take_columns(alloc, number, row)?;
            Ok(None)
        }
        RowKind::Data => Ok(Some(data_of(heads, alloc, number, row)?)),
        RowKind::Skipped | RowKind::Other => Ok(None),
    }
}

/// The head of a file of these header lines.
fn head_of(heads: Heads) -> Result<Head, FileFault>
    ensures head { GivesHead result (file_with heads.bounds heads.columns []) }
    ensures missing { IfErr result (λ fault. fault ≡ FileFault.Refused Code.F8 0) }
{
    match (heads.bounds, heads.columns) {
        (Some(bounds), Some(line)) => Ok(Head {
            number_bounds: bounds.number,
            number_columns: line.number,
            crs: bounds.crs,
            dimension: bounds.dimension,
            start: bounds.start,
            columns: line.columns,
        }),
        _ => Err(FileFault::Refused {
            code: Code::F8,
            number: 0,
        }),
    }
}

fn fault_at(number: u64, fault: RowFault) -> FileFault
    ensures { result ≡ fault_at number fault }
{
    match fault {
        RowFault::Refused(code) => FileFault::Refused { code, number },
        RowFault::Memory => FileFault::Memory,
    }
}

/// The rows of a file that are left, behind its header lines so far.
#[derive(Drop)]
struct Unread<'a> {
    reader: Reader<&'a [u8]>,
    row: StringRecord,
    heads: Heads,
    /// The number of the next row.
    number: u64,
}

impl<'a> Unread<'a> {
    /// Reads on to the next data record.
    fn next(&mut self, alloc: Global) -> Result<Option<Record>, FileFault>
        requires { IsUnread self.old.reader self.old.number }
        ensures reads { ReadsNext result
            (text_left self.old.number self.old.heads (rows_left self.old.reader))
            self.new.number self.new.heads (rows_left self.new.reader) }
        ensures unread { IfOk result (λ found. IfSome found (λ _.
            IsUnread self.new.reader self.new.number)) }
        ensures fewer { IfOk result (λ found. IfSome found (λ _.
            length (bytes_left self.new.reader) < length (bytes_left self.old.reader))) }
    {
        'rows: loop {
            let number = self.number;
            match next_row(&mut self.reader, &mut self.row) {
                Ok(true) => {}
                Ok(false) => return Ok(None),
                Err(fault) => return Err(fault_at(number, fault)),
            }
            self.number += 1;
            match take(&mut self.heads, alloc, number, &self.row) {
                Ok(Some(found)) => return Ok(Some(found)),
                Ok(None) => {}
                Err(fault) => return Err(fault_at(number, fault)),
            }
        }
    }
}

/// How far a file was read.
#[derive(Clone, Copy)]
pub(crate) enum Stage {
    Reading,
    /// No row is left.
    Over,
    /// A fault was told.
    Failed(FileFault),
}

/// Reads a file record by record, seen by contracts as what is left of it: the file of its header
/// lines and of the data records that are still to come, or the first fault of what is to come. Of the
/// records of a file that turns out to have a fault nothing is said.
#[derive(Drop)]
pub struct FileReader<'a> {
    unread: Unread<'a>,
    stage: Stage,
}

impl<'a> Model for FileReader<'a> {
    ghost use Rattle.std.specs.Prelude.{◌≡◌, length};
    ghost use Rattle.mfcsv.specs.Unread.{bytes_left, rows_left};
    ghost use Rattle.mfcsv.specs.Left.{IsUnread, LeftView, is_over, text_at, told_by};
    ghost use Rattle.mfcsv.specs.declared.reader.Stage.TheVariants.{Reading};

    ghost Value = { LeftView };

    ghost view = { λ a. record {
      text = text_at a.stage a.unread.number a.unread.heads (rows_left a.unread.reader);
      heads = a.unread.heads;
      most = length (bytes_left a.unread.reader);
      is_over = is_over a.stage;
      told = told_by a.stage;
    } };

    ghost invariant = { λ a. a.stage ≡ Reading → IsUnread a.unread.reader a.unread.number };
}

/// Behind the last row no data record is left.
fn end_of(heads: &Heads)
    ensures { HasNoRecord (file_with heads.now.bounds heads.now.columns []) }
{
    match (&heads.bounds, &heads.columns) {
        (Some(bounds), Some(_)) => {
            let _dimension = bounds.dimension;
        }
        _ => {}
    }
}

impl<'a> FileReader<'a> {
    ghost use Rattle.std.specs.Prelude.{◌≡◌, ◌<◌, [], true, Err, IfErr, IfOk, IfSome, None, Some};
    ghost use Rattle.mfcsv.specs.declared.Code.{Code};
    ghost use Rattle.mfcsv.specs.declared.FileFault.{FileFault};
    ghost use Rattle.mfcsv.specs.FileText.{file_of_bytes, file_with};
    ghost use Rattle.mfcsv.specs.Left.{GivesHead, ReadsRecord};

    /// A reader of all of a file. Byte order marks at the very start are dropped.
    pub fn new(alloc: Global, bytes: &'a [u8]) -> FileReader<'a>
        ensures { result.text ≡ file_of_bytes bytes.now }
    {
        FileReader {
            unread: Unread {
                reader: read_rows(alloc, bytes),
                row: StringRecord::new(alloc),
                heads: Heads::new(),
                number: 1,
            },
            stage: Stage::Reading,
        }
    }

    /// Reads the next data record; `None` where there is none any more. A fault that was told is told
    /// again.
    ///
    /// # Errors
    /// The first fault of what is left, or want of memory.
    pub fn next_record(&mut self, alloc: Global) -> Result<Option<Record>, FileFault>
        // It returns the first record of what is left, or none if none is left, or its first fault.
        ensures reads { ReadsRecord result self.old self.new }
        // Each record lowers a number, so that reading ends.
        ensures fewer { IfOk result (λ found. IfSome found (λ _. self.new.most < self.old.most)) }

        // Once a fault is told, nothing else is.
        ensures told { IfErr result (λ fault. self.new.told ≡ Some fault) }
        // A fault that was returned is returned again, and nothing changes.
        ensures stays { (fault : FileFault) → self.old.told ≡ Some fault
            → (result ≡ Err fault) × (self.new ≡ self.old) }
    {
        match self.stage {
            Stage::Reading => {}
            Stage::Over => {
                end_of(&self.unread.heads);
                return Ok(None);
            }
            Stage::Failed(fault) => return Err(fault),
        }
        match self.unread.next(alloc) {
            Ok(Some(found)) => Ok(Some(found)),
            Ok(None) => {
                end_of(&self.unread.heads);
                self.stage = Stage::Over;
                Ok(None)
            }
            Err(fault) => {
                self.stage = Stage::Failed(fault);
                Err(fault)
            }
        }
    }

    /// The head of the file, once there is no data record any more; before that, the one that the header lines make
    /// that were read.
    ///
    /// # Errors
    /// F8 at 0 where one of these is missing; a fault that was told.
    pub fn into_head(self) -> Result<Head, FileFault>
        // Once all records are read, it is the head of the file, or the fault of a missing header
        // line.
        ensures head { self.entry.is_over ≡ true → GivesHead result self.entry.text }
        // Without a fault it is the head that the header lines make that were read so far.
        ensures so_far { self.entry.told ≡ None → GivesHead result
            (file_with self.entry.heads.bounds self.entry.heads.columns []) }
        // Without a fault the only error is F8 of the whole file, as a header line is missing.
        ensures missing { self.entry.told ≡ None
            → IfErr result (λ fault. fault ≡ FileFault.Refused Code.F8 0) }
        // A fault that was returned before is returned again.
        ensures told { (fault : FileFault) → self.entry.told ≡ Some fault → result ≡ Err fault }
    {
        let FileReader { unread, stage } = self;
        match stage {
            Stage::Reading | Stage::Over => head_of(unread.heads),
            Stage::Failed(fault) => Err(fault),
        }
    }
}
