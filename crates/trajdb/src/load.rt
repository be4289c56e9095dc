//! What a file adds to a database.
ghost use Rattle.std.specs.Prelude.{◌≡◌, ◌++◌, ◌∷◌, [], List, IfOk, IfErr, OnOk};
ghost use Rattle.std.specs.Option.{option_copied};
ghost use Rattle.mfcsv.specs.FileText.{file_of_bytes};
ghost use Rattle.mfcsv.specs.Views.{RecordView};
ghost use Rattle.legs.specs.Limits.{LimitsView};
ghost use Rattle.legs.specs.Joining.{IsJoining};
ghost use Rattle.legs.specs.Book.{Book, head_with};
ghost use Rattle.legs.specs.Tracks.{StandsFor};
ghost use Rattle.trajdb.specs.Answers.{load_of};
ghost use Rattle.trajdb.specs.Calls.{IsJoinStop};
ghost use Rattle.trajdb.specs.Database.{FaultIs};
ghost use Rattle.trajdb.specs.Loads.{IsRead, code_fault, join_fault, counts_in};

use crate::{Counts, FileCode, LoadFault, RunFault};
use legs::{BookHead, FileJoiner, JoinFault, Joined, Limits, Tracks};
use mfcsv::{FileFault, FileReader, Head, Record};
use rows::Rows;
use std::alloc::{AllocError, Global};

/// A file that was read and joined: its head, what it adds, and the attribute values of its records.
#[derive(Drop)]
pub(crate) struct NewFile {
    pub(crate) head: Head,
    pub(crate) joined: Joined,
    pub(crate) rows: Rows,
}

/// How many records, legs and distinct features a file has.
pub(crate) fn counts_of(new: &NewFile) -> Counts
    ensures { result ≡ counts_in new.now.joined }
{
    Counts {
        records: new.joined.record_count(),
        legs: new.joined.legs().len() as u64,
        features: new.joined.feature_count(),
    }
}

/// Keeps the head of the first accepted file.
pub(crate) fn keep_head(first: &mut Option<BookHead>, head: Head)
    ensures { first.new ≡ head_with first.old head }
{
    if first.is_none() {
        *first = Some(BookHead::from(head));
    }
}

fn code_fault(fault: FileFault) -> LoadFault
    ensures { result ≡ code_fault fault }
{
    match fault {
        FileFault::Refused { code, number } => LoadFault::Refused {
            code: FileCode::Text(code),
            number,
        },
        FileFault::Memory => LoadFault::Run(RunFault::Memory),
    }
}

fn join_fault(fault: JoinFault) -> LoadFault
    ensures { result ≡ join_fault fault }
{
    match fault {
        JoinFault::Refused { code, number } => LoadFault::Refused {
            code: FileCode::Join(code),
            number,
        },
        JoinFault::Memory => LoadFault::Run(RunFault::Memory),
    }
}

/// Joins a record, and keeps its attribute values.
fn take_record(joiner: &mut FileJoiner, rows: &mut Rows, found: &Record) -> Result<(), AllocError>
    ensures joined { OnOk result ((limits : LimitsView) (book : Book) (records : List RecordView)
        → IsJoining limits joiner.old book records
        → IsJoining limits joiner.new book (records ++ found.now ∷ [])) }
    ensures rows { OnOk result (rows.new ≡ rows.old ++ found.now.attributes ∷ []) }
{
    joiner.join(found)?;
    rows.push(&found.attributes)
}

/// Reads a file and joins it, record by record, to the book that the tracks stand for: what it adds, or
/// the first fault of its text, or else of its joining.
pub(crate) fn join_text(
    alloc: Global,
    first: Option<&BookHead>,
    tracks: &Tracks,
    limits: &Limits,
    bytes: &[u8],
) -> Result<NewFile, LoadFault>
    ensures joined { IfOk result (λ new. IsRead tracks.now (option_copied first.entry) limits.now
        (file_of_bytes bytes.now) new) }
    ensures refused { IfErr result (λ fault. (book : Book) → StandsFor tracks.now book
        → book.head ≡ option_copied first.entry
        → FaultIs fault (load_of limits.now book bytes.now)) }
    ensures stopped { IfErr result IsJoinStop }
{
    let mut reader = FileReader::new(alloc, bytes);
    let mut joiner = FileJoiner::new(alloc, tracks, limits);
    let mut rows = Rows::new(alloc);
    'records: loop {
        match reader.next_record(alloc) {
            Ok(Some(found)) => match take_record(&mut joiner, &mut rows, &found) {
                Ok(()) => {}
                Err(_) => return Err(LoadFault::Run(RunFault::Memory)),
            },
            Ok(None) => break,
            Err(fault) => return Err(code_fault(fault)),
        }
    }
    let head = match reader.into_head() {
        Ok(head) => head,
        Err(fault) => return Err(code_fault(fault)),
    };
    match joiner.finish(first, &head) {
        Ok(joined) => Ok(NewFile { head, joined, rows }),
        Err(fault) => Err(join_fault(fault)),
    }
}
