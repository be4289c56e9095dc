//! The joining of a file to a book, record by record.
use crate::draft::Draft;
use crate::head::BookHead;
use crate::joining::{JoinFault, check_head};
use crate::leg::Leg;
use crate::limits::Limits;
use crate::names::Names;
use crate::tracks::Tracks;
use mfcsv::{Head, Record};
use std::alloc::{AllocError, Global};
use std::marker::Model;

/// A file that was joined: its names with their features and ends, its legs, and how many records
/// it has.
#[derive(Drop)]
pub struct Joined {
    pub(crate) names: Names,
    pub(crate) legs: Vec<Leg>,
    pub(crate) records: u64,
}

impl Model for Joined {
    ghost use Rattle.legs.specs.Joining.{JoinedView};

    ghost Value = { JoinedView };

    ghost view = { λ a. record { names = a.names; legs = a.legs.items; records = a.records } };
}

impl Joined {
    ghost use Rattle.std.specs.Prelude.{◌≡◌, length};

    /// The legs, with their numbers, in the order of the file.
    pub fn legs(&self) -> &[Leg]
        ensures { result.now ≡ self.now.legs }
    {
        self.legs.as_slice()
    }

    /// How many records there are.
    pub fn record_count(&self) -> u64
        ensures { result ≡ self.now.records }
    {
        self.records
    }

    /// How many distinct names there are.
    pub fn feature_count(&self) -> u64
        ensures { result ≡ length self.now.names.names }
    {
        self.names.len() as u64
    }
}

/// Joins a file whose text has no fault to a book, record by record.
///
/// After the first record with a joining fault nothing more is joined. If memory runs out, the
/// joiner is of no more use.
#[derive(Drop)]
pub struct FileJoiner<'a> {
    draft: Draft<'a>,
    legs: Vec<Leg>,
    limits: Limits,
    /// The first joining fault of a record.
    fault: Option<JoinFault>,
}

impl<'a> Model for FileJoiner<'a> {
    ghost use Rattle.std.specs.Prelude.{◌≤◌};
    ghost use Rattle.legs.specs.Joining.{JoiningView};

    ghost Value = { JoiningView };

    ghost view = { λ a. record {
      draft = a.draft;
      legs = a.legs.items;
      limits = a.limits;
      fault = a.fault;
    } };

    ghost invariant = { λ a. a.draft.rows ≤ a.draft.legs };
}

impl<'a> FileJoiner<'a> {
    ghost use Rattle.std.specs.Prelude.{◌≡◌, ◌++◌, ◌∷◌, [], List, IfOk, IfErr, OnOk};
    ghost use Rattle.std.specs.Option.{option_copied};
    ghost use Rattle.mfcsv.specs.Views.{RecordView};
    ghost use Rattle.legs.specs.Limits.{LimitsView};
    ghost use Rattle.legs.specs.Book.{Book, IsRefusal, file_of, joined};
    ghost use Rattle.legs.specs.Tracks.{StandsFor};
    ghost use Rattle.legs.specs.Joining.{HasCounted, IsCounted, IsJoinedBy, IsJoining};

    /// No record is joined yet.
    pub fn new(alloc: Global, tracks: &'a Tracks, limits: &Limits) -> FileJoiner<'a>
        // It has joined no record to the book for which the tracks stand.
        ensures joining { (book : Book) → StandsFor tracks.now book
            → IsJoining limits.now result book [] }
        // It has counted no record.
        ensures counted { HasCounted result [] }
    {
        FileJoiner {
            draft: Draft::new(alloc, tracks),
            legs: Vec::new(alloc),
            limits: *limits,
            fault: None,
        }
    }

    /// Joins the next record.
    pub fn join(&mut self, next: &Record) -> Result<(), AllocError>
        // It has joined this record behind those before, or knows the first fault.
        ensures joining { OnOk result ((limits : LimitsView) (book : Book)
            (records : List RecordView) → IsJoining limits self.old book records
            → IsJoining limits self.new book (records ++ next.now ∷ [])) }
        // It has counted this record behind those before, unless it knows a fault.
        ensures counted { OnOk result ((records : List RecordView) → HasCounted self.old records
            → HasCounted self.new (records ++ next.now ∷ [])) }
    {
        if self.fault.is_some() {
            return Ok(());
        }
        match self.draft.join(&self.limits, next, &mut self.legs) {
            Ok(()) => Ok(()),
            Err(JoinFault::Memory) => Err(AllocError),
            Err(fault) => {
                self.fault = Some(fault);
                Ok(())
            }
        }
    }

    /// What joins the file of that head and of all records that were joined, or its first joining
    /// fault: those of the head come first. `first` is what the book keeps of the head of the first
    /// accepted file, if there is one.
    pub fn finish(self, first: Option<&BookHead>, head: &Head) -> Result<Joined, JoinFault>
        // What it returns is what joins the file of that head and of these records to the book.
        ensures joined { IfOk result (λ by. (limits : LimitsView) (book : Book)
            (records : List RecordView) → IsJoining limits self.entry book records
            → book.head ≡ option_copied first.entry
            → IsJoinedBy limits book (file_of head.now records) by) }
        // Whatever the tracks say, it has the names of the records, and their number.
        ensures counted { IfOk result (λ by. (records : List RecordView)
            → HasCounted self.entry records → IsCounted records by) }
        // An error is the first joining fault of that file, unless memory ran out.
        ensures refused { IfErr result (λ fault. (limits : LimitsView) (book : Book)
            (records : List RecordView) → IsJoining limits self.entry book records
            → book.head ≡ option_copied first.entry
            → IsRefusal fault (joined limits book (file_of head.now records))) }
    {
        let FileJoiner {
            draft,
            legs,
            fault,
            ..
        } = self;
        check_head(first, head)?;
        if let Some(fault) = fault {
            return Err(fault);
        }
        let records = draft.rows.saturating_sub(draft.tracks.row_count());
        Ok(Joined {
            names: draft.names,
            legs,
            records,
        })
    }
}
