//! The database over an index.
ghost use Rattle.std.specs.Prelude.{◌≡◌, [], IfOk};

use crate::answer::{count_text, counts_text, file_refusal_text, refusal_text};
use crate::files::Files;
use crate::load::{NewFile, counts_of, join_text, keep_head};
use crate::script::{first_piece, without_return};
use crate::start::{Start, put_legs};
use crate::{Counts, LoadFault, RunFault};
use catalogue::Catalogue;
use legs::{BookHead, Limits, Tracks};
use outputs::Output;
use querylang::{Command, LineFault, parse_line};
use rows::Rows;
use std::alloc::{AllocError, Global};
use std::hash::RandomState;
use std::marker::Model;

/// Accepted files behind an index of their legs.
pub struct Core<I: Start> {
    pub(crate) index: I,
    pub(crate) head: Option<BookHead>,
    pub(crate) tracks: Tracks,
    pub(crate) rows: Rows,
    pub(crate) limits: Limits,
    /// Whether the database was made, or a file was accepted since it was opened.
    pub(crate) begun: bool,
    pub(crate) failed: bool,
}

// In one place, and not at each end of what owns it.
impl<I: Start + Drop> Drop for Core<I> {
    fn drop(self) {
        let Core {
            index,
            head,
            tracks,
            rows,
            limits,
            begun,
            failed,
        } = self;
    }
}

impl<I: Start> Model for Core<I> {
    ghost use Rattle.trajdb.specs.Database.{CoreView};

    ghost Value = { CoreView I };

    ghost view = { λ a. record {
      index = a.index;
      tracks = a.tracks;
      book = record { head = a.head; names = a.tracks.names; legs = I.content a.index; rows = a.rows };
      limits = a.limits;
      begun = a.begun;
      failed = a.failed;
    } };
}

impl<I: Start> Core<I> {
    ghost use Rattle.std.specs.Prelude.{◌≡◌, [], IfOk, IfErr};
    ghost use Rattle.trajdb.specs.Database.{catalogue_of, fresh, IsSound};

    /// A database without files over an index without legs, which has begun or not. Names are hashed with the keys,
    /// which a stranger who chooses the names of a file is not to know.
    pub fn new(
        alloc: Global,
        keys: RandomState,
        index: I,
        limits: Limits,
        begun: bool,
    ) -> Result<Core<I>, (I, AllocError)>
        ensures made { IfOk result (λ core. I.content index ≡ []
            → core ≡ fresh limits index begun) }
        ensures sound { IfOk result (λ core. I.is_sound index → I.content index ≡ []
            → IsSound I.Listed core) }
        ensures index { IfOk result (λ core. core.index ≡ index) }
        ensures refused { IfErr result (λ back. back.0 ≡ index) }
    {
        prove!(limits.legs() > 0);
        match Tracks::new(alloc, keys) {
            Ok(tracks) => Ok(Core {
                index,
                head: None,
                tracks,
                rows: Rows::new(alloc),
                limits,
                begun,
                failed: false,
            }),
            Err(memory) => Err((index, memory)),
        }
    }

    /// How many pages were asked for.
    pub fn asked(&self) -> u64
        ensures { result ≡ I.asked self.now.index }
    {
        self.index.asked()
    }

    /// What is kept of a database: its catalogue, and the index of its legs.
    pub(crate) fn into_parts(self) -> (Catalogue, I)
        ensures catalogue { result.0 ≡ catalogue_of self }
        ensures index { result.1 ≡ self.index }
        ensures legs { I.content self.index ≡ self.book.legs }
    {
        let Core {
            index,
            head,
            tracks,
            rows,
            limits,
            begun,
            failed,
        } = self;
        let catalogue = Catalogue {
            head,
            limits,
            tracks,
            rows,
        };
        (catalogue, index)
    }
}

impl<I: Start> Core<I> {
    ghost use Rattle.std.specs.Prelude.{◌≡◌, Ok, IfOk, IfErr, OnOk, OnErr, true};
    ghost use Rattle.mfcsv.specs.FileText.{file_of_bytes};
    ghost use Rattle.mfcsv.specs.declared.File.{File};
    ghost use Rattle.legs.specs.Book.{with_file};
    ghost use Rattle.trajdb.specs.Answers.{load_of};
    ghost use Rattle.trajdb.specs.Database.{Becomes, FaultIs, IsSound};
    ghost use Rattle.trajdb.specs.Loads.{Accepts};
    ghost use Rattle.trajdb.specs.Calls.{IsJoinStop, IsLater, IsLoadFault, IsOfStore, LeavesPages};

    /// What a file adds, or its first fault.
    fn join_file(&self, alloc: Global, bytes: &[u8]) -> Result<NewFile, LoadFault>
        ensures joined { IfOk result (λ new. (file : File) × (file_of_bytes bytes.now ≡ Ok file)
            × (IsSound I.Listed self.now → Accepts self.now.limits self.now.book file new)) }
        ensures refused { IfErr result (λ fault. IsSound I.Listed self.now
            → FaultIs fault (load_of self.now.limits self.now.book bytes.now)) }
        ensures stopped { IfErr result IsJoinStop }
    {
        match join_text(alloc, self.head.as_ref(), &self.tracks, &self.limits, bytes) {
            Ok(new) => Ok(new),
            Err(fault) => Err(fault),
        }
    }

    /// Takes in a file that was read and joined.
    fn take(&mut self, new: NewFile) -> Result<(), RunFault>
        ensures taken { OnOk result ((file : File)
            → Accepts self.old.limits self.old.book file new
            → Becomes I.Listed self.old self.new (with_file self.old.book file)) }
        ensures sound { IfErr result (λ fault. (file : File) → IsSound I.Listed self.old
            → Accepts self.old.limits self.old.book file new → IsLoadFault fault) }
        ensures store { IfErr result (IsOfStore I.Listed self.old.index self.new.index) }
        ensures later { IsLater I.Listed self.old self.new }
        ensures failed { self.new.failed ≡ self.old.failed }
        ensures begun { OnOk result (self.new.begun ≡ true) }
        ensures idle { OnErr result (self.new.begun ≡ self.old.begun) }
        ensures marks { OnOk result (I.is_faithful self.old.index → I.is_marked self.new.index) }
        ensures pages { I.is_faithful self.old.index
            → LeavesPages I.Listed self.old.index self.new.index }
    {
        let NewFile { head, joined, rows } = new;
        put_legs(&mut self.index, joined.legs())?;
        self.tracks.accept(&joined)?;
        self.rows.append(rows)?;
        keep_head(&mut self.head, head);
        self.begun = true;
        Ok(())
    }
}

impl<I: Start> Core<I> {
    ghost use Rattle.trajdb.specs.Promises.{LoadCall};

    /// Accepts a file, whole or not at all. Returns how many data records, legs and distinct
    /// features it has, or its first fault: of its text, else of joining it. A refused file changes
    /// nothing.
    ///
    /// If the database cannot tell, as when memory runs out, it has failed, and does nothing more
    /// (`Failed`).
    pub fn load(&mut self, alloc: Global, bytes: &[u8]) -> Result<Counts, LoadFault>
        ensures { LoadCall I.Listed self.old self.new bytes.now result }
    {
        if self.failed {
            return Err(LoadFault::Run(RunFault::Failed));
        }
        match self.join_file(alloc, bytes) {
            Ok(new) => {
                let counts = counts_of(&new);
                match self.take(new) {
                    Ok(()) => Ok(counts),
                    Err(fault) => {
                        self.failed = true;
                        Err(LoadFault::Run(fault))
                    }
                }
            }
            Err(LoadFault::Run(fault)) => {
                self.failed = true;
                Err(LoadFault::Run(fault))
            }
            Err(refused) => Err(refused),
        }
    }
}

impl<I: Start> Core<I> {
    ghost use Rattle.std.specs.Prelude.{◌≡◌, false};
    ghost use Rattle.querylang.specs.declared.Command.{Command};
    ghost use Rattle.trajdb.specs.Promises.{CommandCall};

    /// The answer to `load` of the file of that name.
    fn load_text(&mut self, alloc: Global, name: &str, files: &Files) -> Result<Vec<u8>, RunFault>
        requires { self.old.failed ≡ false }
        ensures { CommandCall I.Listed files.now self.old self.new (Command.Load name.now) result }
    {
        let bytes = match files.get(name) {
            Some(bytes) => bytes,
            None => return Ok(refusal_text(alloc, "Q9")?),
        };
        let text = match self.load(alloc, bytes) {
            Ok(counts) => counts_text(alloc, counts),
            Err(LoadFault::Refused { code, number }) => file_refusal_text(alloc, code, number),
            Err(LoadFault::Run(fault)) => return Err(fault),
        };
        match text {
            Ok(text) => Ok(text),
            Err(_) => {
                self.failed = true;
                Err(RunFault::Memory)
            }
        }
    }
}

impl<I: Start> Core<I> {
    ghost use Rattle.trajdb.specs.Promises.{CommandCall};

    /// Returns the whole answer to a command, with the named files at hand.
    ///
    /// A command that fails changes nothing, unless it is a `load`. Then the database has failed,
    /// and does nothing more (`Failed`).
    pub fn command(
        &mut self,
        alloc: Global,
        command: &Command,
        files: &Files,
    ) -> Result<Vec<u8>, RunFault>
        ensures { CommandCall I.Listed files.now self.old self.new command.now result }
    {
        if self.failed {
            return Err(RunFault::Failed);
        }
        match command {
            Command::Load(name) => self.load_text(alloc, name.as_str(), files),
            Command::Count => Ok(count_text(alloc, self.index.len(), self.tracks.feature_count())?),
            Command::Box(rect, period) => self.box_text(alloc, rect, period),
            Command::Legs(predicate, rect, period) => {
                self.picked_text(alloc, *predicate, rect, period)
            }
            Command::Features(predicate, rect, period) => {
                self.features_text(alloc, *predicate, rect, period)
            }
            Command::Trajectory(name) => self.track_text(alloc, name.as_str()),
            Command::Write => self.write_text(alloc),
        }
    }
}

impl<I: Start> Core<I> {
    ghost use Rattle.std.specs.Prelude.{IfOk, IfErr};
    ghost use Rattle.trajdb.specs.Promises.{DoesLine, StopsLine};

    /// The whole answer to a line of a script.
    #[tactic(auto, unfolding(crate::specs::Promises::DoesLine, crate::specs::Promises::StopsLine))]
    fn answer(&mut self, alloc: Global, line: &[u8], files: &Files) -> Result<Vec<u8>, RunFault>
        ensures does { IfOk result (λ text.
            DoesLine I.Listed files.now self.old self.new line.now text.items) }
        ensures stops { IfErr result (StopsLine I.Listed files.now self.old self.new line.now) }
    {
        match parse_line(alloc, line) {
            Ok(Some(command)) => self.command(alloc, &command, files),
            Ok(None) => Ok(Vec::new(alloc)),
            Err(LineFault::Refused(code)) => Ok(refusal_text(alloc, code.as_str())?),
            Err(LineFault::Memory) => Err(RunFault::Memory),
        }
    }
}

impl<I: Start> Core<I> {
    ghost use Rattle.std.specs.Prelude.{OnOk};
    ghost use Rattle.trajdb.specs.Database.{IsSound};
    ghost use Rattle.trajdb.specs.Promises.{RunCall};
    ghost use Rattle.trajdb.specs.Run.{Runs};
    ghost use Rattle.trajdb.specs.Script.{lines_of};

    /// Runs a script, with the named files at hand, and sends its answers.
    ///
    /// The run stops at a line that fails. The answers to the lines before were sent whole, and
    /// flushed unless the output fails. The database is as after these lines; or it has failed, and
    /// the line is a `load` of a file that is there. If the output fails (`Output`), a prefix of
    /// the answers was sent, all but the last of them whole. A failed database does nothing
    /// (`Failed`).
    pub fn run<O: Output>(
        &mut self,
        alloc: Global,
        script: &[u8],
        files: &Files,
        out: &mut O,
    ) -> Result<(), RunFault>
        // What was sent is exactly the text of the run, and the book is the one after it.
        ensures ok { OnOk result (IsSound I.Listed self.old
            → Runs files.now (O.seen out.old).contents (O.seen out.new).contents
            self.old self.new (lines_of script.now)) }
        ensures call { RunCall I.Listed O.seen files.now out.old out.new self.old self.new
            (lines_of script.now) result }
    {
        if self.failed {
            return Err(RunFault::Failed);
        }
        let mut rest = script;
        while !rest.is_empty() {
            let (piece, others) = first_piece(rest);
            match self.answer(alloc, without_return(piece), files) {
                Ok(text) => match out.send(text.as_slice()) {
                    Ok(()) => {}
                    Err(_) => return Err(RunFault::Output),
                },
                Err(fault) => {
                    // Where the output refuses to be flushed, the fault is still the line's.
                    let _ = out.flush();
                    return Err(fault);
                }
            }
            rest = others;
        }
        match out.flush() {
            Ok(()) => Ok(()),
            Err(_) => Err(RunFault::Output),
        }
    }
}
