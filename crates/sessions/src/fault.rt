//! Why the program failed.
ghost use Rattle.std.specs.Prelude.{◌≡◌};

use crate::cause::Cause;
use querylang::LineCode;
use std::alloc::AllocError;
use std::fmt;
use std::fmt::{Display, Formatter};
use trajdb::{OpenFault, RunFault};

/// Why a file of rectangles is refused.
#[derive(Clone, Copy, PartialEq, Eq, Debug)]
pub enum RectsFault {
    /// A field is not UTF-8.
    NotUtf8,
    /// The first line does not name the columns.
    NoColumns,
    /// A name is empty, or has more than 255 bytes.
    Name,
    /// A name stands a second time.
    Twice,
    /// A corner is refused, as a line of a script would be.
    Corner(LineCode),
}

/// A file or a folder, by the word of the command line that names it.
#[derive(Clone, Copy, PartialEq, Eq, Debug)]
pub enum Named {
    /// The store.
    Store,
    /// The script.
    Script,
    /// The data file of that place among them, from 0.
    File(usize),
    /// The file of rectangles or zones.
    Areas,
    /// The folder of the parts.
    Folder,
}

/// Why the program failed.
#[derive(Clone, Copy, PartialEq, Eq, Debug)]
pub enum Fault {
    /// A run or a check was not brought to its end.
    Run(RunFault),
    /// The database was not made, opened or brought over.
    Open(OpenFault),
    /// A file could not be read, or is too long, and why.
    CannotRead(Named, Cause),
    /// A file could not be written into a folder, and why.
    CannotWrite(Named, Cause),
    /// The file that a store was to be brought over into is there, and has bytes.
    NotEmpty,
    /// There is no part of that number among so many.
    NoPart(u32, u32),
    /// Another run holds the store.
    InUse,
    /// A call of the system on the store's file, or on what lies beside it, failed.
    NoStore(Cause),
    /// There is no such store, and none is to be made.
    NoSuchStore,
    /// The store is there, and takes at most so many legs and features, and not as many as were asked for.
    OtherLimits(u64, u32),
    /// The rectangle or the period is refused, as a line of a script would be.
    Bounds(LineCode),
    /// A file of rectangles is refused, at the record of that number.
    Rects(u64, RectsFault),
}

impl Fault {
    /// The file or folder whose name belongs behind the fault's line.
    pub fn named(&self) -> Option<Named> {
        match self {
            Fault::CannotRead(named, _) | Fault::CannotWrite(named, _) => Some(*named),
            _ => None,
        }
    }

    /// Whether a store that failed is the fault.
    pub fn is_of_store(&self) -> bool {
        match self {
            Fault::Run(fault) => *fault == RunFault::Store,
            Fault::Open(fault) => *fault == OpenFault::Store,
            Fault::NoStore(_) => true,
            _ => false,
        }
    }
}

impl From<AllocError> for Fault {
    ghost use Rattle.sessions.specs.declared.fault.Fault.{Fault};
    ghost use Rattle.sessions.specs.declared.fault.Fault.TheVariants.{Run};
    ghost use Rattle.trajdb.specs.declared.RunFault.{RunFault};

    ghost from_gives = { λ e r. r ≡ Run RunFault.Memory };

    fn from(_: AllocError) -> Self {
        Fault::Run(RunFault::Memory)
    }
}

impl From<RunFault> for Fault {
    ghost use Rattle.sessions.specs.declared.fault.Fault.{Fault};
    ghost use Rattle.sessions.specs.declared.fault.Fault.TheVariants.{Run};

    ghost from_gives = { λ e r. r ≡ Run e };

    fn from(fault: RunFault) -> Self {
        Fault::Run(fault)
    }
}

impl From<OpenFault> for Fault {
    ghost use Rattle.sessions.specs.declared.fault.Fault.{Fault};
    ghost use Rattle.sessions.specs.declared.fault.Fault.TheVariants.{Open};

    ghost from_gives = { λ e r. r ≡ Open e };

    fn from(fault: OpenFault) -> Self {
        Fault::Open(fault)
    }
}

/// Why a rectangle or a period is refused.
pub(crate) fn bounds_text(code: LineCode) -> &'static str {
    match code {
        LineCode::Q5 => "a coordinate is no number, or out of range",
        LineCode::Q6 => "X1 is above X2, or Y1 above Y2",
        LineCode::Q7 => "T1 or T2 is no instant, or out of range",
        LineCode::Q8 => "T1 is after T2",
        _ => "X1 Y1 X2 Y2 T1 T2 are one word each",
    }
}

/// What the fault's line says after `mftb: `. The name of [`Fault::named`] follows, where there is one.
impl Display for Fault {
    fn fmt<W: fmt::Write>(&self, f: &mut Formatter<W>) -> fmt::Result {
        match self {
            Fault::Run(RunFault::Memory) | Fault::Open(OpenFault::Memory) => f.write_str("memory"),
            Fault::Run(RunFault::Store) | Fault::Open(OpenFault::Store) | Fault::NoStore(_) => {
                f.write_str("store")
            }
            Fault::Run(RunFault::Damaged(page)) | Fault::Open(OpenFault::Damaged(page)) => {
                write!(f, "page {page} damaged")
            }
            Fault::Run(RunFault::StoreFull) | Fault::Open(OpenFault::StoreFull) => {
                f.write_str("store full")
            }
            Fault::Open(OpenFault::Unfinished) => f.write_str("store unfinished"),
            Fault::Open(OpenFault::Version) => f.write_str("store version"),
            Fault::Open(OpenFault::Malformed) => f.write_str("store malformed"),
            Fault::Run(RunFault::Failed) => f.write_str("failed"),
            Fault::Run(RunFault::Output) => f.write_str("output"),
            Fault::CannotRead(..) => f.write_str("cannot read"),
            Fault::CannotWrite(..) => f.write_str("cannot write"),
            Fault::NotEmpty => f.write_str("new store not empty"),
            Fault::NoPart(part, parts) => {
                write!(f, "no part {part} of {parts}: parts are numbered from 0")
            }
            Fault::InUse => f.write_str("store in use"),
            Fault::NoSuchStore => f.write_str("no such store"),
            Fault::OtherLimits(legs, features) => {
                write!(
                    f,
                    "other limits: the store takes {legs} legs and {features} features"
                )
            }
            Fault::Bounds(code) => f.write_str(bounds_text(*code)),
            Fault::Rects(record, why) => {
                let why = rects_text(*why);
                write!(f, "record {record} of the rectangles: {why}")
            }
        }
    }
}

/// Why a file of rectangles is refused, in words.
fn rects_text(fault: RectsFault) -> &'static str {
    match fault {
        RectsFault::NotUtf8 => "a field is not UTF-8",
        RectsFault::NoColumns => "there are no columns name, x1, y1, x2 and y2",
        RectsFault::Name => "the name is empty, or has more than 255 bytes",
        RectsFault::Twice => "the name stands a second time",
        RectsFault::Corner(code) => bounds_text(code),
    }
}
