//! The lines of a script: each a command, or refused by a code.
//!
//! Words are separated by runs of spaces and tabs. `docs/user/SCRIPT.md` describes the language.
#![tactic(auto)]

ghost use Rattle.std.specs.Prelude.{◌≡◌};

mod parse;

use legs::Rect;
pub use parse::parse_line;
use predicates::Predicate;
use std::alloc::{AllocError, AllocFailed};
use std::fmt;
use std::marker::Model;
use thiserror::Error;
use timebase::Period;

/// Why a line is refused.
#[derive(Clone, Copy, PartialEq, Eq, Debug)]
pub enum LineCode {
    /// The line is not UTF-8.
    Q1,
    /// The command is unknown.
    Q2,
    /// The number of words is wrong, or there is no name.
    Q3,
    /// The predicate is unknown.
    Q4,
    /// A coordinate is not read, or out of range.
    Q5,
    /// The first corner is above the second, in x or in y.
    Q6,
    /// An instant is not read, or out of range.
    Q7,
    /// The first instant is after the second.
    Q8,
}

impl LineCode {
    ghost use Rattle.std.specs.Prelude.{◌≡◌};
    ghost use Rattle.querylang.specs.CodeText.{line_code_text};

    /// The code as it is printed, as `Q1`.
    pub fn as_str(self) -> &'static str
        ensures { result.now ≡ line_code_text self }
    {
        match self {
            LineCode::Q1 => "Q1",
            LineCode::Q2 => "Q2",
            LineCode::Q3 => "Q3",
            LineCode::Q4 => "Q4",
            LineCode::Q5 => "Q5",
            LineCode::Q6 => "Q6",
            LineCode::Q7 => "Q7",
            LineCode::Q8 => "Q8",
        }
    }
}

impl fmt::Display for LineCode {
    ghost use Rattle.std.specs.Prelude.{Some};
    ghost use Rattle.querylang.specs.CodeText.{line_code_text};

    ghost output = { λ c. Some (line_code_text c) };

    fn fmt<W: fmt::Write>(&self, f: &mut fmt::Formatter<W>) -> fmt::Result {
        f.write_str(self.as_str())
    }
}

/// Why a line was not read.
#[derive(Clone, Copy, PartialEq, Eq, Debug, Error)]
pub enum LineFault {
    /// The first rule of the language that the line breaks.
    #[error("the line is refused: {0}")]
    Refused(LineCode),
    /// Memory ran out.
    #[error("memory ran out")]
    Memory,
}

impl From<AllocError> for LineFault {
    ghost use Rattle.querylang.specs.declared.LineFault.{LineFault};

    ghost from_gives = { λ e r. r ≡ LineFault.Memory };

    fn from(_: AllocError) -> LineFault {
        LineFault::Memory
    }
}

impl<T: Drop> From<AllocFailed<T>> for LineFault {
    ghost use Rattle.querylang.specs.declared.LineFault.{LineFault};

    ghost from_gives = { λ e r. r ≡ LineFault.Memory };

    fn from(_: AllocFailed<T>) -> LineFault {
        LineFault::Memory
    }
}

/// A name in a command, of a file or of a feature; seen by contracts as its bytes, which are UTF-8.
#[derive(Debug, Drop)]
pub struct Name {
    text: String,
}

impl Model for Name {
    ghost use Rattle.std.specs.Prelude.{List, ℕ};
    ghost use Rattle.std.specs.String.{string_bytes};

    ghost Value = { List ℕ };

    ghost view = { λ a. string_bytes a.text };
}

impl Name {
    /// The name.
    pub fn as_str(&self) -> &str
        ensures { result.now ≡ self.now }
    {
        self.text.as_str()
    }
}

impl From<String> for Name {
    ghost use Rattle.std.specs.String.{string_bytes};

    ghost from_gives = { λ text r. r ≡ string_bytes text };

    fn from(text: String) -> Name {
        Name { text }
    }
}

/// What a line of a script asks for.
#[derive(Debug, Drop)]
pub enum Command {
    /// Accept the file of that name.
    Load(Name),
    /// How many legs and features there are.
    Count,
    /// The legs whose box meets the box over a rectangle and a period.
    Box(Rect, Period),
    /// The legs for each of which, taken alone, a predicate holds of a rectangle and a period.
    Legs(Predicate, Rect, Period),
    /// The features for whose whole list of legs a predicate holds of a rectangle and a period.
    Features(Predicate, Rect, Period),
    /// The legs of the feature of that name.
    Trajectory(Name),
    /// The whole database as a file.
    Write,
}
