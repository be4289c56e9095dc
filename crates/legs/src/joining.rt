//! The joining of a file to a book.
ghost use Rattle.std.specs.Prelude.{◌≡◌, [], length, zip, IfOk, IfErr, OnOk};
ghost use Rattle.std.specs.List.{list_all};
ghost use Rattle.std.specs.Option.{option_copied};
ghost use Rattle.legs.specs.Book.{Book, joined, IsRefusal, same_column, same_columns, same_dimension, same_space, head_faults};
ghost use Rattle.legs.specs.Tracks.{StandsFor};
ghost use Rattle.legs.specs.Joining.{IsJoinedBy};
ghost use Rattle.legs.specs.FirstFault.{IsFirst};

use crate::head::BookHead;
use crate::joiner::{FileJoiner, Joined};
use crate::limits::Limits;
use crate::tracks::Tracks;
use mfcsv::{Column, Dimension, File, Head};
use std::alloc::{AllocError, AllocFailed, Global};
use std::fmt;
use thiserror::Error;

/// A joining fault: why a file whose text has no fault is not accepted.
#[derive(Clone, Copy, PartialEq, Eq, Debug)]
pub enum JoinCode {
    /// The CRS or the dimension is not the database's.
    F9,
    /// The attribute columns are not the database's.
    F10,
    /// A record starts before its feature's last accepted leg ends.
    F18,
    /// A record passes the limit of legs.
    F19,
    /// A record passes the limit of features.
    F20,
}

impl JoinCode {
    ghost use Rattle.std.specs.Prelude.{◌≡◌};
    ghost use Rattle.legs.specs.CodeText.{join_code_text};

    /// The code as it is printed, as `F18`.
    pub fn as_str(self) -> &'static str
        ensures { result.now ≡ join_code_text self }
    {
        match self {
            JoinCode::F9 => "F9",
            JoinCode::F10 => "F10",
            JoinCode::F18 => "F18",
            JoinCode::F19 => "F19",
            JoinCode::F20 => "F20",
        }
    }
}

impl fmt::Display for JoinCode {
    ghost use Rattle.std.specs.Prelude.{Some};
    ghost use Rattle.legs.specs.CodeText.{join_code_text};

    ghost output = { λ c. Some (join_code_text c) };

    fn fmt<W: fmt::Write>(&self, f: &mut fmt::Formatter<W>) -> fmt::Result {
        f.write_str(self.as_str())
    }
}

/// Why a file was not joined.
#[derive(Clone, Copy, PartialEq, Eq, Debug, Error)]
pub enum JoinFault {
    /// The first joining fault, and the number of its record in the file.
    #[error("the file is refused: {code} at {number}")]
    Refused { code: JoinCode, number: u64 },
    /// Memory ran out.
    #[error("out of memory")]
    Memory,
}

impl<T: Drop> From<AllocFailed<T>> for JoinFault {
    ghost use Rattle.std.specs.Prelude.{◌≡◌};
    ghost use Rattle.legs.specs.declared.joining.JoinFault.TheVariants.{Memory};

    ghost from_gives = { λ _ fault. fault ≡ Memory };

    fn from(_fault: AllocFailed<T>) -> JoinFault {
        JoinFault::Memory
    }
}

impl From<AllocError> for JoinFault {
    ghost use Rattle.std.specs.Prelude.{◌≡◌};
    ghost use Rattle.legs.specs.declared.joining.JoinFault.TheVariants.{Memory};

    ghost from_gives = { λ _ fault. fault ≡ Memory };

    fn from(_fault: AllocError) -> JoinFault {
        JoinFault::Memory
    }
}

fn same_dimension(one: Dimension, other: Dimension) -> bool
    ensures { result ≡ same_dimension one other }
{
    match (one, other) {
        (Dimension::Two, Dimension::Two) | (Dimension::Three, Dimension::Three) => true,
        (Dimension::Two, Dimension::Three) | (Dimension::Three, Dimension::Two) => false,
    }
}

/// Whether a file's head has the CRS name and the dimension of the book's.
fn same_space(first: &BookHead, head: &Head) -> bool
    ensures { result ≡ same_space first.now head.now }
{
    first.crs.as_str() == head.crs.as_str() && same_dimension(first.dimension, head.dimension)
}

fn same_column(one: &Column, other: &Column) -> bool
    ensures { result ≡ same_column one.now other.now }
{
    one.name.as_str() == other.name.as_str() && one.kind.as_str() == other.kind.as_str()
}

/// Whether two lists of columns have the same names and types, in the same order.
fn same_columns(first: &[Column], second: &[Column]) -> bool
    ensures { result ≡ same_columns first.now second.now }
{
    first.len() == second.len() && same_pairs(first, second)
}

fn same_pairs(first: &[Column], second: &[Column]) -> bool
    requires { length first.now ≡ length second.now }
    ensures { result ≡ list_all (λ p. same_column p.0 p.1) (zip first.now second.now) }
{
    for (i, one) in first.iter().enumerate() {
        if !same_column(one, &second[i]) {
            return false;
        }
    }
    true
}

/// Compares a file's head with the head of the first accepted file.
pub(crate) fn check_head(first: Option<&BookHead>, head: &Head) -> Result<(), JoinFault>
    ensures ok { OnOk result (head_faults (option_copied first.entry) head.now ≡ []) }
    ensures refused { IfErr result (λ fault. IsFirst fault (head_faults
        (option_copied first.entry) head.now)) }
{
    let Some(first) = first else {
        return Ok(());
    };
    if !same_space(first, head) {
        return Err(JoinFault::Refused {
            code: JoinCode::F9,
            number: head.number_bounds,
        });
    }
    if !same_columns(first.columns.as_slice(), head.columns.as_slice()) {
        return Err(JoinFault::Refused {
            code: JoinCode::F10,
            number: head.number_columns,
        });
    }
    Ok(())
}

/// Joins a file whose text has no fault to a book: what it adds, its legs with their numbers among
/// it, or the first joining fault. `head` is what the book keeps of the head of the first accepted
/// file, if there is one.
///
/// A file is refused if its CRS or its dimension (`F9`, at its `@stboundedby` record) or its
/// columns (`F10`, at its `@columns` record) are not those of the first accepted file. Else it is
/// refused at its first record that starts before its feature's last leg ends (`F18`), or with
/// which there are more legs (`F19`) or features (`F20`) than the limits allow.
pub fn join(
    alloc: Global,
    head: Option<&BookHead>,
    tracks: &Tracks,
    limits: &Limits,
    file: &File,
) -> Result<Joined, JoinFault>
    // What it adds, for the book that the tracks stand for: the legs that the definition of joining gives the file, which
    // may follow the book's, and the names.
    ensures joined { IfOk result (λ by. (book : Book) → StandsFor tracks.now book
        → book.head ≡ option_copied head.entry
        → IsJoinedBy limits.now book file.now by) }

    // The first fault.
    ensures refused { IfErr result (λ fault. (book : Book) → StandsFor tracks.now book
        → book.head ≡ option_copied head.entry
        → IsRefusal fault (joined limits.now book file.now)) }
{
    let records = file.records.as_slice();
    let mut joiner = FileJoiner::new(alloc, tracks, limits);
    for record in records {
        joiner.join(record)?;
    }
    joiner.finish(head, &file.head)
}
