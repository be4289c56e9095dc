//! Exact decimal numbers: the coordinates and the time offsets of trajectory files.
//!
//! A number text is an optional sign `+` or `-`, then ASCII digits with at most one point, at least
//! one digit, at most 40 bytes in all; no exponent. A coordinate is kept in units of 10^-7, an offset
//! (written in seconds or in minutes) in milliseconds. Further digits round half away from zero.
#![tactic(auto)]

ghost use Rattle.std.specs.Prelude.{◌≡◌, ◌^◌, ◌++◌, OnOk, OnErr, IfOk, Ok};
ghost use Rattle.fixedpoint.specs.Number.{coord_of, offset_of, minutes_of, units_within, IsInRange};
ghost use Rattle.fixedpoint.specs.NumberText.{coord_text, offset_text};
ghost use Rattle.fixedpoint.specs.Laws.{IsNearest, WritesExactly, IsShortest};

mod printing;
mod reading;

use reading::Scale;
pub use std::alloc::AllocError as Memory;
use std::marker::Model;
use thiserror::Error;

/// The greatest magnitude of a coordinate in units of 10^-7, and of an offset in milliseconds.
pub const MOST_UNITS: u64 = 1_000_000_000_000_000;

/// 1 is 10^7 units of a coordinate.
const COORD: Scale = Scale {
    places: 7,
    factor: 1,
};

/// A second is 10^3 milliseconds.
const SECOND: Scale = Scale {
    places: 3,
    factor: 1,
};

/// A minute is 60 * 10^3 milliseconds.
const MINUTE: Scale = Scale {
    places: 3,
    factor: 60,
};

/// Why a text is not a coordinate or an offset.
#[derive(Clone, Copy, PartialEq, Eq, Debug, Error)]
pub enum NumberFault {
    /// The text is not a number text.
    #[error("the text is not a plain decimal number")]
    Shape,
    /// The number is greater than the greatest, or less than the least, that can be kept.
    #[error("the number is out of range")]
    Range,
}

/// A coordinate: a whole number of units of 10^-7, from -10^15 to 10^15 (so at most 100000000 in
/// magnitude).
#[derive(Clone, Copy, PartialEq, Eq, PartialOrd, Ord, Debug)]
pub struct Coord {
    units: i64,
}

impl Model for Coord {
    ghost use Rattle.std.specs.Prelude.{ℤ};

    ghost Value = { ℤ };

    ghost use Rattle.fixedpoint.specs.Number.{IsInRange};

    ghost view = { λ a. a.units };

    ghost invariant = { λ a. IsInRange a.units };

    ghost inverse = { λ z. record { units = z } };
}

impl Coord {
    /// The coordinate of that many units of 10^-7; `None` where it is out of range.
    pub fn new(units: i64) -> Option<Coord>
        ensures { result ≡ units_within units }
    {
        if units.unsigned_abs() > MOST_UNITS {
            return None;
        }
        Some(Coord { units })
    }

    /// How many units of 10^-7 it is.
    pub fn units(self) -> i64
        // It is the coordinate, as a whole number.
        ensures value { result ≡ self }
        // It is in the range of coordinates.
        ensures range { IsInRange self }
    {
        self.units
    }
}

/// An offset in time: a whole number of milliseconds, from -10^15 to 10^15 (so at most
/// 1000000000000 s in magnitude).
#[derive(Clone, Copy, PartialEq, Eq, PartialOrd, Ord, Debug)]
pub struct Offset {
    millis: i64,
}

impl Model for Offset {
    ghost use Rattle.std.specs.Prelude.{ℤ};

    ghost Value = { ℤ };

    ghost use Rattle.fixedpoint.specs.Number.{IsInRange};

    ghost view = { λ a. a.millis };

    ghost invariant = { λ a. IsInRange a.millis };

    ghost inverse = { λ z. record { millis = z } };
}

impl Offset {
    /// The offset of that many milliseconds; `None` where it is out of range.
    pub fn new(millis: i64) -> Option<Offset>
        ensures { result ≡ units_within millis }
    {
        if millis.unsigned_abs() > MOST_UNITS {
            return None;
        }
        Some(Offset { millis })
    }

    /// How many milliseconds it is.
    pub fn millis(self) -> i64
        // It is the offset, as a whole number.
        ensures value { result ≡ self }
        // It is in the range of offsets.
        ensures range { IsInRange self }
    {
        self.millis
    }
}

/// Reads a coordinate. It takes no memory.
///
/// `Shape` where the text is not a number text, `Range` where the number, rounded to the nearest unit
/// of 10^-7, is greater than 100000000 in magnitude.
pub fn read_coord(text: &str) -> Result<Coord, NumberFault>
    // It is what the definition of a coordinate's text gives: the value, or why there is none.
    ensures value { result ≡ coord_of text.now }
    // No whole number of units is nearer to the text's number. A half is rounded away from zero.
    ensures nearest { IfOk result (IsNearest (10 ^ 7) text.now) }
{
    let units = reading::read_number(text, COORD)?;
    Ok(Coord { units })
}

/// Reads an offset, written in seconds. It takes no memory.
///
/// `Shape` where the text is not a number text, `Range` where the number, rounded to the nearest
/// millisecond, is greater than 1000000000000 s in magnitude.
pub fn read_offset(text: &str) -> Result<Offset, NumberFault>
    // It is what the definition of an offset's text gives: the value, or why there is none.
    ensures value { result ≡ offset_of text.now }
    // No whole number of milliseconds is nearer to the text's number. A half is rounded away from
    // zero.
    ensures nearest { IfOk result (IsNearest (10 ^ 3) text.now) }
{
    let millis = reading::read_number(text, SECOND)?;
    Ok(Offset { millis })
}

/// Reads an offset, written in minutes. It takes no memory.
///
/// `Shape` where the text is not a number text, `Range` where the number, rounded to the nearest
/// millisecond, is greater than 1000000000000 s in magnitude.
pub fn read_minutes(text: &str) -> Result<Offset, NumberFault>
    // It is what the definition of a text in minutes gives: the value, or why there is none.
    ensures value { result ≡ minutes_of text.now }
    // No whole number of milliseconds is nearer to the text's number. A half is rounded away from
    // zero.
    ensures nearest { IfOk result (IsNearest 60000 text.now) }
{
    let millis = reading::read_number(text, MINUTE)?;
    Ok(Offset { millis })
}

/// Appends the shortest exact decimal text of a coordinate: no `+`, no `-0`, no trailing zero behind
/// the point, no point without digits behind it, at least one digit before it.
pub fn push_coord(out: &mut Vec<u8>, coord: Coord) -> Result<(), Memory>
    // It appends exactly the text of the coordinate.
    ensures ok { OnOk result (out.new.items ≡ out.old.items ++ coord_text coord) }
    // If memory runs out, nothing was appended.
    ensures err { OnErr result (out.new.items ≡ out.old.items) }

    // The text that is appended.
    ensures exact { WritesExactly 7 coord (coord_text coord) }
    // No shorter text of the form says the same number.
    ensures shortest { IsShortest 7 coord (coord_text coord) }
    // It reads back as the same coordinate.
    ensures reads_back { coord_of (coord_text coord) ≡ Ok coord }
{
    printing::push_number(out, coord.units, 7)
}

/// Appends the shortest exact decimal text of an offset, in seconds, in the form of `push_coord`.
pub fn push_offset(out: &mut Vec<u8>, offset: Offset) -> Result<(), Memory>
    // It appends exactly the text of the offset.
    ensures ok { OnOk result (out.new.items ≡ out.old.items ++ offset_text offset) }
    // If memory runs out, nothing was appended.
    ensures err { OnErr result (out.new.items ≡ out.old.items) }

    // The text that is appended.
    ensures exact { WritesExactly 3 offset (offset_text offset) }
    // No shorter text of the form says the same number.
    ensures shortest { IsShortest 3 offset (offset_text offset) }
    // It reads back as the same offset.
    ensures reads_back { offset_of (offset_text offset) ≡ Ok offset }
{
    printing::push_number(out, offset.millis, 3)
}
