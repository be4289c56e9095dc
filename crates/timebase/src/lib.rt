//! Exact moments: whole milliseconds on the calendar that `jiff` keeps, and periods between them.
//!
//! A moment is a number of milliseconds since 1970-01-01T00:00:00Z, from 0001-01-01T00:00:00.000Z to
//! 9998-12-31T23:59:59.999Z, so that each moment is a `jiff` timestamp.
#![tactic(auto)]

ghost use Rattle.std.specs.Prelude.{◌≡◌, ◌≤ℤ◌, ◌++◌, pos, Ok, OnOk, OnErr};
ghost use Rattle.std.specs.Int.{int_div_euclid};
ghost use Rattle.timebase.specs.Instant.{moment_of, moment_at, moment_within, some_moment, IsMoment};
ghost use Rattle.timebase.specs.InstantText.{instant_text};
ghost use Rattle.timebase.specs.Period.{period_of};
ghost use Rattle.timebase.specs.Time.{moment_after, time_of};

mod printing;

use fixedpoint::{NumberFault, Offset, read_minutes, read_offset};
use jiff::Timestamp;
pub use std::alloc::AllocError as Memory;
use std::marker::Model;
use thiserror::Error;

/// Why a text or a sum is no moment.
#[derive(Clone, Copy, PartialEq, Eq, Debug, Error)]
pub enum TimeFault {
    /// `jiff` does not read the text as a timestamp.
    #[error("the text is not an instant")]
    Unreadable,
    /// The moment lies before 0001-01-01T00:00:00.000Z or after 9998-12-31T23:59:59.999Z.
    #[error("the moment is out of range")]
    OutOfRange,
    /// Memory ran out. Reading takes none today, so it does not come.
    #[error("memory ran out")]
    Memory,
}

/// In what unit a file writes the times of its records.
#[derive(Clone, Copy, PartialEq, Eq, Debug)]
pub enum Unit {
    /// Seconds after the start instant.
    Sec,
    /// Minutes after the start instant.
    Minute,
    /// Instants, which count from no start.
    Absolute,
}

/// The first and the last moment, in milliseconds.
const FIRST: i64 = -62_135_596_800_000;

const LAST: i64 = 253_370_764_799_999;

/// A moment: a whole number of milliseconds since 1970-01-01T00:00:00Z.
#[derive(Clone, Copy, PartialEq, Eq, PartialOrd, Ord, Debug)]
pub struct Ms {
    millis: i64,
}

impl Model for Ms {
    ghost use Rattle.std.specs.Prelude.{ℤ};

    ghost Value = { ℤ };

    ghost use Rattle.timebase.specs.Instant.{IsMoment};

    ghost view = { λ a. a.millis };

    ghost invariant = { λ a. IsMoment a.millis };

    ghost inverse = { λ z. record { millis = z } };
}

impl Ms {
    /// The moment of that many milliseconds since 1970-01-01T00:00:00Z; `None` where it is out of
    /// range.
    pub fn new(millis: i64) -> Option<Ms>
        ensures { result ≡ some_moment millis }
    {
        if millis < FIRST || millis > LAST {
            return None;
        }
        Some(Ms { millis })
    }

    /// How many milliseconds after 1970-01-01T00:00:00Z it lies, less than 0 before it.
    pub fn millis(self) -> i64
        // It is the moment, as a whole number.
        ensures value { result ≡ self }
        // It is in the range of moments.
        ensures moment { IsMoment self }
    {
        self.millis
    }
}

/// A period: the moments from a first to a last one, both included.
#[derive(Clone, Copy, PartialEq, Eq, Debug)]
pub struct Period {
    start: Ms,
    end: Ms,
}

impl Model for Period {
    ghost use Rattle.timebase.specs.Period.{PeriodView};

    ghost Value = { PeriodView };

    ghost use Rattle.std.specs.Prelude.{◌≤ℤ◌};

    ghost view = { λ a. record { start = a.start; end = a.end } };

    ghost invariant = { λ a. a.start ≤ℤ a.end };

    ghost inverse = { λ p. record { start = p.start; end = p.end } };
}

impl Period {
    /// The period from `start` to `end`; `None` where `start` is the later one.
    pub fn new(start: Ms, end: Ms) -> Option<Period>
        ensures { result ≡ period_of start end }
    {
        if end < start {
            return None;
        }
        Some(Period { start, end })
    }

    /// Its first moment.
    pub fn start(self) -> Ms
        // It is the first moment.
        ensures value { result ≡ self.start }
        // It is not after the last one.
        ensures ordered { self.start ≤ℤ self.end }
    {
        self.start
    }

    /// Its last moment.
    pub fn end(self) -> Ms
        // It is the last moment.
        ensures value { result ≡ self.end }
        // It is not before the first one.
        ensures ordered { self.start ≤ℤ self.end }
    {
        self.end
    }
}

/// The moment of that many milliseconds, which may be out of range.
fn within(millis: i128) -> Result<Ms, TimeFault>
    ensures { result ≡ moment_within millis }
{
    if millis < FIRST as i128 || millis > LAST as i128 {
        return Err(TimeFault::OutOfRange);
    }
    Ok(Ms {
        millis: millis as i64,
    })
}

/// The whole milliseconds of so many nanoseconds, rounded down.
fn whole_millis(nanoseconds: i128) -> i128
    ensures { result ≡ int_div_euclid nanoseconds (pos 1000000) }
{
    nanoseconds.div_euclid(1_000_000)
}

/// Reads an instant, as `2012-01-17T12:33:41Z`: what `jiff` reads as a timestamp, rounded down to the
/// millisecond, before 1970 too. It takes no memory.
///
/// `Unreadable` where `jiff` refuses the text (it wants an offset or `Z`), `OutOfRange` where the
/// moment is out of range.
pub fn read_instant(text: &str) -> Result<Ms, TimeFault>
    ensures { result ≡ moment_of text.now }
{
    match text.parse::<Timestamp>() {
        Ok(instant) => within(whole_millis(instant.as_nanosecond())),
        Err(_) => Err(TimeFault::Unreadable),
    }
}

/// Appends the text of a moment, its date and time at UTC as `YYYY-MM-DDTHH:MM:SS.mmmZ`.
pub fn push_instant(out: &mut Vec<u8>, at: Ms) -> Result<(), Memory>
    // It appends exactly the text of the moment.
    ensures ok { OnOk result (out.new.items ≡ out.old.items ++ instant_text at) }
    // If memory runs out, nothing was appended.
    ensures err { OnErr result (out.new.items ≡ out.old.items) }

    // The text that is appended.
    ensures reads_back { moment_of (instant_text at) ≡ Ok at }
{
    let text = printing::instant_text(at);
    out.extend_from_slice(text.as_str().as_bytes())
}

/// The moment an offset after a base; `OutOfRange` where it is out of range. It takes no memory.
pub fn at_offset(base: Ms, offset: Offset) -> Result<Ms, TimeFault>
    ensures { result ≡ moment_at base offset }
{
    within(base.millis as i128 + offset.millis() as i128)
}

/// The moment an offset after a start, as far as the offset was read.
fn after(start: Ms, offset: Result<Offset, NumberFault>) -> Result<Ms, TimeFault>
    ensures { result ≡ moment_after start offset }
{
    match offset {
        Ok(offset) => at_offset(start, offset),
        Err(NumberFault::Shape) => Err(TimeFault::Unreadable),
        Err(NumberFault::Range) => Err(TimeFault::OutOfRange),
    }
}

/// Reads a time field: with `Sec` and `Minute` so many seconds or minutes after `start`, with
/// `Absolute` an instant, as `read_instant` does. It takes no memory.
///
/// `Unreadable` where the text is no number, or no instant, `OutOfRange` where the offset or the
/// moment is out of range.
#[tactic(auto, unfolding(crate::specs::Time::time_of))]
pub fn read_time(unit: Unit, start: Ms, text: &str) -> Result<Ms, TimeFault>
    ensures { result ≡ time_of unit start text.now }
{
    match unit {
        Unit::Sec => after(start, read_offset(text)),
        Unit::Minute => after(start, read_minutes(text)),
        Unit::Absolute => read_instant(text),
    }
}
