//! Printing a moment.
ghost use Rattle.std.specs.Prelude.{◌≡◌, Ok};
ghost use Rattle.timebase.specs.Instant.{moment_of};
ghost use Rattle.timebase.specs.InstantText.{instant_text};

use crate::Ms;
use arrayvec::ArrayString;
use jiff::Timestamp;
use jiff::fmt::temporal::DateTimePrinter;

/// The text of a moment.
pub(crate) fn instant_text(at: Ms) -> ArrayString<33>
    ensures text { result.bytes ≡ instant_text at }
    ensures reads_back { moment_of (instant_text at) ≡ Ok at }
{
    match Timestamp::from_millisecond(at.millis) {
        Ok(instant) => DateTimePrinter::new()
            .precision(Some(3))
            .timestamp_text(instant.to_plain()),
        Err(_) => unreachable!(),
    }
}
