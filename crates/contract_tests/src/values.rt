//! Words, numbers and moments.
ghost use Rattle.std.specs.Prelude.{[], ◌∷◌, ◌<◌, ◌≡◌, ◌^◌, length, IfOk, MatchOption};
ghost use Rattle.words.specs.Words.{separates, words_between};
ghost use Rattle.fixedpoint.specs.Laws.{IsNearest};
ghost use Rattle.timebase.specs.Instant.{moment_of};

use fixedpoint::{NumberFault, Offset};
use timebase::{Ms, TimeFault};
use words::Separator;

/// The first word of a text, and what stands behind it; `None` where there is no word.
///
/// Wrong bodies: blanks in front make a word.
pub fn next_word(text: &str, between: Separator) -> Option<(&str, &str)>
    ensures found { MatchOption result (words_between (separates between) text.now ≡ [])
        (λ w. (words_between (separates between) text.now
        ≡ w.0.now ∷ words_between (separates between) w.1.now)
        × (length w.1.now < length text.now)) }
{
    words::next_word(text, between)
}

/// An offset, written in seconds.
///
/// Wrong bodies: digits are cut off and not rounded.
pub fn read_offset(text: &str) -> Result<Offset, NumberFault>
    ensures nearest { IfOk result (IsNearest (10 ^ 3) text.now) }
{
    fixedpoint::read_offset(text)
}

/// An instant.
///
/// Wrong bodies: a moment before 1970 is rounded up.
pub fn read_instant(text: &str) -> Result<Ms, TimeFault>
    ensures { result ≡ moment_of text.now }
{
    timebase::read_instant(text)
}
