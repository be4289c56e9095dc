//! How moments are shown.
use crate::sentence::Sentence;
use timebase::Ms;

/// Where the time begins in the text of an instant, as `2024-06-04T00:03:38Z`.
const TIME: usize = 11;

/// The day of a moment, counted from 1970-01-01.
fn day_of(moment: Ms) -> i64 {
    moment.millis().div_euclid(86_400_000)
}

/// Says a moment beside another one: its time alone where it is of the same day.
pub(crate) fn say_beside(said: &mut Sentence, moment: Ms, other: Ms) {
    if day_of(moment) == day_of(other) {
        said.instant(moment, TIME);
    } else {
        said.instant(moment, 0);
    }
}
