//! Rectangles and periods, as they are written in words.
use arguments::Corners;
use fixedpoint::{Coord, read_coord};
use legs::Rect;
use querylang::LineCode;
use sessions::Fault;
use timebase::{Ms, Period, TimeFault, read_instant};
use trajdb::RunFault;

/// The greatest coordinate, in units of 10^-7.
const MOST: i64 = 1_000_000_000_000_000;

/// The first and the last moment that there are, in milliseconds since 1970-01-01T00:00:00Z.
const FIRST: i64 = -62_135_596_800_000;

const LAST: i64 = 253_370_764_799_999;

/// The rectangle in which each leg is.
pub(crate) fn plane() -> Option<Rect> {
    let (least, most) = (Coord::new(-MOST)?, Coord::new(MOST)?);
    Rect::new(least, least, most, most)
}

/// The period in which each leg is.
pub(crate) fn always() -> Option<Period> {
    Period::new(Ms::new(FIRST)?, Ms::new(LAST)?)
}

/// Whether what was written is one word of a line.
pub(crate) fn is_word(text: &str) -> bool {
    for byte in text.as_bytes() {
        if byte.is_ascii_whitespace() {
            return false;
        }
    }
    !text.is_empty()
}

/// Refuses coordinates of which one is no word.
pub(crate) fn hold_words(texts: &[&str]) -> Result<(), Fault> {
    for text in texts {
        if !is_word(text) {
            return Err(Fault::Bounds(LineCode::Q3));
        }
    }
    Ok(())
}

/// Refuses times of which one is no word: none of them is an instant.
pub(crate) fn hold_times(times: [&str; 2]) -> Result<(), Fault> {
    if is_word(times[0]) && is_word(times[1]) {
        Ok(())
    } else {
        Err(Fault::Bounds(LineCode::Q7))
    }
}

/// The coordinate of a word.
fn coord_of(word: &str) -> Result<Coord, LineCode> {
    match read_coord(word) {
        Ok(coord) => Ok(coord),
        Err(_) => Err(LineCode::Q5),
    }
}

/// The rectangle of X1, Y1, X2 and Y2, refused as the line of a script is.
pub(crate) fn rect_of(corners: &Corners<'_>) -> Result<Rect, LineCode> {
    let x1 = coord_of(corners.x1)?;
    let y1 = coord_of(corners.y1)?;
    let x2 = coord_of(corners.x2)?;
    let y2 = coord_of(corners.y2)?;
    match Rect::new(x1, y1, x2, y2) {
        Some(rect) => Ok(rect),
        None => Err(LineCode::Q6),
    }
}

/// The moment of a word.
fn moment_of(word: &str) -> Result<Ms, Fault> {
    match read_instant(word) {
        Ok(moment) => Ok(moment),
        Err(TimeFault::Memory) => Err(Fault::Run(RunFault::Memory)),
        Err(_) => Err(Fault::Bounds(LineCode::Q7)),
    }
}

/// The period of T1 and T2, refused likewise.
pub(crate) fn period_of(times: [&str; 2]) -> Result<Period, Fault> {
    hold_times(times)?;
    period_between(moment_of(times[0])?, moment_of(times[1])?)
}

/// The period between two moments; refused where the last is before the first.
fn period_between(first: Ms, last: Ms) -> Result<Period, Fault> {
    match Period::new(first, last) {
        Some(period) => Ok(period),
        None => Err(Fault::Bounds(LineCode::Q8)),
    }
}
