//! A file that is cut, joined and accepted, with room enough. Worked files and scripts are tested over the database, over
//! the list index too.
use legs::*;
use mfcsv::{File, read_file};
use std::alloc::Global;
use std::hash::RandomState;
use std::test::Fail;
use timebase::Ms;

/// A file whose three records have five legs of two features.
const FILE: &str = "\
@stboundedby,local,2D,,,2020-01-01T00:00:00Z,
@columns,mfidref,trajectory
a,0,0.010,0 0 1 0 2 0 3 0
b,0,5,7 8
a,0.010,1,9 9 9 8
";

/// 2020-01-01T00:00:00Z.
const BASE: i64 = 1577836800000;

/// One degree.
const ONE: i64 = 10_000_000;

/// What a leg is: its ordinal, feature and row, its times in milliseconds after the start of the file,
/// and its ends.
type Facts = ((u64, u32, u32), (i64, i64), [i64; 4]);

/// The legs of the file.
const LEGS: [Facts; 5] = [
    ((0, 0, 0), (0, 3), [0, 0, ONE, 0]),
    ((1, 0, 0), (3, 6), [ONE, 0, 2 * ONE, 0]),
    ((2, 0, 0), (6, 10), [2 * ONE, 0, 3 * ONE, 0]),
    ((3, 1, 1), (0, 5000), [7 * ONE, 8 * ONE, 7 * ONE, 8 * ONE]),
    ((4, 0, 2), (10, 1000), [9 * ONE, 9 * ONE, 9 * ONE, 8 * ONE]),
];

fn moments(t0: Ms, t1: Ms) -> (i64, i64) {
    (
        t0.millis().saturating_sub(BASE),
        t1.millis().saturating_sub(BASE),
    )
}

fn is_leg(leg: &Leg, facts: &Facts) -> bool {
    let ((ordinal, feature, row), times, [x0, y0, x1, y1]) = *facts;
    let is_numbered = leg.ordinal == ordinal && leg.feature == feature && leg.row == row;
    let begins = leg.x0.units() == x0 && leg.y0.units() == y0;
    let ends = leg.x1.units() == x1 && leg.y1.units() == y1;
    is_numbered && moments(leg.t0, leg.t1) == times && begins && ends
}

fn are_legs(legs: &[Leg], facts: &[Facts]) -> bool {
    legs.len() == facts.len()
        && legs
            .iter()
            .zip(facts)
            .all(|(leg, facts)| is_leg(leg, facts))
}

/// A check that answers `None` where memory runs out. Where one allocation fails, the answer is there when
/// it is asked again.
macro_rules! assert_holds {
    ($rt:ident, $check:ident $(, $keys:ident)?) => {
        let answer = match $check($rt.alloc() $(, $keys)?) {
            None => $check($rt.alloc() $(, $keys)?),
            answer => answer,
        };
        assert_eq!($rt; answer, Some(true));
    };
}

fn read(alloc: Global, text: &str) -> Option<File> {
    read_file(alloc, text.as_bytes()).ok()
}

/// The file on a book without legs, with just enough room.
fn joined(alloc: Global, tracks: &Tracks, file: &File) -> Option<Joined> {
    let limits = Limits::new(5, 2)?;
    join(alloc, None, tracks, &limits, file).ok()
}

fn is_joined(joined: &Joined) -> bool {
    let counted = (joined.record_count(), joined.feature_count()) == (3, 2);
    are_legs(joined.legs(), &LEGS) && counted
}

fn joins(alloc: Global, keys: RandomState) -> Option<bool> {
    let file = read(alloc, FILE)?;
    let tracks = Tracks::new(alloc, keys).ok()?;
    Some(is_joined(&joined(alloc, &tracks, &file)?))
}

#[test]
fn a_file_is_joined(rt: HostRuntime) -> Result<(), Fail> {
    let keys = RandomState::new(&rt)?;
    assert_holds!(rt, joins, keys);
    Ok(())
}

/// Second files behind the first one, in a book that may have one leg more: the first joining fault of each.
const REFUSED: [(&str, JoinCode, u64); 7] = [
    (
        "@stboundedby,town,2D,,,2020-01-01T00:00:00Z,\n@columns,mfidref,trajectory\n",
        JoinCode::F9,
        1,
    ),
    (
        "@columns,mfidref,trajectory\n@stboundedby,local,3D,,,2020-01-01T00:00:00Z,\n",
        JoinCode::F9,
        2,
    ),
    (
        "@stboundedby,local,2D,,,2020-01-01T00:00:00Z,\n@columns,mfidref,trajectory,state,\n",
        JoinCode::F10,
        2,
    ),
    (
        "@stboundedby,local,2D,,,2020-01-01T00:00:00Z,\n@columns,mfidref,trajectory\na,0.9,2,0 0\n",
        JoinCode::F18,
        3,
    ),
    // An earlier record of the file counts.
    (
        "@stboundedby,local,2D,,,2020-01-01T00:00:00Z,\n@columns,mfidref,trajectory\nb,5,10,0 0\nb,9.999,20,0 0\n",
        JoinCode::F18,
        4,
    ),
    (
        "@stboundedby,local,2D,,,2020-01-01T00:00:00Z,\n@columns,mfidref,trajectory\na,1,2,0 0 1 1 2 2\n",
        JoinCode::F19,
        3,
    ),
    (
        "@stboundedby,local,2D,,,2020-01-01T00:00:00Z,\n@columns,mfidref,trajectory\nc,0,1,0 0\n",
        JoinCode::F20,
        3,
    ),
];

/// The head of the book that the file makes.
fn book_head(alloc: Global) -> Option<BookHead> {
    Some(BookHead::from(read(alloc, FILE)?.head))
}

/// Whether a file is refused so behind the first one; `None` where memory runs out.
fn is_refused(
    alloc: Global,
    (head, tracks): (&BookHead, &Tracks),
    text: &str,
    wanted: JoinFault,
) -> Option<bool> {
    let limits = Limits::new(6, 2)?;
    let file = read(alloc, text)?;
    match join(alloc, Some(head), tracks, &limits, &file) {
        Err(JoinFault::Memory) => None,
        Err(fault) => Some(fault == wanted),
        Ok(_) => Some(false),
    }
}

fn refuses_second(alloc: Global, keys: RandomState) -> Option<bool> {
    let (head, tracks) = (book_head(alloc)?, accepted(alloc, keys)?);
    for (text, code, number) in &REFUSED {
        let fault = JoinFault::Refused {
            code: *code,
            number: *number,
        };
        if !is_refused(alloc, (&head, &tracks), text, fault)? {
            return Some(false);
        }
    }
    Some(true)
}

#[test]
fn each_joining_fault_has_its_code(rt: HostRuntime) -> Result<(), Fail> {
    let keys = RandomState::new(&rt)?;
    assert_holds!(rt, refuses_second, keys);
    Ok(())
}

/// The tracks of the book that the file makes.
fn accepted(alloc: Global, keys: RandomState) -> Option<Tracks> {
    let file = read(alloc, FILE)?;
    let mut tracks = Tracks::new(alloc, keys).ok()?;
    let joined = joined(alloc, &tracks, &file)?;
    tracks.accept(&joined).ok()?;
    Some(tracks)
}

fn is_track(track: Option<Track>, end: i64, legs: u64) -> bool {
    match track {
        Some(track) => moments(track.end, track.end) == (end, end) && track.legs == legs,
        None => false,
    }
}

fn has_names(tracks: &Tracks) -> bool {
    tracks.feature("b") == Some(1)
        && tracks.feature("c").is_none()
        && tracks.name(0) == Some("a")
        && tracks.name(2).is_none()
}

fn has_counts(tracks: &Tracks) -> bool {
    let counts = (
        tracks.feature_count(),
        tracks.leg_count(),
        tracks.row_count(),
    );
    counts == (2, 5, 3) && is_track(tracks.track(0), 1000, 4) && is_track(tracks.track(1), 5000, 1)
}

fn accepts(alloc: Global, keys: RandomState) -> Option<bool> {
    let tracks = accepted(alloc, keys)?;
    Some(has_names(&tracks) && has_counts(&tracks))
}

#[test]
fn a_file_is_accepted(rt: HostRuntime) -> Result<(), Fail> {
    let keys = RandomState::new(&rt)?;
    assert_holds!(rt, accepts, keys);
    Ok(())
}

fn is_step(step: &Step, times: (i64, i64), from: i64, to: i64) -> bool {
    moments(step.t0, step.t1) == times
        && step.x0.units() == from
        && step.x1.units() == to
        && step.y0.units() == 0
        && step.y1.units() == 0
}

fn are_steps(steps: &[Step]) -> bool {
    steps.len() == 3
        && is_step(&steps[0], (0, 3), 0, ONE)
        && is_step(&steps[1], (3, 6), ONE, 2 * ONE)
        && is_step(&steps[2], (6, 10), 2 * ONE, 3 * ONE)
}

fn cuts(alloc: Global) -> Option<bool> {
    let file = read(alloc, FILE)?;
    let steps = cut(alloc, file.records.as_slice().first()?).ok()?;
    Some(are_steps(steps.as_slice()))
}

#[test]
fn a_record_is_cut(rt: HostRuntime) {
    assert_holds!(rt, cuts);
}
