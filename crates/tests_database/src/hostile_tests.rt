//! Hostile files, through the database over pages and over a list.
use crate::run_tests::is_answered;
use legs::Limits;
use std::alloc::Global;
use std::hash::RandomState;
use std::test::Fail;
use trajdb::{Files, RunFault};

/// Two header lines.
const HEADS: &str = "\
@stboundedby,local,2D,0 0,0 0,2020-01-01T00:00:00Z,2020-01-02T00:00:00Z,sec
@columns,mfidref,trajectory
";

/// The beginnings of hostile files, what follows, and what their loads answer.
const HOSTILE: [(&str, &[u8], &str); 16] = [
    ("", b"", "refused F8 at 0\n"),
    (
        "@stboundedby,local,2D,0 0,0 0,",
        b"2020-01-01T00:00:00,2020-01-02T00:00:00Z,sec",
        "refused F5 at 1\n",
    ),
    (
        "@stboundedby,local,2D,0 0,0 0,2020-01-01T00:00:00Z,2020-01-02T00:00:00Z,sec\n",
        b"@columns,trajectory,mfidref",
        "refused F7 at 2\n",
    ),
    (HEADS, b"x,0,1,\xff", "refused F1 at 3\n"),
    (HEADS, b"@columns,mfidref,trajectory", "refused F2 at 3\n"),
    (
        "@stboundedby,local,2D,0 0,0 0,",
        b"2020-01-01T00:00:00Z",
        "refused F3 at 1\n",
    ),
    ("", b"x,0,1,0 0", "refused F8 at 1\n"),
    (HEADS, b"x,0,1", "refused F11 at 3\n"),
    (HEADS, b"x,0,1,0 0,y", "refused F11 at 3\n"),
    (HEADS, b"x,0,1,0 0,", "ok 1\n1,1,1\n"),
    (HEADS, b"\"x,0,1,0 0", "refused F11 at 3\n"),
    (HEADS, b" ,0,1,0 0", "refused F12 at 3\n"),
    (HEADS, b"x,0,1000000000000,0 0", "refused F13 at 3\n"),
    (HEADS, b"x,1,1,0 0", "refused F14 at 3\n"),
    (HEADS, b"x,0,1,", "refused F16 at 3\n"),
    (HEADS, b"x,0,1,0 0 1", "refused F16 at 3\n"),
];

/// A file that begins and goes on like this.
fn named(alloc: Global, head: &str, rest: &[u8]) -> Result<Files, RunFault> {
    let mut bytes = Vec::from_slice(alloc, head.as_bytes())?;
    bytes.extend_from_slice(rest)?;
    let mut files = Files::new(alloc);
    files.add("hostile", bytes)?;
    Ok(files)
}

/// Whether its load answers so over pages and over a list.
fn is_told(
    alloc: Global,
    keys: RandomState,
    (head, rest, want): (&str, &[u8], &str),
) -> Result<bool, RunFault> {
    let limits = Limits::new(1000, 1000).ok_or(RunFault::Failed)?;
    let files = named(alloc, head, rest)?;
    let asked = (b"load hostile".as_slice(), want.as_bytes());
    is_answered(alloc, keys, limits, &files, asked)
}

/// The first file of a table that is answered otherwise, if any.
fn wrong_file(alloc: Global, keys: RandomState, table: &[(&str, &[u8], &str)]) -> Option<usize> {
    for (at, (head, rest, want)) in table.iter().enumerate() {
        if is_told(alloc, keys, (head, rest, want)) != Ok(true) {
            return Some(at);
        }
    }
    None
}

#[test]
fn hostile_files_are_refused(rt: HostRuntime) -> Result<(), Fail> {
    let keys = RandomState::new(&rt)?;
    assert_eq!(rt; wrong_file(rt.alloc(), keys, &HOSTILE), None);
    Ok(())
}
