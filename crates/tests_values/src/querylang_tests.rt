use querylang::*;
use std::alloc::Global;
use std::test::Fail;

/// What a line says, with the name of its command in front.
fn said(alloc: Global, line: &[u8]) -> Result<String, Fail> {
    Ok(match parse_line(alloc, line) {
        Ok(None) => String::from_str(alloc, "none")?,
        Ok(Some(Command::Load(name))) => format!(in alloc; "load<{}>", name.as_str())?,
        Ok(Some(Command::Trajectory(name))) => format!(in alloc; "trajectory<{}>", name.as_str())?,
        Ok(Some(Command::Count)) => String::from_str(alloc, "count")?,
        Ok(Some(Command::Box(_, _))) => String::from_str(alloc, "box")?,
        Ok(Some(Command::Legs(_, _, _))) => String::from_str(alloc, "legs")?,
        Ok(Some(Command::Features(_, _, _))) => String::from_str(alloc, "features")?,
        Ok(Some(Command::Write)) => String::from_str(alloc, "write")?,
        Err(fault) => format!(in alloc; "{fault}")?,
    })
}

/// Lines, and what they are read as. Each other refusal stands in a script of the database's tests.
const LINES: [(&[u8], &str); 11] = [
    (b" \t ", "none"),
    (b" # load x", "none"),
    (b"\tload  two  words \t", "load<two  words>"),
    (b"trajectory a, b", "trajectory<a, b>"),
    (b" count ", "count"),
    (b"write", "write"),
    (
        b"box 0 0 1 1 2020-01-01T00:00:00Z 2020-01-01T00:00:01Z",
        "box",
    ),
    (
        b"legs ever 0 0 1 1 2020-01-01T00:00:00Z 2020-01-01T00:00:01Z",
        "legs",
    ),
    (
        b"features bypasses 0 0 1 1 2020-01-01T00:00:00Z 2020-01-01T00:00:01Z",
        "features",
    ),
    (b"count \xff", "the line is refused: Q1"),
    (b"trajectory ", "the line is refused: Q3"),
];

#[test]
fn lines_are_read(rt: HostRuntime) -> Result<(), Fail> {
    for (line, want) in LINES {
        let got = said(rt.alloc(), line)?;
        assert_eq!(rt; got.as_str(), want);
    }
    Ok(())
}
