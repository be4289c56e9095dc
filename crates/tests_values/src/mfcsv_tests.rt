//! The worked files of the format, and what no clause says. More files, whole or not, are loaded by the tests of the
//! database.
use mfcsv::*;
use std::alloc::Global;
use std::test::Fail;
use timebase::Ms;

/// The example of the standard.
const STANDARD: &str = "\
@stboundedby,urn:x-ogc:def:crs:EPSG:6.6:4326,2D,50.23 9.23,50.31 9.27,2012-01-17T12:33:41Z,2012-01-17T12:37:00Z,sec
@columns,mfidref,trajectory,state,xsd:token,\"type code\",xsd:integer
a,10,150,11.0 2.0 12.0 3.0,walking,1
b,10,190,10.0 2.0 11.0 3.0,walking,2
a,150,190,12.0 3.0 10.0 3.0,walking,2
c,10,190,12.0 1.0 10.0 2.0 11.0 3.0,vehicle,1
";

/// The line `@stboundedby` of most files below, and then these lines.
macro_rules! bounded {
    ($lines:literal) => {
        concat!(
            "@stboundedby,local,2D,0 0,0 0,2020-01-01T00:00:00Z,2020-01-02T00:00:00Z,sec\n",
            $lines
        )
    };
}

/// Both header lines of most files below, and then these lines.
macro_rules! headed {
    ($lines:literal) => {
        concat!(
            "@stboundedby,local,2D,0 0,0 0,2020-01-01T00:00:00Z,2020-01-02T00:00:00Z,sec\n",
            "@columns,mfidref,trajectory\n",
            $lines
        )
    };
}

/// Both header lines of a file with this unit, and then these lines.
macro_rules! in_unit {
    ($unit:literal, $lines:literal) => {
        concat!(
            "@stboundedby,local,2D,,,2020-01-01T00:00:00Z,,",
            $unit,
            "\n@columns,mfidref,trajectory\n",
            $lines
        )
    };
}

/// What a file says. Where one allocation fails the answer may be want of memory; asked again, it
/// is what the bytes say.
fn read(alloc: Global, bytes: &[u8]) -> Result<File, FileFault> {
    match read_file(alloc, bytes) {
        Err(FileFault::Memory) => read_file(alloc, bytes),
        answer => answer,
    }
}

/// Why a file is not read, if it is not.
fn refusal(alloc: Global, bytes: &[u8]) -> Option<FileFault> {
    read(alloc, bytes).err()
}

/// One degree.
const ONE: i64 = 10_000_000;

/// A head: its numbers, its reference system, its start in milliseconds and its columns.
#[derive(Clone, Copy)]
struct WantedHead {
    numbers: (u64, u64),
    crs: &'static str,
    start: i64,
    columns: &'static [(&'static str, &'static str)],
}

/// A record: its number, its name, its times in milliseconds from the start, its coordinates in units of
/// 10^-7, its values.
#[derive(Clone, Copy)]
struct Wanted {
    number: u64,
    name: &'static str,
    times: (i64, i64),
    positions: &'static [(i64, i64)],
    values: &'static [&'static str],
}

/// How many milliseconds a moment is after the start.
fn after(start: Ms, moment: Ms) -> i64 {
    moment.millis().saturating_sub(start.millis())
}

fn is_record(record: &Record, start: Ms, wanted: &Wanted) -> bool {
    record.number == wanted.number
        && record.mfidref.as_str() == wanted.name
        && (after(start, record.t0), after(start, record.t1)) == wanted.times
        && are_positions(record.positions.as_slice(), wanted.positions)
        && are_values(&record.attributes, wanted.values)
}

fn has_records(file: &File, wanted: &[Wanted]) -> bool {
    let start = file.head.start;
    let records = file.records.as_slice();
    records.len() == wanted.len()
        && records
            .iter()
            .zip(wanted)
            .all(|(record, wanted)| is_record(record, start, wanted))
}

fn are_positions(positions: &[Position], wanted: &[(i64, i64)]) -> bool {
    positions.len() == wanted.len()
        && positions
            .iter()
            .zip(wanted)
            .all(|(p, q)| (p.x.units(), p.y.units()) == *q)
}

/// Whether the values are those, of which the last that are blank may be only counted.
fn are_values(values: &Values, wanted: &[&str]) -> bool {
    let (kept, blanks) = values.parts();
    let split = wanted.len().saturating_sub(blanks);
    kept.len() == split
        && kept.iter().zip(wanted).all(|(v, w)| v.as_str() == *w)
        && wanted.iter().skip(split).all(|w| w.is_empty())
}

fn has_head(head: &Head, wanted: &WantedHead) -> bool {
    let columns = head.columns.as_slice();
    (head.number_bounds, head.number_columns) == wanted.numbers
        && head.crs.as_str() == wanted.crs
        && head.start.millis() == wanted.start
        && columns.len() == wanted.columns.len()
        && columns
            .iter()
            .zip(wanted.columns)
            .all(|(c, w)| c.name.as_str() == w.0 && c.kind.as_str() == w.1)
}

/// The head of the example.
const HEAD_OF_EXAMPLE: WantedHead = WantedHead {
    numbers: (1, 2),
    crs: "urn:x-ogc:def:crs:EPSG:6.6:4326",
    start: 1_326_803_621_000,
    columns: &[("state", "xsd:token"), ("type code", "xsd:integer")],
};

/// The records of the example.
const EXAMPLE: [Wanted; 4] = [
    Wanted {
        number: 3,
        name: "a",
        times: (10_000, 150_000),
        positions: &[(11 * ONE, 2 * ONE), (12 * ONE, 3 * ONE)],
        values: &["walking", "1"],
    },
    Wanted {
        number: 4,
        name: "b",
        times: (10_000, 190_000),
        positions: &[(10 * ONE, 2 * ONE), (11 * ONE, 3 * ONE)],
        values: &["walking", "2"],
    },
    Wanted {
        number: 5,
        name: "a",
        times: (150_000, 190_000),
        positions: &[(12 * ONE, 3 * ONE), (10 * ONE, 3 * ONE)],
        values: &["walking", "2"],
    },
    Wanted {
        number: 6,
        name: "c",
        times: (10_000, 190_000),
        positions: &[(12 * ONE, ONE), (10 * ONE, 2 * ONE), (11 * ONE, 3 * ONE)],
        values: &["vehicle", "1"],
    },
];

/// The head of most files below.
const LOCAL: WantedHead = WantedHead {
    numbers: (1, 2),
    crs: "local",
    start: 1_577_836_800_000,
    columns: &[],
};

/// A record that stands still from the start on.
const STILL: Wanted = Wanted {
    number: 3,
    name: "x",
    times: (0, 1000),
    positions: &[(0, 0)],
    values: &[],
};

/// One from half a minute on.
const LATER: Wanted = Wanted {
    times: (30_000, 60_000),
    ..STILL
};

/// A file, and what it says.
type WantedFile = (&'static str, WantedHead, &'static [Wanted]);

/// Files, and what they say.
const FILES: [WantedFile; 8] = [
    (STANDARD, HEAD_OF_EXAMPLE, &EXAMPLE),
    // A mark, odd case, foreign lines and a quoted field.
    (
        "\u{FEFF}@STBOUNDEDBY,local,2d,0 0,0 0,2020-01-01T00:00:00Z,2020-01-02T00:00:00Z\r\n@foliation,x\r\n@Columns,MFIDREF,Trajectory,note,xsd:string\r\n\"a, b\", 0 ,1,0 0 1 1\r\n",
        WantedHead {
            numbers: (1, 3),
            columns: &[("note", "xsd:string")],
            ..LOCAL
        },
        &[Wanted {
            number: 4,
            name: "a, b",
            positions: &[(0, 0), (ONE, ONE)],
            values: &[""],
            ..STILL
        }],
    ),
    // Two marks; an empty line is no record; a record of one blank field, and a foreign line, count; blank ends are
    // dropped.
    (
        "\u{FEFF}\u{FEFF} \t \n\n@Columns,mfidref,trajectory,\tname ,kind,last,,,\t\n@more\n@stboundedby, c r s ,2D,,,2020-01-01T00:00:00Z,,Sec,and,more\n\" \"\nx,0,1,\"\t0\r\n0 \n1\t\t1 \",,v, ,\t\n",
        WantedHead {
            numbers: (4, 2),
            crs: "c r s",
            columns: &[("name", "kind"), ("last", "")],
            ..LOCAL
        },
        &[Wanted {
            number: 6,
            positions: &[(0, 0), (ONE, ONE)],
            values: &["", "v"],
            ..STILL
        }],
    ),
    (headed!(""), LOCAL, &[]),
    // Blank fields past the last.
    (headed!("x,0,1,0 0, ,\t,\n"), LOCAL, &[STILL]),
    (in_unit!("", "x,30,60,0 0"), LOCAL, &[LATER]),
    (in_unit!(" Minute", "x,0.5,1,0 0"), LOCAL, &[LATER]),
    (
        in_unit!(
            "ABSOLUTE",
            "x,2020-01-01T00:00:30Z,2020-01-01T01:01:00+01:00,0 0"
        ),
        LOCAL,
        &[LATER],
    ),
];

/// Whether a file has this head, and these records.
fn is_file(file: &File, head: &WantedHead, records: &[Wanted]) -> bool {
    has_head(&file.head, head) && has_records(file, records)
}

/// The first of the files that says something else, if any.
fn wrong_file(alloc: Global, files: &[WantedFile]) -> Result<Option<usize>, FileFault> {
    for (at, (text, head, records)) in files.iter().enumerate() {
        if !is_file(&read(alloc, text.as_bytes())?, head, records) {
            return Ok(Some(at));
        }
    }
    Ok(None)
}

#[test]
fn files_are_read(rt: HostRuntime) -> Result<(), Fail> {
    assert_eq!(rt; wrong_file(rt.alloc(), &FILES)?, None);
    Ok(())
}

/// Files that are refused, each with its code and number.
const REFUSED: [(&str, Code, u64); 33] = [
    ("", Code::F8, 0),
    ("\n\n", Code::F8, 0),
    (bounded!(""), Code::F8, 0),
    ("@columns,mfidref,trajectory\n", Code::F8, 0),
    (
        bounded!("x,0,1,0 0\n@columns,mfidref,trajectory\n"),
        Code::F8,
        2,
    ),
    ("x,0,1,0 0", Code::F8, 1),
    (headed!("@STBOUNDEDBY\n"), Code::F2, 3),
    (
        "@stboundedby,local,2D,0 0,0 0,2020-01-01T00:00:00Z",
        Code::F3,
        1,
    ),
    (
        "@stboundedby,local,4D,0 0,0 0,2020-01-01T00:00:00Z,",
        Code::F4,
        1,
    ),
    (
        "@stboundedby,local,2D,0 0,0 0,2020-01-01T00:00:00,,day",
        Code::F5,
        1,
    ),
    (
        "@stboundedby,local,2D,0 0,0 0,9999-06-01T00:00:00Z,",
        Code::F5,
        1,
    ),
    (in_unit!("minutes", ""), Code::F6, 1),
    (bounded!("@columns,mfidref,tragectory\n"), Code::F7, 2),
    (bounded!("@columns,,trajectory\n"), Code::F7, 2),
    (bounded!("@columns,trajectory,mfidref"), Code::F7, 2),
    (headed!("x,0,1"), Code::F11, 3),
    (headed!("x,0,1,0 0,y"), Code::F11, 3),
    (headed!("\"x,0,1,0 0"), Code::F11, 3),
    (headed!(" ,0,1,0 0"), Code::F12, 3),
    (headed!("x,a,1,0 0"), Code::F13, 3),
    (headed!("x,0,1e3,0 0"), Code::F13, 3),
    (headed!("x,0,1000000000000,0 0"), Code::F13, 3),
    (
        in_unit!("minute", "x,0,2020-01-01T00:00:30Z,0 0"),
        Code::F13,
        3,
    ),
    (in_unit!("minute", "x,0,16666666667,0 0"), Code::F13, 3),
    (
        in_unit!("absolute", "x,2020-01-01T00:00:00,2020-01-01T00:00:30Z,0 0"),
        Code::F13,
        3,
    ),
    (
        in_unit!(
            "absolute",
            "x,2020-01-01T00:00:30Z,2020-01-01T00:00:30Z,0 0"
        ),
        Code::F14,
        3,
    ),
    // Within a record in the order of the codes, and the first record counts.
    (headed!("x,1,0.9999,0 y"), Code::F14, 3),
    (
        headed!("p,0,1,0 0\n\n\n@other\nx,1,1,0 0\nx,0\n"),
        Code::F14,
        5,
    ),
    (headed!("x,0,1,0 0 y"), Code::F15, 3),
    (headed!("n,0,1,0 0 0 100000000.0000001"), Code::F15, 3),
    (headed!("x,0,1,"), Code::F16, 3),
    (headed!("x,0,1,0 0 1"), Code::F16, 3),
    (headed!("q,0,0.002,0 0 1 1 2 2 3 3\n"), Code::F17, 3),
];

/// Bytes that are no text, in a line that would be skipped and in one that comes too early.
const NO_TEXT: [&[u8]; 2] = [b"@x,\xC3\n", b"x,\xFF"];

/// The first of the files that is read, or is refused for another reason, if any.
fn wrong_refusal(alloc: Global, files: &[(&str, Code, u64)]) -> Option<usize> {
    for (at, (text, code, number)) in files.iter().enumerate() {
        let (code, number) = (*code, *number);
        if refusal(alloc, text.as_bytes()) != Some(FileFault::Refused { code, number }) {
            return Some(at);
        }
    }
    None
}

#[test]
fn files_are_refused_by_their_first_fault(rt: HostRuntime) {
    assert_eq!(rt; wrong_refusal(rt.alloc(), &REFUSED), None);
    for bytes in &NO_TEXT {
        let (code, number) = (Code::F1, 1);
        let fault = refusal(rt.alloc(), bytes);
        assert!(rt; fault == Some(FileFault::Refused { code, number }));
    }
}

#[test]
fn prints_codes(rt: HostRuntime) {
    for (code, text) in [(Code::F1, "F1"), (Code::F17, "F17")] {
        assert_eq!(rt; code.as_str(), text);
        // Where the allocation fails there is nothing to compare.
        if let Ok(printed) = format!(in rt.alloc(); "{code}") {
            assert_eq!(rt; printed.as_str(), text);
        }
    }
}
