use fixedpoint::*;
use std::alloc::Global;
use std::test::Fail;

/// The longest number text: 40 bytes.
const FORTY: &str = "0000000000000000000000000000000000000001";

/// One digit more.
const FORTY_ONE: &str = "00000000000000000000000000000000000000001";

/// Texts of coordinates, and their units of 10^-7.
const COORDINATES: [(&str, Result<i64, NumberFault>); 22] = [
    ("1.", Ok(10_000_000)),
    (".5", Ok(5_000_000)),
    ("+5", Ok(50_000_000)),
    ("-0", Ok(0)),
    ("1.00000005", Ok(10_000_001)),
    ("-0.00000005", Ok(-1)),
    ("1.00000004999", Ok(10_000_000)),
    (FORTY, Ok(10_000_000)),
    ("-100000000.00000004", Ok(-1_000_000_000_000_000)),
    ("", Err(NumberFault::Shape)),
    (".", Err(NumberFault::Shape)),
    ("-.", Err(NumberFault::Shape)),
    ("1e3", Err(NumberFault::Shape)),
    ("1.2.3", Err(NumberFault::Shape)),
    ("--1", Err(NumberFault::Shape)),
    ("1 ", Err(NumberFault::Shape)),
    ("\u{663}", Err(NumberFault::Shape)),
    (FORTY_ONE, Err(NumberFault::Shape)),
    ("100000000.0000001", Err(NumberFault::Range)),
    ("100000000.00000005", Err(NumberFault::Range)),
    ("-100000000.0000001", Err(NumberFault::Range)),
    (
        "9999999999999999999999999999999999999999",
        Err(NumberFault::Range),
    ),
];

#[test]
fn coordinates_read_to_the_nearest_unit(rt: HostRuntime) -> Result<(), Fail> {
    for (text, units) in &COORDINATES {
        assert_eq!(rt; read_coord(text).map(Coord::units), *units, "at {text}");
    }
    Ok(())
}

/// Texts of seconds, and their milliseconds.
const OFFSETS: [(&str, Result<i64, NumberFault>); 8] = [
    ("10", Ok(10_000)),
    ("0.0005", Ok(1)),
    ("-0.0005", Ok(-1)),
    ("0.00049", Ok(0)),
    ("-1000000000000.0004", Ok(-1_000_000_000_000_000)),
    ("1000000000000.001", Err(NumberFault::Range)),
    ("1000000000000.0005", Err(NumberFault::Range)),
    ("1e3", Err(NumberFault::Shape)),
];

#[test]
fn offsets_read_to_the_nearest_millisecond(rt: HostRuntime) -> Result<(), Fail> {
    for (text, millis) in &OFFSETS {
        assert_eq!(rt; read_offset(text).map(Offset::millis), *millis, "at {text}");
    }
    Ok(())
}

/// Texts of minutes, and their milliseconds.
const MINUTES: [(&str, Result<i64, NumberFault>); 11] = [
    ("0.5", Ok(30_000)),
    ("0.000025", Ok(2)),
    ("-0.000025", Ok(-2)),
    ("0.00000833", Ok(0)),
    ("0.00000834", Ok(1)),
    ("0.00000833333333333333333333333333333333", Ok(0)),
    ("-.99999999999999999999999999999999999999", Ok(-60_000)),
    ("16666666666.66667", Ok(1_000_000_000_000_000)),
    ("16666666666.666675", Err(NumberFault::Range)),
    ("16666666667", Err(NumberFault::Range)),
    ("1m", Err(NumberFault::Shape)),
];

#[test]
fn minutes_read_to_the_nearest_millisecond(rt: HostRuntime) -> Result<(), Fail> {
    for (text, millis) in &MINUTES {
        assert_eq!(rt;
            read_minutes(text).map(Offset::millis),
            *millis,
            "at {text}"
        );
    }
    Ok(())
}

/// Texts of coordinates, and what is printed of them.
const PRINTED_COORDINATES: [(&str, &str); 6] = [
    ("1.00000005", "1.0000001"),
    ("-0", "0"),
    ("+0.50", "0.5"),
    ("-.25", "-0.25"),
    ("-0.0000025", "-0.0000025"),
    ("100000000.00000004", "100000000"),
];

/// Where one growth is refused the vector is as it was, and the text is there when it is pushed again.
#[test]
fn coordinates_print_the_shortest_exact_text(rt: HostRuntime) -> Result<(), Fail> {
    for (read, printed) in &PRINTED_COORDINATES {
        let coord = read_coord(read)?;
        let mut out = Vec::new(rt.alloc());
        if push_coord(&mut out, coord).is_err() {
            push_coord(&mut out, coord)?;
        }
        assert_eq!(rt; out.as_slice(), printed.as_bytes(), "at {read}");
    }
    Ok(())
}

/// Milliseconds, and what is printed of them.
const PRINTED_OFFSETS: [(i64, &str); 4] = [(0, "0"), (1, "0.001"), (-1500, "-1.5"), (60_000, "60")];

/// Whether that is printed of so many milliseconds.
fn is_printed(alloc: Global, millis: i64, printed: &str) -> bool {
    let Some(offset) = Offset::new(millis) else {
        return false;
    };
    let mut out = Vec::new(alloc);
    push_offset(&mut out, offset).is_ok() && out.as_slice() == printed.as_bytes()
}

#[test]
fn offsets_print_in_seconds(rt: HostRuntime) {
    for (millis, printed) in &PRINTED_OFFSETS {
        assert!(rt; is_printed(rt.alloc(), *millis, printed));
    }
}
