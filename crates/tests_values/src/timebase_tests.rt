use fixedpoint::Offset;
use std::test::Fail;
use timebase::*;

/// Texts of instants, and their milliseconds.
const INSTANTS: [(&str, Result<i64, TimeFault>); 12] = [
    ("2012-01-17T13:33:41+01:00", Ok(1_326_803_621_000)),
    ("2012-01-17T12:33:41Z", Ok(1_326_803_621_000)),
    ("1969-12-31T23:59:59.9995Z", Ok(-1)),
    ("1970-01-01T00:00:00.0009Z", Ok(0)),
    ("0001-01-01T00:00:00Z", Ok(-62_135_596_800_000)),
    ("9998-12-31T23:59:59.9999Z", Ok(253_370_764_799_999)),
    ("0000-12-31T23:59:59.999Z", Err(TimeFault::OutOfRange)),
    ("9999-01-01T00:00:00Z", Err(TimeFault::OutOfRange)),
    ("9999-06-01T00:00:00Z", Err(TimeFault::OutOfRange)),
    ("2012-01-17T12:33:41", Err(TimeFault::Unreadable)),
    ("2012-02-30T12:33:41Z", Err(TimeFault::Unreadable)),
    ("", Err(TimeFault::Unreadable)),
];

#[test]
fn instants_read_as_jiff_reads_them(rt: HostRuntime) -> Result<(), Fail> {
    for (text, moment) in &INSTANTS {
        assert_eq!(rt; read_instant(text).map(Ms::millis), *moment, "at {text}");
    }
    Ok(())
}

/// Milliseconds, and what is printed of them.
const PRINTED_INSTANTS: [(i64, &str); 4] = [
    (-1, "1969-12-31T23:59:59.999Z"),
    (1_326_803_621_000, "2012-01-17T12:33:41.000Z"),
    (-62_135_596_800_000, "0001-01-01T00:00:00.000Z"),
    (253_370_764_799_999, "9998-12-31T23:59:59.999Z"),
];

#[test]
fn instants_print_their_date_and_time(rt: HostRuntime) -> Result<(), Fail> {
    for (millis, text) in &PRINTED_INSTANTS {
        let at = Ms::new(*millis).ok_or("a moment")?;
        let mut out = Vec::new(rt.alloc());
        push_instant(&mut out, at)?;
        assert_eq!(rt; out.as_slice(), text.as_bytes(), "at {millis}");
    }
    Ok(())
}

#[test]
fn an_offset_counts_from_its_base(rt: HostRuntime) -> Result<(), Fail> {
    let base = Ms::new(253_370_764_799_998).ok_or("a moment")?;
    for (millis, moment) in [
        (1, Ok(253_370_764_799_999)),
        (2, Err(TimeFault::OutOfRange)),
    ] {
        let offset = Offset::new(millis).ok_or("an offset")?;
        assert_eq!(rt; at_offset(base, offset).map(Ms::millis), moment);
    }
    Ok(())
}

/// Units, texts of times in them, and their milliseconds.
const TIME_FIELDS: [(Unit, &str, Result<i64, TimeFault>); 11] = [
    (Unit::Sec, "0.5", Ok(1_577_836_800_500)),
    (Unit::Minute, "0.5", Ok(1_577_836_830_000)),
    (Unit::Minute, "-1", Ok(1_577_836_740_000)),
    (
        Unit::Absolute,
        "2020-01-01T00:00:01Z",
        Ok(1_577_836_801_000),
    ),
    (Unit::Absolute, "1970-01-01T01:00:00+01:00", Ok(0)),
    (Unit::Sec, "1e3", Err(TimeFault::Unreadable)),
    (Unit::Sec, "1000000000000.001", Err(TimeFault::OutOfRange)),
    (Unit::Sec, "251792928000", Err(TimeFault::OutOfRange)),
    (
        Unit::Minute,
        "2020-01-01T00:00:01Z",
        Err(TimeFault::Unreadable),
    ),
    (Unit::Absolute, "1", Err(TimeFault::Unreadable)),
    (
        Unit::Absolute,
        "2020-01-01T00:00:01",
        Err(TimeFault::Unreadable),
    ),
];

#[test]
fn time_fields_count_by_their_unit(rt: HostRuntime) -> Result<(), Fail> {
    // 2020-01-01T00:00:00Z
    let start = Ms::new(1_577_836_800_000).ok_or("a moment")?;
    for (unit, text, moment) in &TIME_FIELDS {
        assert_eq!(rt;
            read_time(*unit, start, text).map(Ms::millis),
            *moment,
            "at {text}"
        );
    }
    Ok(())
}
