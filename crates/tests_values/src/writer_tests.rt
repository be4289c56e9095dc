use fixedpoint::Coord;
use legs::{BookHead, Leg};
use mfcsv::{Column, Columns, Dimension, Position, Text, Values};
use rows::{Row, Rows};
use std::alloc::Global;
use std::test::Fail;
use timebase::Ms;
use writer::*;

/// 2020-01-01T00:00:00Z.
const BASE: i64 = 1_577_836_800_000;

fn at(seconds: i64) -> Option<Ms> {
    Ms::new(BASE.wrapping_add(seconds.wrapping_mul(1000)))
}

/// A position, in halves, a little below the plane.
fn position((x, y): (i64, i64)) -> Option<Position> {
    let x = Coord::new(x.wrapping_mul(5_000_000))?;
    let y = Coord::new(y.wrapping_mul(5_000_000))?;
    let z = Coord::new(-1)?;
    Some(Position { x, y, z })
}

/// A leg of a feature and a row of one number, by its seconds and its ends in halves.
fn leg(number: u32, (t0, t1): (i64, i64), from: (i64, i64), to: (i64, i64)) -> Option<Leg> {
    let (t0, t1) = (at(t0)?, at(t1)?);
    let (from, to) = (position(from)?, position(to)?);
    Leg::new(u64::from(number), number, t0, t1, from, to, number)
}

fn text(alloc: Global, text: &str) -> Option<Text> {
    match String::from_str(alloc, text) {
        Ok(text) => Some(Text::from(text)),
        Err(_) => None,
    }
}

/// Puts a row of a value, or of none, and that many blank ones, behind others.
fn push(alloc: Global, rows: &mut Rows, first: Option<&str>, blanks: usize) -> Option<()> {
    let mut values = Vec::new(alloc);
    if let Some(first) = first {
        values.push(text(alloc, first)?).ok()?;
    }
    rows.push(&Values::with_blanks(values, blanks)).ok()
}

#[test]
fn features_are_quoted_where_they_need_it(rt: HostRuntime) -> Result<(), Fail> {
    let mut out = Vec::new(rt.alloc());
    push_features(rt.alloc(), &mut out, &["a", "a, b"])?;
    assert_eq!(rt; out.as_slice(), "a\n\"a, b\"\n".as_bytes());
    Ok(())
}

/// A row without values.
fn no_values(alloc: Global) -> Option<Rows> {
    let mut rows = Rows::new(alloc);
    push(alloc, &mut rows, None, 0)?;
    Some(rows)
}

/// The record of a leg, in two dimensions and in three.
fn records(alloc: Global, leg: &Leg, rows: &Rows) -> Option<Vec<u8>> {
    let none = rows.row(0)?;
    let mut out = Vec::new(alloc);
    for dimension in [Dimension::Two, Dimension::Three] {
        let frame = Frame {
            dimension,
            base: at(0)?,
        };
        push_leg_record(alloc, &mut out, "a", frame, leg, &none).ok()?;
    }
    Some(out)
}

/// Those of a leg that starts a second before the base.
fn early_records(alloc: Global) -> Option<Vec<u8>> {
    let leg = leg(0, (-1, 2), (1, 0), (2, 0))?;
    records(alloc, &leg, &no_values(alloc)?)
}

#[test]
fn a_record_counts_from_the_base(rt: HostRuntime) -> Result<(), Fail> {
    let told = early_records(rt.alloc()).ok_or("no records")?;
    let wanted = "a,-1,2,0.5 0 1 0\na,-1,2,0.5 0 -0.0000001 1 0 -0.0000001\n";
    assert_eq!(rt; told.as_slice(), wanted.as_bytes());
    Ok(())
}

/// One column.
fn columns(alloc: Global) -> Option<Columns> {
    let column = Column {
        name: text(alloc, "state")?,
        kind: text(alloc, "xsd:token")?,
    };
    let mut columns = Vec::new(alloc);
    columns.push(column).ok()?;
    Some(Columns::from(columns))
}

/// The head of a book in the plane, with that column.
fn head(alloc: Global) -> Option<BookHead> {
    let base = at(0)?;
    Some(BookHead {
        crs: text(alloc, "local")?,
        dimension: Dimension::Two,
        base,
        columns: columns(alloc)?,
    })
}

/// Two rows.
fn two_rows(alloc: Global) -> Option<Rows> {
    let mut rows = Rows::new(alloc);
    push(alloc, &mut rows, Some("walking"), 1)?;
    push(alloc, &mut rows, Some("on, foot"), 0)?;
    Some(rows)
}

fn entry<'a>(name: &'a str, leg: &'a Leg, values: Row<'a>) -> Entry<'a> {
    Entry { name, leg, values }
}

/// Two legs.
fn legs() -> Option<[Leg; 2]> {
    let long = leg(0, (0, 100), (3, 4), (1, -6))?;
    Some([long, leg(1, (10, 90), (14, 8), (4, 18))?])
}

/// Their file.
fn written(alloc: Global, head: &BookHead) -> Option<Vec<u8>> {
    let [long, short] = legs()?;
    let rows = two_rows(alloc)?;
    let walking = entry("a", &long, rows.row(0)?);
    let on_foot = entry("b", &short, rows.row(1)?);
    let entries = [walking, on_foot];
    let mut out = Vec::new(alloc);
    push_file(alloc, &mut out, head, &entries).ok()?;
    Some(out)
}

fn file(alloc: Global) -> Option<Vec<u8>> {
    written(alloc, &head(alloc)?)
}

#[test]
fn a_file_is_bounded_by_all_legs(rt: HostRuntime) -> Result<(), Fail> {
    let told = file(rt.alloc()).ok_or("no file")?;
    let wanted =
        "@stboundedby,local,2D,0.5 -3,7 9,2020-01-01T00:00:00.000Z,2020-01-01T00:01:40.000Z,sec\n\
        @columns,mfidref,trajectory,state,xsd:token\n\
        a,0,100,1.5 2 0.5 -3,walking,\n\
        b,10,90,7 4 2 9,\"on, foot\"\n";
    assert_eq!(rt; told.as_slice(), wanted.as_bytes());
    Ok(())
}
