//! Rows that are put behind one another, and lent.
use mfcsv::{Text, Values};
use rows::{GrowingRows, Rows};
use std::alloc::Global;
use std::test::Fail;

/// A row of these values, and that many blank ones behind them.
fn values(alloc: Global, texts: &[&str], blanks: usize) -> Result<Values, Fail> {
    let mut values = Vec::new(alloc);
    for text in texts {
        values.push(Text::from(String::from_str(alloc, text)?))?;
    }
    Ok(Values::with_blanks(values, blanks))
}

/// Whether a row has these values.
fn has(rows: &Rows, row: usize, wanted: &[&str]) -> bool {
    let Some(row) = rows.row(row) else {
        return false;
    };
    for (i, value) in wanted.iter().enumerate() {
        if row.value(i) != *value {
            return false;
        }
    }
    row.len() == wanted.len()
}

#[test]
fn rows_are_lent_as_they_were_put(rt: HostRuntime) -> Result<(), Fail> {
    let alloc = rt.alloc();
    let mut rows = Rows::new(alloc);
    rows.push(&values(alloc, &["walking", "caf\u{e9}"], 0)?)?;
    rows.push(&values(alloc, &[], 2)?)?;
    rows.push(&values(alloc, &["", "1"], 0)?)?;
    assert_eq!(rt; rows.len(), 3);
    assert!(rt; has(&rows, 0, &["walking", "caf\u{e9}"]));
    assert!(rt; has(&rows, 1, &["", ""]));
    assert!(rt; has(&rows, 2, &["", "1"]));
    assert!(rt; rows.row(3).is_none());
    assert!(rt; rows.have(2) && !rows.have(1));
    Ok(())
}

/// Puts the same rows in turn.
fn push_in_turn(rows: &mut Rows, turns: &[Values], count: usize) -> Result<(), Fail> {
    for i in 0..count {
        if let Some(row) = turns.get(i.checked_rem(turns.len()).unwrap_or(0)) {
            rows.push(row)?;
        }
    }
    Ok(())
}

#[test]
fn equal_rows_are_each_lent(rt: HostRuntime) -> Result<(), Fail> {
    let alloc = rt.alloc();
    let mut turns = Vec::new(alloc);
    turns.push(values(alloc, &["Freja", "cargo"], 0)?)?;
    turns.push(values(alloc, &["\u{c5}se", "\u{1f6a2}"], 0)?)?;
    turns.push(values(alloc, &["", "cargo"], 0)?)?;
    let mut rows = Rows::new(alloc);
    push_in_turn(&mut rows, turns.as_slice(), 100_000)?;
    assert_eq!(rt; rows.len(), 100_000);
    for i in 0..33_333 {
        let first = 3 * i;
        assert!(rt; has(&rows, first, &["Freja", "cargo"]));
        assert!(rt; has(&rows, first + 1, &["\u{c5}se", "\u{1f6a2}"]));
        assert!(rt; has(&rows, first + 2, &["", "cargo"]));
    }
    assert!(rt; has(&rows, 99_999, &["Freja", "cargo"]));
    Ok(())
}

#[test]
fn rows_that_join_to_the_same_text_differ(rt: HostRuntime) -> Result<(), Fail> {
    let alloc = rt.alloc();
    let mut rows = Rows::new(alloc);
    for _ in 0..2 {
        rows.push(&values(alloc, &["a", "bc"], 0)?)?;
        rows.push(&values(alloc, &["ab", "c"], 0)?)?;
        rows.push(&values(alloc, &["abc", ""], 0)?)?;
        rows.push(&values(alloc, &["abc"], 1)?)?;
        rows.push(&values(alloc, &["abc"], 0)?)?;
        rows.push(&values(alloc, &[], 2)?)?;
        rows.push(&values(alloc, &[], 0)?)?;
    }
    for first in [0, 7] {
        assert!(rt; has(&rows, first, &["a", "bc"]));
        assert!(rt; has(&rows, first + 1, &["ab", "c"]));
        assert!(rt; has(&rows, first + 2, &["abc", ""]));
        assert!(rt; has(&rows, first + 3, &["abc", ""]));
        assert!(rt; has(&rows, first + 4, &["abc"]));
        assert!(rt; has(&rows, first + 5, &["", ""]));
        assert!(rt; has(&rows, first + 6, &[]));
    }
    Ok(())
}

#[test]
fn many_rows_that_differ_are_found_again(rt: HostRuntime) -> Result<(), Fail> {
    let alloc = rt.alloc();
    let mut rows = Rows::new(alloc);
    for _ in 0..2 {
        for i in 0..5_000 {
            let number = format!(in alloc; "{i}")?;
            rows.push(&values(alloc, &[number.as_str(), "ship"], 0)?)?;
        }
    }
    for i in 0..5_000 {
        let number = format!(in alloc; "{i}")?;
        assert!(rt; has(&rows, i, &[number.as_str(), "ship"]));
        assert!(rt; has(&rows, i + 5_000, &[number.as_str(), "ship"]));
    }
    Ok(())
}

#[test]
fn other_rows_are_put_behind(rt: HostRuntime) -> Result<(), Fail> {
    let alloc = rt.alloc();
    let (mut rows, mut more) = (Rows::new(alloc), Rows::new(alloc));
    rows.push(&values(alloc, &["caf\u{e9}"], 1)?)?;
    more.push(&values(alloc, &["cafe"], 1)?)?;
    more.push(&values(alloc, &["caf\u{e9}"], 1)?)?;
    rows.append(more)?;
    assert_eq!(rt; rows.len(), 3);
    assert!(rt; has(&rows, 0, &["caf\u{e9}", ""]));
    assert!(rt; has(&rows, 1, &["cafe", ""]));
    assert!(rt; has(&rows, 2, &["caf\u{e9}", ""]));
    Ok(())
}

#[test]
fn rows_that_grow_are_lent_as_they_ended(rt: HostRuntime) -> Result<(), Fail> {
    let alloc = rt.alloc();
    let mut rows = GrowingRows::new(alloc);
    for value in ["walking", "", "walking", "", "walk", "ing", "left out"] {
        rows.push_value(value)?;
        if value == "" || value == "ing" {
            rows.end_row()?;
        }
    }
    let rows = rows.into_rows();
    assert_eq!(rt; rows.len(), 3);
    assert!(rt; has(&rows, 0, &["walking", ""]));
    assert!(rt; has(&rows, 1, &["walking", ""]));
    assert!(rt; has(&rows, 2, &["walk", "ing"]));
    Ok(())
}
