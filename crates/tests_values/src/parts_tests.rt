ghost use Rattle.std.specs.Prelude.{◌<◌};

use mfcsv::read_file;
use parts::{part, part_of, parts};
use std::alloc::Global;
use std::test::Fail;

/// Both header lines, with a text before them, and then these lines.
macro_rules! headed {
    ($before:literal, $lines:literal) => {
        concat!(
            $before,
            "@stboundedby,metres,2D,,,2024-01-01T00:00:00Z,,sec\n",
            "@columns,mfidref,trajectory,note,xsd:string\n",
            $lines
        )
    };
}

#[test]
fn numbers(rt: HostRuntime) {
    assert!(rt; part_of(1000, b"a") == 673);
    assert!(rt; part_of(1000000, b"ab") == 49824);
    assert!(rt; part_of(2, b"a") == 1);
}

/// Whether a part of the two of a text is that one.
fn is_half(alloc: Global, half: u64, text: &[u8], wanted: &[u8]) -> bool
    requires { half < 2 }
{
    match part(alloc, half, 2, text) {
        Ok(given) => given.as_slice() == wanted,
        Err(_) => false,
    }
}

/// A text, and the two halves of it.
const WHOLE: &str = headed!(
    "",
    "a,0,10,0 0 10 0,\"x,\ny\"\n b ,0,10,0 0 10 0\na,10,20,10 0 0 0\n"
);

const ZERO: &str = headed!("\n", " \n b ,0,10,0 0 10 0\n \n");

const ONE: &str = headed!("\n", "a,0,10,0 0 10 0,\"x,\ny\"\n \na,10,20,10 0 0 0\n");

#[test]
fn halves(rt: HostRuntime) {
    let alloc = rt.alloc();
    assert!(rt; is_half(alloc, 0, WHOLE.as_bytes(), ZERO.as_bytes()));
    assert!(rt; is_half(alloc, 1, WHOLE.as_bytes(), ONE.as_bytes()));
}

#[test]
fn a_half_is_a_file(rt: HostRuntime) -> Result<(), Fail> {
    let file = read_file(rt.alloc(), ONE.as_bytes())?;
    let records = file.records.as_slice();
    assert!(rt; records.len() == 2);
    assert_eq!(rt; records.last().map(|record| record.number), Some(5));
    Ok(())
}

/// A text of two features.
const TWO: &str = headed!("", "a,0,10,0 0 10 0\n b ,0,10,0 0 10 0\n");

#[test]
fn one_pass(rt: HostRuntime) -> Result<(), Fail> {
    let alloc = rt.alloc();
    let both = parts(alloc, 1, 2, 3, TWO.as_bytes())?;
    assert!(rt; both.len() == 2);
    for (place, half) in both.iter().enumerate() {
        let alone = part(alloc, 1 + place as u64, 3, TWO.as_bytes())?;
        assert!(rt; half.as_slice() == alone.as_slice());
    }
    Ok(())
}
