//! Printing a number, exactly and as short as can be.
ghost use Rattle.std.specs.Prelude.{◌≡◌, ◌≤◌, ◌<◌, ◌+◌, ◌/◌, ◌%◌, ◌^◌, ◌++◌, OnOk, OnErr, Ok};
ghost use Rattle.arrayvec.specs.ArrayVec.{array_vec_len};
ghost use Rattle.fixedpoint.specs.Number.{number_of, IsInRange};
ghost use Rattle.fixedpoint.specs.NumberText.{fraction_digits, plain_text, number_text};
ghost use Rattle.fixedpoint.specs.Laws.{WritesExactly, IsShortest};

use crate::Memory;
use arrayvec::ArrayVec;
use itoa::Buffer;

/// Room for a sign, a whole number of at most 40 digits, a point and 7 digits behind it.
type Text = ArrayVec<u8, 64>;

/// How often `power` goes into `n`, and what is left. By a constant a compiler multiplies where it would divide.
fn split(n: u64, power: u64) -> (u64, u64)
    requires { 0 < power }
    ensures quotient { result.0 ≡ n / power }
    ensures rest { result.1 ≡ n % power }
{
    match power {
        10_000_000 => (n / 10_000_000, n % 10_000_000),
        1_000 => (n / 1_000, n % 1_000),
        _ => (n / power, n % power),
    }
}

/// Appends the digits of `rest / power` behind the point, until nothing is left.
fn push_fraction(text: &mut Text, power: u64, places: u32, rest: u64)
    requires room { array_vec_len text.old + places ≤ 64 }
    requires below { rest < power }
    requires power { power ≤ 10000000 }
    ensures { text.new.items ≡ text.old.items ++ fraction_digits places power rest }
{
    let mut rest = rest;
    'digits: for place in 0..places {
        if rest == 0 {
            break;
        }
        let (digit, next) = split(rest * 10, power);
        text.push(b'0' + digit as u8);
        rest = next;
    }
}

/// Appends a number of units of 10^-places, `power` being 10^places.
fn push_magnitude(text: &mut Text, units: u64, power: u64, places: u32)
    requires places { places ≤ 7 }
    requires scale { power ≡ 10 ^ places }
    requires power { (0 < power) × (power ≤ 10000000) }
    requires room { array_vec_len text.old ≤ 1 }
    ensures { text.new.items ≡ text.old.items ++ plain_text places units }
{
    let mut buffer = Buffer::new();
    let (whole, rest) = split(units, power);
    let _ = text.try_extend_from_slice(buffer.format(whole).as_bytes());
    if rest != 0 {
        text.push(b'.');
        push_fraction(text, power, places, rest);
    }
}

/// Appends the text of a number of units of 10^-places, in one growth.
pub(crate) fn push_number(out: &mut Vec<u8>, units: i64, places: u32) -> Result<(), Memory>
    requires places { (1 ≤ places) × (places ≤ 7) }
    requires range { IsInRange units }
    ensures ok { OnOk result (out.new.items ≡ out.old.items ++ number_text places units) }
    ensures err { OnErr result (out.new.items ≡ out.old.items) }
    ensures exact { WritesExactly places units (number_text places units) }
    ensures shortest { IsShortest places units (number_text places units) }
    ensures reads_back { number_of (10 ^ places) (number_text places units) ≡ Ok units }
{
    let mut text: Text = ArrayVec::new();
    if units < 0 {
        text.push(b'-');
    }
    push_magnitude(&mut text, units.unsigned_abs(), 10u64.pow(places), places);
    out.extend_from_slice(text.as_slice())
}
