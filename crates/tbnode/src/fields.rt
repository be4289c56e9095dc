//! Numbers in the bytes of a payload, big-endian.
ghost use Rattle.std.specs.Prelude.{◌≡◌, ◌+◌, ◌≤◌, length};
ghost use Rattle.byteorder.specs.Endian.{big_bytes};
ghost use Rattle.tbnode.specs.Parts.{part, put, number_at, signed_at, signed_bytes};

use byteorder::{BigEndian, ByteOrder};

/// Some of the bytes, from a place on.
#[tactic(auto, unfolding(crate::specs::Parts::part))]
pub fn part(bytes: &[u8], place: usize, len: usize) -> &[u8]
    requires { place + len ≤ length bytes.now }
    ensures value { result.now ≡ part place len bytes.now }
    ensures len { length result.now ≡ len }
{
    &bytes[place..place + len]
}

/// The number in the 8 bytes from a place on.
#[tactic(auto, unfolding(crate::specs::Parts::number_at))]
pub fn u64_at(bytes: &[u8], place: usize) -> u64
    requires { place + 8 ≤ length bytes.now }
    ensures { result ≡ number_at 8 place bytes.now }
{
    BigEndian::read_u64(part(bytes, place, 8))
}

/// The number in the 8 bytes from a place on, as two's complement.
#[tactic(auto, unfolding(crate::specs::Parts::signed_at, crate::specs::Parts::number_at))]
pub fn i64_at(bytes: &[u8], place: usize) -> i64
    requires { place + 8 ≤ length bytes.now }
    ensures { result ≡ signed_at place bytes.now }
{
    BigEndian::read_i64(part(bytes, place, 8))
}

/// The number in the 4 bytes from a place on.
#[tactic(auto, unfolding(crate::specs::Parts::number_at))]
pub fn u32_at(bytes: &[u8], place: usize) -> u32
    requires { place + 4 ≤ length bytes.now }
    ensures { result ≡ number_at 4 place bytes.now }
{
    BigEndian::read_u32(part(bytes, place, 4))
}

/// The number in the 2 bytes from a place on.
#[tactic(auto, unfolding(crate::specs::Parts::number_at))]
pub fn u16_at(bytes: &[u8], place: usize) -> u16
    requires { place + 2 ≤ length bytes.now }
    ensures { result ≡ number_at 2 place bytes.now }
{
    BigEndian::read_u16(part(bytes, place, 2))
}

/// Writes bytes over those from a place on.
#[tactic(auto, unfolding(crate::specs::Parts::put))]
pub fn put(bytes: &mut [u8], place: usize, new: &[u8])
    requires { place + length new.now ≤ length bytes.old }
    ensures { bytes.new ≡ put place new.now bytes.old }
{
    bytes[place..place + new.len()].copy_from_slice(new);
}

/// Writes a number over the 8 bytes from a place on.
pub fn put_u64(bytes: &mut [u8], place: usize, n: u64)
    requires { place + 8 ≤ length bytes.old }
    ensures { bytes.new ≡ put place (big_bytes 8 n) bytes.old }
{
    put(bytes, place, &n.to_be_bytes());
}

/// Writes a number over the 8 bytes from a place on, as two's complement.
pub fn put_i64(bytes: &mut [u8], place: usize, n: i64)
    requires { place + 8 ≤ length bytes.old }
    ensures { bytes.new ≡ put place (signed_bytes n) bytes.old }
{
    put(bytes, place, &n.to_be_bytes());
}

/// Writes a number over the 4 bytes from a place on.
pub fn put_u32(bytes: &mut [u8], place: usize, n: u32)
    requires { place + 4 ≤ length bytes.old }
    ensures { bytes.new ≡ put place (big_bytes 4 n) bytes.old }
{
    put(bytes, place, &n.to_be_bytes());
}

/// Writes a number over the 2 bytes from a place on.
pub fn put_u16(bytes: &mut [u8], place: usize, n: u16)
    requires { place + 2 ≤ length bytes.old }
    ensures { bytes.new ≡ put place (big_bytes 2 n) bytes.old }
{
    put(bytes, place, &n.to_be_bytes());
}
