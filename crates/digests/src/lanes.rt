//! The words of eight messages, one in each lane, and SHA-256's functions on them (FIPS 180-4, 4.1.2).

ghost use Rattle.std.specs.Prelude.{◌≡◌, ℕ, ◌<◌, ◌/◌, ◌^◌, slice_index, bit_xor};
ghost use Rattle.std.specs.Int.{w32, rotate_right};
ghost use Rattle.sha2.specs.Sha256.{add32, big_sigma0, big_sigma1, ch, maj, small_sigma0, small_sigma1};

use std::simd::u32x8;

/// One word for all messages.
#[inline(always)]
pub(crate) fn splat(word: u32) -> u32x8
    ensures { (j : ℕ) → j < 8 → slice_index result j ≡ word }
{
    u32x8::splat(word)
}

#[inline(always)]
pub(crate) fn add(x: u32x8, y: u32x8) -> u32x8
    ensures { (j : ℕ) → j < 8 → slice_index result j ≡ add32 (slice_index x j) (slice_index y j) }
{
    x + y
}

#[inline(always)]
fn xor(x: u32x8, y: u32x8) -> u32x8
    ensures { (j : ℕ) → j < 8 → slice_index result j ≡ bit_xor (slice_index x j) (slice_index y j) }
{
    x ^ y
}

#[inline(always)]
fn rotate(x: u32x8, bits: u32) -> u32x8
    requires { (0 < bits) × (bits < 32) }
    ensures { (j : ℕ) → j < 8 → slice_index result j ≡ rotate_right w32 (slice_index x j) bits }
{
    (x >> u32x8::splat(bits)) | (x << u32x8::splat(32 - bits))
}

#[inline(always)]
fn shift(x: u32x8, bits: u32) -> u32x8
    requires { bits < 32 }
    ensures { (j : ℕ) → j < 8 → slice_index result j ≡ slice_index x j / 2 ^ bits }
{
    x >> u32x8::splat(bits)
}

#[inline(always)]
pub(crate) fn ch(x: u32x8, y: u32x8, z: u32x8) -> u32x8
    ensures { (j : ℕ) → j < 8
        → slice_index result j ≡ ch (slice_index x j) (slice_index y j) (slice_index z j) }
{
    (x & y) ^ (!x & z)
}

/// One round's `x ^ y` is the next round's `y ^ z`, so it is computed once.
#[inline(always)]
pub(crate) fn maj(x: u32x8, y: u32x8, z: u32x8) -> u32x8
    ensures { (j : ℕ) → j < 8
        → slice_index result j ≡ maj (slice_index x j) (slice_index y j) (slice_index z j) }
{
    y ^ ((x ^ y) & (y ^ z))
}

#[inline(always)]
pub(crate) fn big_sigma0(x: u32x8) -> u32x8
    ensures { (j : ℕ) → j < 8 → slice_index result j ≡ big_sigma0 (slice_index x j) }
{
    xor(xor(rotate(x, 2), rotate(x, 13)), rotate(x, 22))
}

#[inline(always)]
pub(crate) fn big_sigma1(x: u32x8) -> u32x8
    ensures { (j : ℕ) → j < 8 → slice_index result j ≡ big_sigma1 (slice_index x j) }
{
    xor(xor(rotate(x, 6), rotate(x, 11)), rotate(x, 25))
}

#[inline(always)]
pub(crate) fn small_sigma0(x: u32x8) -> u32x8
    ensures { (j : ℕ) → j < 8 → slice_index result j ≡ small_sigma0 (slice_index x j) }
{
    xor(xor(rotate(x, 7), rotate(x, 18)), shift(x, 3))
}

#[inline(always)]
pub(crate) fn small_sigma1(x: u32x8) -> u32x8
    ensures { (j : ℕ) → j < 8 → slice_index result j ≡ small_sigma1 (slice_index x j) }
{
    xor(xor(rotate(x, 17), rotate(x, 19)), shift(x, 10))
}
