//! The words of eight pages, one in each lane, by loads of whole vectors.

ghost use Rattle.std.specs.Prelude.{◌≡◌, ℕ, ◌+◌, ◌*◌, ◌<◌, ◌≤◌, [], ◌∷◌, slice_index};
ghost use Rattle.sha2.specs.Sha256.{word_at};
ghost use Rattle.digests.specs.Lanes.{lane, lane_at};
ghost use Rattle.digests.specs.Pages.{page};

use std::simd::{u8x16, u32x4, u32x8};

/// The four words that sixteen bytes make, high byte first.
#[inline(always)]
fn words_of(bytes: u8x16) -> u32x4
    ensures { (i : ℕ) → i < 4 → slice_index result i ≡ word_at bytes (4 * i) }
{
    u32x4::from_le_bytes(bytes.swizzle([3, 2, 1, 0, 7, 6, 5, 4, 11, 10, 9, 8, 15, 14, 13, 12]))
}

/// A page's four words from byte `at` on.
#[inline(always)]
fn four_of(bytes: &[u8; 4096], at: usize) -> u32x4
    requires { at + 16 ≤ 4096 }
    ensures { (i : ℕ) → i < 4 → slice_index result i ≡ word_at bytes.now (at + 4 * i) }
{
    words_of(u8x16::from_slice(&bytes[at..at + 16]))
}

/// Two pages' words side by side.
#[inline(always)]
fn pair(low: u32x4, high: u32x4) -> u32x8
    ensures low { (i : ℕ) → i < 4 → slice_index result i ≡ slice_index low i }
    ensures high { (i : ℕ) → i < 4 → slice_index result (4 + i) ≡ slice_index high i }
{
    low.shuffle(high, [0, 1, 2, 3, 4, 5, 6, 7])
}

/// From a vector for each pair of pages to a vector for each word.
#[inline(always)]
fn turn(first: u32x8, second: u32x8, third: u32x8, fourth: u32x8) -> [u32x8; 4]
    ensures low { (i j : ℕ) → i < 4 → j < 4
        → lane_at result i j ≡ lane_at (first ∷ second ∷ third ∷ fourth ∷ []) j i }
    ensures high { (i j : ℕ) → i < 4 → j < 4
        → lane_at result i (4 + j) ≡ lane_at (first ∷ second ∷ third ∷ fourth ∷ []) j (4 + i) }
{
    let front_low = first.shuffle(second, [0, 8, 1, 9, 4, 12, 5, 13]);
    let front_high = first.shuffle(second, [2, 10, 3, 11, 6, 14, 7, 15]);
    let back_low = third.shuffle(fourth, [0, 8, 1, 9, 4, 12, 5, 13]);
    let back_high = third.shuffle(fourth, [2, 10, 3, 11, 6, 14, 7, 15]);
    [
        front_low.shuffle(back_low, [0, 1, 8, 9, 4, 5, 12, 13]),
        front_low.shuffle(back_low, [2, 3, 10, 11, 6, 7, 14, 15]),
        front_high.shuffle(back_high, [0, 1, 8, 9, 4, 5, 12, 13]),
        front_high.shuffle(back_high, [2, 3, 10, 11, 6, 7, 14, 15]),
    ]
}

/// Four words of each page, from byte `at` on.
#[inline(always)]
fn four_words(pages: &[&[u8; 4096]; 8], at: usize) -> [u32x8; 4]
    requires { at + 16 ≤ 4096 }
    ensures { (i j : ℕ) → i < 4 → j < 8
        → lane_at result i j ≡ word_at (page j pages.now) (at + 4 * i) }
{
    turn(
        pair(four_of(pages[0], at), four_of(pages[4], at)),
        pair(four_of(pages[1], at), four_of(pages[5], at)),
        pair(four_of(pages[2], at), four_of(pages[6], at)),
        pair(four_of(pages[3], at), four_of(pages[7], at)),
    )
}

/// The sixteen words of each page from byte `at` on.
#[inline(always)]
pub(crate) fn block_words(pages: &[&[u8; 4096]; 8], at: usize) -> [u32x8; 16]
    requires { at + 64 ≤ 4096 }
    ensures { (j k : ℕ) → j < 8 → k < 16
        → slice_index (lane j result) k ≡ word_at (page j pages.now) (at + 4 * k) }
{
    let [w0, w1, w2, w3] = four_words(pages, at);
    let [w4, w5, w6, w7] = four_words(pages, at + 16);
    let [w8, w9, w10, w11] = four_words(pages, at + 32);
    let [w12, w13, w14, w15] = four_words(pages, at + 48);
    [
        w0, w1, w2, w3, w4, w5, w6, w7, w8, w9, w10, w11, w12, w13, w14, w15,
    ]
}
