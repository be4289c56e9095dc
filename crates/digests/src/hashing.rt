//! The digests of eight pages.

ghost use Rattle.std.specs.Prelude.{◌≡◌, ℕ, ◌+◌, ◌*◌, ◌<◌, ◌≤◌, [], length, take, slice_index, slice_index_or};
ghost use Rattle.sha2.specs.Sha256.{digest_bytes, final_hash, initial_hash_256, padded_message, word_at};
ghost use Rattle.digests.specs.Lanes.{lane, state_lane};
ghost use Rattle.digests.specs.Pages.{digest_of, page};

use crate::consts::INITIAL_HASH;
use crate::lanes::splat;
use crate::load::block_words;
use crate::rounds::compress;
use std::simd::u32x8;

/// The word at byte `at`, high byte first.
#[inline(always)]
fn word_of(bytes: &[u8; 4096], at: usize) -> u32
    requires { at + 4 ≤ 4096 }
    ensures word { result ≡ word_at bytes.now at }
    ensures long { length bytes.now ≡ 4096 }
{
    u32::from_be_bytes([bytes[at], bytes[at + 1], bytes[at + 2], bytes[at + 3]])
}

#[inline(always)]
fn words_at(pages: &[&[u8; 4096]; 8], at: usize) -> u32x8
    requires { at + 4 ≤ 4096 }
    ensures word { (j : ℕ) → j < 8 → slice_index result j ≡ word_at (page j pages.now) at }
    ensures long { (j : ℕ) → j < 8 → length (page j pages.now) ≡ 4096 }
{
    u32x8::from_array([
        word_of(pages[0], at),
        word_of(pages[1], at),
        word_of(pages[2], at),
        word_of(pages[3], at),
        word_of(pages[4], at),
        word_of(pages[5], at),
        word_of(pages[6], at),
        word_of(pages[7], at),
    ])
}

/// The last block's words: 32 bytes of each page, and the padding of 4,064 bytes.
#[inline(always)]
fn last_words(pages: &[&[u8; 4096]; 8]) -> [u32x8; 16]
    ensures long { (j : ℕ) → j < 8 → length (page j pages.now) ≡ 4096 }
    ensures word { (j k : ℕ) → j < 8 → k < 16 → slice_index (lane j result) k
        ≡ word_at (padded_message (take 4064 (page j pages.now))) (4032 + 4 * k) }
{
    [
        words_at(pages, 4032),
        words_at(pages, 4036),
        words_at(pages, 4040),
        words_at(pages, 4044),
        words_at(pages, 4048),
        words_at(pages, 4052),
        words_at(pages, 4056),
        words_at(pages, 4060),
        splat(0x8000_0000),
        splat(0),
        splat(0),
        splat(0),
        splat(0),
        splat(0),
        splat(0),
        splat(32512),
    ]
}

/// The hash value of the first 4,064 bytes of each page: 63 whole blocks, and the last one.
fn hash(pages: &[&[u8; 4096]; 8]) -> [u32x8; 8]
    ensures { (j : ℕ) → j < 8
        → state_lane j result ≡ final_hash initial_hash_256 (take 4064 (page j pages.now)) }
{
    let mut state = [
        splat(INITIAL_HASH[0]),
        splat(INITIAL_HASH[1]),
        splat(INITIAL_HASH[2]),
        splat(INITIAL_HASH[3]),
        splat(INITIAL_HASH[4]),
        splat(INITIAL_HASH[5]),
        splat(INITIAL_HASH[6]),
        splat(INITIAL_HASH[7]),
    ];
    'blocks: for number in 0..63 {
        compress(&mut state, &block_words(pages, 64 * number));
    }
    compress(&mut state, &last_words(pages));
    state
}

/// The bytes of one message's hash value.
#[inline(always)]
fn bytes_of(words: [u32; 8]) -> [u8; 32]
    ensures { result ≡ digest_bytes words 8 }
{
    let mut bytes = [0u8; 32];
    'words: for index in 0..8 {
        bytes[4 * index..4 * index + 4].copy_from_slice(&words[index].to_be_bytes());
    }
    bytes
}

/// The words of message `number`.
#[inline(always)]
fn lane_of(state: &[u32x8; 8], number: usize) -> [u32; 8]
    requires { number < 8 }
    ensures { result ≡ state_lane number state.now }
{
    let a = state[0].to_array();
    let b = state[1].to_array();
    let c = state[2].to_array();
    let d = state[3].to_array();
    let e = state[4].to_array();
    let f = state[5].to_array();
    let g = state[6].to_array();
    let h = state[7].to_array();
    [
        a[number], b[number], c[number], d[number], e[number], f[number], g[number], h[number],
    ]
}

/// The SHA-256 of the first 4,064 bytes of each of eight pages.
pub fn digests(pages: &[&[u8; 4096]; 8]) -> [[u8; 32]; 8]
    ensures { (j : ℕ) → j < 8 → slice_index_or result j [] ≡ digest_of (page j pages.now) }
{
    let state = hash(pages);
    [
        bytes_of(lane_of(&state, 0)),
        bytes_of(lane_of(&state, 1)),
        bytes_of(lane_of(&state, 2)),
        bytes_of(lane_of(&state, 3)),
        bytes_of(lane_of(&state, 4)),
        bytes_of(lane_of(&state, 5)),
        bytes_of(lane_of(&state, 6)),
        bytes_of(lane_of(&state, 7)),
    ]
}
