//! The digests of any number of pages.

ghost use Rattle.std.specs.Prelude.{◌≡◌, ◌+◌, ◌*◌, ◌≤◌, ◌++◌, drop, length, map, take};
ghost use Rattle.digests.specs.Pages.{digest_of};

use crate::hashing::digests;
use sha2::{Digest, Sha256};

/// The digest of one page.
fn digest(bytes: &[u8; 4096]) -> [u8; 32]
    ensures { result ≡ digest_of bytes.now }
{
    Sha256::digest(&bytes[..4064])
}

/// Writes the digests of the eight pages from `at` on.
fn put_eight(pages: &[&[u8; 4096]], at: usize, out: &mut [[u8; 32]])
    requires pages { at + 8 ≤ length pages.now }
    requires out { length out.old ≡ length pages.now }
    ensures long { length out.new ≡ length pages.now }
    ensures written { take (at + 8) out.new
        ≡ take at out.old ++ map (λ p. digest_of p.now) (take 8 (drop at pages.now)) }
{
    let all = digests(&[
        pages[at],
        pages[at + 1],
        pages[at + 2],
        pages[at + 3],
        pages[at + 4],
        pages[at + 5],
        pages[at + 6],
        pages[at + 7],
    ]);
    out[at..at + 8].copy_from_slice(&all);
}

/// Writes the SHA-256 of the first 4,064 bytes of each page, eight at a time, and the rest one by one.
pub fn digest_all(pages: &[&[u8; 4096]], out: &mut [[u8; 32]])
    // There is a place for each digest.
    requires { length out.old ≡ length pages.now }
    // Digest by digest it is that of the page at the same place.
    ensures { out.new ≡ map (λ p. digest_of p.now) pages.now }
{
    let groups = pages.len() / 8;
    'eights: for group in 0..groups {
        put_eight(pages, 8 * group, out);
    }
    'rest: for index in 8 * groups..pages.len() {
        out[index] = digest(pages[index]);
    }
}
