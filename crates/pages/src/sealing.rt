//! Pages as they are written.
ghost use Rattle.std.specs.Prelude.{◌≡◌, ◌≢◌, ◌++◌, length, take, Some, IfOk, OnErr};
ghost use Rattle.std.specs.Option.{ok_or};
ghost use Rattle.pages.specs.declared.payload.Payload.{Payload};
ghost use Rattle.digests.specs.Pages.{digest_of};
ghost use Rattle.pages.specs.Sealed.{front, sealed};
ghost use Rattle.pages.specs.Unsealed.{unsealed};

use crate::payload::{Kind, PageFault, Payload};
use byteorder::{BigEndian, ByteOrder};
use sha2::{Digest, Sha256};

/// Writes all of a page but its digest.
fn put_front(page: &mut [u8], number: u32, payload: &Payload)
    requires { length page.old ≡ 4064 }
    ensures { page.new ≡ front number payload.now }
{
    let (start, rest) = page.split_at_mut(4);
    BigEndian::write_u32(start, number);
    let (middle, bytes) = rest.split_at_mut(4);
    middle.copy_from_slice(&[payload.kind.code(), 0, 0, 0]);
    bytes.copy_from_slice(&payload.bytes);
}

/// A page of zero bytes.
pub(crate) fn blank() -> [u8; 4096] {
    [0; 4096]
}

/// Zero bytes, as many as a payload has.
fn blank_bytes() -> [u8; 4056] {
    [0; 4056]
}

/// The page that holds a payload under a number: the number in 4 bytes, big-endian, the kind's
/// code, three zero bytes, the payload's bytes, and the SHA-256 of these 4,064 bytes.
pub fn seal(number: u32, payload: &Payload) -> [u8; 4096]
    // It is exactly the page of the page format.
    ensures value { result ≡ sealed number payload.now }
    // Unsealed under its number, it gives the payload back.
    ensures reads_back { unsealed number result ≡ Some payload.now }
{
    let mut page = blank();
    let (start, digest) = page.split_at_mut(4064);
    put_front(start, number, payload);
    let of_start: [u8; 32] = Sha256::digest(&*start);
    digest.copy_from_slice(&of_start);
    page
}

/// The page that holds a payload under a number, with other bytes in the place of the digest.
pub(crate) fn page_with(number: u32, payload: &Payload, digest: &[u8; 32]) -> [u8; 4096]
    ensures whole { result ≡ front number payload.now ++ digest.now }
    ensures start { take 4064 result ≡ front number payload.now }
{
    let mut page = blank();
    let (start, end) = page.split_at_mut(4064);
    put_front(start, number, payload);
    end.copy_from_slice(digest);
    page
}

/// The SHA-256 of all of a page but its digest.
fn digest(page: &[u8; 4096]) -> [u8; 32]
    ensures { result ≡ digest_of page.now }
{
    Sha256::digest(&page[..4064])
}

/// What `unseal` gives, where the SHA-256 of the page's first 4,064 bytes is known.
pub fn unseal_with(number: u32, page: &[u8; 4096], digest: &[u8; 32]) -> Result<Payload, PageFault>
    // The digest that is given is the page's.
    requires { digest.now ≡ digest_of page.now }
    // It is exactly what the definition of a sealed page gives.
    ensures value { result ≡ ok_or (unsealed number page.now) (PageFault.Damaged number) }
    // A page whose payload is given is the seal of it.
    ensures sealed { IfOk result (λ payload. page.now ≡ sealed number payload) }
    // A page that is damaged is the seal of no payload.
    ensures damaged { OnErr result ((payload : Payload) → page.now ≢ sealed number payload) }
{
    let (start, _) = page.split_at(4064);
    let (head, body) = start.split_at(8);
    let Some(kind) = Kind::of(head[4]) else {
        return Err(PageFault::Damaged(number));
    };
    let mut bytes = blank_bytes();
    bytes.copy_from_slice(body);
    let payload = Payload { kind, bytes };
    if page_with(number, &payload, digest) == *page {
        Ok(payload)
    } else {
        Err(PageFault::Damaged(number))
    }
}

/// The payload whose seal under the number the page is; `Damaged` with the number where there is
/// none.
pub fn unseal(number: u32, page: &[u8; 4096]) -> Result<Payload, PageFault>
    // It is exactly what the definition of a sealed page gives.
    ensures value { result ≡ ok_or (unsealed number page.now) (PageFault.Damaged number) }
    // A page whose payload is returned is the seal of it.
    ensures sealed { IfOk result (λ payload. page.now ≡ sealed number payload) }
    // A page that is damaged is the seal of no payload.
    ensures damaged { OnErr result ((payload : Payload) → page.now ≢ sealed number payload) }
{
    unseal_with(number, page, &digest(page))
}
