//! Pages sealed and unsealed eight at a time, which costs less than one after the other.
ghost use Rattle.std.specs.Prelude.{◌≡◌, ◌++◌, map, take};
ghost use Rattle.std.specs.Option.{ok_or};
ghost use Rattle.pages.specs.Sealed.{front, sealed};
ghost use Rattle.pages.specs.declared.payload.PageFault.{PageFault};
ghost use Rattle.pages.specs.Unsealed.{unsealed};

use crate::payload::{PageFault, Payload};
use crate::sealing::{page_with, seal, unseal_with};
use digests::digests;

/// The page with another digest.
fn put_digest(page: &mut [u8; 4096], digest: &[u8; 32])
    ensures { page.new ≡ take 4064 page.old ++ digest.now }
{
    let (_, end) = page.split_at_mut(4064);
    end.copy_from_slice(digest);
}

/// The page of a payload under a number, with no digest yet.
fn unsigned(number: u32, payload: &Payload) -> [u8; 4096]
    ensures { take 4064 result ≡ front number payload.now }
{
    page_with(number, payload, &[0; 32])
}

/// The pages that hold eight payloads under their numbers: each is what `seal` gives.
pub fn seal_eight(payloads: &[(u32, &Payload); 8]) -> [[u8; 4096]; 8]
    ensures { result ≡ map (λ one. sealed one.0 one.1.now) payloads.now }
{
    let mut pages = [
        unsigned(payloads[0].0, payloads[0].1),
        unsigned(payloads[1].0, payloads[1].1),
        unsigned(payloads[2].0, payloads[2].1),
        unsigned(payloads[3].0, payloads[3].1),
        unsigned(payloads[4].0, payloads[4].1),
        unsigned(payloads[5].0, payloads[5].1),
        unsigned(payloads[6].0, payloads[6].1),
        unsigned(payloads[7].0, payloads[7].1),
    ];
    let [first, second, third, fourth, fifth, sixth, seventh, eighth] = digests(&[
        &pages[0], &pages[1], &pages[2], &pages[3], &pages[4], &pages[5], &pages[6], &pages[7],
    ]);
    put_digest(&mut pages[0], &first);
    put_digest(&mut pages[1], &second);
    put_digest(&mut pages[2], &third);
    put_digest(&mut pages[3], &fourth);
    put_digest(&mut pages[4], &fifth);
    put_digest(&mut pages[5], &sixth);
    put_digest(&mut pages[6], &seventh);
    put_digest(&mut pages[7], &eighth);
    pages
}

/// The payloads of eight pages under their numbers: each is what `unseal` gives.
pub fn unseal_eight(pages: &[(u32, &[u8; 4096]); 8]) -> [Result<Payload, PageFault>; 8]
    ensures { result
        ≡ map (λ one. ok_or (unsealed one.0 one.1.now) (PageFault.Damaged one.0)) pages.now }
{
    let [first, second, third, fourth, fifth, sixth, seventh, eighth] = *pages;
    let digests = digests(&[
        first.1, second.1, third.1, fourth.1, fifth.1, sixth.1, seventh.1, eighth.1,
    ]);
    [
        unseal_with(first.0, first.1, &digests[0]),
        unseal_with(second.0, second.1, &digests[1]),
        unseal_with(third.0, third.1, &digests[2]),
        unseal_with(fourth.0, fourth.1, &digests[3]),
        unseal_with(fifth.0, fifth.1, &digests[4]),
        unseal_with(sixth.0, sixth.1, &digests[5]),
        unseal_with(seventh.0, seventh.1, &digests[6]),
        unseal_with(eighth.0, eighth.1, &digests[7]),
    ]
}
