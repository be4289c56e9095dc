//! The digests of pages, as Python's `hashlib` and coreutils' `sha256sum` give them.
use digests::{digest_all, digests};

/// The SHA-256 of the first 4,064 bytes of nine pages, in two halves: one of zero bytes, and `scattered(1)` to
/// `scattered(8)`.
const DIGESTS: [[u128; 2]; 9] = [
    [
        0x81ac48a9d4a78ebed4628374539dbb2f,
        0xc163379c3940995e8b8f7b31614b8cde,
    ],
    [
        0x301da1917b9cd72a172daf381106ce3c,
        0x463dd498995f127cc8c4fa701037c234,
    ],
    [
        0x43001003ba793b0106199e90b5839529,
        0xd8c91669c787df1d0b1e317e0ab567da,
    ],
    [
        0xe363bb6fad91fcad79006027a6bd294b,
        0x199e6bebb53d0da946a08eeecb2d38ee,
    ],
    [
        0x7dd632b6a49c40eabb5f324fe6e8ba69,
        0xcb2147b0464f1d2f963ef528ee2e21ae,
    ],
    [
        0xa3f82e30db0e88d2c83dad521b47549d,
        0x075c1fcf923b396c710fd6f030fec429,
    ],
    [
        0x51fd594e6f977b37ae25f332c40e5a3d,
        0x962e6dd41887935a5110a27db8783ba3,
    ],
    [
        0x5283bc3ecc3e41e25af7093e73df6864,
        0x5bd182b4f38273018fe0be951ee9f964,
    ],
    [
        0x6786738d398322eb8f6a922e78e3bb82,
        0x05682568511548fc1746c60b73a8b158,
    ],
];

/// A page of bytes without order: the high bytes of a linear congruential generator (Numerical Recipes').
fn scattered(number: u32) -> [u8; 4096] {
    let mut page = [0; 4096];
    let mut state = number.wrapping_mul(2_654_435_761);
    for byte in &mut page {
        state = state.wrapping_mul(1_664_525).wrapping_add(1_013_904_223);
        *byte = (state >> 24) as u8;
    }
    page
}

/// The nine pages whose digests are known.
fn known_pages() -> [[u8; 4096]; 9] {
    [
        [0; 4096],
        scattered(1),
        scattered(2),
        scattered(3),
        scattered(4),
        scattered(5),
        scattered(6),
        scattered(7),
        scattered(8),
    ]
}

/// The halves of a digest.
fn halves(digest: &[u8; 32]) -> [u128; 2] {
    let (mut first, mut last) = ([0; 16], [0; 16]);
    first.copy_from_slice(&digest[..16]);
    last.copy_from_slice(&digest[16..]);
    [u128::from_be_bytes(first), u128::from_be_bytes(last)]
}

/// Whether digests are these.
fn are_known(digests: &[[u8; 32]], known: &[[u128; 2]]) -> bool {
    digests.len() == known.len()
        && digests
            .iter()
            .zip(known)
            .all(|(digest, known)| halves(digest) == *known)
}

#[test]
fn eight_pages_have_the_digests_that_other_programs_give(rt: HostRuntime) {
    let [a, b, c, d, e, f, g, h, i] = known_pages();
    let first = digests(&[&a, &b, &c, &d, &e, &f, &g, &h]);
    assert!(rt; are_known(&first, &DIGESTS[..8]));
    let last = digests(&[&b, &c, &d, &e, &f, &g, &h, &i]);
    assert!(rt; are_known(&last, &DIGESTS[1..]));
}

#[test]
fn so_have_any_number_of_pages(rt: HostRuntime) {
    let [a, b, c, d, e, f, g, h, i] = known_pages();
    let mut out = [[1; 32]; 9];
    digest_all(&[&a, &b, &c, &d, &e, &f, &g, &h, &i], &mut out);
    assert!(rt; are_known(&out, &DIGESTS));
    digest_all(&[], &mut out[..0]);
    digest_all(&[&i], &mut out[..1]);
    assert!(rt; are_known(&out[..1], &DIGESTS[8..]));
}
