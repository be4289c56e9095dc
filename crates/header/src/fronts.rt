//! How page 0 of a store begins: the letters, the version, and the state of the store.
ghost use Rattle.std.specs.Prelude.{◌≡◌, ◌+◌, ◌≤◌, ◌++◌, ◌↔◌, drop, length, take, IfSome, IsTrue};
ghost use Rattle.byteorder.specs.Endian.{big_bytes, big_number};
ghost use Rattle.tbnode.specs.Parts.{number_at, part};
ghost use Rattle.header.specs.Front.{finished, front_bytes, front_of, letters, marked, HasState, IsFinished, IsUnfinished};

use crate::numbers::u32_of;
use pages::{Kind, Payload};
use tbnode::fields::{part, put, put_u32, u32_at};

/// The letters `MFTB`.
const LETTERS: [u8; 4] = [77, 70, 84, 66];

/// What a header says behind its letters.
#[derive(Clone, Copy, PartialEq, Eq, Debug)]
pub struct Front {
    /// The version of the format.
    pub version: u32,
    /// The state of the store.
    pub state: u32,
}

/// How the header of a store begins that is not finished.
pub const UNFINISHED: Front = Front {
    version: 2,
    state: 0,
};

/// How the header of a finished store begins.
pub const FINISHED: Front = Front {
    version: 2,
    state: 1,
};

/// The letters, as a number.
#[tactic(auto, unfolding(tbnode::specs::Parts::number_at, tbnode::specs::Parts::part))]
fn letters_number() -> u32
    ensures { result ≡ big_number 4 letters }
{
    u32_at(&LETTERS, 0)
}

/// The number in the 4 bytes from a place on.
fn number(bytes: &[u8], place: usize) -> u32
    requires { place + 4 ≤ length bytes.now }
    ensures value { result ≡ number_at 4 place bytes.now }
    ensures bytes { big_bytes 4 result ≡ part place 4 bytes.now }
{
    u32_of(part(bytes, place, 4))
}

/// What a header says at its beginning; `None` where a payload is no header, or has not the letters.
#[tactic(auto, unfolding(crate::specs::Front::front_of))]
pub fn front_of(payload: &Payload) -> Option<Front>
    // It is what the payload's kind and first bytes say.
    ensures value { result ≡ front_of payload.now }
    // If there is one, the first twelve bytes are exactly the letters, this version and this state.
    ensures bytes { IfSome result (λ front. take 12 payload.now.bytes ≡ front_bytes front) }
{
    let bytes = &payload.bytes;
    match payload.kind {
        Kind::Header => {
            if number(bytes, 0) != letters_number() {
                return None;
            }
            Some(Front {
                version: number(bytes, 4),
                state: number(bytes, 8),
            })
        }
        _ => None,
    }
}

/// Whether a payload is the header of a store that is not finished.
pub fn is_unfinished(payload: &Payload) -> bool
    ensures { IsTrue result ↔ IsUnfinished payload.now }
{
    match front_of(payload) {
        Some(front) => front == UNFINISHED,
        None => false,
    }
}

/// Whether a payload is the header of a finished store.
pub fn is_finished(payload: &Payload) -> bool
    ensures { IsTrue result ↔ IsFinished payload.now }
{
    match front_of(payload) {
        Some(front) => front == FINISHED,
        None => false,
    }
}

/// Whether a payload is the header of a store that is not finished where its database has begun,
/// and of a finished one where it has not.
pub fn has_state(payload: &Payload, begun: bool) -> bool
    ensures { IsTrue result ↔ HasState begun payload.now }
{
    match begun {
        true => is_unfinished(payload),
        false => is_finished(payload),
    }
}

/// Writes how a header begins.
fn put_front(bytes: &mut [u8], front: Front)
    requires { length bytes.old ≡ 4056 }
    ensures { bytes.new ≡ front_bytes front ++ drop 12 bytes.old }
{
    put(bytes, 0, &LETTERS);
    put_u32(bytes, 4, front.version);
    put_u32(bytes, 8, front.state);
}

/// Makes a payload the header of a store that is not finished.
pub fn set_unfinished(payload: &mut Payload)
    ensures { payload.new ≡ marked payload.old }
{
    payload.kind = Kind::Header;
    put_front(&mut payload.bytes, UNFINISHED);
}

/// Makes a header say that the store is finished.
pub fn set_finished(payload: &mut Payload)
    ensures { payload.new ≡ finished payload.old }
{
    put_u32(&mut payload.bytes, 8, FINISHED.state);
}
