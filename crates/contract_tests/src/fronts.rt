//! The header of a finished store has this version.
ghost use Rattle.std.specs.Prelude.{◌↔◌, IsTrue};
ghost use Rattle.header.specs.Front.{IsFinished};

use pages::Payload;

/// Whether a payload is the header of a finished store.
///
/// Wrong bodies: another version is taken for this one.
pub fn is_finished(payload: &Payload) -> bool
    ensures { IsTrue result ↔ IsFinished payload.now }
{
    header::is_finished(payload)
}
