//! What is sent besides a script's answers.
ghost use Rattle.std.specs.Prelude.{◌<◌, All, length, OnOk};
ghost use Rattle.std.specs.Io.KnownBytes.{Appends};

use moments::Dwell;
use monitor::Followed;
use outputs::{Output, OutputFault};
use pages::PageStore;
use std::alloc::Global;
use std::io::Eprint;
use std::rt::Clock;
use trajdb::{Db, RunFault};

/// An answer that is followed.
///
/// Wrong bodies: words stand among the answers.
pub fn send<O: Output, R: Clock + Eprint>(
    out: &mut Followed<'_, '_, O, R>,
    bytes: &[u8],
) -> Result<(), OutputFault>
    ensures { OnOk result (Appends (O.seen out.old.out.now).contents
        (O.seen out.new.out.now).contents bytes.now) }
{
    out.send(bytes)
}

/// A record for each feature that stays.
///
/// Wrong bodies: records end at a name that is missing.
pub fn push_dwells<S: PageStore>(
    alloc: Global,
    text: &mut Vec<u8>,
    database: &Db<S>,
    label: &[u8],
    dwells: &[Dwell],
) -> Result<(), RunFault>
    ensures { OnOk result
        (All (λ dwell. dwell.feature < length database.now.book.names) dwells.now) }
{
    reports::push_dwells(alloc, text, database, label, dwells)
}
