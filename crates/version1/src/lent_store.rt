//! The pages of a lent store, which are read and never written.
ghost use Rattle.std.specs.Prelude.{◌≡◌, ◌<◌, Some, IsTrue, IfErr, IfOk, OnOk};
ghost use Rattle.pages.specs.Store.{Stays};
ghost use Rattle.pagecache.specs.Cache.{stored_payload};
ghost use Rattle.version1.specs.OldStore.{IsUnread, ReadsOn};

use pages::{PageFault, PageStore, Payload, unseal};
use register::{CatalogueFault, ChainReader};

/// A page of zero bytes.
fn blank() -> [u8; 4096] {
    [0; 4096]
}

/// The payload that a page of a lent store seals; `Malformed` where there is no such page.
pub(crate) fn read_sealed<S: PageStore>(
    store: &mut S,
    number: u32,
) -> Result<Payload, CatalogueFault>
    ensures payload { IfOk result (λ payload. IsTrue (S.seen store.old).is_faithful
        → stored_payload (S.seen store.old) number ≡ Some payload) }
    ensures below { OnOk result (number < (S.seen store.old).count) }
    ensures fault { IfErr result (IsUnread number (S.seen store.old) (S.seen store.new)) }
    ensures stays { Stays (S.seen store.old) (S.seen store.new) }
{
    if number >= store.len() {
        return Err(CatalogueFault::Malformed);
    }
    let mut page = blank();
    match store.read(number, &mut page) {
        Ok(()) => match unseal(number, &page) {
            Ok(payload) => Ok(payload),
            Err(_) => Err(CatalogueFault::Damaged(number)),
        },
        Err(_) => Err(CatalogueFault::Store),
    }
}

/// Reads the next page of the chain from a lent store.
fn load_lent<S: PageStore>(store: &mut S, reader: &mut ChainReader) -> Result<(), CatalogueFault>
    requires { 0 < reader.old.left }
    ensures reads { ReadsOn (S.seen store.old) (S.seen store.new) reader.old reader.new result }
    ensures left { OnOk result (reader.new.left < reader.old.left) }
{
    match read_sealed(store, reader.next_page()) {
        Ok(payload) => reader.take_page(&payload),
        Err(fault) => Err(fault),
    }
}

/// Reads the whole chain from a lent store.
pub(crate) fn fill_lent<S: PageStore>(
    store: &mut S,
    reader: &mut ChainReader,
) -> Result<(), CatalogueFault>
    ensures reads { ReadsOn (S.seen store.old) (S.seen store.new) reader.old reader.new result }
    ensures ended { OnOk result (reader.new.left ≡ 0) }
{
    while reader.left() > 0 {
        load_lent(store, reader)?;
    }
    Ok(())
}
