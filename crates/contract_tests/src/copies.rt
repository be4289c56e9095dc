//! Copies of stores.
ghost use Rattle.std.specs.Prelude.{IsTrue, OnOk};
ghost use Rattle.sessions.specs.Folder.{IsReplaced};

use sessions::{Fault, Folder};

/// The name of a store, given to a copy whose pages are on the disk.
///
/// Wrong bodies: the name is given before the disk has the pages.
pub fn give<F: Folder>(folder: &mut F, mut store: F::Store) -> Result<(), Fault>
    requires { IsTrue (F.seen folder.old).has_copy }
    ensures { OnOk result (IsReplaced (F.Store.PageStore.seen store) (F.seen folder.old)
        (F.seen folder.new)) }
{
    folder.sync(&mut store)?;
    match folder.replace(store) {
        Ok(()) => Ok(()),
        Err(fault) => Err(fault),
    }
}
