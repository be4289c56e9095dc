//! The contract of the folder that a store's file is in.
ghost use Rattle.std.specs.Prelude.{◌≡◌, IfErr, IfOk, IfSome, IsTrue, OnOk, false, true};
ghost use Rattle.pages.specs.Store.{IsSynced, Stays};
ghost use Rattle.sessions.specs.Folder.{FolderView, HasPagesHeld, IsReplaced, Refuses, store_in};

use crate::fault::Fault;
use pages::PageStore;

/// The folder of a store's file: what is done beside that file, and to its name.
///
/// A folder may tell contracts what the name of the store has stood for, and then that is said
/// exactly. A folder of the system tells nothing.
///
/// An error is the folder's own: memory, a failed call of the system, or another run. It is counted
/// as a refusal, and remembered as the last one. The store's name then stands for what it stood for,
/// and a name that was on the disk is still there.
pub trait Folder {
    /// The store of a copy beside the store's file.
    type Store: PageStore + Drop;

    /// What contracts see of a folder: what the store's name stood for at each moment so far, where
    /// the folder tells it, whether that name is on the disk, whether there is a copy, and what was
    /// refused.
    ghost seen: { Self → FolderView };

    /// Makes a copy of the store's file beside it, or a new file where there is none, and opens it.
    /// What is then written to it changes the copy alone. Where it is refused, `discard` takes away
    /// what was made.
    fn copy(&mut self) -> Result<Self::Store, Fault>
        // After `Ok` there is a copy, and nothing else has changed.
        ensures made { OnOk result (seen self.new ≡ record (seen self.old) { has_copy = true }) }
        // The copy has the pages of what the store's name stands for.
        ensures copies { IfOk result (λ store. IfSome (seen self.old).held
            (λ past. Self.Store.PageStore.seen store ≡ store_in past)) }
        // After an error nothing has changed but the refusals; a copy may be left.
        ensures refused { IfErr result (λ fault. Refuses fault (seen self.old) (seen self.new)) };

    /// Whether the copy may have other pages than the store's file.
    fn differs(&self, store: &Self::Store) -> bool
        ensures { result ≡ false
            → HasPagesHeld (Self.Store.PageStore.seen store.now) (seen self.now).held };

    /// Makes what was written to the copy last, as on a disk.
    fn sync(&mut self, store: &mut Self::Store) -> Result<(), Fault>
        // There is a copy.
        requires { IsTrue (seen self.old).has_copy }
        // No page of the copy changes.
        ensures pages { Stays (Self.Store.PageStore.seen store.old)
            (Self.Store.PageStore.seen store.new) }
        // After `Ok` all pages of the copy are synced.
        ensures synced { OnOk result (IsSynced (Self.Store.PageStore.seen store.new)) }
        // After `Ok` the folder has not changed.
        ensures stays { OnOk result (seen self.new ≡ seen self.old) }
        // After an error nothing has changed but the refusals, and the copy is still there.
        ensures refused { IfErr result (λ fault. Refuses fault (seen self.old) (seen self.new)) };

    /// Gives the store's name to the copy, in one step. All that was written to it is synced.
    fn replace(&mut self, store: Self::Store) -> Result<(), Fault>
        // The copy is synced.
        requires synced { IsSynced (Self.Store.PageStore.seen store) }
        // There is a copy.
        requires copy { IsTrue (seen self.old).has_copy }
        // After `Ok` the name stands for the copy's pages, and for nothing else in between. No copy is
        // left beside the store's file.
        ensures replaced { OnOk result (IsReplaced (Self.Store.PageStore.seen store)
            (seen self.old) (seen self.new)) }
        // After an error nothing has changed but the refusals, and the copy is still there.
        ensures refused { IfErr result (λ fault. Refuses fault (seen self.old) (seen self.new)) };

    /// Makes the name that was given last, where the system can.
    fn settle(&mut self)
        // The name is on the disk, as far as the system can make it so. Nothing else has changed.
        ensures settled { seen self.new ≡ record (seen self.old) { is_settled = true } };

    /// Takes away the copy, where there is one that this folder made.
    fn discard(&mut self)
        // No copy is left, as far as the system lets it be taken away. Nothing else has changed.
        ensures gone { seen self.new ≡ record (seen self.old) { has_copy = false } };
}
