//! What a folder refused.
ghost use Rattle.std.specs.Prelude.{◌≡◌};
ghost use Rattle.sessions.specs.Folder.{noted};

use crate::fault::Fault;
use pages::Refusals;

/// How often a folder refused a call, and why it did so last.
#[derive(Drop)]
pub struct FolderRefusals {
    /// How often.
    pub refusals: Refusals,
    /// Why, where it ever did.
    pub last: Option<Fault>,
}

impl FolderRefusals {
    /// Nothing so far.
    pub fn nothing() -> FolderRefusals {
        FolderRefusals {
            refusals: Refusals::none(),
            last: None,
        }
    }

    /// Counts a refusal for that fault, which is kept as the last one, and gives it back.
    pub fn note(&mut self, fault: Fault) -> Fault
        // It returns the error that it was given.
        ensures same { result ≡ fault }
        // One refusal more is counted, up to 2^64 - 1, and the error is now the last one.
        ensures noted { self.new ≡ noted fault self.old }
    {
        self.refusals.add();
        self.last = Some(fault);
        fault
    }
}
