//! The start of a file's legs, and the legs.
ghost use Rattle.std.specs.Prelude.{OnOk, IfErr, IsErrOf};
ghost use Rattle.legs.specs.Index.{CanFollowInTurn, HasRisen, MayRefuseLeg};
ghost use Rattle.legs.specs.Asking.{Grows, IsLater};
ghost use Rattle.legs.specs.declared.index.IndexFault.{IndexFault};
ghost use Rattle.trajdb.specs.Calls.{LeavesPages};

use legs::{IndexFault, Leg, LegIndex, ListIndex};

/// An index that is told before the legs of an accepted file are put into it.
pub trait Start: LegIndex {
    ghost use Rattle.legs.specs.Asking.{Refusals, Starts};

    /// Prepares the index for the legs of a file. An index over pages marks its store as unfinished, before any
    /// other page changes; one that keeps a list does nothing.
    fn start(&mut self) -> Result<(), IndexFault>
        // The legs stay. After `Ok` page 0 of a faithful store, as written, says that it is not
        // finished. Where no page was changed, an error has written none but page 0.
        ensures starts { Starts Self.Listed self.old self.new result }
        // A sound index fails only if memory runs out or the store fails, and a spent one always.
        ensures refusals { Refusals Self.Listed self.old self.new result };
}

impl Start for ListIndex {
    fn start(&mut self) -> Result<(), IndexFault> {
        if self.spent() {
            return Err(IndexFault::Spent);
        }
        Ok(())
    }
}

/// Puts the legs of a file at the end of an index.
pub(crate) fn put_legs<I: Start>(index: &mut I, legs: &[Leg]) -> Result<(), IndexFault>
    ensures added { OnOk result (Grows I.Listed index.old index.new legs.now) }
    ensures sound { IfErr result (λ fault. I.is_sound index.old
        → CanFollowInTurn (I.content index.old) legs.now → MayRefuseLeg fault) }
    ensures store { IsErrOf result IndexFault.Store
        → HasRisen (I.faults index.old) (I.faults index.new) }
    ensures full { IsErrOf result IndexFault.StoreFull → I.is_store_full index.new }
    ensures later { IsLater I.Listed index.old index.new }
    ensures marks { OnOk result (I.is_faithful index.old → I.is_marked index.new) }
    ensures pages { I.is_faithful index.old → LeavesPages I.Listed index.old index.new }
{
    index.start()?;
    index.add_all(legs)
}
