//! Legs that wait until there are so many that they are put into an index together.
ghost use Rattle.std.specs.Prelude.{◌≡◌, ◌<◌, ◌∷◌, ◌++◌, [], length, OnOk};
ghost use Rattle.version1.specs.Migrating.{PutsWaiting};

use legs::{IndexFault, Leg, LegIndex};

/// How many legs are put into an index together, but for the last ones.
const MANY: usize = 65_536;

/// Puts the legs that wait into an index.
pub(crate) fn put_waiting<I: LegIndex>(
    index: &mut I,
    waiting: &mut Vec<Leg>,
) -> Result<(), IndexFault>
    ensures puts { PutsWaiting I.Listed waiting.old.items [] index.old index.new result }
    ensures none { OnOk result (waiting.new.items ≡ []) }
{
    index.add_all(waiting.as_slice())?;
    waiting.clear();
    Ok(())
}

/// Puts a leg behind those that wait, and all of them into an index once they are enough.
pub(crate) fn put_behind<I: LegIndex>(
    index: &mut I,
    waiting: &mut Vec<Leg>,
    leg: Leg,
) -> Result<(), IndexFault>
    requires few { length waiting.old.items < 65536 }
    ensures puts { PutsWaiting I.Listed (waiting.old.items ++ leg ∷ []) waiting.new.items index.old
        index.new result }
    ensures few { OnOk result (length waiting.new.items < 65536) }
{
    waiting.push(leg)?;
    if waiting.len() < MANY {
        return Ok(());
    }
    put_waiting(index, waiting)
}
