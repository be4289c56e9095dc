//! How many pages an index asks for.
ghost use Rattle.std.specs.Prelude.{OnOk};
ghost use Rattle.legs.specs.Asking.{Asks, AsksAtMost};
ghost use Rattle.legs.specs.Costs.{search_cost, track_in_bound};

use legs::{Box3, IndexFault, Leg, LegIndex, Sieve};
use timebase::Period;

/// A search: it asks for the pages whose boxes meet the query.
///
/// Wrong bodies: every leaf is asked for.
pub fn search<I: LegIndex>(index: &mut I, query: &Box3) -> Result<Vec<Leg>, IndexFault>
    ensures asks { OnOk result (Asks I.Listed index.old index.new (search_cost query.now)) }
{
    index.search(query)
}

/// The legs of a feature in a period: it asks for at most one leaf more than those that end in the period or behind it.
///
/// Wrong bodies: the whole chain is walked.
pub fn track_in<I: LegIndex>(
    index: &mut I,
    feature: u32,
    period: &Period,
    sieve: &Sieve,
) -> Result<Vec<Leg>, IndexFault>
    ensures asks { OnOk result (AsksAtMost I.Listed index.old index.new
        (track_in_bound feature period.now)) }
{
    index.track_in(feature, period, sieve)
}
