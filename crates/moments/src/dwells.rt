//! How long features stay in all.
ghost use Rattle.std.specs.Prelude.{◌≡◌, ◌≤◌, ◌+◌, ◌*◌, All, IfOk};
ghost use Rattle.moments.specs.Visits.{dwells_of};

use crate::visits::Visit;
use std::alloc::{AllocError, Global};
use visiting::Dwell;

/// How long each feature stays, in the order of the features' first visits.
pub fn dwells_of(alloc: Global, visits: &[Visit]) -> Result<Vec<Dwell>, AllocError>
    // Each feature of the visits has one dwell, with its visits counted and their lengths summed.
    ensures value { IfOk result (λ dwells. dwells.items ≡ dwells_of visits.now) }

    // The two sums are 2 microseconds a visit apart at most.
    ensures near { IfOk result (λ dwells. All
        (λ dwell. dwell.most ≤ dwell.least + 2 * dwell.visits) dwells.items) }
{
    visiting::dwells_of(alloc, visits)
}
