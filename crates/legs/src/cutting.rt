//! The cutting of a record into its legs.
ghost use Rattle.std.specs.Prelude.{◌≡◌, ◌+◌, ◌<◌, ◌≤◌, ◌<ℤ◌, ◌≤ℤ◌, ◌-ℤ◌, pos, IfOk, length};
ghost use Rattle.mfcsv.specs.Views.{IsRecord, leg_count};
ghost use Rattle.legs.specs.Legs.{cut_moment, step_at, steps_of};

use crate::leg::Step;
use mfcsv::Record;
use std::alloc::{AllocError, Global};
use timebase::Ms;

/// How many legs a record has: one less than its positions, and one where it has one position.
pub(crate) fn leg_count(record: &Record) -> usize
    ensures count { result ≡ leg_count (length «record».now.positions) }
    ensures record { IsRecord «record».now }
{
    let positions = record.positions.as_slice().len();
    if positions == 1 { 1 } else { positions - 1 }
}

/// The moment of the cut between leg `k` - 1 and leg `k` of `legs` legs.
fn cut_moment(start: Ms, end: Ms, legs: usize, k: usize) -> Ms
    requires rises { start <ℤ end }
    requires some { 0 < legs }
    requires within { k ≤ legs }
    ensures { result ≡ cut_moment start end legs k }
{
    let span = (end.millis() - start.millis()) as u64;
    let passed = u128::from(span) * k as u128 / legs as u128;
    Ms::new(start.millis() + passed as i64).unwrap()
}

/// Leg `k` of a record.
pub(crate) fn step_at(record: &Record, k: usize) -> Step
    requires { k < leg_count (length «record».now.positions) }
    ensures { result ≡ step_at «record».now k }
{
    let positions = record.positions.as_slice();
    let legs = leg_count(record);
    let last = positions.len() - 1;
    let from = cut_moment(record.t0, record.t1, legs, k);
    let to = cut_moment(record.t0, record.t1, legs, k + 1);
    Step::between(from, to, positions[k], positions[last.min(k + 1)]).unwrap()
}

/// The legs of a record: between consecutive positions, cut at the moments
/// `start + floor((end - start) * k / n)`, where n is the number of legs. One position stands still from the
/// start to the end.
pub fn cut(alloc: Global, record: &Record) -> Result<Vec<Step>, AllocError>
    ensures { IfOk result (λ steps. steps.items ≡ steps_of «record».now) }
{
    let legs = leg_count(record);
    let mut steps = Vec::with_capacity(alloc, legs)?;
    for k in 0..legs {
        steps.push(step_at(record, k))?;
    }
    Ok(steps)
}
