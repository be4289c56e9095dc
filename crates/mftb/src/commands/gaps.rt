//! `mftb gaps`: times without a position, by feature.
use crate::commands::asking::{Question, frame_of, told_by};
use crate::commands::bounds::{always, period_of, plane};
use arguments::Gaps;
use moments::{Gap, gaps_of};
use outputs::Output;
use pages::PageStore;
use predicates::Predicate;
use reports::{Frame, push_gap, push_gap_fields};
use sessions::{Fault, send_all};
use std::alloc::Global;
use std::fs::File;
use std::random::RandomSource;
use std::rt::Files;
use timebase::Period;
use trajdb::{Db, RunFault};

/// The gaps of a database's features in a period.
fn gaps_in<S: PageStore>(
    alloc: Global,
    database: &mut Db<S>,
    period: &Period,
) -> Result<Vec<Gap>, RunFault> {
    let (Some(plane), Some(always)) = (plane(), always()) else {
        return Err(RunFault::Failed);
    };
    let legs = database.legs(alloc, Predicate::Ever, &plane, &always)?;
    Ok(gaps_of(alloc, &legs, period)?)
}

/// Appends the records of gaps, below the line that names their fields.
fn push_gaps<S: PageStore>(
    alloc: Global,
    text: &mut Vec<u8>,
    database: &Db<S>,
    gaps: &[Gap],
) -> Result<(), RunFault> {
    let Frame {
        base,
        dimension,
        ..
    } = frame_of(database, b"");
    push_gap_fields(text, dimension)?;
    for gap in gaps {
        push_gap(alloc, text, database, base, dimension, gap)?;
    }
    Ok(())
}

/// The text of a database's gaps in a period.
fn text_of<S: PageStore>(
    alloc: Global,
    database: &mut Db<S>,
    period: &Period,
) -> Result<Vec<u8>, RunFault> {
    let gaps = gaps_in(alloc, database, period)?;
    let mut text = Vec::new(alloc);
    match push_gaps(alloc, &mut text, database, &gaps) {
        Ok(()) => Ok(text),
        Err(fault) => Err(fault),
    }
}

/// A question for gaps in a period.
#[derive(Drop)]
struct GapsAsked {
    alloc: Global,
    period: Period,
}

impl Question for GapsAsked {
    type Told = Vec<u8>;

    fn ask<S: PageStore>(self, database: &mut Db<S>) -> Result<Vec<u8>, RunFault> {
        text_of(self.alloc, database, &self.period)
    }
}

/// Opens the store to be read alone, and prints the gaps of its features that have a moment in the period.
pub(crate) fn print_gaps<R: Files<File = File> + AllocGlobal + RandomSource, O: Output>(
    rt: &R,
    task: &Gaps<'_>,
    out: &mut O,
) -> Result<(), Fault> {
    let asked = GapsAsked {
        alloc: rt.alloc(),
        period: period_of(task.times)?,
    };
    let told = told_by(rt, task.store, task.cache_pages, asked)?;
    send_all(out, &told)
}
