//! The texts of gaps: records of CSV.
use crate::draft::Draft;
use crate::moments_text::push_name;
use mfcsv::Dimension;
use moments::Gap;
use pages::PageStore;
use std::alloc::Global;
use timebase::Ms;
use trajdb::{Db, RunFault};

impl Draft {
    /// Appends a comma and milliseconds as seconds.
    fn push_next_seconds(self, millis: i64) -> Draft {
        self.push(",").push_seconds(millis)
    }

    /// Appends a comma and an instant.
    fn push_at(self, at: Ms) -> Draft {
        self.push(",").push_instant(at)
    }

    /// Appends the fields of a gap behind its feature, of which times are counted from a base.
    fn push_gap_fields(self, base: Ms, dimension: Dimension, gap: &Gap) -> Draft {
        let (begins, ends) = (gap.begins.millis(), gap.ends.millis());
        self.push_next_seconds(begins - base.millis())
            .push_next_seconds(ends - base.millis())
            .push_at(gap.begins)
            .push_at(gap.ends)
            .push_position(dimension, gap.from)
            .push_position(dimension, gap.to)
            .push_next_seconds(ends - begins)
    }
}

/// Appends the record of a gap, of which times are counted from a base.
pub fn push_gap<S: PageStore>(
    alloc: Global,
    text: &mut Vec<u8>,
    database: &Db<S>,
    base: Ms,
    dimension: Dimension,
    gap: &Gap,
) -> Result<(), RunFault> {
    push_name(alloc, text, database, gap.feature)?;
    Draft::of(text)
        .push_gap_fields(base, dimension, gap)
        .push("\n")
        .give(text)
}
