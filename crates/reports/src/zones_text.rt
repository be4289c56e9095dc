//! The texts of stays and visits in zones, and of features: records of CSV.
ghost use Rattle.std.specs.Prelude.{◌<◌, ◌^◌, unsigned_abs};

use crate::draft::Draft;
use crate::moments_text::Frame;
use pages::PageStore;
use std::alloc::Global;
use timebase::Ms;
use trajdb::{Db, RunFault};
use zoning::{Moment, Side, Stay, Visit};

/// How the records of a zone are written.
#[derive(Clone, Copy)]
pub struct ZoneFrame<'a> {
    pub frame: Frame<'a>,
    /// Whether the zone is a gate, which has sides.
    pub is_gate: bool,
}

impl ZoneFrame<'_> {
    /// A side as it is printed: blank for a polygon.
    fn side_text(&self, side: Option<Side>) -> &'static str {
        match side {
            Some(side) => side.as_str(),
            None if self.is_gate => "none",
            None => "",
        }
    }
}

impl Draft {
    /// Appends the numerator of `whole` milliseconds and the part of one more that a moment has.
    fn push_numerator(self, whole: i64, moment: &Moment) -> Draft
        requires near { unsigned_abs whole < 2 ^ 50 }
    {
        if whole >= 0 {
            return self.push_wide(whole.unsigned_abs(), moment.den, moment.rest);
        }
        // Of what lies below 0 the size is one millisecond less, and what the part lacks to it.
        let lacks = moment.den - moment.rest;
        self.push("-")
            .push_wide(whole.unsigned_abs() - 1, moment.den, lacks)
    }

    /// Appends a comma and a moment as a fraction of milliseconds since a base, in lowest terms.
    fn push_fraction(self, base: Ms, moment: &Moment) -> Draft {
        self.push(",")
            .push_numerator(moment.whole.millis() - base.millis(), moment)
            .push("/")
            .push_signed(moment.den as i128)
    }

    /// Appends a first and a last moment: exactly, and as instants, the first rounded down and the last up.
    fn push_times(self, base: Ms, enters: &Moment, leaves: &Moment) -> Draft {
        self.push_fraction(base, enters)
            .push_fraction(base, leaves)
            .push_micros(enters.micros_down())
            .push_micros(leaves.micros_up())
    }

    /// Appends the fields of a stay behind its feature.
    fn push_stay_fields(self, zone: &ZoneFrame<'_>, stay: &Stay) -> Draft {
        let frame = &zone.frame;
        self.push_times(frame.base, &stay.enters, &stay.leaves)
            .push_position(frame.dimension, stay.entry)
            .push_position(frame.dimension, stay.exit)
            .push_word(stay.enters_by.as_str())
            .push_word(stay.leaves_by.as_str())
            .push_word(zone.side_text(stay.from))
            .push_word(zone.side_text(stay.to))
    }

    /// Appends the fields of a visit behind its feature.
    fn push_visit_fields(self, zone: &ZoneFrame<'_>, visit: &Visit) -> Draft {
        let frame = &zone.frame;
        self.push_times(frame.base, &visit.enters, &visit.leaves)
            .push_position(frame.dimension, visit.entry)
            .push_position(frame.dimension, visit.exit)
            .push_word(visit.enters_by.as_str())
            .push_word(visit.leaves_by.as_str())
            .push(",")
            .push_number(visit.legs)
            .push_word(zone.side_text(visit.from))
            .push_word(zone.side_text(visit.to))
    }
}

/// Appends a record for each stay in a zone. Refused for want of memory, and with page 0 where a feature is not in the
/// book.
pub fn push_zone_stays<S: PageStore>(
    alloc: Global,
    text: &mut Vec<u8>,
    database: &Db<S>,
    zone: &ZoneFrame<'_>,
    stays: &[Stay],
) -> Result<(), RunFault> {
    let mut records = Draft::of(text);
    for stay in stays {
        records = records
            .push_labelled(alloc, database, zone.frame.label, stay.leg.feature)
            .push_stay_fields(zone, stay)
            .push("\n");
    }
    records.give(text)
}

/// Appends a record for each stay in a zone, with the values of its leg's attributes behind the other fields. Refused
/// as `push_zone_stays` is, and with page 0 where a leg's record is not in the book.
pub fn push_valued_zone_stays<S: PageStore>(
    alloc: Global,
    text: &mut Vec<u8>,
    database: &Db<S>,
    zone: &ZoneFrame<'_>,
    stays: &[Stay],
) -> Result<(), RunFault> {
    let mut records = Draft::of(text);
    for stay in stays {
        records = records
            .push_labelled(alloc, database, zone.frame.label, stay.leg.feature)
            .push_stay_fields(zone, stay)
            .push_values(alloc, database, stay.leg.row)
            .push("\n");
    }
    records.give(text)
}

/// Appends a record for each visit of a zone, and is refused as `push_zone_stays` is.
pub fn push_zone_visits<S: PageStore>(
    alloc: Global,
    text: &mut Vec<u8>,
    database: &Db<S>,
    zone: &ZoneFrame<'_>,
    visits: &[Visit],
) -> Result<(), RunFault> {
    let mut records = Draft::of(text);
    for visit in visits {
        records = records
            .push_labelled(alloc, database, zone.frame.label, visit.feature)
            .push_visit_fields(zone, visit)
            .push("\n");
    }
    records.give(text)
}

/// Appends a record for each feature, and is refused likewise.
pub fn push_zone_features<S: PageStore>(
    alloc: Global,
    text: &mut Vec<u8>,
    database: &Db<S>,
    label: &[u8],
    features: &[u32],
) -> Result<(), RunFault> {
    let mut records = Draft::of(text);
    for feature in features {
        records = records
            .push_labelled(alloc, database, label, *feature)
            .push("\n");
    }
    records.give(text)
}
