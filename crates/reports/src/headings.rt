//! The lines that name the fields of the records of `moments`, `zones` and `gaps`.
ghost use Rattle.std.specs.Prelude.{◌≡◌, ◌++◌, OnOk};
ghost use Rattle.reports.specs.StayTexts.{dwell_fields, fields_text, position_fields};

use crate::draft::Draft;
use crate::moments_text::{drop_last, push_word};
use crate::values_text::push_next;
use mfcsv::{Column, Dimension};
use pages::PageStore;
use std::alloc::{AllocError, Global};
use trajdb::{Db, RunFault};

/// The first field of a record that stands under no name.
pub const OF_FEATURE: &str = "feature";

/// The first fields of a record that stands under the name of a rectangle.
pub const OF_RECTANGLE: &str = "rectangle,feature";

/// The first fields of a record that stands under the name of a zone.
pub const OF_ZONE: &str = "zone,feature";

/// Of which records a line names the fields. Each is from a first moment to a last.
#[derive(Clone, Copy)]
pub enum Heading {
    /// Stays in a rectangle.
    Stays,
    /// Visits of a rectangle.
    Visits,
    /// Stays in a zone.
    ZoneStays,
    /// Visits of a zone.
    ZoneVisits,
}

impl Heading {
    /// The fields behind those of moments and positions.
    fn last_fields(self) -> &'static str {
        match self {
            Heading::Stays => "enters_by,leaves_by,edge_in,edge_out",
            Heading::Visits => "enters_by,leaves_by,edge_in,edge_out,legs",
            Heading::ZoneStays => "enters_by,leaves_by,from,to",
            Heading::ZoneVisits => "enters_by,leaves_by,legs,from,to",
        }
    }
}

/// The names of the fields of two positions.
fn position_fields(dimension: Dimension) -> &'static str
    ensures { result.now ≡ position_fields dimension }
{
    match dimension {
        Dimension::Two => "x_in,y_in,x_out,y_out",
        Dimension::Three => "x_in,y_in,z_in,x_out,y_out,z_out",
    }
}

/// Appends the line that names the fields of stays or visits, of which `first` are the first and `others` the last.
#[tactic(auto, unfolding(crate::specs::StayTexts::fields_text))]
fn push_fields(
    text: &mut Vec<u8>,
    first: &str,
    dimension: Dimension,
    others: &str,
) -> Result<(), AllocError>
    // It appends the first names, those of moments and positions, the last names, and the line's end.
    ensures text { OnOk result (text.new.items
        ≡ text.old.items ++ fields_text first.now dimension others.now) }
{
    text.extend_from_slice(first.as_bytes())?;
    text.extend_from_slice(b",enters,leaves,enters_at,leaves_at")?;
    push_word(text, position_fields(dimension))?;
    push_word(text, others)?;
    Ok(text.push(b'\n')?)
}

/// Appends the line that names the fields of records, of which `first` are the first.
pub fn push_heading(
    text: &mut Vec<u8>,
    first: &str,
    dimension: Dimension,
    heading: Heading,
) -> Result<(), AllocError> {
    push_fields(text, first, dimension, heading.last_fields())
}

/// Appends the line that names the fields of dwells, of which `first` are the first.
#[tactic(auto, unfolding(crate::specs::StayTexts::dwell_fields))]
pub fn push_dwell_fields(text: &mut Vec<u8>, first: &str) -> Result<(), AllocError>
    // It appends the first names, those of the count and the times, and the line's end.
    ensures text { OnOk result (text.new.items ≡ text.old.items ++ dwell_fields first.now) }
{
    text.extend_from_slice(first.as_bytes())?;
    text.extend_from_slice(b",visits,least,most\n")
}

/// Appends the line that names the fields of features, which are these.
pub fn push_feature_fields(text: &mut Vec<u8>, first: &str) -> Result<(), AllocError> {
    text.extend_from_slice(first.as_bytes())?;
    Ok(text.push(b'\n')?)
}

/// Appends the line that names the fields of gaps.
pub fn push_gap_fields(text: &mut Vec<u8>, dimension: Dimension) -> Result<(), RunFault> {
    Draft::of(text)
        .push("feature,begins,ends,begins_at,ends_at")
        .push_word(position_fields(dimension))
        .push(",seconds\n")
        .give(text)
}

/// Appends the names of attribute columns to the last line of a text, behind its fields.
fn push_names(alloc: Global, text: &mut Vec<u8>, columns: &[Column]) -> Result<(), RunFault> {
    drop_last(text);
    for column in columns {
        push_next(alloc, text, column.name.as_str())?;
    }
    Ok(text.push(b'\n')?)
}

/// Appends the names of a database's attribute columns to the line that names the other fields, the last one of a text.
pub fn push_columns<S: PageStore>(
    alloc: Global,
    text: &mut Vec<u8>,
    database: &Db<S>,
) -> Result<(), RunFault> {
    match database.head() {
        Some(head) => push_names(alloc, text, head.columns.as_slice()),
        None => Ok(()),
    }
}
