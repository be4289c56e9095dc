//! The texts of stays, visits and dwells in rectangles: records of CSV.
ghost use Rattle.std.specs.Prelude.{◌≡◌, ◌<◌, ◌++◌, pos, All, codes, decimal, IfErr, length, OnOk};
ghost use Rattle.std.specs.Int.{int_div_euclid};
ghost use Rattle.fixedpoint.specs.NumberText.{coord_text};
ghost use Rattle.timebase.specs.Instant.{IsMoment};
ghost use Rattle.timebase.specs.InstantText.{instant_text};
ghost use Rattle.trajdb.specs.Calls.{IsText};
ghost use Rattle.trajdb.specs.declared.RunFault.{RunFault};
ghost use Rattle.reports.specs.Printing.{IsPrintFault};
ghost use Rattle.reports.specs.StayTexts.{dwells_text, ends_text, fraction_text, label_text, micros_text, name_text, next_field, position_text, quoted_text, seconds_text, stays_text, three_digits, times_text, visits_text, without_last};

use crate::formatting::{push_number, push_signed};
use fixedpoint::{Coord, push_coord};
use mfcsv::{Dimension, Position};
use moments::{Dwell, End, Moment, Stay, Visit};
use pages::PageStore;
use std::alloc::{AllocError, Global};
use timebase::{Ms, push_instant};
use trajdb::{Db, RunFault};
use writer::push_features;

/// How records are written.
#[derive(Clone, Copy)]
pub struct Frame<'a> {
    /// From what moments are counted.
    pub base: Ms,
    /// How many coordinates a position has.
    pub dimension: Dimension,
    /// What stands before each record: nothing, or a field and a comma.
    pub label: &'a [u8],
}

/// Appends the last three digits of a number.
#[tactic(auto, unfolding(crate::specs::StayTexts::three_digits))]
fn push_three_digits(text: &mut Vec<u8>, number: u64) -> Result<(), AllocError>
    ensures { OnOk result (text.new.items ≡ text.old.items ++ three_digits number) }
{
    text.extend_from_slice(&[
        b'0' + (number / 100 % 10) as u8,
        b'0' + (number / 10 % 10) as u8,
        b'0' + (number % 10) as u8,
    ])
}

/// Appends a comma and a word.
pub(crate) fn push_word(text: &mut Vec<u8>, word: &str) -> Result<(), AllocError>
    ensures { OnOk result (text.new.items ≡ text.old.items ++ next_field word.now) }
{
    text.push(b',')?;
    text.extend_from_slice(word.as_bytes())
}

/// Appends a comma and a number.
pub(crate) fn push_count(text: &mut Vec<u8>, number: u64) -> Result<(), AllocError>
    ensures { OnOk result (text.new.items ≡ text.old.items ++ next_field (decimal number)) }
{
    text.push(b',')?;
    push_number(text, number)
}

/// Takes the last byte away.
#[tactic(auto, unfolding(crate::specs::StayTexts::without_last))]
pub(crate) fn drop_last(text: &mut Vec<u8>)
    ensures { text.new.items ≡ without_last text.old.items }
{
    text.pop();
}

/// Appends a name, quoted where it needs it.
#[tactic(auto, using(crate::proofs::TextLemmas::last_of_features))]
pub(crate) fn push_quoted(alloc: Global, text: &mut Vec<u8>, name: &str) -> Result<(), RunFault>
    ensures fault { IfErr result (λ fault. fault ≡ RunFault.Memory) }
    ensures text { OnOk result (text.new.items ≡ text.old.items ++ quoted_text name.now) }
{
    push_features(alloc, text, &[name])?;
    drop_last(text);
    Ok(())
}

/// Appends the field that stands before each record of a rectangle of that name, and a comma.
pub fn push_label(alloc: Global, text: &mut Vec<u8>, name: &str) -> Result<(), RunFault>
    // It is refused for want of memory alone, and else quoted where CSV needs it.
    ensures fault { IfErr result (λ fault. fault ≡ RunFault.Memory) }
    // It appends exactly the label: the name, quoted where CSV needs it, and a comma.
    ensures text { OnOk result (text.new.items ≡ text.old.items ++ label_text name.now) }
{
    push_quoted(alloc, text, name)?;
    Ok(text.push(b',')?)
}

/// Appends what stands before a record, and the name of a feature.
pub(crate) fn push_labelled<S: PageStore>(
    alloc: Global,
    text: &mut Vec<u8>,
    database: &Db<S>,
    label: &[u8],
    feature: u32,
) -> Result<(), RunFault>
    ensures there { OnOk result (feature < length database.now.book.names) }
    ensures fault { IfErr result (IsText (feature < length database.now.book.names)) }
    ensures text { OnOk result (text.new.items
        ≡ text.old.items ++ label.now ++ name_text database.now.book feature) }
{
    text.extend_from_slice(label)?;
    push_name(alloc, text, database, feature)
}

/// Appends the name of a feature.
pub(crate) fn push_name<S: PageStore>(
    alloc: Global,
    text: &mut Vec<u8>,
    database: &Db<S>,
    feature: u32,
) -> Result<(), RunFault>
    ensures there { OnOk result (feature < length database.now.book.names) }
    ensures fault { IfErr result (IsText (feature < length database.now.book.names)) }
    ensures text { OnOk result (text.new.items
        ≡ text.old.items ++ name_text database.now.book feature) }
{
    match database.name(feature) {
        Some(name) => push_quoted(alloc, text, name),
        None => Err(RunFault::Damaged(0)),
    }
}

/// Appends a comma and a moment as a fraction of milliseconds since the base.
#[tactic(auto, unfolding(crate::specs::StayTexts::fraction_text))]
fn push_fraction(text: &mut Vec<u8>, base: Ms, moment: Moment) -> Result<(), RunFault>
    ensures fault { IfErr result (λ fault. fault ≡ RunFault.Memory) }
    ensures text { OnOk result (text.new.items
        ≡ text.old.items ++ next_field (fraction_text base moment)) }
{
    text.push(b',')?;
    push_signed(text, moment.since(base))?;
    text.push(b'/')?;
    Ok(push_number(text, moment.den)?)
}

/// Appends an instant to the millisecond, without its `Z`.
#[tactic(auto, using(crate::proofs::TextLemmas::last_of_instant))]
fn push_millis(text: &mut Vec<u8>, at: Ms) -> Result<(), AllocError>
    ensures { OnOk result (text.new.items
        ≡ text.old.items ++ without_last (instant_text at)) }
{
    push_instant(text, at)?;
    drop_last(text);
    Ok(())
}

/// Appends a comma and an instant to the microsecond.
pub(crate) fn push_micros(text: &mut Vec<u8>, micros: i64) -> Result<(), RunFault>
    ensures fault { IfErr result (IsPrintFault (IsMoment (int_div_euclid micros (pos 1000)))) }
    ensures text { OnOk result (text.new.items
        ≡ text.old.items ++ next_field (micros_text micros)) }
{
    let Some(at) = Ms::new(micros.div_euclid(1000)) else {
        return Err(RunFault::Failed);
    };
    text.push(b',')?;
    push_millis(text, at)?;
    push_three_digits(text, micros.rem_euclid(1000).unsigned_abs())?;
    Ok(text.push(b'Z')?)
}

/// Appends a first and a last moment: as fractions, and as instants, the first rounded down and the last up.
fn push_times(
    text: &mut Vec<u8>,
    frame: &Frame<'_>,
    enters: Moment,
    leaves: Moment,
) -> Result<(), RunFault>
    ensures fault { IfErr result (λ fault. fault ≡ RunFault.Memory) }
    ensures text { OnOk result (text.new.items
        ≡ text.old.items ++ times_text frame.now.base enters leaves) }
{
    push_fraction(text, frame.base, enters)?;
    push_fraction(text, frame.base, leaves)?;
    push_micros(text, enters.micros_down())?;
    push_micros(text, leaves.micros_up())?;
    Ok(())
}

/// Appends a comma and a coordinate.
fn push_next_coord(text: &mut Vec<u8>, coord: Coord) -> Result<(), AllocError>
    ensures { OnOk result (text.new.items ≡ text.old.items ++ next_field (coord_text coord)) }
{
    text.push(b',')?;
    push_coord(text, coord)
}

/// Appends a comma and each coordinate of a position.
#[tactic(auto, unfolding(crate::specs::StayTexts::position_text))]
pub(crate) fn push_position(
    text: &mut Vec<u8>,
    dimension: Dimension,
    position: Position,
) -> Result<(), AllocError>
    ensures text { OnOk result (text.new.items
        ≡ text.old.items ++ position_text dimension position) }
{
    push_next_coord(text, position.x)?;
    push_next_coord(text, position.y)?;
    match dimension {
        Dimension::Two => Ok(()),
        Dimension::Three => push_next_coord(text, position.z),
    }
}

/// Appends what a first and a last moment are and the edges that are met there, each behind a comma.
#[tactic(auto, unfolding(crate::specs::StayTexts::ends_text))]
fn push_ends(text: &mut Vec<u8>, enters_by: End, leaves_by: End) -> Result<(), AllocError>
    ensures { OnOk result (text.new.items ≡ text.old.items ++ ends_text enters_by leaves_by) }
{
    push_word(text, enters_by.as_str())?;
    push_word(text, leaves_by.as_str())?;
    push_word(text, enters_by.met_edges())?;
    push_word(text, leaves_by.met_edges())
}

/// Appends where a feature is at a first and a last moment, what the moments are, and the edges that are met there.
fn push_crossing(
    text: &mut Vec<u8>,
    dimension: Dimension,
    entry: Position,
    exit: Position,
    enters_by: End,
    leaves_by: End,
) -> Result<(), AllocError>
    ensures { OnOk result (text.new.items
        ≡ text.old.items ++ position_text dimension entry ++ position_text dimension exit
        ++ ends_text enters_by leaves_by) }
{
    push_position(text, dimension, entry)?;
    push_position(text, dimension, exit)?;
    push_ends(text, enters_by, leaves_by)
}

/// Appends the fields of a stay behind its feature.
pub(crate) fn push_stay_rest(
    text: &mut Vec<u8>,
    frame: &Frame<'_>,
    stay: &Stay,
) -> Result<(), RunFault>
    ensures fault { IfErr result (λ fault. fault ≡ RunFault.Memory) }
    ensures text { OnOk result (text.new.items
        ≡ text.old.items ++ times_text frame.now.base stay.now.enters stay.now.leaves
        ++ position_text frame.now.dimension stay.now.entry
        ++ position_text frame.now.dimension stay.now.exit
        ++ ends_text stay.now.enters_by stay.now.leaves_by) }
{
    push_times(text, frame, stay.enters, stay.leaves)?;
    Ok(push_crossing(
        text,
        frame.dimension,
        stay.entry,
        stay.exit,
        stay.enters_by,
        stay.leaves_by,
    )?)
}

/// Appends a record for each stay. Refused for want of memory, and with page 0 where a feature is not in the book.
pub fn push_stays<S: PageStore>(
    alloc: Global,
    text: &mut Vec<u8>,
    database: &Db<S>,
    frame: &Frame<'_>,
    stays: &[Stay],
) -> Result<(), RunFault>
    // It succeeds only if each stay's feature is in the book.
    ensures there { OnOk result
        (All (λ stay. stay.leg.feature < length database.now.book.names) stays.now) }
    // It fails only if memory runs out, or with page 0 if some stay's feature is not in the book.
    ensures fault { IfErr result (IsText
        (All (λ stay. stay.leg.feature < length database.now.book.names) stays.now)) }
    // It appends one record for each stay, in order.
    ensures text { OnOk result (text.new.items
        ≡ text.old.items ++ stays_text database.now.book frame.now stays.now) }
{
    for stay in stays {
        push_labelled(alloc, text, database, frame.label, stay.leg.feature)?;
        push_stay_rest(text, frame, stay)?;
        text.push(b'\n')?;
    }
    Ok(())
}

/// Appends the fields of a visit behind its feature, and the line's end.
fn push_visit_rest(text: &mut Vec<u8>, frame: &Frame<'_>, visit: &Visit) -> Result<(), RunFault>
    ensures fault { IfErr result (λ fault. fault ≡ RunFault.Memory) }
    ensures text { OnOk result (text.new.items
        ≡ text.old.items ++ times_text frame.now.base visit.now.enters visit.now.leaves
        ++ position_text frame.now.dimension visit.now.entry
        ++ position_text frame.now.dimension visit.now.exit
        ++ ends_text visit.now.enters_by visit.now.leaves_by
        ++ next_field (decimal visit.now.legs) ++ codes "\n") }
{
    push_times(text, frame, visit.enters, visit.leaves)?;
    push_crossing(
        text,
        frame.dimension,
        visit.entry,
        visit.exit,
        visit.enters_by,
        visit.leaves_by,
    )?;
    push_count(text, visit.legs)?;
    Ok(text.push(b'\n')?)
}

/// Appends a record for each visit, and is refused as `push_stays` is.
pub fn push_visits<S: PageStore>(
    alloc: Global,
    text: &mut Vec<u8>,
    database: &Db<S>,
    frame: &Frame<'_>,
    visits: &[Visit],
) -> Result<(), RunFault>
    // It succeeds only if each visit's feature is in the book.
    ensures there { OnOk result
        (All (λ visit. visit.feature < length database.now.book.names) visits.now) }
    // It fails only if memory runs out, or with page 0 if some visit's feature is not in the book.
    ensures fault { IfErr result (IsText
        (All (λ visit. visit.feature < length database.now.book.names) visits.now)) }
    // It appends one record for each visit, in order.
    ensures text { OnOk result (text.new.items
        ≡ text.old.items ++ visits_text database.now.book frame.now visits.now) }
{
    for visit in visits {
        push_labelled(alloc, text, database, frame.label, visit.feature)?;
        push_visit_rest(text, frame, visit)?;
    }
    Ok(())
}

/// Appends a comma and microseconds as seconds.
#[tactic(auto, unfolding(crate::specs::StayTexts::seconds_text))]
pub(crate) fn push_seconds(text: &mut Vec<u8>, micros: u64) -> Result<(), RunFault>
    ensures fault { IfErr result (λ fault. fault ≡ RunFault.Memory) }
    ensures text { OnOk result (text.new.items
        ≡ text.old.items ++ next_field (seconds_text micros)) }
{
    push_count(text, micros / 1_000_000)?;
    text.push(b'.')?;
    push_three_digits(text, micros / 1000)?;
    Ok(push_three_digits(text, micros)?)
}

/// Appends the fields of a dwell behind its feature, and the line's end.
fn push_dwell_rest(text: &mut Vec<u8>, dwell: &Dwell) -> Result<(), RunFault>
    ensures fault { IfErr result (λ fault. fault ≡ RunFault.Memory) }
    ensures text { OnOk result (text.new.items
        ≡ text.old.items ++ next_field (decimal dwell.now.visits)
        ++ next_field (seconds_text dwell.now.least)
        ++ next_field (seconds_text dwell.now.most) ++ codes "\n") }
{
    push_count(text, dwell.visits)?;
    push_seconds(text, dwell.least)?;
    push_seconds(text, dwell.most)?;
    Ok(text.push(b'\n')?)
}

/// Appends a record for each feature: how many visits it pays, and for how many seconds it stays at least and at most.
/// Refused for want of memory, and with page 0 where a feature is not in the book.
pub fn push_dwells<S: PageStore>(
    alloc: Global,
    text: &mut Vec<u8>,
    database: &Db<S>,
    label: &[u8],
    dwells: &[Dwell],
) -> Result<(), RunFault>
    // It succeeds only if each dwell's feature is in the book.
    ensures there { OnOk result
        (All (λ dwell. dwell.feature < length database.now.book.names) dwells.now) }
    // It fails only if memory runs out, or with page 0 if some dwell's feature is not in the book.
    ensures fault { IfErr result (IsText
        (All (λ dwell. dwell.feature < length database.now.book.names) dwells.now)) }
    // It appends one record for each dwell, in order.
    ensures text { OnOk result (text.new.items
        ≡ text.old.items ++ dwells_text database.now.book label.now dwells.now) }
{
    for dwell in dwells {
        push_labelled(alloc, text, database, label, dwell.feature)?;
        push_dwell_rest(text, dwell)?;
    }
    Ok(())
}
