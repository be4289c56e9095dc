//! The texts of attributes: the values behind the record of a stay.
ghost use Rattle.std.specs.Prelude.{◌≡◌, ◌<◌, ◌++◌, [], IfErr, length, OnOk, slice_index_or};
ghost use Rattle.trajdb.specs.Calls.{IsText};
ghost use Rattle.trajdb.specs.declared.RunFault.{RunFault};
ghost use Rattle.reports.specs.StayTexts.{next_field, shown_value, values_text};

use crate::draft::Draft;
use crate::moments_text::{Frame, push_quoted};
use moments::Stay;
use pages::PageStore;
use rows::Row;
use std::alloc::Global;
use trajdb::{Db, RunFault};

/// Appends a text, quoted as `box` quotes it; nothing of a blank one, since a record of it alone would be quoted.
#[tactic(auto, unfolding(crate::specs::StayTexts::shown_value))]
fn push_shown(alloc: Global, text: &mut Vec<u8>, said: &str) -> Result<(), RunFault>
    ensures fault { IfErr result (λ fault. fault ≡ RunFault.Memory) }
    ensures text { OnOk result (text.new.items ≡ text.old.items ++ shown_value said.now) }
{
    if said.is_empty() {
        return Ok(());
    }
    push_quoted(alloc, text, said)
}

/// Appends a comma and a text, quoted likewise.
pub(crate) fn push_next(alloc: Global, text: &mut Vec<u8>, said: &str) -> Result<(), RunFault>
    ensures fault { IfErr result (λ fault. fault ≡ RunFault.Memory) }
    ensures text { OnOk result (text.new.items
        ≡ text.old.items ++ next_field (shown_value said.now)) }
{
    text.push(b',')?;
    push_shown(alloc, text, said)
}

/// Appends the values of a row, each behind a comma.
#[tactic(auto, using(crate::proofs::TextLemmas::texts_more, crate::proofs::TextLemmas::texts_all))]
fn push_row(alloc: Global, text: &mut Vec<u8>, values: &Row<'_>) -> Result<(), RunFault>
    ensures fault { IfErr result (λ fault. fault ≡ RunFault.Memory) }
    ensures text { OnOk result (text.new.items ≡ text.old.items ++ values_text values.now) }
{
    'values: for i in 0..values.len() {
        push_next(alloc, text, values.value(i))?;
    }
    Ok(())
}

/// Appends the attribute values of the record of that number, each behind a comma. Refused for want of memory, and with
/// page 0 where the book has no such record.
pub(crate) fn push_values<S: PageStore>(
    alloc: Global,
    text: &mut Vec<u8>,
    database: &Db<S>,
    row: u32,
) -> Result<(), RunFault>
    ensures there { OnOk result (row < length database.now.book.rows) }
    ensures fault { IfErr result (IsText (row < length database.now.book.rows)) }
    ensures text { OnOk result (text.new.items
        ≡ text.old.items ++ values_text (slice_index_or database.now.book.rows row [])) }
{
    match database.row(row) {
        Some(values) => push_row(alloc, text, &values),
        None => Err(RunFault::Damaged(0)),
    }
}

/// Appends a record for each stay, with the values of its leg's attributes behind the other fields. Refused as
/// `push_stays` is, and with page 0 where a leg's record is not in the book.
pub fn push_valued_stays<S: PageStore>(
    alloc: Global,
    text: &mut Vec<u8>,
    database: &Db<S>,
    frame: &Frame<'_>,
    stays: &[Stay],
) -> Result<(), RunFault> {
    let mut records = Draft::of(text);
    for stay in stays {
        records = records
            .push_labelled(alloc, database, frame.label, stay.leg.feature)
            .push_stay_rest(frame, stay)
            .push_values(alloc, database, stay.leg.row)
            .push("\n");
    }
    records.give(text)
}
