//! The texts of several parts, as far as they were written.
ghost use Rattle.std.specs.Prelude.{◌≡◌};
ghost use Rattle.parts.specs.Part.{has};

use crate::records::Records;
use csv::ByteRecord;
use std::alloc::{AllocError, Global};
use std::marker::Model;

/// Whether a part has a record of that owner.
fn has(part: u64, owner: Option<u64>) -> bool
    ensures { result ≡ has part owner }
{
    match owner {
        Some(alone) => alone == part,
        None => true,
    }
}

/// The text of one part, as far as it was written; after a refusal no more is written.
#[derive(Drop)]
pub(crate) struct PartText {
    part: u64,
    records: Records,
}

impl Model for PartText {
    ghost use Rattle.parts.specs.Texts.{PartView};

    ghost Value = { PartView };

    ghost view = { λ a.
        record { part = a.part; text = a.records.text; refused = a.records.refused } };
}

impl PartText {
    ghost use Rattle.std.specs.Prelude.{◌≡◌, IfOk, OnOk, false};
    ghost use Rattle.csv.specs.Records.{fields_of};
    ghost use Rattle.mfcsv.specs.Unread.{cells};
    ghost use Rattle.parts.specs.Part.{owner_of};
    ghost use Rattle.parts.specs.Texts.{begun, with_fields};

    /// A text without a record.
    pub(crate) fn new(alloc: Global, part: u64) -> Result<PartText, AllocError>
        ensures { IfOk result (λ text. text ≡ begun part) }
    {
        let records = Records::new(alloc)?;
        Ok(PartText { part, records })
    }

    /// Writes what stands in the place of a record, which one part of `n` has alone or each has.
    pub(crate) fn take(
        &mut self,
        owner: Option<u64>,
        n: u64,
        row: &ByteRecord,
    ) -> Result<(), AllocError>
        requires clean { self.old.refused ≡ false }
        requires owned { owner ≡ owner_of n (cells row.now) }
        ensures { OnOk result (self.new ≡ with_fields n (fields_of row.now) self.old) }
    {
        if has(self.part, owner) {
            self.records.push(row)
        } else {
            self.records.push_blank()
        }
    }

    /// What was written.
    pub(crate) fn into_text(self) -> Result<Vec<u8>, AllocError>
        ensures { IfOk result (λ text. text.items ≡ self.text) }
    {
        self.records.into_text()
    }
}
