//! The parts of a catalogue's text, as they are put behind one another.
ghost use Rattle.std.specs.Prelude.{◌≡◌, ◌++◌, ◌∷◌, [], All, OnOk};
ghost use Rattle.byteorder.specs.Endian.{big_bytes};
ghost use Rattle.tbnode.specs.Parts.{signed_bytes};
ghost use Rattle.register.specs.ChainWriter.{Pushes};
ghost use Rattle.register.specs.Saved.{head_of};
ghost use Rattle.register.specs.Text.{column_text, columns_text, head_text, kept_text, row_text, short_text, AreCounted, IsColumn, IsHead, FitsKept, FitsPlace, IsShortText};

use crate::chain_writer::ChainWriter;
use crate::contents::Kept;
use legs::BookHead;
use mfcsv::{Column, Columns};
use rows::Row;
use std::alloc::AllocError;
use tbtree::Place;

/// Puts a byte at the end of the text.
pub(crate) fn push_byte(writer: &mut ChainWriter, n: u8) -> Result<(), AllocError>
    ensures { OnOk result (writer.new ≡ record writer.old { text = writer.old.text ++ n ∷ [] }) }
{
    writer.push(&[n])
}

/// Puts a number of four bytes at the end of the text.
pub(crate) fn push_u32(writer: &mut ChainWriter, n: u32) -> Result<(), AllocError>
    ensures { OnOk result (writer.new
        ≡ record writer.old { text = writer.old.text ++ big_bytes 4 n }) }
{
    writer.push(&n.to_be_bytes())
}

/// Puts a number of eight bytes at the end of the text.
pub(crate) fn push_u64(writer: &mut ChainWriter, n: u64) -> Result<(), AllocError>
    ensures { OnOk result (writer.new
        ≡ record writer.old { text = writer.old.text ++ big_bytes 8 n }) }
{
    writer.push(&n.to_be_bytes())
}

/// Puts a number of eight bytes at the end of the text, as two's complement.
pub(crate) fn push_i64(writer: &mut ChainWriter, n: i64) -> Result<(), AllocError>
    ensures { OnOk result (writer.new
        ≡ record writer.old { text = writer.old.text ++ signed_bytes n }) }
{
    writer.push(&n.to_be_bytes())
}

/// Puts a text behind its length at the end.
pub(crate) fn push_text(writer: &mut ChainWriter, text: &str) -> Result<(), AllocError>
    ensures { Pushes (short_text text.now) (IsShortText text.now) writer.old writer.new result }
{
    push_u64(writer, text.len() as u64)?;
    writer.push(text.as_bytes())
}

/// Puts an attribute column at the end of the text.
pub(crate) fn push_column(writer: &mut ChainWriter, column: &Column) -> Result<(), AllocError>
    ensures { Pushes (column_text column.now) (IsColumn column.now) writer.old writer.new result }
{
    push_text(writer, column.name.as_str())?;
    push_text(writer, column.kind.as_str())
}

/// Puts attribute columns behind their number at the end of the text.
pub(crate) fn push_columns(writer: &mut ChainWriter, columns: &Columns) -> Result<(), AllocError>
    ensures { Pushes (columns_text columns.now) (AreCounted IsColumn 64 columns.now)
        writer.old writer.new result }
{
    let columns = columns.as_slice();
    push_u64(writer, columns.len() as u64)?;
    for column in columns {
        push_column(writer, column)?;
    }
    Ok(())
}

/// Puts what is kept of a head at the end of the text.
pub(crate) fn push_head(writer: &mut ChainWriter, head: &BookHead) -> Result<(), AllocError>
    ensures { Pushes (head_text (head_of head.now)) (IsHead (head_of head.now))
        writer.old writer.new result }
{
    push_i64(writer, head.base.millis())?;
    push_text(writer, head.crs.as_str())?;
    push_columns(writer, &head.columns)
}

/// Puts the place of a feature at the end of the text.
fn push_place(writer: &mut ChainWriter, place: &Place) -> Result<(), AllocError>
    ensures { Pushes (big_bytes 4 place.now.first ++ (big_bytes 4 place.now.last
        ++ (big_bytes 4 place.now.last_index ++ big_bytes 8 place.now.legs)))
        (FitsPlace place.now) writer.old writer.new result }
{
    push_u32(writer, place.first)?;
    push_u32(writer, place.last)?;
    push_u32(writer, place.last_index)?;
    push_u64(writer, place.legs)
}

/// Puts what is kept of a feature beside its name at the end of the text.
#[tactic(auto, unfolding(crate::specs::Text::kept_text))]
fn push_kept(writer: &mut ChainWriter, kept: &Kept) -> Result<(), AllocError>
    ensures { Pushes (kept_text kept.now) (FitsKept kept.now) writer.old writer.new result }
{
    push_i64(writer, kept.end)?;
    push_place(writer, &kept.place)
}

/// Puts a feature at the end of the text.
pub(crate) fn push_feature(
    writer: &mut ChainWriter,
    name: &str,
    kept: &Kept,
) -> Result<(), AllocError>
    ensures { Pushes (short_text name.now ++ kept_text kept.now)
        (IsShortText name.now × FitsKept kept.now) writer.old writer.new result }
{
    push_text(writer, name)?;
    push_kept(writer, kept)
}

/// Puts a row of attribute values at the end of the text.
pub(crate) fn push_row(writer: &mut ChainWriter, row: &Row<'_>) -> Result<(), AllocError>
    ensures { Pushes (row_text row.now) (All IsShortText row.now) writer.old writer.new result }
{
    'values: for i in 0..row.len() {
        push_text(writer, row.value(i))?;
    }
    Ok(())
}
