//! An entry in 56 bytes.
ghost use Rattle.std.specs.Prelude.{◌≡◌, ◌+◌, ◌≤◌, length, int_le, IsTrue};
ghost use Rattle.tbnode.specs.Parts.{signed_at};
ghost use Rattle.tbnode.specs.Steps.{EntryReadsBack};
ghost use Rattle.tbnode.specs.Layout.{entry_bytes, entry_from_bytes, is_entry};

use crate::fields::{i64_at, put_i64, put_u32, u32_at};
use legs::Box3;
use std::marker::Model;

/// An entry of an inner page: a page of the level below, and the least box that holds its legs.
#[derive(Clone, Copy, PartialEq, Eq, Debug)]
pub struct Entry {
    /// The number of the page below.
    pub child: u32,
    /// The least box that holds the legs below that page.
    pub bounds: Box3,
}

impl Model for Entry {
    ghost use Rattle.legs.specs.Boxes.{BoxView};
    ghost use Rattle.tbnode.specs.Nodes.{EntryView};

    ghost Value = { EntryView BoxView };

    ghost view = { λ a. record { child = a.child; bounds = a.bounds } };

    ghost inverse = { λ v. record { child = v.child; bounds = v.bounds } };
}

/// Whether the number at one place is at most the one at another.
fn is_ordered(bytes: &[u8], least: usize, greatest: usize) -> bool
    requires least { least + 8 ≤ length bytes.now }
    requires greatest { greatest + 8 ≤ length bytes.now }
    ensures { result ≡ int_le (signed_at least bytes.now) (signed_at greatest bytes.now) }
{
    i64_at(bytes, least) <= i64_at(bytes, greatest)
}

/// Whether 56 bytes say an entry whose bounds are in order.
#[tactic(auto, unfolding(crate::specs::Layout::bounds_from_bytes, crate::specs::Layout::is_entry))]
pub(crate) fn is_entry(bytes: &[u8]) -> bool
    requires { length bytes.now ≡ 56 }
    ensures { result ≡ is_entry bytes.now }
{
    is_ordered(bytes, 8, 32)
        && is_ordered(bytes, 16, 40)
        && is_ordered(bytes, 24, 48)
        && u32_at(bytes, 4) == 0
}

/// The entry that 56 bytes say.
#[tactic(auto, unfolding(crate::specs::Layout::bounds_from_bytes, crate::specs::Layout::is_entry))]
pub(crate) fn entry_in(bytes: &[u8]) -> Entry
    requires len { length bytes.now ≡ 56 }
    requires lawful { IsTrue (is_entry bytes.now) }
    ensures { result ≡ entry_from_bytes bytes.now }
{
    let bounds = Box3 {
        x_min: i64_at(bytes, 8),
        y_min: i64_at(bytes, 16),
        t_min: i64_at(bytes, 24),
        x_max: i64_at(bytes, 32),
        y_max: i64_at(bytes, 40),
        t_max: i64_at(bytes, 48),
    };
    Entry {
        child: u32_at(bytes, 0),
        bounds,
    }
}

/// The 56 bytes of an entry.
pub(crate) fn bytes_of(entry: &Entry) -> [u8; 56]
    ensures value { result ≡ entry_bytes entry.now }
    ensures reads_back { EntryReadsBack entry.now }
{
    let Entry { child, bounds } = *entry;
    let mut bytes = [0; 56];
    put_u32(&mut bytes, 0, child);
    put_i64(&mut bytes, 8, bounds.x_min);
    put_i64(&mut bytes, 16, bounds.y_min);
    put_i64(&mut bytes, 24, bounds.t_min);
    put_i64(&mut bytes, 32, bounds.x_max);
    put_i64(&mut bytes, 40, bounds.y_max);
    put_i64(&mut bytes, 48, bounds.t_max);
    bytes
}
