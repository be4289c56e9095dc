//! The spans of leaves that are known, by feature.
ghost use Rattle.std.specs.Prelude.{◌<◌, map, length, OnOk};
ghost use Rattle.boxsearch.specs.Known.{Widens};

use chains::LeafSpan;
use std::alloc::{AllocError, Global};

/// Makes room for what is known of a feature; of a feature that had none nothing is known.
pub(crate) fn make_room(
    alloc: Global,
    known: &mut Vec<Vec<LeafSpan>>,
    feature: usize,
) -> Result<(), AllocError>
    ensures room { OnOk result (feature < length known.new.items) }
    ensures widens { Widens (map (λ spans. spans.items) known.old.items)
        (map (λ spans. spans.items) known.new.items) }
{
    'room: while known.len() <= feature {
        known.push(Vec::new(alloc))?;
    }
    Ok(())
}
