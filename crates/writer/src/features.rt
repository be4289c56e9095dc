//! The names of features.
ghost use Rattle.std.specs.Prelude.{◌≡◌, IfOk, map};
ghost use Rattle.writer.specs.File.{features_text};

use crate::records::Records;
use std::alloc::{AllocError, Global};

/// Each name as a record.
pub(crate) fn features_text(alloc: Global, names: &[&str]) -> Result<Vec<u8>, AllocError>
    ensures { IfOk result (λ text. text.items ≡ features_text (map (λ n. n.now) names.now)) }
{
    let mut records = Records::new(alloc);
    for name in names {
        records.push(&[name.as_bytes()])?;
    }
    records.into_text()
}
