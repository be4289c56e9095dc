//! What a book keeps of the head of its first file.
use mfcsv::{Columns, Dimension, Head, Text};
use timebase::Ms;

/// What the first accepted file gives a book: all that its head says but the numbers of its records.
#[derive(Debug, Drop)]
pub struct BookHead {
    /// The name of the coordinate reference system.
    pub crs: Text,
    /// How many coordinates each position has.
    pub dimension: Dimension,
    /// The start instant, from which answers count times.
    pub base: Ms,
    /// The attribute columns.
    pub columns: Columns,
}

impl From<Head> for BookHead {
    ghost use Rattle.std.specs.Prelude.{◌≡◌};
    ghost use Rattle.legs.specs.Book.{kept_head};

    ghost from_gives = { λ head r. r ≡ kept_head head };

    fn from(head: Head) -> BookHead {
        BookHead {
            crs: head.crs,
            dimension: head.dimension,
            base: head.start,
            columns: head.columns,
        }
    }
}
