//! Which legs of a feature a question wants.
use crate::boxes::Rect;

/// Which legs of a feature a question wants, of those that have a moment in its period. Others of them may be left out.
#[derive(Clone, Copy, PartialEq, Eq, Debug)]
pub enum Sieve {
    /// All of them.
    All,
    /// The first and the last of them.
    Ends,
    /// The first and the last of them, and each whose box meets this rectangle, its edges included.
    Near(Rect),
}
