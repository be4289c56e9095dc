//! How the program ended where it did what it was asked to do.

/// How the program ended where it did what it was asked to do.
#[derive(Clone, Copy)]
pub(crate) enum Outcome {
    /// Nothing is to be said of it.
    Done,
    /// A line or a file was refused, and that was asked for.
    Refused,
    /// The zone file was refused, and that was said.
    ZonesRefused,
}

impl Outcome {
    /// How a run ended in which so many lines and files were refused: with `--strict` they count.
    pub(crate) fn of_run(is_strict: bool, refused: u64) -> Outcome {
        if is_strict && refused > 0 {
            Outcome::Refused
        } else {
            Outcome::Done
        }
    }
}
