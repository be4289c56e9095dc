//! Which pages of a store are not synced.
ghost use Rattle.std.specs.Prelude.{◌≡◌};
ghost use Rattle.pages.specs.Unsynced.{with_written};

/// Which pages of a store may have been written and not synced since.
#[derive(Clone, Copy, PartialEq, Eq, Debug)]
pub enum Unsynced {
    /// No page.
    Nothing,
    /// Page 0 alone.
    First,
    /// Another page, and perhaps page 0 too.
    Others,
}

impl Unsynced {
    /// The same, once page `number` is written too.
    pub fn with_written(self, number: u32) -> Unsynced
        ensures { result ≡ with_written number self }
    {
        match self {
            Unsynced::Others => Unsynced::Others,
            Unsynced::Nothing | Unsynced::First => {
                if number == 0 {
                    Unsynced::First
                } else {
                    Unsynced::Others
                }
            }
        }
    }
}
