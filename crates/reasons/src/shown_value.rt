//! How a value that someone else wrote is shown.
use std::fmt;

/// How many characters of a value are shown.
const MOST: usize = 60;

/// A value as it is shown on a terminal: on one line, no character of it is a command or looks like none, and a long
/// one is cut behind 60 characters.
#[derive(Clone, Copy)]
pub struct Shown<'a>(pub &'a str);

/// Whether a character may move the cursor, or turn what stands beside it.
fn is_command(c: char) -> bool {
    c.is_control() || matches!(c, '\u{2028}'..='\u{202e}' | '\u{2066}'..='\u{2069}')
}

/// Whether a character is not seen, or looks like a space: a byte order mark, a no-break space, one without width.
fn is_hidden(c: char) -> bool {
    matches!(
        c,
        '\u{a0}' | '\u{ad}' | '\u{200b}'..='\u{200f}' | '\u{202f}' | '\u{2060}' | '\u{feff}'
    )
}

/// Whether a character is seen as itself on a terminal.
pub fn is_seen(c: char) -> bool {
    !is_command(c) && !is_hidden(c)
}

/// The character that is shown for a character.
fn seen_for(c: char) -> char {
    if is_seen(c) { c } else { '\u{fffd}' }
}

impl fmt::Display for Shown<'_> {
    fn fmt<W: fmt::Write>(&self, f: &mut fmt::Formatter<W>) -> fmt::Result {
        let mut left = MOST;
        for c in self.0.chars() {
            if left == 0 {
                return f.write_str("...");
            }
            left -= 1;
            f.write_char(seen_for(c))?;
        }
        Ok(())
    }
}
