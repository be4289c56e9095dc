//! The tokens of a text of WKT.
ghost use Rattle.std.specs.Prelude.{◌≤◌, ◌<◌, length, IfSome};

/// A token of WKT.
#[derive(Clone, Copy, Debug)]
pub(crate) enum Token<'a> {
    /// `(`.
    Open,
    /// `)`.
    Close,
    /// `,`.
    Comma,
    /// A word, or a number.
    Word(&'a [u8]),
}

/// The first token of a text, and what stands behind it.
#[derive(Clone, Copy)]
pub(crate) struct Taken<'a> {
    pub(crate) token: Token<'a>,
    pub(crate) rest: &'a [u8],
}

/// Whether a byte ends a word.
fn separates(byte: u8) -> bool {
    byte.is_ascii_whitespace() || byte == b'(' || byte == b')' || byte == b','
}

fn blanks_in_front(text: &[u8]) -> usize
    ensures { result ≤ length text.now }
{
    text.iter()
        .take_while(|byte| byte.is_ascii_whitespace())
        .count()
}

fn word_len(text: &[u8]) -> usize
    ensures { result ≤ length text.now }
{
    text.iter().take_while(|byte| !separates(**byte)).count()
}

/// The first token of a text; `None` if only blanks are left.
pub(crate) fn next_token(text: &[u8]) -> Option<Taken<'_>>
    ensures { IfSome result (λ taken. length taken.rest.now < length text.now) }
{
    let text = &text[blanks_in_front(text)..];
    match text {
        [] => None,
        [b'(', rest @ ..] => Some(Taken {
            token: Token::Open,
            rest,
        }),
        [b')', rest @ ..] => Some(Taken {
            token: Token::Close,
            rest,
        }),
        [b',', rest @ ..] => Some(Taken {
            token: Token::Comma,
            rest,
        }),
        [_, tail @ ..] => {
            let end = 1 + word_len(tail);
            Some(Taken {
                token: Token::Word(&text[..end]),
                rest: &text[end..],
            })
        }
    }
}
