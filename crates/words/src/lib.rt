//! The words of a text, one after another, and a text without the blanks at its ends.
#![tactic(auto)]

ghost use Rattle.std.specs.Prelude.{◌≡◌, ◌≤◌, ◌<◌, ◌∷◌, [], length, map, not};
ghost use Rattle.std.specs.Prelude.{IfOk, IfSome, MatchOption};
ghost use Rattle.std.specs.List.{prefix_len, suffix_len};
ghost use Rattle.words.specs.Words.{behind_word, cut, first_word, from_word, is_blank, separates};
ghost use Rattle.words.specs.Words.{words_between};

use std::alloc::{AllocError, Global};

/// What stands between words.
#[derive(Clone, Copy, PartialEq, Eq, Debug)]
pub enum Separator {
    /// A space or a tab: between the words of a line.
    Blank,
    /// A space, a tab, CR or LF: between the words of a text of several lines.
    BlankOrLineEnd,
}

impl Separator {
    /// Whether a byte stands between words.
    pub fn separates(self, byte: u8) -> bool
        ensures { result ≡ separates self byte }
    {
        match self {
            Separator::Blank => is_blank(byte),
            Separator::BlankOrLineEnd => is_blank(byte) || byte == b'\r' || byte == b'\n',
        }
    }
}

fn is_blank(byte: u8) -> bool
    ensures { result ≡ is_blank byte }
{
    byte == b' ' || byte == b'\t'
}

fn blanks_in_front(text: &[u8]) -> usize
    ensures value { result ≡ prefix_len is_blank text.now }
    ensures within { result ≤ length text.now }
{
    text.iter().take_while(|c| is_blank(**c)).count()
}

fn blanks_at_end(text: &[u8]) -> usize
    ensures value { result ≡ suffix_len is_blank text.now }
    ensures within { result ≤ length text.now }
{
    text.iter().rev().take_while(|c| is_blank(**c)).count()
}

/// Bytes without the spaces and tabs at their ends.
pub fn cut(bytes: &[u8]) -> &[u8]
    ensures { result.now ≡ cut bytes.now }
{
    let rest = &bytes[blanks_in_front(bytes)..];
    let end = rest.len() - blanks_at_end(rest);
    &rest[..end]
}

/// A text without the spaces and tabs at its ends.
pub fn cut_text(text: &str) -> &str
    ensures { result.now ≡ cut text.now }
{
    let start = blanks_in_front(text.as_bytes());
    let rest = &text[start..];
    let end = rest.len() - blanks_at_end(rest.as_bytes());
    &rest[..end]
}

fn separators_in_front(text: &[u8], between: Separator) -> usize
    ensures value { result ≡ prefix_len (separates between) text.now }
    ensures within { result ≤ length text.now }
{
    text.iter().take_while(|c| between.separates(**c)).count()
}

fn word_len(text: &[u8], between: Separator) -> usize
    ensures value { result ≡ prefix_len (λ c. not (separates between c)) text.now }
    ensures within { result ≤ length text.now }
{
    text.iter().take_while(|c| !between.separates(**c)).count()
}

/// The first word of a text that begins with one, and what stands behind it; an empty word and the
/// whole text where it begins with none.
pub fn split_word(text: &str, between: Separator) -> (&str, &str)
    // It is the first word of the text, which begins with it, or empty.
    ensures word { result.0.now ≡ first_word (separates between) text.now }
    // The second text is all that stands behind it.
    ensures rest { result.1.now ≡ behind_word (separates between) text.now }
{
    let end = word_len(text.as_bytes(), between);
    (&text[..end], &text[end..])
}

/// The first word of a text, and what stands behind it; `None` where there is no word.
pub fn next_word(text: &str, between: Separator) -> Option<(&str, &str)>
    // There is a word exactly if the text has one. It is the first, and the rest has all others.
    ensures found { MatchOption result (words_between (separates between) text.now ≡ [])
        (λ w. (words_between (separates between) text.now
        ≡ w.0.now ∷ words_between (separates between) w.1.now)
        × (length w.1.now < length text.now)) }
    // It is all that stands behind that word, separators too.
    ensures behind { IfSome result (λ w. w.1.now
        ≡ behind_word (separates between) (from_word (separates between) text.now)) }
{
    let start = separators_in_front(text.as_bytes(), between);
    let rest = &text[start..];
    if rest.is_empty() {
        return None;
    }
    Some(split_word(rest, between))
}

/// All words of a text. Refused where memory runs out.
pub fn words_of(alloc: Global, text: &str, between: Separator) -> Result<Vec<&str>, AllocError>
    ensures { IfOk result (λ ws. map (λ w. w.now) ws.items
        ≡ words_between (separates between) text.now) }
{
    let mut words = Vec::new(alloc);
    let mut rest = text;
    while let Some((word, after)) = next_word(rest, between) {
        words.push(word)?;
        rest = after;
    }
    Ok(words)
}
