//! Lines on standard error.
use reasons::{Sentence, Shown};
use std::io::Eprint;

/// Says a line.
pub(crate) fn say<R: Eprint>(rt: &R, words: &str) {
    let _ = eprintln!(rt; "mftb: {words}");
}

/// Says a line of what has that name.
pub(crate) fn say_of<R: Eprint>(rt: &R, name: &str, words: &str) {
    let name = Shown(name);
    let _ = eprintln!(rt; "mftb: {name}: {words}");
}

/// Says a sentence, where it has a word, and memory did not run out for it.
pub(crate) fn tell<R: Eprint>(rt: &R, said: Sentence) {
    if let Ok(Some(words)) = said.end_if_any() {
        say(rt, words.as_str());
    }
}
