//! The words of the command line, one after another.
use anyhow::{Context, Result, bail};
use std::env::Args;

/// The words that are left.
#[derive(Drop)]
pub(crate) struct Words {
    words: Args,
}

impl Words {
    pub(crate) fn new(words: Args) -> Words {
        Words { words }
    }

    /// The next word, if there is one.
    pub(crate) fn next(&mut self) -> Option<String> {
        self.words.next()
    }

    /// The next word, which is of that name.
    pub(crate) fn text(&mut self, name: &str) -> Result<String> {
        match self.next() {
            Some(word) => Ok(word),
            None => bail!("no {name}"),
        }
    }

    /// The next word, which is a number of that name.
    pub(crate) fn number(&mut self, name: &str) -> Result<u32> {
        let word = self.text(name)?;
        let number = word.as_str().parse().context("no number")?;
        Ok(number)
    }
}
