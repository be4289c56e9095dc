//! A sentence that is put together of pieces.
use crate::fields::text_of;
use crate::shown_value::Shown;
use fixedpoint::{Coord, push_coord};
use std::alloc::{AllocError, Global};
use timebase::{Ms, push_instant};

/// A sentence that is put together. It remembers whether memory ran out.
#[derive(Drop)]
pub struct Sentence {
    alloc: Global,
    text: String,
    /// Whether no piece is missing.
    is_whole: bool,
}

impl Sentence {
    /// A sentence without a word.
    pub fn new(alloc: Global) -> Sentence {
        Sentence {
            alloc,
            text: String::new(alloc),
            is_whole: true,
        }
    }

    /// Where its memory is of.
    pub fn alloc(&self) -> Global {
        self.alloc
    }

    /// How many bytes it has.
    pub(crate) fn len(&self) -> usize {
        self.text.len()
    }

    /// Notes whether memory ran out for a piece.
    pub(crate) fn note(&mut self, added: Result<(), AllocError>) {
        self.is_whole = self.is_whole && added.is_ok();
    }

    /// Adds a text.
    pub fn text(&mut self, text: &str) {
        let added = self.text.push_str(text);
        self.note(added);
    }

    /// Adds what stands in front of the first `{}` of a text, and gives what stands behind it.
    fn front<'a>(&mut self, text: &'a str) -> &'a str {
        let (front, behind) = text.split_once("{}").unwrap_or((text, ""));
        self.text(front);
        behind
    }

    /// Adds a value that someone else wrote.
    fn shown(&mut self, value: &str) {
        let value = Shown(value);
        let added = write!(self.text, "{value}");
        self.note(added);
    }

    /// Adds the digits of a number.
    fn digits(&mut self, number: u64) {
        let added = write!(self.text, "{number}");
        self.note(added);
    }

    /// Adds a text. A value that someone else wrote takes the place of its `{}`.
    pub fn value(&mut self, text: &str, value: &str) {
        let behind = self.front(text);
        self.shown(value);
        self.text(behind);
    }

    /// Adds a text. Two values that someone else wrote take the places of its two `{}`.
    pub fn values(&mut self, text: &str, first: &str, second: &str) {
        let behind = self.front(text);
        self.shown(first);
        self.value(behind, second);
    }

    /// Adds a text. A number takes the place of its `{}`.
    pub fn number(&mut self, text: &str, number: u64) {
        let behind = self.front(text);
        self.digits(number);
        self.text(behind);
    }

    /// Adds a text. Two numbers take the places of its two `{}`.
    pub fn numbers(&mut self, text: &str, first: u64, second: u64) {
        let behind = self.front(text);
        self.digits(first);
        self.number(behind, second);
    }

    /// Adds a text. A number, and a value that someone else wrote, take the places of its two `{}`.
    pub fn numbered(&mut self, text: &str, number: u64, value: &str) {
        let behind = self.front(text);
        self.digits(number);
        self.value(behind, value);
    }

    /// Adds a moment as an instant, from that byte of its text on. Its milliseconds stand there where they are not 0.
    pub(crate) fn instant(&mut self, moment: Ms, from: usize) {
        let mut bytes = Vec::new(self.alloc);
        let added = push_instant(&mut bytes, moment);
        self.note(added);
        let end = if moment.millis() % 1000 == 0 { 19 } else { 23 };
        self.text(text_of(bytes.get(from..end).unwrap_or(b"".as_slice())));
        self.text("Z");
    }

    /// Adds a coordinate of that many units of 10^-7.
    pub(crate) fn coordinate(&mut self, units: i64) {
        let mut bytes = Vec::new(self.alloc);
        if let Some(coordinate) = Coord::new(units) {
            let added = push_coord(&mut bytes, coordinate);
            self.note(added);
        }
        self.text(text_of(bytes.as_slice()));
    }

    /// The sentence. Refused where memory ran out.
    pub fn end(self) -> Result<String, AllocError> {
        let Sentence { text, is_whole, .. } = self;
        if is_whole { Ok(text) } else { Err(AllocError) }
    }

    /// The sentence; `None` where it has no word. Refused where memory ran out.
    pub fn end_if_any(self) -> Result<Option<String>, AllocError> {
        let text = self.end()?;
        Ok(if text.is_empty() { None } else { Some(text) })
    }
}
