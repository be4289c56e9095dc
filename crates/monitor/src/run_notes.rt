//! What is noted of a run's answers, to be said in words.
use crate::answer::Answer;
use predicates::Predicate;
use querylang::{Command, parse_line};
use reasons::Refusal;
use std::alloc::Global;

/// How many notes are kept; those behind are counted.
const MOST: usize = 1000;

/// What a note says of an answer.
#[derive(Clone, Copy)]
pub enum What {
    /// It is a refusal.
    Refused(Refusal),
    /// The store had no legs.
    NoLegs,
    /// The store has no feature of that name.
    NoFeature,
    /// It is that of a question of a rectangle and a period, and has no records, or all that there are.
    Asked,
}

/// Where a line stands in a script.
#[derive(Clone, Copy)]
pub struct LineSpan {
    /// Its number, from 1.
    pub line: u64,
    /// The byte at which it begins, from 0.
    pub start: usize,
    /// The byte at which it ends, without its line end.
    pub end: usize,
}

impl LineSpan {
    /// The line, in its script.
    pub fn text_in(self, script: &[u8]) -> &[u8] {
        script.get(self.start..self.end).unwrap_or(b"".as_slice())
    }
}

/// A note of an answer.
#[derive(Clone, Copy)]
pub struct Note {
    /// Where the line stands.
    pub place: LineSpan,
    /// What is said of its answer.
    pub what: What,
    /// How many legs the run had loaded before.
    pub legs: u64,
}

/// The notes of a run.
#[derive(Drop)]
pub struct Notes {
    alloc: Global,
    /// Whether they are said.
    is_told: bool,
    /// Whether the store had no legs when the run began.
    is_empty: bool,
    kept: Vec<Note>,
    /// How many were not kept.
    missed: u64,
    /// How many lines and files were refused.
    refused: u64,
    /// How many of those that are kept are no refusals.
    doubts: usize,
    /// Whether it is noted that the store had no legs.
    is_noted: bool,
}

/// What an answer to a command is worth a note for, be it that of a store without legs.
fn doubt_in(command: &Command, answer: Answer, is_empty: bool) -> Option<What> {
    let is_none = matches!(answer, Answer::Nothing);
    match command {
        Command::Load(_) | Command::Write => None,
        _ if is_empty => Some(What::NoLegs),
        Command::Count => None,
        Command::Trajectory(_) => is_none.then_some(What::NoFeature),
        Command::Box(..) => is_none.then_some(What::Asked),
        Command::Legs(predicate, ..) | Command::Features(predicate, ..) => {
            let is_odd = is_none || *predicate == Predicate::Bypasses;
            is_odd.then_some(What::Asked)
        }
    }
}

/// What an answer to a line is worth a note for, where it is no refusal.
fn doubt_of(alloc: Global, answer: Answer, text: &[u8], is_empty: bool) -> Option<What> {
    match parse_line(alloc, text) {
        Ok(Some(command)) => doubt_in(&command, answer, is_empty),
        _ => None,
    }
}

impl Notes {
    /// No notes of a run over a store that has no legs, or may have some.
    pub fn new(alloc: Global, is_told: bool, is_empty: bool) -> Notes {
        Notes {
            alloc,
            is_told,
            is_empty,
            kept: Vec::new(alloc),
            doubts: 0,
            missed: 0,
            refused: 0,
            is_noted: false,
        }
    }

    /// How many lines and files were refused.
    pub fn refused(&self) -> u64 {
        self.refused
    }

    /// The notes that were kept, and how many were not.
    pub fn kept(&self) -> (&[Note], u64) {
        (self.kept.as_slice(), self.missed)
    }

    /// Whether a note of that is to be kept: that the store had no legs is noted once.
    fn is_new(&mut self, what: What) -> bool {
        if !self.is_told {
            return false;
        }
        if let What::NoLegs = what {
            let is_first = !self.is_noted;
            self.is_noted = true;
            return is_first;
        }
        true
    }

    /// Keeps a note, where there is room for one: whether it is kept. Refusals have room of their own.
    fn push(&mut self, note: Note, is_refusal: bool) -> bool {
        let doubts = self.doubts;
        let held = if is_refusal {
            self.kept.len().saturating_sub(doubts)
        } else {
            doubts
        };
        if held >= MOST || self.kept.push(note).is_err() {
            return false;
        }
        if !is_refusal {
            self.doubts = doubts.saturating_add(1);
        }
        true
    }

    /// Keeps a note, or counts a refusal that is not kept.
    fn keep(&mut self, note: Note) {
        let is_refusal = matches!(note.what, What::Refused(_));
        if !self.push(note, is_refusal) && is_refusal {
            self.missed = self.missed.saturating_add(1);
        }
    }

    /// Notes what is to be said of the answer to a line, as so many legs were loaded.
    pub fn note(&mut self, answer: Option<Answer>, place: LineSpan, text: &[u8], legs: u64) {
        let Some(answer) = answer else {
            return;
        };
        let is_empty = self.is_empty && legs == 0;
        let what = match answer {
            Answer::Refused(refusal) => {
                self.refused = self.refused.saturating_add(1);
                Some(What::Refused(refusal))
            }
            _ if self.is_told => doubt_of(self.alloc, answer, text, is_empty),
            _ => None,
        };
        if let Some(what) = what
            && self.is_new(what)
        {
            self.keep(Note { place, what, legs });
        }
    }
}
