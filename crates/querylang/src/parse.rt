//! Reading a line.
ghost use Rattle.std.specs.Prelude.{◌≡◌, ◌==◌, ◌≤◌, ◌<◌, ◌+◌, ◌||◌, length, map, true, false, IfOk, IsErrOf, None, MatchOption, slice_index, slice_index_or, []};
ghost use Rattle.std.specs.Str.{is_utf8};
ghost use Rattle.querylang.specs.Line.{alone, box_command, command_of, keyword_of, named, is_no_command, line_command, name_read, period_behind, predicate_of, question_of, rect_behind, tested};
ghost use Rattle.querylang.specs.Line.{line_words, word_at};
ghost use Rattle.querylang.specs.Answer.{Gives};
ghost use Rattle.querylang.specs.declared.Command.TheVariants.{Features, Legs, Load, Trajectory};

use crate::{Command, LineCode, LineFault, Name};
use fixedpoint::read_coord;
use legs::Rect;
use predicates::Predicate;
use std::alloc::{AllocError, Global};
use std::str;
use timebase::{Period, read_instant};
use words::{Separator, cut, cut_text, split_word, words_of};

/// The word at a place.
fn word_at<'a>(words: &[&'a str], place: usize) -> &'a str
    requires { place < length words.now }
    ensures { result.now ≡ word_at (map (λ w. w.now) words.now) place }
{
    words[place]
}

/// The rectangle that four words write, from a place on.
#[tactic(auto, unfolding(crate::specs::Line::rect_behind))]
fn read_rect(words: &[&str], place: usize) -> Result<Rect, LineCode>
    requires { place + 3 < length words.now }
    ensures { result ≡ rect_behind place (map (λ w. w.now) words.now) }
{
    match (
        read_coord(word_at(words, place)),
        read_coord(word_at(words, place + 1)),
        read_coord(word_at(words, place + 2)),
        read_coord(word_at(words, place + 3)),
    ) {
        (Ok(x1), Ok(y1), Ok(x2), Ok(y2)) => match Rect::new(x1, y1, x2, y2) {
            Some(rect) => Ok(rect),
            None => Err(LineCode::Q6),
        },
        _ => Err(LineCode::Q5),
    }
}

/// The period that two words write, from a place on.
#[tactic(auto, unfolding(crate::specs::Line::period_behind))]
fn read_period(words: &[&str], place: usize) -> Result<Period, LineCode>
    requires { place + 1 < length words.now }
    ensures { result ≡ period_behind place (map (λ w. w.now) words.now) }
{
    match (
        read_instant(word_at(words, place)),
        read_instant(word_at(words, place + 1)),
    ) {
        (Ok(t1), Ok(t2)) => match Period::new(t1, t2) {
            Some(period) => Ok(period),
            None => Err(LineCode::Q8),
        },
        _ => Err(LineCode::Q7),
    }
}

/// `box X1 Y1 X2 Y2 T1 T2`.
fn read_box(words: &[&str]) -> Result<Command, LineCode>
    ensures { result ≡ box_command (map (λ w. w.now) words.now) }
{
    if words.len() != 7 {
        return Err(LineCode::Q3);
    }
    match read_rect(words, 1) {
        Ok(rect) => match read_period(words, 5) {
            Ok(period) => Ok(Command::Box(rect, period)),
            Err(code) => Err(code),
        },
        Err(code) => Err(code),
    }
}

/// A word of a predicate.
#[tactic(auto, unfolding(crate::specs::Line::predicate_of))]
fn predicate_of(word: &str) -> Option<Predicate>
    ensures { result ≡ predicate_of word.now }
{
    if word == "ever" {
        Some(Predicate::Ever)
    } else if word == "always" {
        Some(Predicate::Always)
    } else if word == "enters" {
        Some(Predicate::Enters)
    } else if word == "leaves" {
        Some(Predicate::Leaves)
    } else if word == "crosses" {
        Some(Predicate::Crosses)
    } else if word == "bypasses" {
        Some(Predicate::Bypasses)
    } else {
        None
    }
}

/// A predicate, and the rectangle and the period of which it is asked.
#[derive(Clone, Copy)]
struct Question {
    predicate: Predicate,
    rect: Rect,
    period: Period,
}

/// `PRED X1 Y1 X2 Y2 T1 T2`, behind the command's word.
#[tactic(auto, unfolding(crate::specs::Line::question_of))]
fn read_question(words: &[&str]) -> Result<Question, LineCode>
    ensures { result ≡ question_of (map (λ w. w.now) words.now) }
{
    if words.len() != 8 {
        return Err(LineCode::Q3);
    }
    match predicate_of(word_at(words, 1)) {
        Some(predicate) => match read_rect(words, 2) {
            Ok(rect) => match read_period(words, 6) {
                Ok(period) => Ok(Question {
                    predicate,
                    rect,
                    period,
                }),
                Err(code) => Err(code),
            },
            Err(code) => Err(code),
        },
        None => Err(LineCode::Q4),
    }
}

/// `legs PRED X1 Y1 X2 Y2 T1 T2`.
fn read_legs(words: &[&str]) -> Result<Command, LineCode>
    ensures { result ≡ tested Legs (question_of (map (λ w. w.now) words.now)) }
{
    match read_question(words) {
        Ok(asked) => Ok(Command::Legs(asked.predicate, asked.rect, asked.period)),
        Err(code) => Err(code),
    }
}

/// `features PRED X1 Y1 X2 Y2 T1 T2`.
fn read_features(words: &[&str]) -> Result<Command, LineCode>
    ensures { result ≡ tested Features (question_of (map (λ w. w.now) words.now)) }
{
    match read_question(words) {
        Ok(asked) => Ok(Command::Features(asked.predicate, asked.rect, asked.period)),
        Err(code) => Err(code),
    }
}

/// A command of one word: `count` or `write`.
fn read_alone(command: Command, words: &[&str]) -> Result<Command, LineCode>
    ensures { result ≡ alone command (map (λ w. w.now) words.now) }
{
    if words.len() == 1 {
        Ok(command)
    } else {
        Err(LineCode::Q3)
    }
}

/// A command that is refused for its own words alone.
fn refused(command: Result<Command, LineCode>) -> Result<Command, LineFault>
    ensures { Gives result command }
{
    match command {
        Ok(command) => Ok(command),
        Err(code) => Err(LineFault::Refused(code)),
    }
}

/// The name behind a first word.
fn read_name(alloc: Global, rest: &str) -> Result<Name, LineFault>
    ensures { Gives result (name_read rest.now) }
{
    let name = cut_text(rest);
    if name.is_empty() {
        return Err(LineFault::Refused(LineCode::Q3));
    }
    Ok(Name::from(String::from_str(alloc, name)?))
}

/// `load NAME`.
fn read_load(alloc: Global, rest: &str) -> Result<Command, LineFault>
    ensures { Gives result (named Load (name_read rest.now)) }
{
    match read_name(alloc, rest) {
        Ok(name) => Ok(Command::Load(name)),
        Err(fault) => Err(fault),
    }
}

/// `trajectory NAME`.
fn read_trajectory(alloc: Global, rest: &str) -> Result<Command, LineFault>
    ensures { Gives result (named Trajectory (name_read rest.now)) }
{
    match read_name(alloc, rest) {
        Ok(name) => Ok(Command::Trajectory(name)),
        Err(fault) => Err(fault),
    }
}

/// The words that begin a command.
#[derive(Clone, Copy)]
enum Keyword {
    Load,
    Count,
    Box,
    Legs,
    Features,
    Trajectory,
    Write,
    Unknown,
}

#[tactic(auto, unfolding(crate::specs::Line::keyword_of))]
fn keyword_of(word: &str) -> Keyword
    ensures { result ≡ keyword_of word.now }
{
    if word == "load" {
        Keyword::Load
    } else if word == "count" {
        Keyword::Count
    } else if word == "box" {
        Keyword::Box
    } else if word == "legs" {
        Keyword::Legs
    } else if word == "features" {
        Keyword::Features
    } else if word == "trajectory" {
        Keyword::Trajectory
    } else if word == "write" {
        Keyword::Write
    } else {
        Keyword::Unknown
    }
}

/// The words of a line.
fn line_words(alloc: Global, text: &str) -> Result<Vec<&str>, AllocError>
    ensures { IfOk result (λ ws. map (λ w. w.now) ws.items ≡ line_words text.now) }
{
    words_of(alloc, text, Separator::Blank)
}

/// What a text asks for that is cut.
#[tactic(auto, unfolding(crate::specs::Line::command_of))]
fn read_command(alloc: Global, text: &str) -> Result<Command, LineFault>
    ensures { Gives result (command_of text.now) }
{
    let (word, rest) = split_word(text, Separator::Blank);
    match keyword_of(word) {
        Keyword::Load => read_load(alloc, rest),
        Keyword::Trajectory => read_trajectory(alloc, rest),
        Keyword::Count => refused(read_alone(Command::Count, line_words(alloc, text)?.as_slice())),
        Keyword::Box => refused(read_box(line_words(alloc, text)?.as_slice())),
        Keyword::Legs => refused(read_legs(line_words(alloc, text)?.as_slice())),
        Keyword::Features => refused(read_features(line_words(alloc, text)?.as_slice())),
        Keyword::Write => refused(read_alone(Command::Write, line_words(alloc, text)?.as_slice())),
        Keyword::Unknown => Err(LineFault::Refused(LineCode::Q2)),
    }
}

/// A line as text; `None` where it is not UTF-8.
fn text_of(line: &[u8]) -> Option<&str>
    ensures { MatchOption result (is_utf8 line.now ≡ false) (λ text. (is_utf8 line.now ≡ true)
        × (text.now ≡ line.now)) }
{
    match str::from_utf8(line) {
        Ok(text) => Some(text),
        Err(_) => None,
    }
}

/// Reads a line of a script, without its line end: what it asks for; `None` for a blank line, or one
/// whose first byte behind its blanks is `#`.
///
/// The error is the first code that applies, or `Memory` if memory ran out.
#[tactic(auto, unfolding(crate::specs::Line::line_command))]
pub fn parse_line(alloc: Global, line: &[u8]) -> Result<Option<Command>, LineFault>
    // It returns exactly the command of the line, or none, or its first refusal, unless memory runs
    // out.
    ensures gives { Gives result (line_command line.now) }
    // Memory is not wanted for a line that asks for nothing.
    ensures memory { IsErrOf result LineFault.Memory → line_command line.now ≡ Ok None → ⊥ }
{
    let text = cut(line);
    if text.is_empty() || text[0] == b'#' {
        return Ok(None);
    }
    match text_of(text) {
        Some(text) => match read_command(alloc, text) {
            Ok(command) => Ok(Some(command)),
            Err(fault) => Err(fault),
        },
        None => Err(LineFault::Refused(LineCode::Q1)),
    }
}
