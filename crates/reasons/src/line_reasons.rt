//! Why a line of a script is refused.
ghost use Rattle.std.specs.Prelude.{◌≤◌};

use crate::codes::Code;
use crate::fields::{first_word, text_of, word_at, word_count};
use crate::sentence::Sentence;
use fixedpoint::{NumberFault, read_coord};
use timebase::{TimeFault, read_instant};
use words::{Separator, cut, cut_text};

/// The corners of the rectangle of a question.
const CORNERS: [&str; 4] = ["X1", "Y1", "X2", "Y2"];

/// Whether a word is that of a command of a script.
pub fn is_command(word: &str) -> bool {
    matches!(
        word,
        "load" | "count" | "box" | "legs" | "features" | "trajectory" | "write"
    )
}

/// The first word of a line, which names its command.
fn command_of(line: &str) -> &str {
    word_at(line, 0)
}

/// Where the rectangle of a question begins among the words of its line.
fn corner_place(line: &str) -> usize
    ensures { result ≤ 2 }
{
    if command_of(line) == "box" { 1 } else { 2 }
}

/// A command that is unknown.
fn unknown_command(said: &mut Sentence, line: &str) {
    if line.starts_with('\u{feff}') {
        said.text("the line begins with a byte order mark; save the script without one");
    } else {
        said.value("unknown command '{}'", command_of(line));
    }
}

/// The words that a command takes.
fn form_of(command: &str) -> &'static str {
    match command {
        "load" | "trajectory" => " takes a name, found none",
        "count" | "write" => " takes no word behind it, found {}",
        "box" => " takes 6 words, X1 Y1 X2 Y2 T1 T2, found {}",
        _ => " takes 7 words, PRED X1 Y1 X2 Y2 T1 T2, found {}",
    }
}

/// Another number of words than a command takes.
fn wrong_words(said: &mut Sentence, line: &str) {
    let command = command_of(line);
    let form = form_of(command);
    said.text(command);
    if form.ends_with("none") {
        said.text(form);
    } else {
        said.number(form, word_count(line, Separator::Blank).saturating_sub(1));
    }
}

/// A predicate that is unknown.
fn unknown_predicate(said: &mut Sentence, line: &str) {
    said.value(
        "unknown predicate '{}'; there are ever, always, enters, leaves, crosses and bypasses",
        word_at(line, 1),
    );
}

/// Why a coordinate is not read; blank where it is.
pub(crate) fn coordinate_fault(text: &str) -> &'static str {
    match read_coord(text) {
        Ok(_) => "",
        Err(NumberFault::Shape) => "is no plain decimal number",
        Err(NumberFault::Range) => "is out of range: at most 100000000 either way",
    }
}

/// Says a word that is named and has a fault.
pub(crate) fn say_fault(said: &mut Sentence, name: &str, word: &str, fault: &str) {
    said.text(name);
    said.value(" '{}' ", word);
    said.text(fault);
}

/// A coordinate that is not read.
fn wrong_coordinate(said: &mut Sentence, line: &str) {
    let first = corner_place(line);
    for place in 0..4 {
        let word = word_at(line, first.saturating_add(place));
        let fault = coordinate_fault(word);
        if !fault.is_empty() {
            return say_fault(said, CORNERS[place], word, fault);
        }
    }
}

/// Whether a coordinate is above another one.
fn is_above(one: &str, other: &str) -> bool {
    match (read_coord(one), read_coord(other)) {
        (Ok(one), Ok(other)) => one.units() > other.units(),
        _ => false,
    }
}

/// A first corner that is above the second one.
fn crossed_corners(said: &mut Sentence, line: &str) {
    let first = corner_place(line);
    let (x1, x2) = (word_at(line, first), word_at(line, first + 2));
    if is_above(x1, x2) {
        said.values("X1 {} is above X2 {}", x1, x2);
    } else {
        let (y1, y2) = (word_at(line, first + 1), word_at(line, first + 3));
        said.values("Y1 {} is above Y2 {}", y1, y2);
    }
}

/// Whether a text is an instant but for the offset that is missing.
fn lacks_offset(text: &str) -> bool {
    let bytes = text.as_bytes();
    if bytes.len() > 40 {
        return false;
    }
    let mut whole = [b'Z'; 41];
    whole[..bytes.len()].copy_from_slice(bytes);
    read_instant(text_of(&whole[..bytes.len() + 1])).is_ok()
}

/// Why an instant is not read; blank where it is.
pub(crate) fn instant_fault(text: &str) -> &'static str {
    match read_instant(text) {
        Ok(_) | Err(TimeFault::Memory) => "",
        Err(TimeFault::OutOfRange) => "is out of range: from the year 1 to 9998",
        Err(TimeFault::Unreadable) if lacks_offset(text) => {
            "names no instant: it has no offset and no Z"
        }
        Err(TimeFault::Unreadable) => "is no instant, as 2024-01-31T12:00:00Z is",
    }
}

/// An instant that is not read.
fn wrong_instant(said: &mut Sentence, line: &str) {
    let first = corner_place(line) + 4;
    let (t1, t2) = (word_at(line, first), word_at(line, first + 1));
    let (fault_1, fault_2) = (instant_fault(t1), instant_fault(t2));
    if !fault_1.is_empty() {
        say_fault(said, "T1", t1, fault_1);
    } else if !fault_2.is_empty() {
        say_fault(said, "T2", t2, fault_2);
    }
}

/// A first instant that is after the second one.
fn crossed_instants(said: &mut Sentence, line: &str) {
    let first = corner_place(line) + 4;
    let (t1, t2) = (word_at(line, first), word_at(line, first + 1));
    said.values("T1 {} is after T2 {}", t1, t2);
}

/// A file that is none of the command line.
fn no_file(said: &mut Sentence, line: &str) {
    let name = cut_text(first_word(line, Separator::Blank).1);
    said.value("no file '{}' on the command line", name);
}

/// Says why a line is refused with that code. Nothing is said where no reason is found.
fn say_reason(said: &mut Sentence, line: &str, code: Code) {
    match code {
        Code::Q2 => unknown_command(said, line),
        Code::Q3 => wrong_words(said, line),
        Code::Q4 => unknown_predicate(said, line),
        Code::Q5 => wrong_coordinate(said, line),
        Code::Q6 => crossed_corners(said, line),
        Code::Q7 => wrong_instant(said, line),
        Code::Q8 => crossed_instants(said, line),
        Code::Q9 => no_file(said, line),
        _ => {}
    }
}

/// Says why a line of a script is refused with that code, with the word of it that is at fault.
pub fn say_line(said: &mut Sentence, line: &[u8], code: Code) {
    let begin = said.len();
    say_reason(said, text_of(cut(line)), code);
    if said.len() == begin {
        said.text(code.rule());
    }
}
