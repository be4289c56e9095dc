//! What a long run is doing, said on standard error.
use crate::answer::Answer;
use crate::run_notes::LineSpan;
use std::cell::Cell;
use std::fmt;
use std::fmt::{Display, Formatter};
use std::io::Eprint;
use std::rt::Clock;
use std::time::{Duration, Instant};
use words::cut;

/// How many milliseconds a run lasts before a terminal shows what it does, and how many pass before it
/// is shown again.
const LONG: u64 = 1000;

const AGAIN: u64 = 200;

/// When a run says what it is doing.
#[derive(Clone, Copy)]
pub enum Told {
    /// Where a load is long, by a line that renews itself.
    Loads,
    /// By a line that renews itself.
    Renewed,
    /// By a line a command.
    Lines,
    /// Never.
    Nothing,
}

impl Told {
    /// When it is said to who asks for it, or does not, on a terminal or elsewhere.
    pub fn new(is_asked: bool, is_terminal: bool) -> Told {
        match (is_asked, is_terminal) {
            (true, true) => Told::Renewed,
            (true, false) => Told::Lines,
            (false, true) => Told::Loads,
            (false, false) => Told::Nothing,
        }
    }
}

/// What a run has done so far, as it is said.
#[derive(Clone, Copy, Drop)]
struct Said<'a> {
    line: u64,
    command: &'a str,
    legs: u64,
    pages: u64,
    millis: u64,
}

impl Display for Said<'_> {
    fn fmt<W: fmt::Write>(&self, f: &mut Formatter<W>) -> fmt::Result {
        let Said {
            line,
            command,
            legs,
            pages,
            millis,
        } = *self;
        let (seconds, tenths) = (millis / 1000, millis % 1000 / 100);
        write!(
            f,
            "line {line}: {command}, {legs} legs loaded, {pages} pages, {seconds}.{tenths} s"
        )
    }
}

/// What a run is doing: the line of its script that it is at, and what it has done so far.
#[derive(Drop)]
pub struct Progress<'a, R: Clock + Eprint> {
    rt: &'a R,
    told: Told,
    begin: Option<Instant>,
    script: &'a [u8],
    /// Where the line begins that the run is at, and where it ends, without its line end.
    start: Cell<usize>,
    end: Cell<usize>,
    /// Where the script goes on behind that line.
    place: Cell<usize>,
    line: Cell<u64>,
    command: Cell<&'a str>,
    /// How many files were loaded, and how many legs.
    loads: Cell<u64>,
    legs: Cell<u64>,
    /// How many pages were read or written.
    pages: Cell<u64>,
    /// At which millisecond it is to be shown next.
    due: Cell<u64>,
    /// Whether a line stands on the terminal.
    is_shown: Cell<bool>,
}

/// The first word of a line, or `?` for one that is no name of a command; `None` where the line has no
/// answer.
fn command_of(line: &[u8]) -> Option<&str> {
    let line = cut(line);
    if line.is_empty() || line.starts_with(b"#".as_slice()) {
        return None;
    }
    let word = line.split(|c| !c.is_ascii_lowercase()).next();
    match str::from_utf8(word.unwrap_or(b"".as_slice())) {
        Ok(word) if !word.is_empty() => Some(word),
        _ => Some("?"),
    }
}

impl<'a, R: Clock + Eprint> Progress<'a, R> {
    /// The progress of a run that begins now.
    pub fn new(rt: &'a R, told: Told, script: &'a [u8]) -> Progress<'a, R> {
        let progress = Progress {
            rt,
            told,
            begin: Instant::now(rt).ok(),
            script,
            start: Cell::new(0),
            end: Cell::new(0),
            place: Cell::new(0),
            line: Cell::new(0),
            command: Cell::new(""),
            loads: Cell::new(0),
            legs: Cell::new(0),
            pages: Cell::new(0),
            due: Cell::new(LONG),
            is_shown: Cell::new(false),
        };
        progress.go_on();
        progress
    }

    /// Goes on to the next line that has an answer.
    fn go_on(&self) {
        let rest = self.script.get(self.place.get()..);
        for line in rest.unwrap_or(b"".as_slice()).split(|c| *c == b'\n') {
            let start = self.place.get();
            let end = start.saturating_add(line.len());
            self.place.set(end.saturating_add(1));
            self.line.set(self.line.get().saturating_add(1));
            let text = line.strip_suffix(b"\r".as_slice()).unwrap_or(line);
            if let Some(command) = command_of(text) {
                self.start.set(start);
                self.end.set(start.saturating_add(text.len()));
                self.command.set(command);
                break;
            }
        }
    }

    /// Where the line stands that the run is at, and the line.
    pub fn at(&self) -> (LineSpan, &'a [u8]) {
        let place = LineSpan {
            line: self.line.get(),
            start: self.start.get(),
            end: self.end.get(),
        };
        (place, place.text_in(self.script))
    }

    /// How many files were loaded so far.
    pub fn loads(&self) -> u64 {
        self.loads.get()
    }

    /// How many legs were loaded so far.
    pub fn legs(&self) -> u64 {
        self.legs.get()
    }

    /// How many milliseconds the run has lasted.
    fn millis(&self) -> u64 {
        let lasted = match self.begin {
            Some(begin) => begin.elapsed(self.rt).unwrap_or(Duration::ZERO),
            None => Duration::ZERO,
        };
        u64::try_from(lasted.as_millis()).unwrap_or(u64::MAX)
    }

    /// What the run has done in that time.
    fn said(&self, millis: u64) -> Said<'a> {
        Said {
            line: self.line.get(),
            command: self.command.get(),
            legs: self.legs.get(),
            pages: self.pages.get(),
            millis,
        }
    }

    /// Whether the line is renewed while the run is at this command.
    fn is_renewed(&self) -> bool {
        match self.told {
            Told::Renewed => true,
            Told::Loads => self.command.get() == "load",
            Told::Lines | Told::Nothing => false,
        }
    }

    /// Another page was read or written.
    pub fn page(&self) {
        self.pages.set(self.pages.get().saturating_add(1));
        if !self.is_renewed() {
            return;
        }
        let millis = self.millis();
        if millis >= self.due.get() {
            self.due.set(millis.saturating_add(AGAIN));
            self.is_shown.set(true);
            let said = self.said(millis);
            let _ = eprint!(self.rt; "\r\x1b[K{said}");
        }
    }

    /// Takes the line off the terminal, where one stands there.
    pub fn clear(&self) {
        if self.is_shown.get() {
            self.is_shown.set(false);
            let _ = eprint!(self.rt; "\r\x1b[K");
        }
    }

    /// A command was answered so.
    pub fn answered(&self, answer: Option<Answer>) {
        if self.command.get() == "load"
            && let Some(Answer::Records(legs)) = answer
        {
            self.loads.set(self.loads.get().saturating_add(1));
            self.legs.set(self.legs.get().saturating_add(legs));
        }
        if matches!(self.told, Told::Lines) {
            let said = self.said(self.millis());
            let _ = eprintln!(self.rt; "{said}");
        }
        self.go_on();
    }
}
