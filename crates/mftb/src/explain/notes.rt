//! What is said of the lines of a run.
use crate::explain::saying::tell;
use crate::system::stored::{catalogue_of, look_at};
use catalogue::Catalogue;
use legs::{Box3, Tracks};
use monitor::{LineSpan, Note, Notes, What};
use querylang::{Command, Name, parse_line};
use reasons::{
    Area, Code, Known, LastEnds, Refusal, Sentence, Shown, misses, say_file, say_line, say_reach,
    say_source,
};
use std::alloc::Global;
use std::fs::File;
use std::io::Eprint;
use std::random::RandomSource;
use std::rt;
use timebase::Ms;
use trajdb::Files;

/// The name in a command.
fn name_in(command: Command) -> Option<Name> {
    match command {
        Command::Load(name) | Command::Trajectory(name) => Some(name),
        _ => None,
    }
}

/// The rectangle and the period that a command asks of.
fn box_in(command: &Command) -> Option<Box3> {
    match command {
        Command::Box(rect, period)
        | Command::Legs(_, rect, period)
        | Command::Features(_, rect, period) => Some(Box3::new(rect, period)),
        _ => None,
    }
}

/// The script and the files of a run.
#[derive(Clone, Copy)]
pub(crate) struct Given<'a> {
    /// The name of the script.
    pub(crate) name: &'a str,
    pub(crate) script: &'a [u8],
    pub(crate) files: &'a Files,
    /// How many legs that the run loaded the store keeps.
    pub(crate) legs: u64,
}

/// What is known of the store of a run when it has ended.
#[derive(Drop)]
struct Ground {
    /// The box over its legs, where that is known.
    reach: Option<Box3>,
    /// What it keeps beside its legs, where it is to be known.
    catalogue: Option<Catalogue>,
    /// How many of its legs the run loaded.
    legs: u64,
}

impl Ground {
    /// What is known of the store of that name, to say these notes.
    fn new<R: rt::Files<File = File> + AllocGlobal + RandomSource>(
        rt: &R,
        store: &str,
        legs: u64,
        notes: &[Note],
    ) -> Ground {
        Ground {
            reach: reach_of(rt, store),
            catalogue: if has_joining(notes) {
                catalogue_of(rt, store)
            } else {
                None
            },
            legs,
        }
    }

    /// What the store knew that refuses a file when the run had loaded so many legs. Where its features ended then is
    /// known if no leg came behind.
    fn known(&self, legs: u64) -> Known<'_, Ground> {
        match &self.catalogue {
            Some(catalogue) => Known {
                head: catalogue.head.as_ref(),
                ends: (legs == self.legs).then_some(self),
                most_legs: Some(catalogue.limits.legs()),
                most_features: Some(catalogue.limits.features()),
            },
            None => Known {
                head: None,
                ends: None,
                most_legs: None,
                most_features: None,
            },
        }
    }
}

impl LastEnds for Ground {
    fn last_end(&self, name: &str) -> Option<Ms> {
        match &self.catalogue {
            Some(catalogue) => end_in(&catalogue.tracks, name),
            None => None,
        }
    }
}

/// When the last leg of the feature of that name ends, among these tracks.
fn end_in(tracks: &Tracks, name: &str) -> Option<Ms> {
    let feature = tracks.feature(name)?;
    match tracks.track(feature) {
        Some(track) => Some(track.end),
        None => None,
    }
}

/// The box over the legs of the store of that name, where that is known.
fn reach_of<R: rt::Files<File = File>>(rt: &R, store: &str) -> Option<Box3> {
    look_at(rt, store)?.extent.ok()?
}

/// Whether a note is of a file that was refused for what the store has.
fn is_of_joining(what: What) -> bool {
    match what {
        What::Refused(refusal) => matches!(
            refusal.code,
            Code::F9 | Code::F10 | Code::F18 | Code::F19 | Code::F20
        ),
        _ => false,
    }
}

/// Whether one of the notes is so.
fn has_joining(notes: &[Note]) -> bool {
    for note in notes {
        if is_of_joining(note.what) {
            return true;
        }
    }
    false
}

impl Given<'_> {
    /// The command of a line of the script; `None` where it is refused.
    fn command_at(&self, alloc: Global, place: LineSpan) -> Option<Command> {
        match parse_line(alloc, place.text_in(self.script)) {
            Ok(command) => command,
            Err(_) => None,
        }
    }

    /// The name in a line of the script.
    fn name_at(&self, alloc: Global, place: LineSpan) -> Option<Name> {
        match self.command_at(alloc, place) {
            Some(command) => name_in(command),
            None => None,
        }
    }

    /// Says where a line of the script stands.
    fn say_place(&self, said: &mut Sentence, place: LineSpan) {
        said.value("{} line ", self.name);
        said.number("{}: ", place.line);
    }

    /// Says of a line of the script what these words say.
    fn say_at(&self, said: &mut Sentence, place: LineSpan, words: &str) {
        self.say_place(said, place);
        said.text(words);
    }

    /// Says why a line was refused.
    fn say_line(&self, said: &mut Sentence, place: LineSpan, code: Code) {
        self.say_place(said, place);
        say_line(said, place.text_in(self.script), code);
    }

    /// Says why a line of that name was refused, or the file that it loads.
    fn say_named(
        &self,
        said: &mut Sentence,
        place: LineSpan,
        name: &str,
        refusal: Refusal,
        known: &Known<'_, Ground>,
    ) {
        match self.files.get(name) {
            Some(bytes) => say_file(said, name, bytes, refusal, known),
            None => self.say_line(said, place, refusal.code),
        }
    }

    /// Says why a line was refused, or the file that it loads.
    fn say_refusal(
        &self,
        said: &mut Sentence,
        place: LineSpan,
        refusal: Refusal,
        known: &Known<'_, Ground>,
    ) {
        match self.name_at(said.alloc(), place) {
            Some(name) => self.say_named(said, place, name.as_str(), refusal, known),
            None => self.say_line(said, place, refusal.code),
        }
    }

    /// Says that the store does not have the feature of a line.
    fn say_feature(&self, said: &mut Sentence, place: LineSpan) {
        match self.name_at(said.alloc(), place) {
            Some(name) => {
                self.say_place(said, place);
                said.value("the store has no feature '{}'", name.as_str());
            }
            None => self.say_at(said, place, "the store has no feature of that name"),
        }
    }

    /// Says of a question that it is asked of where the store has no legs, if it is.
    fn say_question(&self, said: &mut Sentence, place: LineSpan, reach: &Box3) {
        if let Some(asked) = self.box_at(said.alloc(), place)
            && misses(&asked, reach)
        {
            self.say_place(said, place);
            say_reach(said, Area::Rectangle, &asked, reach);
        }
    }

    /// The box that a line of the script asks of.
    fn box_at(&self, alloc: Global, place: LineSpan) -> Option<Box3> {
        match self.command_at(alloc, place) {
            Some(command) => box_in(&command),
            None => None,
        }
    }

    /// Says what an answer does not say.
    fn say_note(&self, said: &mut Sentence, note: &Note, ground: &Ground) {
        let place = note.place;
        match note.what {
            What::Refused(refusal) => {
                self.say_refusal(said, place, refusal, &ground.known(note.legs));
            }
            What::NoLegs => self.say_at(said, place, "the store has no legs"),
            What::NoFeature => self.say_feature(said, place),
            What::Asked => {
                if let Some(reach) = ground.reach {
                    self.say_question(said, place, &reach);
                }
            }
        }
    }
}

/// Says what a note says.
fn tell_note<R: Eprint + AllocGlobal>(rt: &R, given: &Given, note: &Note, ground: &Ground) {
    let mut said = Sentence::new(rt.alloc());
    given.say_note(&mut said, note, ground);
    tell(rt, said);
}

/// Says what these notes say, a line each.
fn tell_each<R: Eprint + AllocGlobal>(rt: &R, given: &Given, notes: &[Note], ground: &Ground) {
    for note in notes {
        tell_note(rt, given, note, ground);
    }
}

/// Says what is noted of a run over that store, a line each.
pub(crate) fn tell_notes<R: rt::Files<File = File> + Eprint + AllocGlobal + RandomSource>(
    rt: &R,
    store: &str,
    given: &Given,
    notes: &Notes,
) {
    let (kept, missed) = notes.kept();
    if kept.is_empty() {
        return;
    }
    tell_each(rt, given, kept, &Ground::new(rt, store, given.legs, kept));
    if missed > 0 {
        let _ = eprintln!(rt; "mftb: and {missed} more of these");
    }
}

/// Says that a store was made by a run that has loaded nothing.
pub(crate) fn tell_made<R: Eprint>(rt: &R, store: &str) {
    let store = Shown(store);
    let _ = eprintln!(rt; "mftb: there was no store {store}: an empty one was made");
}

/// Says of each of these files that is of another form what makes a file to load of it.
pub(crate) fn tell_sources<R: Eprint + AllocGlobal>(rt: &R, names: &[&str], files: &Files) {
    for name in names {
        let mut said = Sentence::new(rt.alloc());
        say_source(&mut said, *name, files.get(*name).unwrap_or(b"".as_slice()));
        tell(rt, said);
    }
}
