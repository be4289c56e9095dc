//! An output whose answers are followed.
ghost use Rattle.std.specs.Prelude.{◌≡◌};

use crate::answer::Answer;
use crate::progress::Progress;
use crate::run_notes::Notes;
use outputs::{Output, OutputFault};
use std::io::Eprint;
use std::rt::Clock;

/// An output whose answers are followed: it takes what the one inside takes. All of an answer is sent at once.
#[derive(Drop)]
pub struct Followed<'a, 'b, O: Output, R: Clock + Eprint> {
    out: &'a mut O,
    progress: &'a Progress<'b, R>,
    notes: Notes,
}

impl<'a, 'b, O: Output, R: Clock + Eprint> Followed<'a, 'b, O, R> {
    /// That output, followed.
    pub fn new(
        out: &'a mut O,
        progress: &'a Progress<'b, R>,
        notes: Notes,
    ) -> Followed<'a, 'b, O, R> {
        Followed {
            out,
            progress,
            notes,
        }
    }

    /// What is noted of the answers.
    pub fn into_notes(self) -> Notes {
        self.notes
    }

    /// An answer was taken.
    fn follow(&mut self, bytes: &[u8])
        ensures { self.new.out ≡ self.old.out }
    {
        let (place, text) = self.progress.at();
        let answer = Answer::read(bytes);
        self.notes.note(answer, place, text, self.progress.legs());
        self.progress.answered(answer);
    }
}

impl<'a, 'b, O: Output, R: Clock + Eprint> Output for Followed<'a, 'b, O, R> {
    ghost seen = { λ s. O.seen s.out.now };

    fn send(&mut self, bytes: &[u8]) -> Result<(), OutputFault> {
        if bytes.is_empty() {
            // The answer of a line that asks nothing.
            return self.out.send(bytes);
        }
        self.progress.clear();
        match self.out.send(bytes) {
            Ok(()) => {
                self.follow(bytes);
                Ok(())
            }
            Err(fault) => Err(fault),
        }
    }

    fn flush(&mut self) -> Result<(), OutputFault> {
        self.out.flush()
    }
}
