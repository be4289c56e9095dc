//! The line by which a refusal is answered.
use crate::codes::Code;
use crate::fields::text_of;

/// A refusal, as it is answered: `refused Q5`, or of a file `refused F18 at 3`.
#[derive(Clone, Copy)]
pub struct Refusal {
    pub code: Code,
    /// The number of the file's record, from 1; 0 for the whole file, and for a line of a script.
    pub number: u64,
}

/// What stands between the word `refused` and the end of an answer's line; blank where it is no refusal.
fn words_in(answer: &[u8]) -> &str {
    let nothing = b"".as_slice();
    let line = answer
        .strip_prefix(b"refused ".as_slice())
        .unwrap_or(nothing);
    text_of(line.strip_suffix(b"\n".as_slice()).unwrap_or(nothing))
}

impl Refusal {
    /// The refusal that an answer is; `None` where it is none.
    pub fn read(answer: &[u8]) -> Option<Refusal> {
        let words = words_in(answer);
        let (code, number) = words.split_once(" at ").unwrap_or((words, "0"));
        match (Code::read(code), number.parse::<u64>()) {
            (Some(code), Ok(number)) => Some(Refusal { code, number }),
            _ => None,
        }
    }
}
