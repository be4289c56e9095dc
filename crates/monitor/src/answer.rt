//! What an answer says, which is read once for all who look on.
use reasons::Refusal;
use std::str;

/// What an answer is.
#[derive(Clone, Copy)]
pub enum Answer {
    /// A line or a file was refused.
    Refused(Refusal),
    /// It has no record.
    Nothing,
    /// It has records. Where there is one alone, its second field is this number, else 0: of a load so many legs.
    Records(u64),
}

/// The number that the second field of a record is; 0 where it is none.
fn second_in(record: &[u8]) -> u64 {
    let field = record.split(|c| *c == b',').nth(1);
    match str::from_utf8(field.unwrap_or(b"".as_slice())) {
        Ok(field) => field.parse::<u64>().unwrap_or(0),
        Err(_) => 0,
    }
}

impl Answer {
    /// What an answer is by its bytes; `None` where they are no answer.
    pub fn read(bytes: &[u8]) -> Option<Answer> {
        if let Some(refusal) = Refusal::read(bytes) {
            return Some(Answer::Refused(refusal));
        }
        let mut lines = bytes
            .strip_prefix(b"ok ".as_slice())?
            .split(|c| *c == b'\n');
        match lines.next().unwrap_or(b"".as_slice()) {
            b"0" => Some(Answer::Nothing),
            b"1" => Some(Answer::Records(second_in(lines.next().unwrap_or(b"".as_slice())))),
            _ => Some(Answer::Records(0)),
        }
    }
}
