//! The texts of all parts of a file, each put into a folder under its number.
ghost use Rattle.std.specs.Prelude.{◌≡◌, ◌<◌, ◌≤◌, ◌+◌, ◌^◌, ◌∷◌, [], IfErr, OnErr, OnOk, length, map};
ghost use Rattle.sessions.specs.Parts.{HasFirst, HasFirstTexts, IsNotPut, PartsView, parts_from, numbered, with_puts};

use parts::parts;
use std::alloc::Global;
use trajdb::RunFault;

/// How many parts are made by one pass over a file. So their texts together have at most 32 bytes a
/// record beside the file's own.
const PARTS_AT_ONCE: u64 = 16;

/// The folder that takes the files of parts.
///
/// A folder may tell contracts what was put into it, and then that is said exactly. A folder of the
/// system tells nothing.
pub trait PartFolder {
    /// What contracts see of it: the parts that were put into it so far, with their texts, in order,
    /// where the folder tells it, and how often it refused to give a name.
    ghost seen: { Self → PartsView };

    /// Gives the name of a part, by its number from 0, to a file of that text, in one step. Where
    /// it is refused, the names stand for what they stood for.
    fn put(&mut self, part: u64, text: &[u8]) -> Result<(), RunFault>
        // After `Ok` this part with this text is the last one that was put.
        ensures put { OnOk result
            (seen self.new ≡ with_puts (seen self.old) ((part, text.now) ∷ [])) }
        // An error is `Memory`, or `Output`, which is counted as a refusal. Nothing more was put.
        ensures refused { IfErr result (λ fault. IsNotPut fault (seen self.old) (seen self.new)
            × ((seen self.new).puts ≡ (seen self.old).puts)) };
}

/// Puts the texts of parts, of which the first has that number, into a folder.
fn put_texts<F: PartFolder>(folder: &mut F, first: u64, texts: &[Vec<u8>]) -> Result<(), RunFault>
    requires { first + length texts.now < 2 ^ 64 }
    ensures all { OnOk result (F.seen folder.new
        ≡ with_puts (F.seen folder.old) (numbered first (map (λ text. text.items) texts.now))) }
    ensures refused { IfErr result (λ fault. IsNotPut fault (F.seen folder.old) (F.seen folder.new)
        × HasFirstTexts first (map (λ text. text.items) texts.now) (F.seen folder.old)
        (F.seen folder.new)) }
{
    let mut part = first;
    for text in texts {
        match folder.put(part, text.as_slice()) {
            Ok(()) => part += 1,
            Err(fault) => return Err(fault),
        }
    }
    Ok(())
}

/// Puts the parts of `n` of a file from `first` on, so many, into a folder; parts are numbered from
/// 0. Where there is no memory for their texts, `Memory`; else it is refused as the folder refuses
/// it.
pub fn put_parts<F: PartFolder>(
    alloc: Global,
    folder: &mut F,
    n: u64,
    first: u64,
    count: u64,
    bytes: &[u8],
) -> Result<(), RunFault>
    // There is at least one part.
    requires some { 0 < n }
    // The parts that are asked for are among them.
    requires within { first + count ≤ n }
    // Each part is put once, in order, and says what `parts` says of it; the file is not looked
    // through for faults.
    ensures all { OnOk result (F.seen folder.new
        ≡ with_puts (F.seen folder.old) (parts_from first count n bytes.now)) }
    // Where one is not put, only parts before it were.
    ensures some { OnErr result (HasFirst first count n bytes.now (F.seen folder.old)
        (F.seen folder.new)) }
    // The error is `Memory`, or `Output` if the folder refused a part.
    ensures fault { IfErr result (λ fault. IsNotPut fault (F.seen folder.old) (F.seen folder.new)) }
{
    let mut done = 0;
    while done < count {
        let next = PARTS_AT_ONCE.min(count - done);
        let texts = match parts(alloc, first + done, next, n, bytes) {
            Ok(texts) => texts,
            Err(_) => return Err(RunFault::Memory),
        };
        match put_texts(folder, first + done, texts.as_slice()) {
            Ok(()) => done += next,
            Err(fault) => return Err(fault),
        }
    }
    Ok(())
}
