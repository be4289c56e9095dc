//! What the parts of a book answer together.
//!
//! A book that was split by feature into parts, each with the parts of the same files, answers as the
//! whole does: what an answer of the whole says of a part is what that part answers. The laws stand in
//! `specs/Laws.antt` (answers), `specs/Joining.antt` (a file's records and faults), `specs/Loading.antt`
//! (many files) and `specs/Scripts.antt` (a script).
#![tactic(auto)]

ghost use Rattle.std.specs.Prelude.{ℕ, List};
ghost use Rattle.legs.specs.Book.{Book};
ghost use Rattle.together.specs.Parts.{ArePartsOf, IsPartOf, IsTold};
ghost use Rattle.together.specs.Laws.{LegsMerge, LegsText, NamesMerge, NamesText, PartAnswers, PartsAnswer};
ghost use Rattle.together.specs.Joining.{BookLaw, FaultsLaw, FirstLaw, FitsLaw, LeastLaw, PartTakes, PartsTake, RisesLaw};
ghost use Rattle.together.specs.Loading.{EmptyLaw, FirstTextLaw, LoadLaw, TakesLaw, TextLaw};
ghost use Rattle.together.specs.Scripts.{ScriptLaw};

/// What the answers of parts are, for the proofs of a caller. It does nothing.
pub fn answer_laws()
    // The text of an answer of legs depends only on the book's head and on what is told of the
    // legs.
    ensures legs_text { LegsText }
    // The text of an answer of names depends on the names alone.
    ensures names_text { NamesText }
    // A part answers `box`, `legs`, `features` and `trajectory` with the whole's legs and names that
    // are its own, in their order; the part to which a name belongs answers `trajectory` of it as
    // the whole does.
    ensures part { (f : List ℕ → ℕ) (k : ℕ) (whole part : Book) → IsPartOf f k whole part
        → PartAnswers f k whole part }
    // Any told legs, cut by part and put together, are the same legs, each part's in their order.
    ensures legs_merge { LegsMerge }
    // Any names, cut by part and put together, are the same names, each part's in their order.
    ensures names_merge { NamesMerge }
    // The parts answer each line as the whole does: its legs and names by part, its counts as sums,
    // its refusals alike. Their answers, put together, have the legs and the names of the whole's.
    ensures parts { (f : List ℕ → ℕ) (n : ℕ) (whole : Book) (parts : ℕ → Book)
        → ArePartsOf f n whole parts → PartsAnswer f n whole parts }
    // A lawful book has no name twice, and has the name and the row of each leg, as the laws ask.
    ensures book { BookLaw }
{}

/// How parts take in the parts of a file, for the proofs of a caller. It does nothing.
pub fn joining_laws()
    // Of the records of a file, those that come too early for a part, its faults and the legs that it
    // takes in are those of the whole that are its own.
    ensures part { (f : List ℕ → ℕ) (k : ℕ) (whole part : Book) → IsPartOf f k whole part
        → IsTold whole → IsTold part → PartTakes f k whole part }
    // Within the limits, the whole has no fault exactly if no part has one. The counts of `load` for
    // the whole are the sums of those for the parts.
    ensures parts { (f : List ℕ → ℕ) (n : ℕ) (whole : Book) (parts : ℕ → Book)
        → ArePartsOf f n whole parts → PartsTake f n whole parts }
    // Within the limits, the only faults of records are that they come too early.
    ensures faults { FaultsLaw }
    // A lawful book that takes in a file is within its limits afterwards.
    ensures fits { FitsLaw }
    // The first record of all is the first record of its own part.
    ensures first { FirstLaw }
    // The whole's first early record has the least number of the parts' first early records.
    ensures least { LeastLaw }
    // The records of a file have rising numbers, from 1 on.
    ensures rises { RisesLaw }
{}

/// How stores that take in files, and the parts of the files, stay a store and its part, for the
/// proofs of a caller. It does nothing.
pub fn loading_laws()
    // Books without files are a book and its part.
    ensures none { EmptyLaw }
    // A book and its part stay so with all files that both take in.
    ensures all { LoadLaw }
    // A file with a fault in its text is refused alike by the whole and by each part made by
    // `part`.
    ensures text { TextLaw }
    // Of the parts made by `parts`, one refuses such a file as the whole does. No other has an
    // earlier fault.
    ensures first_text { FirstTextLaw }
    // Within the limits, the whole takes in a file exactly if each part takes in its part.
    ensures takes { TakesLaw }
    // The parts answer a script as the whole does, line by line, if each file is accepted by all or
    // by none.
    ensures script { ScriptLaw }
{}
