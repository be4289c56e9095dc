//! The words of the command line.
use crate::forms::{Called, Form, Reading, Word, command};
use crate::task::{
    Check, Corners, Gaps, Info, InfoForm, Migrate, Moments, Part, Parts, RowKind, Run, StoreMode,
    Task, Telling, ValueMode, Where, WriteMode, ZoneRowKind, Zones,
};
use clap::error::ErrorKind;
use clap::{ArgMatches, Command, Error};
use predicates::Predicate;
use std::alloc::{AllocError, Global};

/// How many pages a cache holds where no word says it.
const CACHE_PAGES: u32 = 256;

/// The word STORE.
const STORE: Word<'static> = Word {
    form: Form::Required,
    name: "STORE",
    help: "The file that keeps the database",
};

/// The word FILE.
const FILE: Word<'static> = Word {
    form: Form::Required,
    name: "FILE",
    help: "The file; it is read and not written",
};

/// The word N.
const PARTS: Word<'static> = Word {
    form: Form::Count(1),
    name: "N",
    help: "How many parts there are",
};

/// The words of a period.
const FIRST: Word<'static> = Word {
    form: Form::Bound,
    name: "T1",
    help: "The first moment, as 2012-01-17T12:33:41Z",
};

const LAST: Word<'static> = Word {
    form: Form::Bound,
    name: "T2",
    help: "The last moment",
};

/// The word `--cache-pages N`.
const CACHE: Word<'static> = Word {
    form: Form::CountOr("256"),
    name: "cache-pages",
    help: "How many pages of the file are kept in memory, 4096 bytes each",
};

/// The word `--explain`.
const EXPLAIN: Word<'static> = Word {
    form: Form::Flag,
    name: "explain",
    help: "Say on standard error, in words, what went wrong; on a terminal it is said anyway",
};

/// The word `-q`.
const QUIET: Word<'static> = Word {
    form: Form::FlagOrLetter('q'),
    name: "quiet",
    help: "Say on standard error only why the run could not go on",
};

/// The word `--columns`.
const COLUMNS: Word<'static> = Word {
    form: Form::Flag,
    name: "columns",
    help: "Print behind the record of a leg's stay the values of its attribute columns",
};

/// The word `--dwell`.
const DWELL: Word<'static> = Word {
    form: Form::Flag,
    name: "dwell",
    help: "Print a record a feature: how long it stays in all",
};

/// The words of `mftb run`.
static RUN_WORDS: [Word<'static>; 12] = [
    Word {
        form: Form::Required,
        name: "STORE",
        help: "The file that keeps the database; it is made where it is absent or empty",
    },
    Word {
        form: Form::Required,
        name: "SCRIPT",
        help: "The file of the script, a command a line",
    },
    Word {
        form: Form::Names,
        name: "FILES",
        help: "The files that the script may load, by these names",
    },
    CACHE,
    Word {
        form: Form::Limit,
        name: "most-legs",
        help: "How many legs a STORE that is made takes, up to 2147483648 [default: 16777216]",
    },
    Word {
        form: Form::Limit,
        name: "most-features",
        help: "How many features a STORE that is made takes, up to 2147483648 [default: 1048576]",
    },
    Word {
        form: Form::Flag,
        name: "in-place",
        help: "Load into the file itself and not into a copy: what is killed then loses the store",
    },
    Word {
        form: Form::Flag,
        name: "existing",
        help: "Refuse a STORE that is absent or empty, and make none",
    },
    Word {
        form: Form::Flag,
        name: "strict",
        help: "End with status 3 where a line or a file was refused",
    },
    EXPLAIN,
    QUIET,
    Word {
        form: Form::Flag,
        name: "progress",
        help: "Say on standard error what the run is doing",
    },
];

/// The words of `mftb check`.
static CHECK_WORDS: [Word<'static>; 4] = [STORE, CACHE, EXPLAIN, QUIET];

/// The words of `mftb migrate`.
static MIGRATE_WORDS: [Word<'static>; 2] = [
    Word {
        form: Form::Required,
        name: "OLD",
        help: "The file of version 1; it is read and not written",
    },
    Word {
        form: Form::Required,
        name: "NEW",
        help: "The file that is to keep the database; it is absent or empty",
    },
];

/// The words of `mftb part`.
static PART_WORDS: [Word<'static>; 3] = [
    Word {
        form: Form::Count(0),
        name: "K",
        help: "The number of the part, from 0",
    },
    PARTS,
    FILE,
];

/// The words of `mftb parts`.
static PARTS_WORDS: [Word<'static>; 5] = [
    PARTS,
    FILE,
    Word {
        form: Form::Required,
        name: "DIR",
        help: "The folder; part K is its file part-K.csv, which is replaced where it is there",
    },
    Word {
        form: Form::Number("K"),
        name: "first",
        help: "Write no part before this one",
    },
    Word {
        form: Form::Number("C"),
        name: "count",
        help: "Write only so many parts",
    },
];

/// The words of `mftb moments`.
static MOMENTS_WORDS: [Word<'static>; 14] = [
    STORE,
    Word {
        form: Form::Corner,
        name: "X1",
        help: "The least x",
    },
    Word {
        form: Form::Corner,
        name: "Y1",
        help: "The least y",
    },
    Word {
        form: Form::Corner,
        name: "X2",
        help: "The greatest x",
    },
    Word {
        form: Form::Corner,
        name: "Y2",
        help: "The greatest y",
    },
    FIRST,
    LAST,
    Word {
        form: Form::Value("FILE"),
        name: "rects",
        help: "Ask of each rectangle of FILE (CSV: name,x1,y1,x2,y2), without X1 Y1 X2 Y2",
    },
    Word {
        form: Form::Flag,
        name: "visits",
        help: "Print a record a visit: the stays of a feature, joined over legs without a gap",
    },
    DWELL,
    COLUMNS,
    CACHE,
    EXPLAIN,
    QUIET,
];

/// The words of `mftb zones`.
static ZONES_WORDS: [Word<'static>; 12] = [
    STORE,
    Word {
        form: Form::Required,
        name: "ZONES",
        help: "The file of zones (CSV: name,wkt): polygons, and lines of two positions",
    },
    FIRST,
    LAST,
    Word {
        form: Form::Flag,
        name: "visits",
        help: "Print a record a visit, as where no other of these is given",
    },
    Word {
        form: Form::Flag,
        name: "legs",
        help: "Print a record a stay of a leg",
    },
    DWELL,
    Word {
        form: Form::Predicate,
        name: "features",
        help: "Print the features of which a predicate holds, asked of the zone",
    },
    COLUMNS,
    CACHE,
    EXPLAIN,
    QUIET,
];

/// The words of `mftb gaps`.
static GAPS_WORDS: [Word<'static>; 6] = [STORE, FIRST, LAST, CACHE, EXPLAIN, QUIET];

/// The words of `mftb info`.
static INFO_WORDS: [Word<'static>; 2] = [
    STORE,
    Word {
        form: Form::Flag,
        name: "json",
        help: "Print one object of JSON",
    },
];

/// The commands that load, check and cut files.
fn loading_commands<'a>() -> [Called<'a>; 5] {
    [
        Called {
            name: "run",
            about: "Runs a script over the database that a file keeps, and prints its answers",
            words: &RUN_WORDS,
        },
        Called {
            name: "check",
            about: "Checks that the pages of a file hold one database",
            words: &CHECK_WORDS,
        },
        Called {
            name: "migrate",
            about: "Brings the database of a file of version 1 over into a new file",
            words: &MIGRATE_WORDS,
        },
        Called {
            name: "part",
            about: "Prints the part of a file that has the features of one of several parts",
            words: &PART_WORDS,
        },
        Called {
            name: "parts",
            about: "Writes the parts of a file into a folder, 16 by one pass",
            words: &PARTS_WORDS,
        },
    ]
}

/// The commands that ask a store.
fn asking_commands<'a>() -> [Called<'a>; 4] {
    [
        Called {
            name: "moments",
            about: "Prints when legs are inside a rectangle in a period, as exact fractions",
            words: &MOMENTS_WORDS,
        },
        Called {
            name: "zones",
            about: "Prints who is in which zone of a file, from when to when, exactly",
            words: &ZONES_WORDS,
        },
        Called {
            name: "gaps",
            about: "Prints when features have no position: the times between their legs",
            words: &GAPS_WORDS,
        },
        Called {
            name: "info",
            about: "Prints what the database of a file holds",
            words: &INFO_WORDS,
        },
    ]
}

/// The program without its commands.
fn bare<'a>(alloc: Global) -> Command<'a> {
    Command::new(alloc, "mftb")
        .about("A trajectory database")
        .version("0.1.0")
        .subcommand_required(true)
}

/// Takes in what `clap` is told of these commands.
fn add_commands<'a>(
    alloc: Global,
    reading: Reading,
    commands: &mut Vec<Command<'a>>,
    all: &[Called<'a>],
) -> Result<(), AllocError> {
    for called in all {
        commands.push(command(alloc, reading, called)?)?;
    }
    Ok(())
}

/// The commands, in the order in which the help says them.
fn commands_of<'a>(alloc: Global, reading: Reading) -> Result<Vec<Command<'a>>, AllocError> {
    let mut commands = Vec::new(alloc);
    add_commands(alloc, reading, &mut commands, &loading_commands())?;
    add_commands(alloc, reading, &mut commands, &asking_commands())?;
    Ok(commands)
}

/// The program, and its commands.
fn mftb<'a>(alloc: Global, reading: Reading) -> Result<Command<'a>, AllocError> {
    bare(alloc).subcommands(commands_of(alloc, reading)?)
}

/// Whether a word begins as a number below 0 does.
fn is_negative(word: &str) -> bool {
    let bytes = word.as_bytes();
    bytes.len() > 1 && bytes[0] == b'-' && bytes[1].is_ascii_digit()
}

/// Whether a word is `--rects`, with its value or without.
fn is_rects(word: &str) -> bool {
    word == "--rects" || word.starts_with("--rects=")
}

/// How these words are read.
fn reading_of(words: &[String]) -> Reading {
    let mut reading = Reading {
        takes_negative: false,
        has_rects: false,
    };
    for word in words {
        if is_negative(word.as_str()) {
            reading.takes_negative = true;
        }
        if is_rects(word.as_str()) {
            reading.has_rects = true;
        }
    }
    reading
}

/// A word that is there.
fn word_of<'a>(matches: &ArgMatches<'a>, name: &str) -> &'a str {
    matches.get_str(name).unwrap_or("")
}

/// Whether a word without a value is there.
fn flag_of(matches: &ArgMatches, name: &str) -> bool {
    matches.get_flag(name)
}

/// A number; another one where there is none.
fn number_of(matches: &ArgMatches, name: &str, other: u32) -> u32 {
    matches.get_one(name).unwrap_or(other)
}

/// When it is to be said in words what went wrong.
fn telling_of(matches: &ArgMatches) -> Telling {
    if flag_of(matches, "quiet") {
        Telling::Never
    } else if flag_of(matches, "explain") {
        Telling::Always
    } else {
        Telling::OnTerminal
    }
}

/// Whether a store that is absent is made.
fn store_mode_of(matches: &ArgMatches) -> StoreMode {
    if flag_of(matches, "existing") {
        StoreMode::Existing
    } else {
        StoreMode::Made
    }
}

/// Where a run writes.
fn write_mode_of(matches: &ArgMatches) -> WriteMode {
    if flag_of(matches, "in-place") {
        WriteMode::InPlace
    } else {
        WriteMode::OnCopy
    }
}

/// What `mftb run` is asked to do.
fn run_of<'a>(alloc: Global, matches: &ArgMatches<'a>) -> Result<Run<'a>, Error> {
    let names = matches.get_strs("FILES").unwrap_or(&[]);
    Ok(Run {
        store: word_of(matches, "STORE"),
        cache_pages: number_of(matches, "cache-pages", CACHE_PAGES),
        most_legs: matches.get_one("most-legs"),
        most_features: matches.get_one("most-features"),
        script: word_of(matches, "SCRIPT"),
        files: Vec::from_slice(alloc, names)?,
        store_mode: store_mode_of(matches),
        write_mode: write_mode_of(matches),
        progress: flag_of(matches, "progress"),
        telling: telling_of(matches),
        is_strict: flag_of(matches, "strict"),
    })
}

/// Whether the values of attributes are printed.
fn values_of(matches: &ArgMatches) -> ValueMode {
    if flag_of(matches, "columns") {
        ValueMode::With
    } else {
        ValueMode::Without
    }
}

/// What is printed of stays.
fn rows_of(matches: &ArgMatches) -> RowKind {
    if flag_of(matches, "visits") {
        RowKind::Visits
    } else if flag_of(matches, "dwell") {
        RowKind::Dwell
    } else {
        RowKind::Legs(values_of(matches))
    }
}

/// Of which rectangles it is asked.
fn place_of<'a>(matches: &ArgMatches<'a>) -> Where<'a> {
    match matches.get_str("rects") {
        Some(file) => Where::Rects(file),
        None => Where::Rect(Corners {
            x1: word_of(matches, "X1"),
            y1: word_of(matches, "Y1"),
            x2: word_of(matches, "X2"),
            y2: word_of(matches, "Y2"),
        }),
    }
}

/// What `mftb moments` is asked to do.
fn moments_of<'a>(matches: &ArgMatches<'a>) -> Moments<'a> {
    Moments {
        store: word_of(matches, "STORE"),
        cache_pages: number_of(matches, "cache-pages", CACHE_PAGES),
        place: place_of(matches),
        times: [word_of(matches, "T1"), word_of(matches, "T2")],
        rows: rows_of(matches),
        telling: telling_of(matches),
    }
}

/// The predicate of a word.
fn predicate_of(word: &str) -> Predicate {
    match word {
        "always" => Predicate::Always,
        "enters" => Predicate::Enters,
        "leaves" => Predicate::Leaves,
        "crosses" => Predicate::Crosses,
        "bypasses" => Predicate::Bypasses,
        _ => Predicate::Ever,
    }
}

/// What is printed of zones.
fn zone_rows_of(matches: &ArgMatches) -> ZoneRowKind {
    if let Some(word) = matches.get_str("features") {
        ZoneRowKind::Features(predicate_of(word))
    } else if flag_of(matches, "legs") {
        ZoneRowKind::Legs(values_of(matches))
    } else if flag_of(matches, "dwell") {
        ZoneRowKind::Dwell
    } else {
        ZoneRowKind::Visits
    }
}

/// What `mftb zones` is asked to do.
fn zones_of<'a>(matches: &ArgMatches<'a>) -> Zones<'a> {
    Zones {
        store: word_of(matches, "STORE"),
        cache_pages: number_of(matches, "cache-pages", CACHE_PAGES),
        zones: word_of(matches, "ZONES"),
        times: [word_of(matches, "T1"), word_of(matches, "T2")],
        rows: zone_rows_of(matches),
        telling: telling_of(matches),
    }
}

/// What `mftb check` is asked to do.
fn check_of<'a>(matches: &ArgMatches<'a>) -> Check<'a> {
    Check {
        store: word_of(matches, "STORE"),
        cache_pages: number_of(matches, "cache-pages", CACHE_PAGES),
        telling: telling_of(matches),
    }
}

/// What `mftb parts` is asked to do.
fn parts_of<'a>(matches: &ArgMatches<'a>) -> Parts<'a> {
    Parts {
        parts: number_of(matches, "N", 1),
        first: number_of(matches, "first", 0),
        count: matches.get_one("count"),
        file: word_of(matches, "FILE"),
        folder: word_of(matches, "DIR"),
    }
}

/// What `mftb part` is asked to do.
fn part_of<'a>(matches: &ArgMatches<'a>) -> Part<'a> {
    Part {
        part: number_of(matches, "K", 0),
        parts: number_of(matches, "N", 1),
        file: word_of(matches, "FILE"),
    }
}

/// What `mftb migrate` is asked to do.
fn migrate_of<'a>(matches: &ArgMatches<'a>) -> Migrate<'a> {
    Migrate {
        old: word_of(matches, "OLD"),
        new: word_of(matches, "NEW"),
    }
}

/// What `mftb gaps` is asked to do.
fn gaps_of<'a>(matches: &ArgMatches<'a>) -> Gaps<'a> {
    Gaps {
        store: word_of(matches, "STORE"),
        cache_pages: number_of(matches, "cache-pages", CACHE_PAGES),
        times: [word_of(matches, "T1"), word_of(matches, "T2")],
        telling: telling_of(matches),
    }
}

/// What `mftb info` is asked to do.
fn info_of<'a>(matches: &ArgMatches<'a>) -> Info<'a> {
    let form = if flag_of(matches, "json") {
        InfoForm::Json
    } else {
        InfoForm::Lines
    };
    Info {
        store: word_of(matches, "STORE"),
        form,
    }
}

/// Whether a word is there: a flag, or one that has a value.
fn is_there(matches: &ArgMatches, name: &str) -> bool {
    match matches.get_str(name) {
        Some(text) => text != "false",
        None => false,
    }
}

/// Two words of which one may not stand beside the other.
#[derive(Clone, Copy)]
struct Clash {
    one: &'static str,
    other: &'static str,
    /// What is said of them.
    words: &'static str,
}

/// What is said of `--features` or `--columns` beside another word.
const FEATURES_CLASH: &str =
    "the argument '--features' cannot be used with '--visits', '--legs' or '--dwell'";

const COLUMNS_CLASH: &str = "the argument '--columns' cannot be used with '--visits' or '--dwell'";

/// The words that may not stand beside each other, in the order in which they are looked for.
const CLASHES: [Clash; 9] = [
    Clash {
        one: "explain",
        other: "quiet",
        words: "the argument '--explain' cannot be used with '--quiet'",
    },
    Clash {
        one: "dwell",
        other: "visits",
        words: "the argument '--dwell' cannot be used with '--visits'",
    },
    Clash {
        one: "features",
        other: "visits",
        words: FEATURES_CLASH,
    },
    Clash {
        one: "features",
        other: "legs",
        words: FEATURES_CLASH,
    },
    Clash {
        one: "features",
        other: "dwell",
        words: FEATURES_CLASH,
    },
    Clash {
        one: "legs",
        other: "visits",
        words: "the argument '--legs' cannot be used with '--visits'",
    },
    Clash {
        one: "legs",
        other: "dwell",
        words: "the argument '--legs' cannot be used with '--dwell'",
    },
    Clash {
        one: "columns",
        other: "visits",
        words: COLUMNS_CLASH,
    },
    Clash {
        one: "columns",
        other: "dwell",
        words: COLUMNS_CLASH,
    },
];

/// Which two words are there of which one may not stand beside the other, in words.
fn pair_clash_of(matches: &ArgMatches) -> Option<&'static str> {
    for clash in &CLASHES {
        if is_there(matches, clash.one) && is_there(matches, clash.other) {
            return Some(clash.words);
        }
    }
    None
}

/// The same, and also where `mftb zones` has `--columns` without `--legs`.
fn clash_of(matches: &ArgMatches) -> Option<&'static str> {
    if let Some(clash) = pair_clash_of(matches) {
        return Some(clash);
    }
    let is_of_zones = matches.get_str("ZONES").is_some();
    if is_of_zones && is_there(matches, "columns") && !is_there(matches, "legs") {
        return Some("the argument '--columns' needs '--legs'");
    }
    None
}

/// Reads the words, of which the first is the program's name.
///
/// `clap` is told that a bound may be a number below 0 only where one of the words begins as one does.
/// So any other word behind a minus stays a flag. Two flags that exclude each other are refused here,
/// once no word is missing.
pub fn read_words<'a>(alloc: Global, words: &'a [String]) -> Result<Task<'a>, Error> {
    let mut program = mftb(alloc, reading_of(words))?;
    read_by(alloc, &mut program, words)
}

/// Reads the words by what `clap` was told of them.
fn read_by<'a>(
    alloc: Global,
    program: &mut Command<'a>,
    words: &'a [String],
) -> Result<Task<'a>, Error> {
    let matches = program.try_get_matches_from_mut(words)?;
    asked_of(alloc, program, &matches)
}

/// What the words that were found ask for.
fn asked_of<'a>(
    alloc: Global,
    program: &mut Command<'a>,
    matches: &ArgMatches<'a>,
) -> Result<Task<'a>, Error> {
    match matches.subcommand() {
        Some((name, found)) => ask(alloc, program, name, found),
        None => ask(alloc, program, "run", matches),
    }
}

/// What the words of a command ask for, unless two of their flags exclude each other.
fn ask<'a>(
    alloc: Global,
    program: &mut Command<'_>,
    name: &str,
    matches: &ArgMatches<'a>,
) -> Result<Task<'a>, Error> {
    if let Some(clash) = clash_of(matches) {
        return Err(program.error(ErrorKind::ArgumentConflict, clash)?);
    }
    task_of(alloc, name, matches)
}

/// What the words of a command ask for.
fn task_of<'a>(alloc: Global, name: &str, matches: &ArgMatches<'a>) -> Result<Task<'a>, Error> {
    match name {
        "run" => Ok(Task::Run(run_of(alloc, matches)?)),
        _ => Ok(other_of(name, matches)),
    }
}

/// What the words of another command than `run` ask for.
fn other_of<'a>(name: &str, matches: &ArgMatches<'a>) -> Task<'a> {
    match name {
        "check" => Task::Check(check_of(matches)),
        "migrate" => Task::Migrate(migrate_of(matches)),
        "part" => Task::Part(part_of(matches)),
        "parts" => Task::Parts(parts_of(matches)),
        "moments" => Task::Moments(moments_of(matches)),
        "zones" => Task::Zones(zones_of(matches)),
        "gaps" => Task::Gaps(gaps_of(matches)),
        _ => Task::Info(info_of(matches)),
    }
}
