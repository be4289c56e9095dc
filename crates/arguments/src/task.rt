//! What the words of the command line ask for.
use predicates::Predicate;

/// When it is said in words what went wrong.
#[derive(Clone, Copy, PartialEq, Eq)]
pub enum Telling {
    /// On a terminal.
    OnTerminal,
    /// Always.
    Always,
    /// Never.
    Never,
}

impl Telling {
    /// Whether it is said, on a terminal or elsewhere.
    pub fn is_told(self, is_terminal: bool) -> bool {
        match self {
            Telling::OnTerminal => is_terminal,
            Telling::Always => true,
            Telling::Never => false,
        }
    }
}

/// Whether a store that is absent is made.
#[derive(Clone, Copy, PartialEq, Eq)]
pub enum StoreMode {
    /// It is made.
    Made,
    /// It is refused.
    Existing,
}

/// Where a run writes.
#[derive(Clone, Copy, PartialEq, Eq)]
pub enum WriteMode {
    /// Into a copy beside the store.
    OnCopy,
    /// Into the store as it lies there.
    InPlace,
}

/// How a store is printed.
#[derive(Clone, Copy)]
pub enum InfoForm {
    /// In lines for people.
    Lines,
    /// As one object of JSON.
    Json,
}

/// What `mftb run` is asked to do.
#[derive(Drop)]
pub struct Run<'a> {
    /// The name of the file that keeps the database.
    pub store: &'a str,
    /// How many pages its cache holds at most, at least 1.
    pub cache_pages: u32,
    /// How many legs it is to hold at most, from 1 to 2^31, where that is said.
    pub most_legs: Option<u32>,
    /// How many features.
    pub most_features: Option<u32>,
    /// The name of the script.
    pub script: &'a str,
    /// The names of the files that it may load.
    pub files: Vec<&'a str>,
    /// Whether a store that is absent is made.
    pub store_mode: StoreMode,
    /// Where it writes.
    pub write_mode: WriteMode,
    /// Whether it is said what the run is doing.
    pub progress: bool,
    /// When it is said why a line or a file was refused.
    pub telling: Telling,
    /// Whether a line or a file that is refused changes the status.
    pub is_strict: bool,
}

/// What `mftb check` is asked to do.
#[derive(Clone, Copy)]
pub struct Check<'a> {
    /// The name of the file that keeps the database.
    pub store: &'a str,
    /// How many pages its cache holds at most, at least 1.
    pub cache_pages: u32,
    /// When it is said why it could not be read.
    pub telling: Telling,
}

/// What `mftb migrate` is asked to do.
#[derive(Clone, Copy)]
pub struct Migrate<'a> {
    /// The name of the file that keeps a database of version 1.
    pub old: &'a str,
    /// The name of the file that is to keep it.
    pub new: &'a str,
}

/// What `mftb part` is asked to do.
#[derive(Clone, Copy)]
pub struct Part<'a> {
    /// The number of the part, from 0.
    pub part: u32,
    /// How many parts there are, at least 1.
    pub parts: u32,
    /// The name of the file.
    pub file: &'a str,
}

/// What `mftb parts` is asked to do.
#[derive(Clone, Copy)]
pub struct Parts<'a> {
    /// How many parts there are, at least 1.
    pub parts: u32,
    /// The number of the first part that is written, from 0.
    pub first: u32,
    /// How many are written; else all from that one on.
    pub count: Option<u32>,
    /// The name of the file.
    pub file: &'a str,
    /// The name of the folder that takes the files of the parts.
    pub folder: &'a str,
}

/// Whether the values of the leg's attributes stand in the record of its stay.
#[derive(Clone, Copy)]
pub enum ValueMode {
    /// They are left out.
    Without,
    /// They stand behind the other fields.
    With,
}

/// What is printed of stays.
#[derive(Clone, Copy)]
pub enum RowKind {
    /// A record a leg.
    Legs(ValueMode),
    /// A record a visit.
    Visits,
    /// A record a feature.
    Dwell,
}

/// A rectangle, as it was written.
#[derive(Clone, Copy)]
pub struct Corners<'a> {
    pub x1: &'a str,
    pub y1: &'a str,
    pub x2: &'a str,
    pub y2: &'a str,
}

/// Of which rectangles `mftb moments` is asked.
#[derive(Clone, Copy)]
pub enum Where<'a> {
    /// Of one.
    Rect(Corners<'a>),
    /// Of those of the file of that name.
    Rects(&'a str),
}

/// What `mftb moments` is asked to do.
#[derive(Clone, Copy)]
pub struct Moments<'a> {
    /// The name of the file that keeps the database.
    pub store: &'a str,
    /// How many pages its cache holds at most, at least 1.
    pub cache_pages: u32,
    /// The rectangles.
    pub place: Where<'a>,
    /// T1 and T2, as they were written.
    pub times: [&'a str; 2],
    /// What is printed.
    pub rows: RowKind,
    /// When it is said why nothing is printed.
    pub telling: Telling,
}

/// What is printed of zones.
#[derive(Clone, Copy)]
pub enum ZoneRowKind {
    /// A record a visit.
    Visits,
    /// A record a stay of a leg.
    Legs(ValueMode),
    /// A record a feature: how long it stays.
    Dwell,
    /// A record a feature of which the predicate holds.
    Features(Predicate),
}

/// What `mftb zones` is asked to do.
#[derive(Clone, Copy)]
pub struct Zones<'a> {
    /// The name of the file that keeps the database.
    pub store: &'a str,
    /// How many pages its cache holds at most, at least 1.
    pub cache_pages: u32,
    /// The name of the zone file.
    pub zones: &'a str,
    /// T1 and T2, as they were written.
    pub times: [&'a str; 2],
    /// What is printed.
    pub rows: ZoneRowKind,
    /// When it is said why nothing is printed.
    pub telling: Telling,
}

/// What `mftb gaps` is asked to do.
#[derive(Clone, Copy)]
pub struct Gaps<'a> {
    /// The name of the file that keeps the database.
    pub store: &'a str,
    /// How many pages its cache holds at most, at least 1.
    pub cache_pages: u32,
    /// T1 and T2, as they were written.
    pub times: [&'a str; 2],
    /// When it is said why it could not be read.
    pub telling: Telling,
}

/// What `mftb info` is asked to do.
#[derive(Clone, Copy)]
pub struct Info<'a> {
    /// The name of the file that keeps the database.
    pub store: &'a str,
    /// How it is printed.
    pub form: InfoForm,
}

/// What the program is asked to do.
#[derive(Drop)]
pub enum Task<'a> {
    /// To run a script.
    Run(Run<'a>),
    /// To check a store.
    Check(Check<'a>),
    /// To bring a store of version 1 over.
    Migrate(Migrate<'a>),
    /// To print a part of a file.
    Part(Part<'a>),
    /// To write all parts of a file.
    Parts(Parts<'a>),
    /// To say when legs are inside a rectangle.
    Moments(Moments<'a>),
    /// To say who is in which zone.
    Zones(Zones<'a>),
    /// To say when features have no position.
    Gaps(Gaps<'a>),
    /// To say what a store holds.
    Info(Info<'a>),
}
