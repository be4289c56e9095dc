//! The kinds of shapes, as WKT names them.

/// A kind of shape.
#[derive(Clone, Copy, PartialEq, Eq, Debug)]
pub(crate) enum Kind {
    Polygon,
    MultiPolygon,
    Line,
}

impl Kind {
    /// How many parentheses are open around a list of positions.
    pub(crate) fn depth(self) -> u8 {
        match self {
            Kind::Line => 1,
            Kind::Polygon => 2,
            Kind::MultiPolygon => 3,
        }
    }
}

/// What the first word of a text says.
#[derive(Clone, Copy, PartialEq, Eq, Debug)]
pub(crate) enum Keyword {
    /// A shape of this kind follows.
    Shape(Kind),
    /// A shape of this kind follows, with further ordinates.
    Ordinates,
    Unknown,
}

const POLYGON: &[u8] = b"polygon";

const MULTI_POLYGON: &[u8] = b"multipolygon";

const LINE: &[u8] = b"linestring";

/// Whether two texts are the same in ASCII letters of any case.
fn is_same(word: &[u8], name: &[u8]) -> bool {
    word.eq_ignore_ascii_case(name)
}

/// Whether a word names ordinates beside x and y.
pub(crate) fn is_ordinates(word: &[u8]) -> bool {
    is_same(word, b"z") || is_same(word, b"m") || is_same(word, b"zm")
}

/// Whether a word says that there is no position.
pub(crate) fn is_empty(word: &[u8]) -> bool {
    is_same(word, b"empty")
}

/// Whether a word is a name with ordinates behind it, as `POLYGONZ`.
fn has_ordinates(word: &[u8], name: &[u8]) -> bool {
    word.len() > name.len()
        && is_same(&word[..name.len()], name)
        && is_ordinates(&word[name.len()..])
}

/// What the first word of a text says.
pub(crate) fn read_keyword(word: &[u8]) -> Keyword {
    if is_same(word, POLYGON) {
        Keyword::Shape(Kind::Polygon)
    } else if is_same(word, MULTI_POLYGON) {
        Keyword::Shape(Kind::MultiPolygon)
    } else if is_same(word, LINE) {
        Keyword::Shape(Kind::Line)
    } else if has_ordinates(word, POLYGON)
        || has_ordinates(word, MULTI_POLYGON)
        || has_ordinates(word, LINE)
    {
        Keyword::Ordinates
    } else {
        Keyword::Unknown
    }
}
