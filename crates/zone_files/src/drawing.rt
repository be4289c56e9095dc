//! A shape, drawn token by token.
use crate::codes::Code;
use crate::faults::Flaw;
use crate::kinds::{Keyword, Kind, is_empty, is_ordinates, read_keyword};
use crate::shapes::Shape;
use crate::tokens::{Token, next_token};
use fixedpoint::read_coord;
use std::alloc::Global;
use std::{mem, str};
use zones::{Gate, GridPoint, Ring};

/// What may come next.
#[derive(Clone, Copy)]
enum Next {
    /// `(`.
    Group,
    /// The x of a position.
    X,
    /// The y of the position of this x, in units of 10^-7.
    Y(i64),
    /// `,` or `)` behind a position.
    PositionEnd,
    /// `,` or `)` behind a group.
    GroupEnd,
    /// Nothing.
    Nothing,
}

/// A shape as far as it is drawn.
#[derive(Drop)]
struct Drawing {
    alloc: Global,
    kind: Kind,
    /// How many parentheses are open.
    level: u8,
    next: Next,
    /// The positions of the ring that is open.
    positions: Vec<GridPoint>,
    rings: Vec<Ring>,
}

/// A coordinate, in units of 10^-7.
fn read_ordinate(word: &[u8]) -> Result<i64, Flaw<'_>> {
    match read_coord(str::from_utf8(word).unwrap_or("")) {
        Ok(coord) => Ok(coord.units()),
        Err(_) => Err(Flaw::Wrong(Code::Z5, word)),
    }
}

/// Whether the positions end where they begin.
fn is_closed(positions: &[GridPoint]) -> bool {
    match positions {
        [first, .., last] => first == last,
        _ => false,
    }
}

impl Drawing {
    fn new(alloc: Global, kind: Kind) -> Drawing {
        Drawing {
            alloc,
            kind,
            level: 0,
            next: Next::Group,
            positions: Vec::new(alloc),
            rings: Vec::new(alloc),
        }
    }

    /// Takes a token in.
    fn take<'a>(&mut self, token: Token<'a>) -> Result<(), Flaw<'a>> {
        match token {
            Token::Open => self.open(),
            Token::Close => self.close(),
            Token::Comma => self.go_on(),
            Token::Word(word) => self.take_word(word),
        }
    }

    fn open<'a>(&mut self) -> Result<(), Flaw<'a>> {
        match self.next {
            Next::Group if self.level < self.kind.depth() => {
                self.level = self.level.saturating_add(1);
                if self.level == self.kind.depth() {
                    self.next = Next::X;
                }
                Ok(())
            }
            _ => Err(Flaw::Wrong(Code::Z4, b"(")),
        }
    }

    fn close<'a>(&mut self) -> Result<(), Flaw<'a>> {
        match self.next {
            Next::PositionEnd => self.end_ring()?,
            Next::GroupEnd => {}
            _ => return Err(Flaw::Wrong(Code::Z4, b")")),
        }
        self.level = self.level.saturating_sub(1);
        self.next = if self.level == 0 {
            Next::Nothing
        } else {
            Next::GroupEnd
        };
        Ok(())
    }

    fn go_on<'a>(&mut self) -> Result<(), Flaw<'a>> {
        self.next = match self.next {
            Next::PositionEnd => Next::X,
            Next::GroupEnd => Next::Group,
            _ => return Err(Flaw::Wrong(Code::Z4, b",")),
        };
        Ok(())
    }

    fn take_word<'a>(&mut self, word: &'a [u8]) -> Result<(), Flaw<'a>> {
        match self.next {
            Next::X => self.next = Next::Y(read_ordinate(word)?),
            Next::Y(x) => self.end_position(x, word)?,
            Next::PositionEnd => return Err(Flaw::Wrong(Code::Z7, word)),
            Next::Group if is_empty(word) || is_ordinates(word) => {
                return Err(Flaw::Wrong(Code::Z7, word));
            }
            _ => return Err(Flaw::Wrong(Code::Z4, word)),
        }
        Ok(())
    }

    fn end_position<'a>(&mut self, x: i64, word: &'a [u8]) -> Result<(), Flaw<'a>> {
        let y = read_ordinate(word)?;
        match GridPoint::new(x, y) {
            Some(position) => self.positions.push(position)?,
            None => return Err(Flaw::Wrong(Code::Z5, word)),
        }
        self.next = Next::PositionEnd;
        Ok(())
    }

    /// Ends a ring. Its last position is its first, and is kept once.
    fn end_ring<'a>(&mut self) -> Result<(), Flaw<'a>> {
        if self.kind == Kind::Line {
            return Ok(());
        }
        if self.positions.len() < 4 || !is_closed(&self.positions) {
            return Err(Flaw::Wrong(Code::Z6, b""));
        }
        let mut corners = mem::replace(&mut self.positions, Vec::new(self.alloc));
        corners.pop();
        self.rings.push(Ring::new(corners))?;
        Ok(())
    }

    /// The gate of the positions.
    fn gate<'a>(&self) -> Result<Shape, Flaw<'a>> {
        match self.positions.as_slice() {
            [from, to] if from == to => Err(Flaw::Wrong(Code::Z6, b"")),
            [from, to] => Ok(Shape::Gate(Gate {
                from: *from,
                to: *to,
            })),
            _ => Err(Flaw::Wrong(Code::Z4, b"")),
        }
    }

    /// The shape, once the text is at its end.
    fn finish<'a>(self) -> Result<Shape, Flaw<'a>> {
        match self.next {
            Next::Nothing => {}
            _ => return Err(Flaw::Wrong(Code::Z4, b"")),
        }
        if self.kind == Kind::Line {
            return self.gate();
        }
        Ok(Shape::Polygon(self.rings))
    }
}

/// A flaw, and the number of the ring in which it is.
#[derive(Clone, Copy)]
pub(crate) struct Spot<'a> {
    pub(crate) flaw: Flaw<'a>,
    pub(crate) ring: Option<u64>,
}

impl<'a> From<Flaw<'a>> for Spot<'a> {
    fn from(flaw: Flaw<'a>) -> Spot<'a> {
        Spot { flaw, ring: None }
    }
}

/// The number of the ring that is open.
fn open_ring(drawing: &Drawing) -> Option<u64> {
    if drawing.kind == Kind::Line || drawing.level < drawing.kind.depth() {
        return None;
    }
    Some((drawing.rings.len() as u64).saturating_add(1))
}

/// The kind of shape that a text begins with, and what stands behind the word.
#[derive(Clone, Copy)]
struct Begun<'a> {
    kind: Kind,
    rest: &'a [u8],
}

fn read_kind(text: &[u8]) -> Result<Begun<'_>, Flaw<'_>> {
    match next_token(text) {
        Some(taken) => match taken.token {
            Token::Word(word) => match read_keyword(word) {
                Keyword::Shape(kind) => Ok(Begun {
                    kind,
                    rest: taken.rest,
                }),
                Keyword::Ordinates => Err(Flaw::Wrong(Code::Z7, word)),
                Keyword::Unknown => Err(Flaw::Wrong(Code::Z4, word)),
            },
            _ => Err(Flaw::Wrong(Code::Z4, text)),
        },
        None => Err(Flaw::Wrong(Code::Z4, text)),
    }
}

/// The shape of a text of WKT, or the first flaw from the left.
pub(crate) fn read_shape(alloc: Global, text: &[u8]) -> Result<Shape, Spot<'_>> {
    let begun = read_kind(text)?;
    let mut drawing = Drawing::new(alloc, begun.kind);
    let mut rest = begun.rest;
    'tokens: while let Some(taken) = next_token(rest) {
        let ring = open_ring(&drawing);
        if let Err(flaw) = drawing.take(taken.token) {
            return Err(Spot { flaw, ring });
        }
        rest = taken.rest;
    }
    Ok(drawing.finish()?)
}
