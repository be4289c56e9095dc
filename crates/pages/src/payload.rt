//! What a page holds, and what is wrong with a page.
ghost use Rattle.std.specs.Prelude.{◌≡◌, ◌↔◌, Some};

use thiserror::Error;

/// What a page is for.
#[derive(Clone, Copy, PartialEq, Eq, Debug)]
pub enum Kind {
    /// The first page of a database: code 1.
    Header,
    /// A leaf of a tree: code 2.
    Leaf,
    /// An inner page of a tree: code 3.
    Inner,
    /// A part of the catalogue: code 4.
    Catalogue,
}

impl Kind {
    ghost use Rattle.pages.specs.Sealed.{code_of};

    /// The byte that says the kind.
    pub(crate) fn code(self) -> u8
        ensures { result ≡ code_of self }
    {
        match self {
            Kind::Header => 1,
            Kind::Leaf => 2,
            Kind::Inner => 3,
            Kind::Catalogue => 4,
        }
    }

    /// The kind that a byte says; `None` where it says none.
    pub(crate) fn of(code: u8) -> Option<Kind>
        ensures { (kind : Kind) → (result ≡ Some kind) ↔ (code_of kind ≡ code) }
    {
        match code {
            1 => Some(Kind::Header),
            2 => Some(Kind::Leaf),
            3 => Some(Kind::Inner),
            4 => Some(Kind::Catalogue),
            _ => None,
        }
    }
}

/// What a page holds: its kind, and 4,056 bytes.
#[derive(PartialEq, Eq, Debug, Drop)]
pub struct Payload {
    /// What the page is for.
    pub kind: Kind,
    /// What it says; how, depends on the kind.
    pub bytes: [u8; 4056],
}

impl Payload {
    ghost use Rattle.pages.specs.Zero.{zero_payload};

    /// A payload of zero bytes.
    pub fn zero(kind: Kind) -> Payload
        ensures { result ≡ zero_payload kind }
    {
        Payload {
            kind,
            bytes: [0; 4056],
        }
    }
}

/// What is wrong with a page.
#[derive(Clone, Copy, PartialEq, Eq, Debug, Error)]
pub enum PageFault {
    /// The bytes are no sealed page of that number.
    #[error("page {0} is damaged")]
    Damaged(u32),
}
