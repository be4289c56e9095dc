//! Why a zone file was not read.
use crate::codes::Code;
use std::alloc::{AllocError, AllocFailed};
use std::fmt;
use thiserror::Error;

/// A record that breaks a rule, and where in the record.
#[derive(Debug, Drop)]
pub struct Refusal {
    pub code: Code,
    /// The number of the record, from 1; 0 where the file has no record.
    pub record: u64,
    /// The number of the ring in its shape, from 1, where the fault is in one.
    pub ring: Option<u64>,
    /// The text that is wrong, or its first bytes.
    pub value: Option<String>,
}

impl fmt::Display for Refusal {
    fn fmt<W: fmt::Write>(&self, f: &mut fmt::Formatter<W>) -> fmt::Result {
        write!(f, "{} at record {}", self.code, self.record)?;
        if let Some(ring) = self.ring {
            write!(f, ", ring {ring}")?;
        }
        if let Some(value) = &self.value {
            write!(f, ", value {value:?}")?;
        }
        write!(f, ": {}", self.code.words())
    }
}

/// Why a zone file was not read.
#[derive(Debug, Drop, Error)]
pub enum ZoneFault {
    /// Memory ran out.
    #[error("out of memory")]
    Memory,
    /// The first record with a fault, and its first fault.
    #[error("the zone file is refused: {0}")]
    Refused(Refusal),
}

impl From<AllocError> for ZoneFault {
    fn from(_: AllocError) -> ZoneFault {
        ZoneFault::Memory
    }
}

impl<T: Drop> From<AllocFailed<T>> for ZoneFault {
    fn from(_: AllocFailed<T>) -> ZoneFault {
        ZoneFault::Memory
    }
}

/// What is wrong with a text of WKT: a rule, and the bytes that break it.
#[derive(Clone, Copy)]
pub(crate) enum Flaw<'a> {
    Memory,
    Wrong(Code, &'a [u8]),
}

impl From<AllocError> for Flaw<'_> {
    fn from(_: AllocError) -> Self {
        Flaw::Memory
    }
}

impl<T: Drop> From<AllocFailed<T>> for Flaw<'_> {
    fn from(_: AllocFailed<T>) -> Self {
        Flaw::Memory
    }
}
