//! How a run over a store ended.
use crate::fault::Fault;

/// How a run over a store ended.
#[derive(Clone, Copy)]
pub struct Ended {
    /// Why the script was not run to its end and its database closed, where it was not.
    pub ran: Result<(), Fault>,
    /// Why the store does not have what the run did, where it does not.
    pub kept: Result<(), Fault>,
}
