//! The names of a store and of what lies beside it while a run works on a copy.
use sessions::Fault;
use std::alloc::{AllocError, Global};
use std::fs::File;
use std::path::Path;
use std::rt::Files;
use std::{fs, io};
use trajdb::RunFault;

/// The names of a store's file and of what lies beside it while a run works on a copy.
pub(crate) struct Names {
    /// The store's file itself, behind links.
    pub(crate) store: String,
    /// The copy.
    pub(crate) copy: String,
    /// An empty file whose lock the run holds.
    pub(crate) lock: String,
}

// In one place, and not at each end of what owns it.
impl Drop for Names {
    fn drop(self) {
        let Names { store, copy, lock } = self;
    }
}

/// The name of a store's file, behind links; as it was given where there is none yet.
fn resolved<R: Files + AllocGlobal>(rt: &R, store: &str) -> Result<String, Fault> {
    match fs::canonicalize(rt, store) {
        Ok(path) => Ok(path.into_string()),
        Err(error) => match error.kind() {
            io::ErrorKind::OutOfMemory => Err(Fault::Run(RunFault::Memory)),
            _ => Ok(String::from_str(rt.alloc(), store)?),
        },
    }
}

/// A name with that ending.
fn with_ending(alloc: Global, name: &str, ending: &str) -> Result<String, AllocError> {
    format!(in alloc; "{name}{ending}")
}

impl Names {
    /// The names for a store.
    pub(crate) fn new<R: Files + AllocGlobal>(rt: &R, store: &str) -> Result<Names, Fault> {
        let alloc = rt.alloc();
        let store = resolved(rt, store)?;
        let copy = with_ending(alloc, store.as_str(), ".mftb-copy")?;
        let lock = with_ending(alloc, store.as_str(), ".mftb-lock")?;
        Ok(Names { store, copy, lock })
    }

    /// Makes the names of the folder last, where the system can.
    pub(crate) fn sync<R: Files<File = File>>(&self, rt: &R) {
        let folder = match Path::new(self.store.as_str()).parent() {
            Some(folder) if !folder.as_str().is_empty() => folder.as_str(),
            _ => ".",
        };
        if let Ok(folder) = File::open(rt, folder) {
            let _ = folder.sync_all();
        }
    }
}
