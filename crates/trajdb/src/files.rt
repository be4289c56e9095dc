//! The named files that a script may load.
ghost use Rattle.std.specs.Prelude.{◌≡◌, [], OnOk, OnErr};
ghost use Rattle.std.specs.Option.{option_copied};
ghost use Rattle.trajdb.specs.Script.{file_named, files_with};

use indexmap::IndexMap;
use std::alloc::{AllocError, Global};
use std::marker::Model;

/// Files by name; of two with one name the first counts.
pub struct Files {
    alloc: Global,
    files: IndexMap<String, Vec<u8>>,
}

// In one place, and not at each end of what owns it.
impl Drop for Files {
    fn drop(self) {
        let Files { alloc, files } = self;
    }
}

impl Model for Files {
    ghost use Rattle.std.specs.Prelude.{List, ℕ, map};
    ghost use Rattle.std.specs.String.{string_bytes};

    ghost Value = { List (List ℕ × List ℕ) };

    ghost view = { λ a. map (λ file. (string_bytes file.0, file.1.items)) a.files.entries };
}

impl Files {
    /// No files.
    pub fn new(alloc: Global) -> Files
        ensures { result ≡ [] }
    {
        Files {
            alloc,
            files: IndexMap::new(alloc),
        }
    }

    /// Adds a file, unless one of that name is there. If memory runs out, nothing changes.
    pub fn add(&mut self, name: &str, bytes: Vec<u8>) -> Result<(), AllocError>
        // A file of a new name is added; if the name is there, the first file counts.
        ensures ok { OnOk result (self.new ≡ files_with self.old name.now bytes.items) }
        // If memory runs out, the files stay as they were.
        ensures err { OnErr result (self.new ≡ self.old) }
    {
        if self.files.contains_key(name) {
            return Ok(());
        }
        let name = String::from_str(self.alloc, name)?;
        self.files.insert(name, bytes)?;
        Ok(())
    }

    /// The bytes of the file of that name.
    pub fn get(&self, name: &str) -> Option<&[u8]>
        ensures { option_copied result ≡ file_named self.now name.now }
    {
        match self.files.get(name) {
            Some(bytes) => Some(bytes.as_slice()),
            None => None,
        }
    }
}
