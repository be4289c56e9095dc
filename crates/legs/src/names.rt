//! The names of a file on the way.
use crate::draft::Latest;
use indexmap::IndexSet;
use std::alloc::{AllocError, Global};
use std::hash::RandomState;
use std::marker::Model;

/// The names that a file's records so far have, in order of first appearance, and the latest of
/// each.
pub(crate) struct Names {
    alloc: Global,
    names: IndexSet<String, RandomState>,
    latest: Vec<Latest>,
}

// In one place, and not at each end of what owns it.
impl Drop for Names {
    fn drop(self) {
        let Names {
            alloc,
            names,
            latest,
        } = self;
    }
}

impl Model for Names {
    ghost use Rattle.std.specs.Prelude.{◌≡◌, map, length};
    ghost use Rattle.std.specs.String.{string_bytes};
    ghost use Rattle.legs.specs.Names.{NamesView};

    ghost Value = { NamesView };

    ghost view = { λ a. record { names = map string_bytes a.names.keys; latest = a.latest.items } };

    ghost invariant = { λ a. length a.latest.items ≡ length a.names.keys };
}

impl Names {
    ghost use Rattle.std.specs.Prelude.{◌≡◌, ◌<◌, ◌++◌, ◌∷◌, [], length, slice_get, slice_set, None, Some, IfSome, OnOk};
    ghost use Rattle.legs.specs.Book.{feature_named};
    ghost use Rattle.legs.specs.Names.{with_latest};

    /// No names, which will be hashed with these keys.
    pub(crate) fn new(alloc: Global, keys: RandomState) -> Names
        ensures { result ≡ record { names = []; latest = [] } }
    {
        Names {
            alloc,
            names: IndexSet::with_hasher(alloc, keys),
            latest: Vec::new(alloc),
        }
    }

    /// How many names there are.
    pub(crate) fn len(&self) -> usize
        ensures value { result ≡ length self.now.names }
        ensures paired { result ≡ length self.now.latest }
    {
        self.names.len()
    }

    /// The name at a place, counted from 0.
    pub(crate) fn name(&self, place: usize) -> &str
        requires { place < length self.now.names }
        ensures { slice_get self.now.names place ≡ Some result.now }
    {
        self.names[place].as_str()
    }

    /// The place of a name.
    pub(crate) fn find(&self, name: &str) -> Option<usize>
        ensures value { result ≡ feature_named self.now.names name.now }
        ensures within { IfSome result (λ place. place < length self.now.latest) }
    {
        self.names.get_index_of(name)
    }

    /// The latest of the name at a place.
    pub(crate) fn latest(&self, place: usize) -> Latest
        requires { place < length self.now.latest }
        ensures { slice_get self.now.latest place ≡ Some result }
    {
        self.latest[place]
    }

    fn set(&mut self, place: usize, latest: Latest)
        requires { place < length self.old.latest }
        ensures { self.new ≡ record self.old { latest = slice_set self.old.latest place latest } }
    {
        self.latest[place] = latest;
    }

    fn push(&mut self, name: &str, latest: Latest) -> Result<(), AllocError>
        requires { feature_named self.old.names name.now ≡ None }
        ensures { OnOk result (self.new ≡ record {
          names = self.old.names ++ name.now ∷ [];
          latest = self.old.latest ++ latest ∷ [];
        }) }
    {
        let name = String::from_str(self.alloc, name)?;
        self.latest.reserve(1)?;
        self.names.insert(name)?;
        self.latest.push(latest).unwrap();
        Ok(())
    }

    /// Keeps the latest of a name that has that place, or none yet.
    pub(crate) fn put(
        &mut self,
        place: Option<usize>,
        name: &str,
        latest: Latest,
    ) -> Result<(), AllocError>
        requires place { place ≡ feature_named self.old.names name.now }
        requires within { IfSome place (λ place. place < length self.old.latest) }
        ensures { OnOk result (self.new ≡ with_latest place self.old name.now latest) }
    {
        match place {
            Some(place) => {
                self.set(place, latest);
                Ok(())
            }
            None => self.push(name, latest),
        }
    }
}
