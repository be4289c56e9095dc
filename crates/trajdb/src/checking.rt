//! A database is checked.
ghost use Rattle.std.specs.Prelude.{◌≡◌, ◌<◌, ◌^◌, ◌↔◌, IsTrue, length};
ghost use Rattle.legs.specs.Law.{IsName};
ghost use Rattle.trajdb.specs.Db.{AreNames, FitsHead, IsOwnName};

use crate::database::Core;
use crate::db::Db;
use crate::start::Start;
use crate::{Report, RunFault};
use boxsearch::TreeIndex;
use legs::{BookHead, IndexFault, Tracks};
use pages::PageStore;
use rows::Rows;

/// Whether a name has 1 to 255 bytes.
fn is_name(name: &str) -> bool
    ensures { IsTrue result ↔ IsName name.now }
{
    let len = name.len();
    1 <= len && len <= 255
}

/// Whether the name of that number has 1 to 255 bytes, and is found at its number.
fn is_own_name(tracks: &Tracks, feature: u32) -> bool
    requires { length tracks.now.names < 2 ^ 32 }
    ensures { IsTrue result ↔ IsOwnName tracks.now.names feature }
{
    match tracks.name(feature) {
        None => true,
        Some(name) => is_name(name) && tracks.feature(name) == Some(feature),
    }
}

/// Whether each name has 1 to 255 bytes, and no two are the same.
fn are_names(tracks: &Tracks) -> bool
    requires { length tracks.now.names < 2 ^ 32 }
    ensures { IsTrue result ↔ AreNames tracks.now.names }
{
    for feature in 0..tracks.feature_count() as u32 {
        if !is_own_name(tracks, feature) {
            return false;
        }
    }
    true
}

/// Whether so many names and these rows stand beside a head: before the first accepted file there
/// is no name, and each row has a value for each column.
fn fits_head(head: &Option<BookHead>, features: u64, rows: &Rows) -> bool
    ensures { IsTrue result ↔ FitsHead head.now features rows.now }
{
    match head {
        None => features == 0,
        Some(head) => rows.have(head.columns.as_slice().len()),
    }
}

impl<I: Start> Core<I> {
    ghost use Rattle.std.specs.Prelude.{◌↔◌, IsTrue};
    ghost use Rattle.trajdb.specs.Db.{KeepsLaw};

    /// Whether its names, its numbers and its rows are those of a book under its limits.
    fn keeps_law(&self) -> bool
        ensures { IsTrue result ↔ KeepsLaw self.now }
    {
        let features = self.tracks.feature_count();
        if self.tracks.leg_count() > self.limits.legs() {
            return false;
        }
        if features > u64::from(self.limits.features()) {
            return false;
        }
        are_names(&self.tracks) && fits_head(&self.head, features, &self.rows)
    }
}

impl<S: PageStore> Core<TreeIndex<S>> {
    ghost use Rattle.std.specs.Prelude.{ℕ, ◌≡◌, IfErr, IsErrOf, IsTrue, OnOk, false, true, length};
    ghost use Rattle.legs.specs.Asking.{Refusals};
    ghost use Rattle.legs.specs.Index.{HasRisen, MayRefuse};
    ghost use Rattle.legs.specs.Limits.{IsLimits};
    ghost use Rattle.legs.specs.declared.index.IndexFault.{IndexFault};
    ghost use Rattle.pagecache.specs.Cache.{payload_of, IsClean};
    ghost use Rattle.treecheck.specs.Checking.{AreTracksOf};
    ghost use Rattle.boxsearch.specs.Index.{content, words, IsSoundIndex};
    ghost use Rattle.header.specs.Front.{SaysState};
    ghost use Rattle.trajdb.specs.Calls.{LeavesBook};
    ghost use Rattle.trajdb.specs.Promises.{CheckCall};

    /// Writes all that is changed.
    fn flush(&mut self) -> Result<(), IndexFault>
        ensures written { OnOk result (IsClean self.new.index.cache) }
        ensures leaves { LeavesBook words self.old self.new }
        ensures payloads { IsTrue self.old.index.cache.store.is_faithful → (page : ℕ)
            → payload_of self.new.index.cache page ≡ payload_of self.old.index.cache page }
        ensures legs { content self.new.index ≡ self.new.book.legs }
        ensures refusals { Refusals words self.old.index self.new.index result }
        ensures works { IfErr result (λ fault. words.is_spent self.old.index ≡ false
            → MayRefuse fault) }
    {
        self.index.flush()
    }

    /// Checks its index.
    fn check_index(&mut self) -> Result<(), IndexFault>
        ensures sound { OnOk result (IsTrue self.old.index.cache.store.is_faithful
            → IsSoundIndex self.new.index) }
        ensures tracks { OnOk result (IsTrue self.old.index.cache.store.is_faithful
            → AreTracksOf self.new.tracks (length self.new.book.rows) (content self.new.index)) }
        ensures says { OnOk result (IsTrue self.old.index.cache.store.is_faithful
            → SaysState self.new.begun (payload_of self.new.index.cache 0)) }
        ensures only { IsSoundIndex self.old.index
            → AreTracksOf self.old.tracks (length self.old.book.rows) (content self.old.index)
            → SaysState self.old.begun (payload_of self.old.index.cache 0)
            → IfErr result MayRefuse }
        ensures leaves { LeavesBook words self.old self.new }
        ensures payloads { IsTrue self.old.index.cache.store.is_faithful → (page : ℕ)
            → payload_of self.new.index.cache page ≡ payload_of self.old.index.cache page }
        ensures legs { content self.new.index ≡ self.new.book.legs }
        ensures names { self.new.tracks.names ≡ self.new.book.names }
        ensures limits { IsLimits self.new.limits }
        ensures works { IsErrOf result IndexFault.Spent → words.is_spent self.old.index ≡ true }
        ensures store { IsErrOf result IndexFault.Store
            → HasRisen (words.faults self.old.index) (words.faults self.new.index) }
        ensures full { IsErrOf result IndexFault.StoreFull → ⊥ }
    {
        prove!(self.limits.legs() > 0);
        let rows = self.rows.len() as u64;
        treecheck::check(&mut self.index, &self.tracks, rows, self.begun)
    }

    /// Checks its pages, and what stands beside them.
    pub(crate) fn check(&mut self) -> Result<Report, RunFault>
        ensures { CheckCall self.old self.new result }
    {
        if self.failed {
            return Err(RunFault::Failed);
        }
        // For its clause: a page that is not changed is as written.
        let _ = self.index.page_count();
        self.flush()?;
        self.check_index()?;
        if !self.keeps_law() {
            return Err(RunFault::Damaged(0));
        }
        Ok(Report {
            pages: self.index.page_count(),
            legs: self.tracks.leg_count(),
            features: self.tracks.feature_count(),
        })
    }
}

impl<S: PageStore> Db<S> {
    ghost use Rattle.trajdb.specs.Promises.{CheckCall, KeepsStore};

    /// Tests whether the pages of its store, whoever made them, and what is known beside them hold
    /// one book. Returns how many pages the store has, and how many legs and features the book.
    ///
    /// It writes what is changed, and reads each page for its seal. Page 0 has to say unfinished if
    /// the database has begun, and finished if not. Then it walks the leaves feature by feature,
    /// and the tree from the root down.
    ///
    /// `Damaged` names the first page that fails, or page 0 if what is known beside the pages does.
    /// It fails too if memory runs out or the store fails. A failed database returns `Failed`. The
    /// book stays, whatever is returned.
    pub fn check(&mut self) -> Result<Report, RunFault>
        ensures call { CheckCall self.old self.new result }
        ensures keeps { KeepsStore self.old self.new }
    {
        self.core.check()
    }
}
