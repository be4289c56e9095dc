//! What is looked up in a database by who answers in a way of their own: legs, and what is known of the book without a
//! look at a page.
ghost use Rattle.std.specs.Prelude.{◌≡◌};

use crate::RunFault;
use crate::db::Db;
use legs::{BookHead, Leg, LegIndex, Limits, Rect};
use pages::PageStore;
use predicates::Predicate;
use rows::Row;
use std::alloc::Global;
use timebase::Period;

impl<S: PageStore> Db<S> {
    ghost use Rattle.std.specs.Prelude.{◌≡◌, Err, false, IfErr, IfOk, length, OnOk, option_copied, slice_get, true};
    ghost use Rattle.legs.specs.Costs.{search_cost};
    ghost use Rattle.predicates.specs.Near.{box_near};
    ghost use Rattle.boxsearch.specs.Index.{words};
    ghost use Rattle.trajdb.specs.Answers.{HoldsOfLeg};
    ghost use Rattle.trajdb.specs.Calls.{Asks, IsRefused, LeavesBook};
    ghost use Rattle.trajdb.specs.Db.{HasPages, IsSoundDb};
    ghost use Rattle.trajdb.specs.Picks.{Picks};
    ghost use Rattle.trajdb.specs.Promises.{KeepsStore};
    ghost use Rattle.trajdb.specs.Telling.{ArePickedOf};
    ghost use Rattle.trajdb.specs.declared.RunFault.{RunFault};

    /// The legs for which, each taken alone, a predicate holds with a rectangle over a period, in the order of the book.
    pub fn legs(
        &mut self,
        alloc: Global,
        predicate: Predicate,
        rect: &Rect,
        period: &Period,
    ) -> Result<Vec<Leg>, RunFault>
        // A sound database returns exactly the legs of the book for which the predicate holds, in
        // order.
        ensures found { IfOk result (λ legs. IsSoundDb self.old
            → Picks (HoldsOfLeg predicate rect.now period.now) self.old.book.legs legs.items) }

        // Any database picks them from the legs of the pages that it met.
        ensures says { IfOk result (λ legs.
            ArePickedOf words self.old predicate rect.now period.now legs.items) }
        // A sound database asks for exactly as many pages as a search of the predicate's box.
        ensures asks { OnOk result (Asks words self.old self.new
            (search_cost (box_near predicate rect.now period.now))) }
        // The book, and all else that is known, stay as they were.
        ensures leaves { LeavesBook words self.old self.new }
        // A sound database fails only if memory runs out or the store fails, and says the latter
        // only if it did.
        ensures refused { IfErr result (λ fault. self.old.failed ≡ false
            → IsRefused words self.old self.new fault) }
        // Page 0 of a database that has begun stays marked; in one that has not, no page is
        // changed.
        ensures pages { HasPages self.old → HasPages self.new }
        ensures keeps { KeepsStore self.old self.new }

        // A failed database does nothing.
        ensures was_failed { self.old.failed ≡ true → (result ≡ Err RunFault.Failed)
            × (self.new ≡ self.old) }
    {
        if self.core.failed {
            return Err(RunFault::Failed);
        }
        self.core.legs_for(alloc, predicate, rect, period)
    }

    /// The name of the feature of a number; `None` if there is none.
    pub fn name(&self, feature: u32) -> Option<&str>
        ensures { option_copied result ≡ slice_get self.now.book.names feature }
    {
        self.core.tracks.name(feature)
    }

    /// The attribute values of a record, by the number that its legs have; `None` if there is none.
    pub fn row(&self, number: u32) -> Option<Row<'_>>
        ensures { result ≡ slice_get self.now.book.rows number }
    {
        self.core.rows.row(number as usize)
    }

    /// What the first file said of all files; `None` if no file was accepted.
    pub fn head(&self) -> Option<&BookHead>
        ensures { option_copied result ≡ self.now.book.head }
    {
        self.core.head.as_ref()
    }

    /// How many legs the index counts.
    pub fn leg_count(&self) -> u64
        // It is the number that the index keeps.
        ensures counted { result ≡ words.counted self.now.index }
        // In a sound database that is how many legs the book has.
        ensures legs { IsSoundDb self.now → result ≡ length self.now.book.legs }
    {
        self.core.index.len()
    }

    /// How many features there are.
    pub fn feature_count(&self) -> u64
        ensures { result ≡ length self.now.book.names }
    {
        self.core.tracks.feature_count()
    }

    /// How much the database may hold.
    pub fn limits(&self) -> Limits
        ensures { result ≡ self.now.limits }
    {
        self.core.limits
    }
}
