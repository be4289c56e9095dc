//! What contracts see of an index of legs.

/// What contracts see of an index of legs. The words stand in a trait of their own, so that a definition can
/// say of all of them what a call leaves.
pub trait Listed {
    ghost use Rattle.std.specs.Prelude.{ℕ, ℤ, Bool, List, Option};
    ghost use Rattle.legs.specs.Legs.{LegView};
    ghost use Rattle.legs.specs.Costs.{ShapeView};
    ghost use Rattle.legs.specs.Finding.{Finding};
    ghost use Rattle.legs.specs.Questions.{Question};

    /// The legs in the index, in accepted order; of an index over pages, none where its store is not faithful.
    ghost content: { Self → List LegView };

    /// The index stands for its list, and every call answers by it.
    ghost is_sound: { Self → Type 0 };

    /// What its pages, whoever wrote them, say to a question: these legs, where each page that is met is what it is to
    /// be there. Of an index over a store that is not faithful nothing is known, and it says anything.
    ghost tells: { Self → Question → List LegView → Type 0 };

    /// Its pages say nothing to a question: the page of that number is the first that is met and is not what it is to be
    /// there, or the first that is met beyond as many as there are.
    ghost denies: { Self → Question → ℕ → Type 0 };

    /// How many legs it counts.
    ghost counted: { Self → ℕ };

    /// How many features it has a place for: each below that number.
    ghost features: { Self → ℕ };

    /// An `add` failed.
    ghost is_spent: { Self → Bool };

    /// How many faults of its store were counted. It never falls; 2^64 - 1 stands for any greater number.
    ghost faults: { Self → ℕ };

    /// Its store has no room for another page.
    ghost is_store_full: { Self → Type 0 };

    /// How many pages it asked for. It never falls; 2^64 - 1 stands for any greater number.
    ghost asked: { Self → ℕ };

    /// The shape of its tree; none of an index that keeps a list.
    ghost plan: { Self → Option ShapeView };

    /// The numbers by which it finds its legs; all zero of an index that keeps a list.
    ghost found_by: { Self → Finding };

    /// Its store is faithful: its pages are what was written. Never of an index that keeps a list.
    ghost is_faithful: { Self → Type 0 };

    /// No page is changed; never of an index that keeps a list.
    ghost is_clean: { Self → Type 0 };

    /// Page 0 as written is an unfinished header, and not changed; never of an index that keeps a list.
    ghost is_marked: { Self → Type 0 };

    /// Nothing of its store is unsynced; of an index that keeps a list, always.
    ghost is_synced: { Self → Type 0 };

    /// The pages of its store as written.
    ghost written: { Self → List (List ℕ) };
}
