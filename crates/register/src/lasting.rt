//! What holds of what the pages of a store keep, for the proofs of a caller.
ghost use Rattle.std.specs.Prelude.{ℕ, ◌≡◌, ◌<◌, List, Option, Some};
ghost use Rattle.pages.specs.declared.payload.Kind.TheVariants.{Header};
ghost use Rattle.pages.specs.declared.payload.Payload.{Payload};
ghost use Rattle.tbtree.specs.declared.tree.Place.{Place};
ghost use Rattle.tbtree.specs.declared.tree.TbTree.{TbTree};
ghost use Rattle.header.specs.Front.{with_state};
ghost use Rattle.legs.specs.Book.{Book};
ghost use Rattle.legs.specs.Limits.{IsLimits};
ghost use Rattle.legs.specs.Tracks.{StandsFor};
ghost use Rattle.register.specs.Lasting.{IsKept, IsLawfulCatalogue, IsSame, Says};
ghost use Rattle.register.specs.Saved.{CatalogueView};

/// What holds of what the pages of a store keep beside its legs, for the proofs of a caller. It does
/// nothing.
pub fn laws()
    // They keep one catalogue, one tree and one list of places at most.
    ensures same { (at : ℕ → Option Payload) (count : ℕ) (c d : CatalogueView)
        (tree other : TbTree) (places others : List Place) → IsKept at count c tree places
        → IsKept at count d other others → IsSame c d tree other places others }

    // Another state in page 0 leaves what they say.
    ensures state { (at now : ℕ → Option Payload) (header : Payload) (state : ℕ)
        → ((n : ℕ) → 0 < n → now n ≡ at n) → at 0 ≡ Some header
        → now 0 ≡ Some (with_state state header) → header.kind ≡ Header
        → (count : ℕ) (c : CatalogueView) (tree : TbTree) (places : List Place)
        → Says at count c tree places → Says now count c tree places }

    // The tracks of a lawful catalogue stand for a book, with its head, names and rows.
    ensures books { (count : ℕ) (c : CatalogueView) (places : List Place) → IsLawfulCatalogue count c places
        → IsLimits c.limits → (book : Book) × StandsFor c.tracks book × (book.head ≡ c.head)
        × (book.names ≡ c.tracks.names) × (book.rows ≡ c.rows) }
{}
