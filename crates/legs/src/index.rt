//! The contract of an index of legs.
use crate::boxes::Box3;
use crate::leg::Leg;
use crate::listed::Listed;
use crate::sieve::Sieve;
use std::alloc::{AllocError, AllocFailed};
use thiserror::Error;
use timebase::Period;

/// The errors of an index.
#[derive(Clone, Copy, PartialEq, Eq, Debug, Error)]
pub enum IndexFault {
    /// Memory ran out.
    #[error("out of memory")]
    Memory,
    /// The store failed.
    #[error("the store failed")]
    Store,
    /// A page is not what it should be.
    #[error("page {0} is damaged")]
    Damaged(u32),
    /// There is no room for another page.
    #[error("the store is full")]
    StoreFull,
    /// An earlier `add` failed, or the leg's feature is above the next one.
    #[error("the index is spent")]
    Spent,
}

/// An index of legs, seen as the list of its legs in accepted order.
///
/// An `add` that fails leaves the index spent. Every later call but `len`, `spent` and `asked` then
/// returns `Spent`, and changes nothing. Any other error leaves the list as it was.
///
/// A question returns what the pages say, whoever wrote them, and nothing else. If a page that it
/// meets is not what it has to be there, it returns `Damaged` with that page.
pub trait LegIndex: Listed {
    ghost use Rattle.std.specs.Prelude.{ℕ, ℤ, None, ◌≤ℤ◌, ◌≡◌, ◌≢◌, ◌↔◌, ◌∷◌, [], true, false, length, All, OnOk, IfOk, MatchResult};
    ghost use Rattle.std.specs.List.{Contains};
    ghost use Rattle.legs.specs.Legs.{IsLeg};
    ghost use Rattle.legs.specs.Index.{legs_in_box, legs_of, live_legs_of};
    ghost use Rattle.legs.specs.Questions.{InBox, OfFeature};
    ghost use Rattle.legs.specs.Costs.{search_cost, track_cost, track_in_bound};
    ghost use Rattle.legs.specs.Asking.{AddAsks, Asks, AsksAtMost, Denies, Grows, IsLater, Leaves, LegRefusals, Refusals, TellsSieved};
    ghost use Rattle.legs.specs.Sieves.{IsSieved};

    /// How many legs there are.
    fn len(&self) -> u64
        // A sound index returns the number of legs of its list.
        ensures value { Self.is_sound self.now → result ≡ length (Self.content self.now) }
        // It is the number that the index keeps.
        ensures counted { result ≡ Self.counted self.now };

    /// Whether an `add` failed.
    fn spent(&self) -> bool
        ensures { result ≡ Self.is_spent self.now };

    /// How many pages were asked for.
    fn asked(&self) -> u64
        ensures { result ≡ Self.asked self.now };

    /// Puts a leg at the end of the list. The leg may follow if its ordinal is `len`, its feature
    /// at most the number of features so far, and its start not before the end of that feature's
    /// last leg. For any other leg, and for an index that is not sound, only safety is promised.
    fn add(&mut self, leg: Leg) -> Result<(), IndexFault>
        // A sound index stays sound, with the leg at the end of its list, if the leg may follow.
        ensures added { OnOk result (Grows Self.Listed self.old self.new (leg ∷ [])) }
        // A sound index asks for at most twice the root's height and four pages for a leg that may
        // follow.
        ensures asks { OnOk result (AddAsks Self.Listed self.old self.new leg) }
        // A sound index refuses a leg that may follow only for want of memory or of the store. An
        // error leaves it spent.
        ensures refusals { LegRefusals Self.Listed self.old self.new (leg ∷ []) result }
        // A marked index stays marked, on an error too.
        ensures marked { Self.is_marked self.old → Self.is_marked self.new }
        // Its shape stays, and no count falls.
        ensures later { IsLater Self.Listed self.old self.new };

    /// Puts legs at the end of the list, one after another, under the same conditions.
    fn add_all(&mut self, legs: &[Leg]) -> Result<(), IndexFault>
        // A sound index stays sound, with the legs at the end of its list, if they may follow in
        // turn.
        ensures added { OnOk result (Grows Self.Listed self.old self.new legs.now) }
        // A sound index refuses legs that may follow only for want of memory or of the store. An
        // error leaves it spent.
        ensures refusals { LegRefusals Self.Listed self.old self.new legs.now result }
        // A marked index stays marked, on an error too.
        ensures marked { Self.is_marked self.old → Self.is_marked self.new }
        // Its shape stays, and no count falls.
        ensures later { IsLater Self.Listed self.old self.new };

    /// The legs whose box meets a box, each once, in accepted order.
    fn search(&mut self, query: &Box3) -> Result<Vec<Leg>, IndexFault>
        // A sound index returns exactly the legs of its list whose boxes meet, in order.
        ensures found { IfOk result (λ legs. Self.is_sound self.old
            → legs.items ≡ legs_in_box query.now (Self.content self.old)) }
        // Any index returns what its pages say. A page that it names was met, and is not what it
        // has to be.
        ensures told { MatchResult result (λ legs. Self.tells self.old (InBox query.now) legs.items)
            (λ fault. Denies Self.Listed self.old (InBox query.now) fault) }
        // A sound index asks for exactly as many pages as the list of legs gives.
        ensures asks { OnOk result (Asks Self.Listed self.old self.new (search_cost query.now)) }
        // The list stays, and a sound index stays sound. If no page was changed, none is changed or
        // written.
        ensures leaves { Leaves Self.Listed self.old self.new }
        // A sound index fails only if memory runs out or the store fails, and a spent one always.
        ensures refusals { Refusals Self.Listed self.old self.new result };

    /// The legs of a feature, in accepted order; none for a feature that is not there.
    fn track(&mut self, feature: u32) -> Result<Vec<Leg>, IndexFault>
        // A sound index returns exactly the feature's legs, in order.
        ensures found { IfOk result (λ legs. Self.is_sound self.old
            → legs.items ≡ legs_of feature (Self.content self.old)) }
        // Any index returns what its pages say. A page that it names was met, and is not what it
        // has to be.
        ensures told { MatchResult result
            (λ legs. Self.tells self.old (OfFeature feature None) legs.items)
            (λ fault. Denies Self.Listed self.old (OfFeature feature None) fault) }
        // A sound index asks for exactly as many pages as the list of legs gives.
        ensures asks { OnOk result (Asks Self.Listed self.old self.new (track_cost feature)) }
        // The list stays, and a sound index stays sound. If no page was changed, none is changed or
        // written.
        ensures leaves { Leaves Self.Listed self.old self.new }
        // A sound index fails only if memory runs out or the store fails, and a spent one always.
        ensures refusals { Refusals Self.Listed self.old self.new result };

    /// The legs of a feature that have a moment in a period, in accepted order; of these at least
    /// those that a sieve keeps. After it the index knows which of the feature's leaves meet a
    /// period that starts no earlier, and reads only these.
    fn track_in(
        &mut self,
        feature: u32,
        period: &Period,
        sieve: &Sieve,
    ) -> Result<Vec<Leg>, IndexFault>
        // A sound index returns the feature's legs that are live in the period and that the sieve
        // keeps, and perhaps other live ones.
        ensures found { IfOk result (λ legs. Self.is_sound self.old
            → IsSieved sieve.now period.now
            (live_legs_of feature period.now (Self.content self.old)) legs.items) }
        // Any index returns what its pages say. A page that it names was met, and is not what it
        // has to be.
        ensures told { MatchResult result
            (λ legs. TellsSieved Self.Listed self.old feature period.now sieve.now legs.items)
            (λ fault. Denies Self.Listed self.old (OfFeature feature (Some period.now)) fault) }
        // A sound index asks for at most one leaf more than those with a leg that ends no earlier
        // than the period starts.
        ensures asks { OnOk result (AsksAtMost Self.Listed self.old self.new
            (track_in_bound feature period.now)) }
        // The list stays, and a sound index stays sound. If no page was changed, none is changed or
        // written.
        ensures leaves { Leaves Self.Listed self.old self.new }
        // A sound index fails only if memory runs out or the store fails, and a spent one always.
        ensures refusals { Refusals Self.Listed self.old self.new result };

    /// A sound index is not spent.
    ghost sound_lasts: { (index : Self) → Self.is_sound index → Self.is_spent index ≡ false };

    /// A sound index over pages has a faithful store.
    ghost faithful: { (index : Self) → Self.is_sound index → Self.plan index ≢ None → Self.is_faithful index };

    /// All legs of a sound index are lawful.
    ghost lawful: { (index : Self) → Self.is_sound index → All IsLeg (Self.content index) };
}

impl<T: Drop> From<AllocFailed<T>> for IndexFault {
    ghost use Rattle.std.specs.Prelude.{◌≡◌};
    ghost use Rattle.legs.specs.declared.index.IndexFault.TheVariants.{Memory};

    ghost from_gives = { λ _ fault. fault ≡ Memory };

    fn from(_fault: AllocFailed<T>) -> IndexFault {
        IndexFault::Memory
    }
}

impl From<AllocError> for IndexFault {
    ghost use Rattle.std.specs.Prelude.{◌≡◌};
    ghost use Rattle.legs.specs.declared.index.IndexFault.TheVariants.{Memory};

    ghost from_gives = { λ _ fault. fault ≡ Memory };

    fn from(_fault: AllocError) -> IndexFault {
        IndexFault::Memory
    }
}
