//! Which legs a predicate looks at.
ghost use Rattle.std.specs.Prelude.{List, ◌≡◌, ◌↔◌};
ghost use Rattle.timebase.specs.Period.{PeriodView};
ghost use Rattle.legs.specs.Legs.{LegView};
ghost use Rattle.legs.specs.Sieves.{IsSieved};
ghost use Rattle.predicates.specs.Near.{sieve_of};
ghost use Rattle.predicates.specs.Predicates.{Holds};

use crate::Predicate;
use legs::{Rect, Sieve};

/// What is to be kept of legs for a predicate with a rectangle, over any period: it holds for what is kept exactly
/// where it holds for all of them. `Enters` and `Leaves` look at the first and the last leg alone; the others but
/// `Always` do not look at legs between them that are off the rectangle.
pub fn sieve(predicate: Predicate, rect: &Rect) -> Sieve
    // It is `Ends` for `Enters` and `Leaves`, `All` for `Always`, and else `Near` the rectangle.
    ensures value { result ≡ sieve_of predicate rect.now }
    // The predicate holds of what the sieve keeps exactly if it holds of all legs.
    ensures kept { (all some : List LegView) (period : PeriodView)
        → IsSieved result period all some
        → Holds predicate some rect.now period ↔ Holds predicate all rect.now period }
{
    match predicate {
        Predicate::Always => Sieve::All,
        Predicate::Enters | Predicate::Leaves => Sieve::Ends,
        _ => Sieve::Near(*rect),
    }
}
