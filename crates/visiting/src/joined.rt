//! Parts of features, joined: stays into visits, and visits into dwells.
ghost use Rattle.std.specs.Prelude.{◌≡◌, ◌<◌, ◌++◌, ◌∷◌, [], get_or, IfOk, length, MatchOption, ℕ, set, Some};
ghost use Rattle.std.specs.BTreeMap.{get};
ghost use Rattle.std.specs.Ordering.{nat_cmp};
ghost use Rattle.visiting.specs.Joining.{joined, joined_with};
ghost use Rattle.visiting.specs.Places.{last_place};

use std::alloc::{AllocError, Global};
use std::collections::BTreeMap;

/// What is joined of one part of a feature, or of several that go on with one another.
pub trait Joined<P>: Copy {
    ghost use Rattle.std.specs.Prelude.{ℕ, Bool, ◌≡◌};

    /// Its feature.
    ghost feature: { Self → ℕ };

    /// The feature of a part.
    ghost part_feature: { P → ℕ };

    /// What is joined of one part.
    ghost of: { P → Self };

    /// Whether a part of the same feature goes on with it.
    ghost goes_on: { Self → P → Bool };

    /// With a part more at its end.
    ghost with_part: { Self → P → Self };

    /// The feature of a part.
    fn feature_of(part: &P) -> u32
        ensures { result ≡ part_feature part.now };

    /// What is joined of one part.
    fn of(part: &P) -> Self
        ensures { result ≡ of part.now };

    /// Whether a part of the same feature goes on with it.
    fn goes_on(&self, part: &P) -> bool
        ensures { result ≡ goes_on self.now part.now };

    /// With a part more at its end.
    fn with_part(self, part: &P) -> Self
        ensures { result ≡ with_part self part.now };

    /// It has the feature of its parts.
    ghost begins: { (part : P) → feature (of part) ≡ part_feature part };

    /// It keeps its feature.
    ghost keeps: { (joined : Self) (part : P) → feature (with_part joined part) ≡ feature joined };
}

/// The place of what a part goes on with: the last one of its feature, if it does.
fn place_of<P, J: Joined<P>>(last: &BTreeMap<u32, usize>, all: &[J], part: &P) -> Option<usize>
    requires places { (f : ℕ) → get nat_cmp last.now f ≡ last_place J.feature f all.now }
    ensures { MatchOption result
        (joined_with J.feature J.part_feature J.of J.goes_on J.with_part all.now part.now
        ≡ all.now ++ J.of part.now ∷ [])
        (λ place. (place < length all.now)
        × (last_place J.feature (J.part_feature part.now) all.now ≡ Some place)
        × (joined_with J.feature J.part_feature J.of J.goes_on J.with_part all.now part.now
        ≡ set all.now place (J.with_part (get_or all.now place (J.of part.now)) part.now))) }
{
    let place = *last.get(&J::feature_of(part))?;
    if place < all.len() && all[place].goes_on(part) {
        Some(place)
    } else {
        None
    }
}

/// What is joined of parts, in the order of their first parts. A part goes on with the last one of its feature, or else
/// begins one.
pub fn joined_of<P, J: Joined<P>>(alloc: Global, parts: &[P]) -> Result<Vec<J>, AllocError>
    // Each part goes on with the last one of its feature, if it does, and else begins a new one.
    ensures { IfOk result (λ all. all.items
        ≡ joined J.feature J.part_feature J.of J.goes_on J.with_part parts.now) }
{
    let mut all: Vec<J> = Vec::new(alloc);
    let mut last = BTreeMap::new(alloc);
    for part in parts {
        match place_of::<P, J>(&last, &all, part) {
            Some(place) => all[place] = all[place].with_part(part),
            None => {
                last.insert(J::feature_of(part), all.len())?;
                all.push(J::of(part))?;
            }
        }
    }
    Ok(all)
}
