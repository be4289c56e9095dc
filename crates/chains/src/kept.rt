//! What is taken of the legs of one leaf. Each of these answers whether it was one: of a leaf that is one, it was.
ghost use Rattle.std.specs.Prelude.{suc, ◌≡◌, ◌<◌, ◌≤◌, ◌++◌, ◌∷◌, ◌&&◌, [], Some, None, drop, filter, length, reverse, slice_get, take, IfOk, IsTrue};
ghost use Rattle.legs.specs.Legs.{LegView, is_live};
ghost use Rattle.legs.specs.declared.sieve.Sieve.{Sieve};
ghost use Rattle.tbnode.specs.Form.{OfLeaf};
ghost use Rattle.chains.specs.Taking.{HasTaken, IsFirstLive, IsLastLive, PutsSome, is_wanted};
ghost use Rattle.chains.specs.Links.{is_kept};

use legs::{Leg, Sieve};
use pages::Payload;
use std::alloc::AllocError;
use tbnode::UntestedLeaf;
use timebase::Period;

/// What is wanted of a chain: its legs that are live in the period, or of these what the sieve keeps; all its legs,
/// where there is no period.
#[derive(Clone, Copy)]
pub(crate) struct Want {
    pub(crate) period: Option<Period>,
    pub(crate) sieve: Sieve,
}

/// Makes room for as many legs more.
fn make_room(found: &mut Vec<Leg>, more: usize) -> Result<(), AllocError>
    ensures { found.new.items ≡ found.old.items }
{
    found.reserve(more)
}

/// Puts leg `i` of a leaf behind the others.
fn push_leg(leaf: &UntestedLeaf<'_>, i: usize, found: &mut Vec<Leg>) -> Result<bool, AllocError>
    ensures { OfLeaf leaf.now (λ view. (leg : LegView) → slice_get view.legs i ≡ Some leg
        → IfOk result (λ whole. IsTrue whole
        × (found.new.items ≡ found.old.items ++ leg ∷ []))) }
{
    match leaf.leg(i) {
        Some(leg) => {
            found.push(leg)?;
            Ok(true)
        }
        None => Ok(false),
    }
}

/// Puts all legs of a leaf behind the others, the last one first.
fn push_each(leaf: &UntestedLeaf<'_>, found: &mut Vec<Leg>) -> Result<bool, AllocError>
    ensures { OfLeaf leaf.now (λ view. IfOk result (λ whole. IsTrue whole
        × (found.new.items ≡ found.old.items ++ reverse view.legs))) }
{
    let mut i = leaf.len();
    'legs: while i > 0 {
        i -= 1;
        if !push_leg(leaf, i, found)? {
            return Ok(false);
        }
    }
    Ok(true)
}

/// The same, with room for them made before.
fn push_all(leaf: &UntestedLeaf<'_>, found: &mut Vec<Leg>) -> Result<bool, AllocError>
    ensures { OfLeaf leaf.now (λ view. (sieve : Sieve) → IfOk result (λ whole. IsTrue whole
        × HasTaken None sieve (filter (is_kept None) view.legs) found.old.items
        found.new.items)) }
{
    make_room(found, leaf.len())?;
    push_each(leaf, found)
}

/// The first leg of a leaf that is live in a period.
fn first_live(leaf: &UntestedLeaf<'_>, period: &Period) -> Option<usize>
    ensures { OfLeaf leaf.now (λ view. IsFirstLive period.now view.legs result) }
{
    let len = leaf.len();
    let mut i = 0;
    'legs: while i < len {
        if leaf.is_live(i, period) {
            return Some(i);
        }
        i += 1;
    }
    None
}

/// The last leg of a leaf that is live in a period.
fn last_live(leaf: &UntestedLeaf<'_>, period: &Period) -> Option<usize>
    ensures { OfLeaf leaf.now (λ view. IsLastLive period.now view.legs result) }
{
    let mut i = leaf.len();
    'legs: while i > 0 {
        i -= 1;
        if leaf.is_live(i, period) {
            return Some(i);
        }
    }
    None
}

/// Whether leg `i` of a leaf is live in a period, and wanted between the first and the last one that is.
fn is_wanted(leaf: &UntestedLeaf<'_>, i: usize, period: &Period, sieve: &Sieve) -> bool
    ensures { OfLeaf leaf.now (λ view. (leg : LegView) → slice_get view.legs i ≡ Some leg
        → result ≡ (is_live period.now leg && is_wanted sieve.now leg)) }
{
    match sieve {
        Sieve::All => leaf.is_live(i, period),
        Sieve::Ends => false,
        Sieve::Near(rect) => leaf.is_live(i, period) && leaf.is_near(i, rect),
    }
}

/// Puts what is wanted of the live legs between two behind the others, the last one first.
fn push_wanted(
    leaf: &UntestedLeaf<'_>,
    ends: (usize, usize),
    period: &Period,
    sieve: &Sieve,
    found: &mut Vec<Leg>,
) -> Result<bool, AllocError>
    requires { ends.0 < ends.1 }
    ensures { OfLeaf leaf.now (λ view. ends.1 ≤ length view.legs
        → IfOk result (λ whole. IsTrue whole × PutsSome sieve.now period.now
        (filter (is_live period.now) (drop (suc ends.0) (take ends.1 view.legs)))
        found.old.items found.new.items)) }
{
    let mut i = ends.1;
    'legs: while i > ends.0 + 1 {
        i -= 1;
        if is_wanted(leaf, i, period, sieve) {
            if !push_leg(leaf, i, found)? {
                return Ok(false);
            }
        }
    }
    Ok(true)
}

/// Puts what a sieve keeps of the live legs between two behind the others, the last one first.
fn push_between(
    leaf: &UntestedLeaf<'_>,
    ends: (usize, usize),
    period: &Period,
    sieve: &Sieve,
    found: &mut Vec<Leg>,
) -> Result<bool, AllocError>
    requires { ends.0 < ends.1 }
    ensures { OfLeaf leaf.now (λ view. ends.1 ≤ length view.legs
        → IfOk result (λ whole. IsTrue whole × PutsSome sieve.now period.now
        (filter (is_live period.now) (drop (suc ends.0) (take ends.1 view.legs)))
        found.old.items found.new.items)) }
{
    match sieve {
        Sieve::Ends => Ok(true),
        _ => push_wanted(leaf, ends, period, sieve, found),
    }
}

/// Puts what a sieve keeps of the legs from one that is live to another, the first and the last one, behind the
/// others, the last one first.
fn push_from(
    leaf: &UntestedLeaf<'_>,
    ends: (usize, usize),
    period: &Period,
    sieve: &Sieve,
    found: &mut Vec<Leg>,
) -> Result<bool, AllocError>
    ensures { OfLeaf leaf.now (λ view. IsFirstLive period.now view.legs (Some ends.0)
        → IsLastLive period.now view.legs (Some ends.1)
        → IfOk result (λ whole. IsTrue whole × HasTaken (Some period.now) sieve.now
        (filter (is_kept (Some period.now)) view.legs) found.old.items found.new.items)) }
{
    if !push_leg(leaf, ends.1, found)? {
        return Ok(false);
    }
    if ends.0 >= ends.1 {
        return Ok(true);
    }
    if !push_between(leaf, ends, period, sieve, found)? {
        return Ok(false);
    }
    push_leg(leaf, ends.0, found)
}

/// Puts what a sieve keeps of the legs of a leaf that are live in a period behind the others, the last one first.
fn push_live(
    leaf: &UntestedLeaf<'_>,
    period: &Period,
    sieve: &Sieve,
    found: &mut Vec<Leg>,
) -> Result<bool, AllocError>
    ensures { OfLeaf leaf.now (λ view. IfOk result (λ whole. IsTrue whole
        × HasTaken (Some period.now) sieve.now
        (filter (is_kept (Some period.now)) view.legs) found.old.items found.new.items)) }
{
    let Some(last) = last_live(leaf, period) else {
        return Ok(true);
    };
    let Some(first) = first_live(leaf, period) else {
        return Ok(true);
    };
    push_from(leaf, (first, last), period, sieve, found)
}

/// Takes of the legs of a leaf what is wanted: they are put behind the others, the last one first. No other leg is
/// decoded.
pub(crate) fn take_of(
    leaf: &UntestedLeaf<'_>,
    want: &Want,
    found: &mut Vec<Leg>,
) -> Result<bool, AllocError>
    ensures { OfLeaf leaf.now (λ view. IfOk result (λ whole. IsTrue whole
        × HasTaken want.now.period want.now.sieve
        (filter (is_kept want.now.period) view.legs) found.old.items found.new.items)) }
{
    match &want.period {
        Some(period) => push_live(leaf, period, &want.sieve, found),
        None => push_all(leaf, found),
    }
}

/// The same of a payload.
pub(crate) fn take_legs(
    payload: &Payload,
    want: &Want,
    found: &mut Vec<Leg>,
) -> Result<bool, AllocError>
    ensures { OfLeaf payload.now (λ view. IfOk result (λ whole. IsTrue whole
        × HasTaken want.now.period want.now.sieve
        (filter (is_kept want.now.period) view.legs) found.old.items found.new.items)) }
{
    match tbnode::untested(payload) {
        Some(leaf) => take_of(&leaf, want, found),
        None => Ok(false),
    }
}
