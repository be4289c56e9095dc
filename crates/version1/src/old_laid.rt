//! A leg of version 1 in 64 bytes.
ghost use Rattle.std.specs.Prelude.{◌≡◌, length, pos, IsTrue};
ghost use Rattle.tbnode.specs.Layout.{has_moments, has_start, has_end};
ghost use Rattle.version1.specs.OldForm.{old_leg_of, is_old_leg};

use fixedpoint::Coord;
use legs::Leg;
use tbnode::fields::{i64_at, u32_at, u64_at};
use tbnode::{coord_at, has_coord, moment_at};
use timebase::Ms;

/// Whether 64 bytes begin with an ordinal and two moments that rise.
#[tactic(auto, unfolding(crate::specs::OldForm::old_leg_of, tbnode::specs::Layout::has_moments))]
fn has_old_moments(bytes: &[u8]) -> bool
    requires { length bytes.now ≡ 64 }
    ensures { result ≡ has_moments (old_leg_of 0 bytes.now) }
{
    let (t0, t1) = (i64_at(bytes, 8), i64_at(bytes, 16));
    t0 < t1 && Ms::new(t0).is_some() && Ms::new(t1).is_some()
}

#[tactic(auto, unfolding(crate::specs::OldForm::old_leg_of, tbnode::specs::Layout::has_start))]
fn has_old_start(bytes: &[u8]) -> bool
    requires { length bytes.now ≡ 64 }
    ensures { result ≡ has_start (old_leg_of 0 bytes.now) }
{
    has_coord(bytes, 24) && has_coord(bytes, 32)
}

#[tactic(auto, unfolding(crate::specs::OldForm::old_leg_of, tbnode::specs::Layout::has_end))]
fn has_old_end(bytes: &[u8]) -> bool
    requires { length bytes.now ≡ 64 }
    ensures { result ≡ has_end (old_leg_of 0 bytes.now) }
{
    has_coord(bytes, 40) && has_coord(bytes, 48)
}

/// Whether 64 bytes say a lawful leg.
#[tactic(auto, unfolding(crate::specs::OldForm::is_old_leg))]
pub(crate) fn is_old_leg(bytes: &[u8]) -> bool
    requires { length bytes.now ≡ 64 }
    ensures { result ≡ is_old_leg bytes.now }
{
    has_old_moments(bytes) && has_old_start(bytes) && has_old_end(bytes) && u32_at(bytes, 60) == 0
}

/// The ordinal of the leg that 64 bytes say.
#[tactic(auto, unfolding(crate::specs::OldForm::old_leg_of))]
pub(crate) fn old_ordinal_in(bytes: &[u8]) -> u64
    requires { length bytes.now ≡ 64 }
    ensures { result ≡ (old_leg_of 0 bytes.now).ordinal }
{
    u64_at(bytes, 0)
}

/// The height of each end of a leg.
fn zero_height() -> Coord
    ensures { result ≡ pos 0 }
{
    Coord::new(0).unwrap()
}

/// The leg of a feature that 64 bytes say.
#[tactic(auto, using(crate::proofs::OldFormLemmas::laws), unfolding(crate::specs::OldForm::old_leg_of))]
pub(crate) fn old_leg_in(bytes: &[u8], feature: u32) -> Leg
    requires len { length bytes.now ≡ 64 }
    requires lawful { IsTrue (is_old_leg bytes.now) }
    ensures { result ≡ old_leg_of feature bytes.now }
{
    Leg {
        ordinal: u64_at(bytes, 0),
        feature,
        row: u32_at(bytes, 56),
        t0: moment_at(bytes, 8),
        t1: moment_at(bytes, 16),
        x0: coord_at(bytes, 24),
        y0: coord_at(bytes, 32),
        z0: zero_height(),
        x1: coord_at(bytes, 40),
        y1: coord_at(bytes, 48),
        z1: zero_height(),
    }
}
