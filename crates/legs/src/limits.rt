//! The limits of a database.
ghost use Rattle.std.specs.Prelude.{◌≡◌, ◌↔◌, IsSome, IfSome};

use std::marker::Model;

/// The greatest limit.
const MOST: u64 = 1 << 31;

/// How many legs and how many features a database may have: each from 1 to 2^31.
#[derive(Clone, Copy, PartialEq, Eq, Debug)]
pub struct Limits {
    legs: u64,
    features: u32,
}

impl Model for Limits {
    ghost use Rattle.legs.specs.Limits.{LimitsView, IsLimits};

    ghost Value = { LimitsView };

    ghost view = { λ a. record { legs = a.legs; features = a.features } };

    ghost invariant = { λ a. IsLimits (record { legs = a.legs; features = a.features }) };

    ghost inverse = { λ v. record { legs = v.legs; features = v.features } };
}

impl Limits {
    ghost use Rattle.std.specs.Prelude.{◌≡◌, ◌↔◌, IsSome, IfSome};
    ghost use Rattle.legs.specs.Limits.{IsLimits, limits_of};

    /// Limits of that many legs and features; `None` where one of them is 0 or above 2^31.
    pub fn new(legs: u64, features: u32) -> Option<Limits>
        // There are such limits exactly if both numbers are in range.
        ensures some { IsSome result ↔ IsLimits (limits_of legs features) }
        // They are these numbers.
        ensures value { IfSome result (λ limits. limits ≡ limits_of legs features) }
    {
        if legs == 0 || legs > MOST || features == 0 || u64::from(features) > MOST {
            return None;
        }
        Some(Limits { legs, features })
    }

    /// How many legs there may be.
    pub fn legs(self) -> u64
        // It is the limit of legs.
        ensures value { result ≡ self.legs }
        // Both limits are in range.
        ensures limits { IsLimits self }
    {
        self.legs
    }

    /// How many features there may be.
    pub fn features(self) -> u32
        // It is the limit of features.
        ensures value { result ≡ self.features }
        // Both limits are in range.
        ensures limits { IsLimits self }
    {
        self.features
    }
}
