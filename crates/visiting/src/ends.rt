//! What a stay begins and ends by.
/// What a stay begins or ends by, the first of these that is so.
#[derive(Clone, Copy, PartialEq, Eq, Debug)]
pub enum End {
    /// The leg begins or ends there.
    Leg,
    /// The period does.
    Period,
    /// Neither: the leg meets an edge there.
    Edge,
}

impl End {
    ghost use Rattle.std.specs.Prelude.{◌≡◌, IsTrue};
    ghost use Rattle.visiting.specs.Ends.{IsEndOf, end_text};

    /// The end of a moment, by whether it is the leg's own end and whether it is the period's.
    pub fn by(is_leg: bool, is_period: bool) -> End
        ensures { IsEndOf (IsTrue is_leg) (IsTrue is_period) result }
    {
        if is_leg {
            End::Leg
        } else if is_period {
            End::Period
        } else {
            End::Edge
        }
    }

    /// The end as it is printed.
    pub fn as_str(self) -> &'static str
        ensures { result.now ≡ end_text self }
    {
        match self {
            End::Leg => "leg",
            End::Period => "period",
            End::Edge => "edge",
        }
    }
}
