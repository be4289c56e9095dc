//! What a stay begins and ends by.
ghost use Rattle.std.specs.Prelude.{◌↔◌, ◌*ℤ◌, ◌≡◌, IsTrue, pos};
ghost use Rattle.moments.specs.Ends.{IsEndBy};

use crate::edges::Edges;
use crate::moment::Moment;
use timebase::Ms;

/// What a stay begins or ends by, the first of these that is so.
#[derive(Clone, Copy, PartialEq, Eq, Debug)]
pub enum End {
    /// The leg begins or ends there.
    Leg,
    /// The period does.
    Period,
    /// Neither: the leg meets these edges of the rectangle there.
    Edge(Edges),
}

impl End {
    ghost use Rattle.std.specs.Prelude.{◌≡◌};
    ghost use Rattle.moments.specs.Ends.{end_text, met_text};

    /// The end as it is printed.
    pub fn as_str(self) -> &'static str
        ensures { result.now ≡ end_text self }
    {
        match self {
            End::Leg => "leg",
            End::Period => "period",
            End::Edge(_) => "edge",
        }
    }

    /// The edges that are met there, as they are printed; empty where none is.
    pub fn met_edges(self) -> &'static str
        ensures { result.now ≡ met_text self }
    {
        match self {
            End::Leg => "",
            End::Period => "",
            End::Edge(edges) => edges.as_str(),
        }
    }
}

/// Whether a moment is a whole millisecond.
fn is_at(moment: Moment, at: Ms) -> bool
    ensures { IsTrue result ↔ (moment.num ≡ at *ℤ pos moment.den) }
{
    moment.num == at.millis() as i128 * moment.den as i128
}

/// What a moment is, of a leg's own end and a period's; else the leg meets these edges.
pub(crate) fn end_by(moment: Moment, leg: Ms, period: Ms, edges: Edges) -> End
    ensures { IsEndBy moment leg period result }
{
    if is_at(moment, leg) {
        End::Leg
    } else if is_at(moment, period) {
        End::Period
    } else {
        End::Edge(edges)
    }
}
