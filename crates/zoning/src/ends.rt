//! What a stay begins and ends by.
ghost use Rattle.zoning.specs.Ends.{IsEndBy};

use crate::moment::Moment;
use timebase::Ms;
use visiting::End;

/// What a moment is, of a leg's own end and a period's.
pub(crate) fn end_by(moment: &Moment, leg: Ms, period: Ms) -> End
    ensures { IsEndBy moment.now leg period result }
{
    End::by(moment.is_at(leg), moment.is_at(period))
}
