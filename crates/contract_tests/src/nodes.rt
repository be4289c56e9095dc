//! A leg that is pushed is the last one of its leaf.
ghost use Rattle.std.specs.Prelude.{◌≡◌, IsSome, option_map};
ghost use Rattle.std.specs.Option.{ForSome};
ghost use Rattle.tbnode.specs.Nodes.{as_leaf};
ghost use Rattle.tbnode.specs.Form.{node_of};
ghost use Rattle.tbnode.specs.Edits.{TakesLeg, leaf_with_leg};

use legs::Leg;
use pages::Payload;

/// Puts a leg at the end of a leaf that takes it.
///
/// Wrong bodies: the leg is forgotten.
pub fn push_leg(payload: &mut Payload, leg: &Leg)
    requires leaf { IsSome (as_leaf (node_of payload.old)) }
    requires takes { ForSome (as_leaf (node_of payload.old)) (λ leaf. TakesLeg leaf leg.now) }
    ensures node { node_of payload.new
        ≡ option_map (leaf_with_leg leg.now) (as_leaf (node_of payload.old)) }
{
    tbnode::push_leg(payload, leg);
}
