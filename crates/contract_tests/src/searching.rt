//! Which legs an index answers.
ghost use Rattle.std.specs.Prelude.{◌≡◌, IfOk};
ghost use Rattle.legs.specs.Index.{legs_in_box};

use legs::{Box3, IndexFault, Leg, LegIndex};

/// A search: the legs whose boxes meet the query, in the order in which they were accepted.
///
/// Wrong bodies: legs come in another order, or not at all.
pub fn search<I: LegIndex>(index: &mut I, query: &Box3) -> Result<Vec<Leg>, IndexFault>
    ensures found { IfOk result (λ legs. I.is_sound index.old
        → legs.items ≡ legs_in_box query.now (I.content index.old)) }
{
    index.search(query)
}
