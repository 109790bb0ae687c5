// Children with their origins.
ghost use Rattle.std.specs.Prelude.{◌≡◌, ◌<◌, Some, IfOk, length, slice_get};
ghost use Rattle.tx_origin.specs.TaggedTrees.{tagged_of, kids_of};

use std::alloc::Global;
use tx_base::Memory;
use tx_origin::Tagged;

/// The child of this number with its origin.
#[tactic(auto, using(crate::proofs::Kids::past_none, std::proofs::lemmas::Grind::common_steps))]
pub(crate) fn kid(alloc: Global, t: &Tagged, i: u32) -> Result<Tagged, Memory>
    requires { i < length (kids_of (tagged_of t.now)) }
    ensures { IfOk result (λ u. slice_get (kids_of (tagged_of t.now)) i ≡ Some (tagged_of u)) }
{
    match t.child(alloc, i)? {
        None => unreachable!(),
        Some(kid) => Ok(kid),
    }
}
