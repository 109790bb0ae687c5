// Whether a tree is gone into.
ghost use Rattle.std.specs.Prelude.{◌≡◌};
ghost use Rattle.tx_parts.specs.Openness.{openness};
ghost use Rattle.tx_walk.specs.Open.{is_open};

use crate::descent::{Descent, descent_of};
use tx_tree::Tree;

/// Whether the tree is gone into, so that it isn't a part itself.
pub fn is_open(t: &Tree) -> bool
    ensures { result ≡ is_open (openness t.now) }
{
    match descent_of(t) {
        Descent::Shut => false,
        _ => true,
    }
}
