// Cached parts that are in no unit.
ghost use Rattle.std.specs.Prelude.{◌≡◌, filter};
ghost use Rattle.tx_bridge.specs.Strays.{is_beside};

use tx_tree::{Path, Tree};
use tx_units::Unit;
use tx_walk::Part;

/// A cached part that is in no unit.
#[derive(Drop)]
pub(crate) struct Stray {
    // The tree at its place.
    pub(crate) tree: Tree,
    // Its path is that in the document.
    pub(crate) part: Part,
}

// The unit's path, if it has one, doesn't begin with the place.
fn is_beside(unit: &Unit, place: &Path) -> bool
    ensures { result ≡ is_beside unit.now.path place.now }
{
    match &unit.path {
        None => true,
        Some(path) => !path.steps().starts_with(place.steps()),
    }
}

/// Drops those whose trees hold the unit's.
pub(crate) fn keep_beside(strays: &mut Vec<Stray>, unit: &Unit)
    ensures { strays.new.items ≡ filter (λ s. is_beside unit.now.path s.part.path) strays.old.items }
{
    strays.retain(|stray| is_beside(unit, &stray.part.path));
}
