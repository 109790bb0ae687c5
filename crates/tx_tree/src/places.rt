// Places in a tree.
ghost use Rattle.std.specs.Prelude.{◌≡◌, IfOk, IfErr, OnOk, Some};
ghost use Rattle.tx_tree.specs.Places.{IsPlace, IsPlaceFault};

use crate::faults::PlaceFault;
use crate::paths::Path;
use crate::trees::Tree;
use std::alloc::Global;
use std::fmt;
use tx_base::Memory;

/// A path and an offset. At a leaf the offset is a number of bytes that ends between two items of the text. At a node
/// it is 0, before the node, or 1, after it.
#[derive(Drop)]
pub struct Place {
    /// The way from the root to the leaf or node.
    pub path: Path,
    /// Where it is there.
    pub offset: u32,
}

impl Place {
    /// Whether this is a place of the tree, and if not, why.
    pub fn check(&self, t: &Tree) -> Result<(), PlaceFault>
        ensures place { OnOk result (IsPlace t.now self.now.path self.now.offset) }
        ensures refused { IfErr result (IsPlaceFault t.now self.now.path self.now.offset) }
    {
        let _depth = t.depth();
        let mut tree = t;
        for (i, step) in self.path.steps().iter().enumerate() {
            match tree.child(*step) {
                Some(child) => tree = child,
                None => return Err(PlaceFault::NoPath(i as u32)),
            }
        }
        tree.check_offset(self.offset)
    }

    /// A copy of the place, with a path of its own.
    pub fn copy(&self, alloc: Global) -> Result<Place, Memory>
        ensures { IfOk result (λ p. p ≡ self.now) }
    {
        Ok(Place {
            path: self.path.copy(alloc)?,
            offset: self.offset,
        })
    }
}

impl fmt::Display for Place {
    ghost use Rattle.tx_tree.specs.PathSpelling.{place_text};

    ghost output = { λ p. Some (place_text p.path p.offset) };

    fn fmt<W: fmt::Write>(&self, f: &mut fmt::Formatter<W>) -> fmt::Result {
        for number in self.path.steps() {
            write!(f, "/{number}")?;
        }
        let offset = self.offset;
        write!(f, "/{offset}")
    }
}
