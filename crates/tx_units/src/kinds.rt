// A unit, and what it is of.
ghost use Rattle.std.specs.Prelude.{◌≡◌, IfOk};
ghost use Rattle.tx_units.specs.Units.{unit, body_unit};

use std::alloc::Global;
use tx_base::Memory;
use tx_origin::{Ip, Tagged, share_origin};
use tx_tree::{Path, Tree};

/// Where a unit comes from.
#[derive(Clone, Copy, Debug, PartialEq, Eq)]
pub enum UnitKind {
    /// The base style.
    Base,
    /// The loaded style in the buffer of this number, from 1 on.
    Style(u32),
    /// A style that the document names and that isn't loaded.
    Absent,
    /// An entry of the document's initial environment.
    Initial,
    /// A paragraph of the document's body.
    Body,
}

/// A tree that is evaluated by itself, after the units before it. It needs no memory of its own: its tree is shared,
/// and a path of up to six numbers is stored inline.
#[derive(Drop)]
pub struct Unit {
    /// Where it comes from.
    pub kind: UnitKind,
    /// Its tree. At a paragraph of the body the root is the origin, and no other unit has one.
    pub tagged: Tagged,
    /// The path of a paragraph of the body in the document's tree. No other unit has one.
    pub path: Option<Path>,
}

impl Unit {
    /// A unit that is no paragraph of the body.
    pub(crate) fn new(kind: UnitKind, tree: Tree) -> Unit
        ensures { result ≡ unit kind tree }
    {
        Unit {
            kind,
            tagged: Tagged { tree, at: None },
            path: None,
        }
    }

    /// The paragraph of the body that is at this path.
    pub(crate) fn of_body(tree: Tree, path: Path) -> Unit
        ensures { result ≡ body_unit tree path }
    {
        Unit {
            kind: UnitKind::Body,
            tagged: Tagged {
                tree,
                at: Some(Ip::root()),
            },
            path: Some(path),
        }
    }

    /// A copy of the unit, which shares its tree.
    pub fn share(&self, alloc: Global) -> Result<Unit, Memory>
        ensures { IfOk result (λ u. u ≡ self.now) }
    {
        Ok(Unit {
            kind: self.kind,
            tagged: Tagged {
                tree: self.tagged.tree.share()?,
                at: share_origin(&self.tagged.at)?,
            },
            path: self.copy_path(alloc)?,
        })
    }

    /// A copy of its path, if it has one.
    pub fn copy_path(&self, alloc: Global) -> Result<Option<Path>, Memory>
        ensures { IfOk result (λ p. p ≡ self.now.path) }
    {
        match &self.path {
            None => Ok(None),
            Some(path) => Ok(Some(path.copy(alloc)?)),
        }
    }
}
