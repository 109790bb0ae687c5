// The eight kinds of modifications.
ghost use Rattle.std.specs.Prelude.{◌≡◌, IfOk};
ghost use Rattle.tx_mod.specs.Mods.{path_of};

use std::alloc::Global;
use tx_base::Memory;
use tx_tree::{Label, Path, Tree};

// The label of a node whose children are to be put among others.
pub(crate) const TUPLE: &[u8] = b"tuple";

/// A modification of a tree, at the subtree that its path leads to. Children and bytes are counted from 0.
#[derive(Drop)]
pub enum Mod {
    /// Puts the tree in place of the subtree.
    Assign(Path, Tree),
    /// Puts the text into a text, or the children of the `tuple` among children, before this place.
    Insert(Path, u32, Tree),
    /// Takes out from this place on so many bytes or children.
    Remove(Path, u32, u32),
    /// Makes two of this child, before and from this place of it.
    Split(Path, u32, u32),
    /// Makes one of this child and the next.
    Join(Path, u32),
    /// Gives the node this label.
    AssignNode(Path, Label),
    /// Puts the subtree into the node as this child, and the node in place of the subtree.
    InsertNode(Path, u32, Tree),
    /// Puts this child in place of the subtree.
    RemoveNode(Path, u32),
}

// The arms of `copy` that share a tree or a label.
fn assign_copy(alloc: Global, path: &Path, tree: &Tree) -> Result<Mod, Memory>
    ensures { IfOk result (λ m. m ≡ Mod.Assign path.now tree.now) }
{
    Ok(Mod::Assign(path.copy(alloc)?, tree.share()?))
}

fn insert_copy(alloc: Global, path: &Path, i: u32, tree: &Tree) -> Result<Mod, Memory>
    ensures { IfOk result (λ m. m ≡ Mod.Insert path.now i tree.now) }
{
    Ok(Mod::Insert(path.copy(alloc)?, i, tree.share()?))
}

fn assign_node_copy(alloc: Global, path: &Path, label: &Label) -> Result<Mod, Memory>
    ensures { IfOk result (λ m. m ≡ Mod.AssignNode path.now label.now) }
{
    Ok(Mod::AssignNode(path.copy(alloc)?, label.copy()?))
}

fn insert_node_copy(alloc: Global, path: &Path, i: u32, tree: &Tree) -> Result<Mod, Memory>
    ensures { IfOk result (λ m. m ≡ Mod.InsertNode path.now i tree.now) }
{
    Ok(Mod::InsertNode(path.copy(alloc)?, i, tree.share()?))
}

impl Mod {
    /// An equal modification, which shares trees and labels.
    pub fn copy(&self, alloc: Global) -> Result<Mod, Memory>
        ensures { IfOk result (λ m. m ≡ self.now) }
    {
        match self {
            Mod::Assign(path, tree) => assign_copy(alloc, path, tree),
            Mod::Insert(path, i, tree) => insert_copy(alloc, path, *i, tree),
            Mod::Remove(path, i, n) => Ok(Mod::Remove(path.copy(alloc)?, *i, *n)),
            Mod::Split(path, i, j) => Ok(Mod::Split(path.copy(alloc)?, *i, *j)),
            Mod::Join(path, i) => Ok(Mod::Join(path.copy(alloc)?, *i)),
            Mod::AssignNode(path, label) => assign_node_copy(alloc, path, label),
            Mod::InsertNode(path, i, tree) => insert_node_copy(alloc, path, *i, tree),
            Mod::RemoveNode(path, i) => Ok(Mod::RemoveNode(path.copy(alloc)?, *i)),
        }
    }

    /// The path to the subtree that is changed.
    pub fn path(&self) -> &Path
        ensures { result.now ≡ path_of self.now }
    {
        match self {
            Mod::Assign(path, _)
            | Mod::Insert(path, _, _)
            | Mod::Remove(path, _, _)
            | Mod::Split(path, _, _)
            | Mod::Join(path, _)
            | Mod::AssignNode(path, _)
            | Mod::InsertNode(path, _, _)
            | Mod::RemoveNode(path, _) => path,
        }
    }
}
