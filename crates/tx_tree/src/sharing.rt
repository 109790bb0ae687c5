// Lists of trees that share their parts.
ghost use Rattle.std.specs.Prelude.{◌≡◌, ◌++◌, IfOk, OnOk};

use crate::Memory;
use crate::trees::Tree;
use std::alloc::Global;

/// Adds shares of the trees at the end. After a fault some of them may be there.
pub fn share_onto(into: &mut Vec<Tree>, trees: &[Tree]) -> Result<(), Memory>
    ensures { OnOk result (into.new.items ≡ into.old.items ++ trees.now) }
{
    for tree in trees {
        into.push(tree.share()?)?;
    }
    Ok(())
}

/// A share of the tree, or none again.
pub fn share_tree(tree: &Option<Tree>) -> Result<Option<Tree>, Memory>
    ensures { IfOk result (λ t. t ≡ tree.now) }
{
    match tree {
        None => Ok(None),
        Some(tree) => Ok(Some(tree.share()?)),
    }
}

/// Shares of the trees, in their order.
pub fn shares(alloc: Global, trees: &[Tree]) -> Result<Vec<Tree>, Memory>
    ensures { IfOk result (λ v. v.items ≡ trees.now) }
{
    let mut all = Vec::new(alloc);
    share_onto(&mut all, trees)?;
    Ok(all)
}
