// The trees that an edit goes through, and where a path leads along them.
ghost use Rattle.std.specs.Prelude.{◌≡◌, ◌≤◌, ◌+◌, ◌++◌, ◌∷◌, [], length, true, IfOk, IsOk, IsTrue, OnOk, Ok, Some};
ghost use Rattle.std.specs.Option.{IsSome};
ghost use Rattle.tx_tree.specs.Paths.{subtree};
ghost use Rattle.tx_tree.specs.WideTree.{WideTree};
ghost use Rattle.tx_mod.specs.Changes.{changed};
ghost use Rattle.tx_mod.specs.Followed.{changed_by_all, carried_by_all};
ghost use Rattle.tx_mod.specs.InTurn.{cost_of};
ghost use Rattle.tx_mod.specs.Mods.{path_of};
ghost use Rattle.tx_kept.specs.Carrying.{trees_before, is_beside, is_beside_all};

use std::alloc::Global;
use std::mem;
use std::sync::ledger::Ledger;
use tx_base::{Memory, Steps};
use tx_mod::{ApplyFault, Mod, apply, carried_law, carry_in_place, rest_behind};
use tx_tree::{Path, Tree};

fn tree_after<L: Ledger>(
    alloc: Global,
    t: &Tree,
    m: &Mod,
    steps: &mut Steps<L>,
) -> Result<Tree, Memory>
    requires { IsOk (changed m.now t.now) }
    ensures ok { IfOk result (λ u. changed m.now t.now ≡ Ok u) }
    ensures counted { steps.new ≤ steps.old + (length (path_of m.now) + 3) }
{
    match apply(alloc, t, m, steps) {
        Ok(tree) => Ok(tree),
        Err(ApplyFault::Memory) => Err(Memory),
        Err(ApplyFault::Refused(_)) => unreachable!(),
    }
}

// Applies the modification, and adds the tree before it.
fn pass<L: Ledger>(
    alloc: Global,
    tree: &mut Tree,
    m: &Mod,
    trees: &mut Vec<Tree>,
    steps: &mut Steps<L>,
) -> Result<(), Memory>
    requires { IsOk (changed m.now tree.old) }
    ensures tree { OnOk result (changed m.now tree.old ≡ Ok tree.new) }
    ensures trees { OnOk result (trees.new.items ≡ trees.old.items ++ tree.old ∷ []) }
    ensures counted { steps.new ≤ steps.old + (length (path_of m.now) + 3) }
{
    let next = tree_after(alloc, tree, m, steps)?;
    trees.push(mem::replace(tree, next))?;
    Ok(())
}

/// The tree before each modification, where all apply in turn. `PathMap::carry_along` takes them.
pub fn trees_before<L: Ledger>(
    alloc: Global,
    before: &Tree,
    mods: &[Mod],
    steps: &mut Steps<L>,
) -> Result<Vec<Tree>, Memory>
    requires { (u : WideTree) × (changed_by_all mods.now before.now ≡ Some u) }
    ensures trees { IfOk result (λ v. v.items ≡ trees_before mods.now before.now) }
    ensures counted { steps.new ≤ steps.old + cost_of mods.now }
{
    let mut trees = Vec::with_capacity(alloc, mods.len())?;
    let mut tree = before.share()?;
    for m in mods {
        pass(alloc, &mut tree, m, &mut trees, steps)?;
    }
    Ok(trees)
}

// Whether neither the path of the modification begins this one, nor the other way round.
fn is_beside(m: &Mod, path: &Path) -> bool
    ensures { result ≡ is_beside (path_of m.now) path.now }
{
    rest_behind(m.path().steps(), path.steps()).is_none()
        && rest_behind(path.steps(), m.path().steps()).is_none()
}

// Whether no modification touches what the path leads to.
pub(crate) fn is_beside_all(mods: &[Mod], path: &Path) -> bool
    ensures { IsTrue result → is_beside_all mods.now path.now ≡ true }
{
    for m in mods {
        if !is_beside(m, path) {
            return false;
        }
    }
    true
}

// Where the path leads after all modifications, or None for nowhere.
pub(crate) fn carried_along(
    alloc: Global,
    before: &Tree,
    mods: &[Mod],
    trees: &[Tree],
    path: &Path,
) -> Result<Option<Path>, Memory>
    requires applies { (u : WideTree) × (changed_by_all mods.now before.now ≡ Some u) }
    requires trees { trees.now ≡ trees_before mods.now before.now }
    requires leads { IsSome (subtree before.now path.now) }
    ensures { IfOk result (λ o. o ≡ carried_by_all mods.now before.now path.now) }
{
    carried_law();
    let mut place = path.copy(alloc)?;
    for i in 0..mods.len() {
        let m = &mods[i];
        let on = carry_in_place(alloc, &trees[i], m, &mut place)?;
        if !on {
            return Ok(None);
        }
    }
    Ok(Some(place))
}
