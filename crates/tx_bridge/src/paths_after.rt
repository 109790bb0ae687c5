// Where subtrees are after modifications.
ghost use Rattle.std.specs.Prelude.{◌≡◌, ◌≤◌, ◌+◌, length, map, IfOk, IsOk, OnOk, Ok, Some};
ghost use Rattle.std.specs.Prelude.{option_and_then};
ghost use Rattle.tx_tree.specs.WideTree.{WideTree};
ghost use Rattle.tx_mod.specs.Mods.{path_of};
ghost use Rattle.tx_mod.specs.Changes.{changed};
ghost use Rattle.tx_mod.specs.Moves.{carried_path};
ghost use Rattle.tx_mod.specs.InTurn.{cost_of};
ghost use Rattle.tx_mod.specs.Followed.{changed_by_all};
ghost use Rattle.tx_bridge.specs.Carrying.{through, Leads, AllLead};

use std::alloc::Global;
use std::sync::ledger::Ledger;
use tx_base::{Memory, Steps};
use tx_mod::{ApplyFault, Mod, apply, carried, carried_law};
use tx_tree::{Path, Tree};

fn path_behind(
    alloc: Global,
    t: &Tree,
    m: &Mod,
    path: &Option<Path>,
) -> Result<Option<Path>, Memory>
    requires applies { IsOk (changed m.now t.now) }
    requires leads { Leads t.now path.now }
    ensures { IfOk result (λ q. q ≡ option_and_then (carried_path m.now t.now) path.now) }
{
    match path {
        None => Ok(None),
        Some(path) => carried(alloc, t, m, path),
    }
}

fn paths_behind(
    alloc: Global,
    t: &Tree,
    m: &Mod,
    paths: &[Option<Path>],
) -> Result<Vec<Option<Path>>, Memory>
    requires applies { IsOk (changed m.now t.now) }
    requires lead { AllLead t.now paths.now }
    ensures { IfOk result (λ v. v.items ≡ map (option_and_then (carried_path m.now t.now)) paths.now) }
{
    let mut behind = Vec::with_capacity(alloc, paths.len())?;
    for path in paths {
        behind.push(path_behind(alloc, t, m, path)?)?;
    }
    Ok(behind)
}

pub(crate) fn tree_behind<L: Ledger>(
    alloc: Global,
    t: &Tree,
    m: &Mod,
    steps: &mut Steps<L>,
) -> Result<Tree, Memory>
    requires { IsOk (changed m.now t.now) }
    ensures ok { IfOk result (λ u. changed m.now t.now ≡ Ok u) }
    ensures counted { steps.new ≤ steps.old + (length (path_of m.now) + 3) }
{
    match apply(alloc, t, m, steps) {
        Ok(tree) => Ok(tree),
        Err(ApplyFault::Memory) => Err(Memory),
        Err(ApplyFault::Refused(_)) => unreachable!(),
    }
}

// Brings the paths through one modification, and the tree.
fn go_behind<L: Ledger>(
    alloc: Global,
    t: &mut Tree,
    m: &Mod,
    paths: &mut Vec<Option<Path>>,
    steps: &mut Steps<L>,
) -> Result<(), Memory>
    requires applies { IsOk (changed m.now t.old) }
    requires lead { AllLead t.old paths.old.items }
    ensures paths { OnOk result (paths.new.items ≡ map (option_and_then (carried_path m.now t.old)) paths.old.items) }
    ensures tree { OnOk result (changed m.now t.old ≡ Ok t.new) }
    ensures counted { steps.new ≤ steps.old + (length (path_of m.now) + 3) }
{
    let behind = paths_behind(alloc, t, m, paths)?;
    let tree = tree_behind(alloc, t, m, steps)?;
    *paths = behind;
    *t = tree;
    Ok(())
}

/// Where the subtrees at these paths are after all modifications, in the same order. None is for a path that is None,
/// and for a subtree that isn't carried. `before` is the tree before the first modification.
pub fn places_after<L: Ledger>(
    alloc: Global,
    before: &Tree,
    mods: &[Mod],
    paths: Vec<Option<Path>>,
    steps: &mut Steps<L>,
) -> Result<Vec<Option<Path>>, Memory>
    requires applies { (u : WideTree) × (changed_by_all mods.now before.now ≡ Some u) }
    requires lead { AllLead before.now paths.items }
    ensures ok { IfOk result (λ v. v.items ≡ map (through mods.now before.now) paths.items) }
    ensures counted { steps.new ≤ steps.old + cost_of mods.now }
{
    carried_law();
    let mut tree = before.share()?;
    let mut paths = paths;
    for m in mods {
        go_behind(alloc, &mut tree, m, &mut paths, steps)?;
    }
    Ok(paths)
}
