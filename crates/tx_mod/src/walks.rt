// Ways down to the subtree that is changed.
ghost use Rattle.std.specs.Prelude.{◌≡◌, ◌≤◌, Some, None, MatchResult, IsSome, slice_get, length};
ghost use Rattle.tx_tree.specs.Paths.{subtree, leading};
ghost use Rattle.tx_tree.specs.WideTree.{WideTree, depth_of};
ghost use Rattle.tx_mod.specs.Mods.{replaced};

use crate::faults::ModFault;
use crate::measures::deepest;
use tx_tree::{Path, Tree};

// The subtree that the path leads to.
pub(crate) fn find<'a>(t: &'a Tree, path: &Path) -> Result<&'a Tree, ModFault>
    ensures { MatchResult result (λ s. subtree t.now path.now ≡ Some s.now)
        (λ cause. (subtree t.now path.now ≡ None) × (cause ≡ ModFault.NoPath (leading t.now path.now))) }
{
    let _depth = t.depth();
    let mut tree = t;
    for (k, step) in path.steps().iter().enumerate() {
        match tree.child(*step) {
            Some(child) => tree = child,
            None => return Err(ModFault::NoPath(k as u32)),
        }
    }
    Ok(tree)
}

// The depth of the tree with another subtree of this depth where the path leads.
pub(crate) fn depth_with(t: &Tree, path: &Path, depth: u64) -> u64
    requires leads { IsSome (subtree t.now path.now) }
    requires shallow { depth ≤ 1000 }
    ensures { (v : WideTree) → depth_of v ≡ depth → depth_of (replaced t.now path.now v) ≡ result }
{
    let _depth = t.depth();
    let steps = path.steps();
    let mut tree = t;
    let mut beside = 0;
    for (k, step) in steps.iter().enumerate() {
        let children = tree.children();
        let Some(child) = tree.child(*step) else {
            unreachable!();
        };
        let aside = deepest(&children[..*step as usize]).max(deepest(
            &children[*step as usize + 1..],
        ));
        beside = (k as u64 + 1 + u64::from(aside)).max(beside);
        tree = child;
    }
    (steps.len() as u64 + depth).max(beside)
}
