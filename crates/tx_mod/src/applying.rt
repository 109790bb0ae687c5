// Whether a modification makes something of a tree, what it makes, and what undoes it.
ghost use Rattle.std.specs.Prelude.{◌≡◌, ◌≤◌, ◌+◌, length, Ok, Err, Some, IsOk, IfOk, OnOk, IfErr};
ghost use Rattle.tx_tree.specs.Paths.{subtree};
ghost use Rattle.tx_mod.specs.Mods.{path_of};
ghost use Rattle.tx_mod.specs.Changes.{changed, IsRefusal};
ghost use Rattle.tx_mod.specs.Inverses.{inverse_of};

use crate::faults::{ApplyFault, ModFault};
use crate::making::rebuilt;
use crate::measures::measured;
use crate::mods::Mod;
use crate::remaking::remade;
use crate::undoing::undone;
use crate::walks::{depth_with, find};
use std::alloc::Global;
use std::sync::ledger::Ledger;
use tx_base::{Memory, Steps};
use tx_tree::{MOST_ARITY, MOST_DEPTH, MOST_SIZE, MOST_TEXT, Tree};

/// Whether the modification makes a tree within the limits of this one, and if not, the first cause why.
pub fn applicable(t: &Tree, m: &Mod) -> Result<(), ModFault>
    ensures ok { OnOk result (IsOk (changed m.now t.now)) }
    ensures refused { IfErr result (λ cause. changed m.now t.now ≡ Err cause) }
{
    let whole = t.size();
    let path = m.path();
    let s = find(t, path)?;
    let made = measured(s, m)?;
    if made.text > MOST_TEXT as u64 {
        return Err(ModFault::TooLong(made.text));
    }
    if made.arity > MOST_ARITY as u64 {
        return Err(ModFault::TooWide(made.arity));
    }
    let depth = depth_with(t, path, made.depth);
    if depth > u64::from(MOST_DEPTH) {
        return Err(ModFault::TooDeep(depth));
    }
    let size = whole - s.size() + made.size;
    if size > MOST_SIZE {
        return Err(ModFault::TooBig(size));
    }
    Ok(())
}

#[tactic(auto, using(crate::proofs::Whole::change_rules))]
// The changed tree, from the subtree that is changed.
fn applied_at<L: Ledger>(
    alloc: Global,
    t: &Tree,
    s: &Tree,
    m: &Mod,
    steps: &mut Steps<L>,
) -> Result<Tree, Memory>
    requires there { subtree t.now (path_of m.now) ≡ Some s.now }
    requires applies { IsOk (changed m.now t.now) }
    ensures made { IfOk result (λ u. changed m.now t.now ≡ Ok u) }
    ensures counted { steps.new ≤ steps.old + (length (path_of m.now) + 3) }
{
    let new = remade(alloc, s, m, steps)?;
    rebuilt(alloc, t, m.path().steps(), new, steps)
}

#[tactic(auto, using(crate::proofs::Whole::no_change, std::proofs::lemmas::Grind::common_steps))]
/// The changed tree, or the first cause why there is none. Each subtree off the path is shared with the tree, which is
/// unchanged. It takes at most the path's length and three steps.
pub fn apply<L: Ledger>(
    alloc: Global,
    t: &Tree,
    m: &Mod,
    steps: &mut Steps<L>,
) -> Result<Tree, ApplyFault>
    ensures ok { IfOk result (λ u. changed m.now t.now ≡ Ok u) }
    ensures refused { IfErr result (IsRefusal (changed m.now t.now)) }
    ensures counted { steps.new ≤ steps.old + (length (path_of m.now) + 3) }
{
    applicable(t, m)?;
    let Some(s) = t.at(m.path()) else {
        unreachable!();
    };
    Ok(applied_at(alloc, t, s, m, steps)?)
}

#[tactic(auto, using(crate::proofs::Whole::inverse_rules))]
/// The modification that gives this tree back from the changed one. It is refused as `apply` is, and takes at most one
/// step.
pub fn inverse<L: Ledger>(
    alloc: Global,
    t: &Tree,
    m: &Mod,
    steps: &mut Steps<L>,
) -> Result<Mod, ApplyFault>
    ensures ok { IfOk result (λ n. n ≡ inverse_of m.now t.now) }
    ensures applies { OnOk result (IsOk (changed m.now t.now)) }
    ensures refused { IfErr result (IsRefusal (changed m.now t.now)) }
    ensures counted { steps.new ≤ steps.old + 1 }
{
    applicable(t, m)?;
    let Some(s) = t.at(m.path()) else {
        unreachable!();
    };
    Ok(undone(alloc, s, m, steps)?)
}

#[tactic(auto, using(crate::proofs::Whole::inverse_rules))]
/// The changed tree, and the modification that gives this one back, or the first cause why there is none. It takes at
/// most the path's length and four steps, and looks once at whether the modification applies.
pub fn apply_and_inverse<L: Ledger>(
    alloc: Global,
    t: &Tree,
    m: &Mod,
    steps: &mut Steps<L>,
) -> Result<(Tree, Mod), ApplyFault>
    ensures ok { IfOk result (λ r. changed m.now t.now ≡ Ok r.0) }
    ensures inverse { IfOk result (λ r. r.1 ≡ inverse_of m.now t.now) }
    ensures refused { IfErr result (IsRefusal (changed m.now t.now)) }
    ensures counted { steps.new ≤ steps.old + (length (path_of m.now) + 4) }
{
    applicable(t, m)?;
    let Some(s) = t.at(m.path()) else {
        unreachable!();
    };
    let inverse = undone(alloc, s, m, steps)?;
    let tree = applied_at(alloc, t, s, m, steps)?;
    Ok((tree, inverse))
}
