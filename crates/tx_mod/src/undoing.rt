// What gives a subtree back that a modification changed.
ghost use Rattle.std.specs.Prelude.{◌≡◌, ◌+◌, ◌≤◌, Ok, IfOk, IsOkAnd, IsSome, unwrap_or, [], slice_get};
ghost use Rattle.tx_tree.specs.Limits.{IsWithinLimits};
ghost use Rattle.std.specs.Option.{option_map_or};
ghost use Rattle.tx_tree.specs.WideTree.{children_of, label_of};
ghost use Rattle.tx_mod.specs.Mods.{tuple, extent};
ghost use Rattle.tx_mod.specs.Changes.{changed_at, removed, unwrapped};
ghost use Rattle.tx_mod.specs.Inverses.{inverse_at, removed_part, without_child};

use crate::making::{leaf_of, node_of, spliced};
use crate::measures::extent;
use crate::mods::{Mod, TUPLE};
use crate::parts::{Parts, parts_of};
use std::alloc::Global;
use std::sync::ledger::Ledger;
use tx_base::{Memory, Steps};
use tx_tree::{Label, LabelFault, Path, Tree, shares};

// The label of what is put among children.
fn tuple_label(alloc: Global) -> Result<Label, Memory>
    ensures { IfOk result (λ l. l ≡ tuple) }
{
    match Label::new(alloc, TUPLE) {
        Ok(label) => Ok(label),
        Err(LabelFault::Memory) => Err(Memory),
        Err(LabelFault::BadLabel(_)) => unreachable!(),
    }
}

// What a removal takes out, as a text or as a tuple.
fn removed_part<L: Ledger>(
    alloc: Global,
    s: &Tree,
    i: u32,
    n: u32,
    steps: &mut Steps<L>,
) -> Result<Tree, Memory>
    requires { IsOkAnd (removed s.now i n) IsWithinLimits }
    ensures made { IfOk result (λ x. x ≡ removed_part s.now i n) }
    ensures counted { steps.new ≤ steps.old + 1 }
{
    let _size = s.size();
    let from = i as usize;
    let to = from + n as usize;
    match parts_of(s) {
        Parts::Leaf(text) => leaf_of(alloc, &text.bytes()[from..to]),
        Parts::Node(_, children) => {
            let label = tuple_label(alloc)?;
            let part = shares(alloc, &children[from..to])?;
            node_of(alloc, &label, part, steps)
        }
    }
}

// The node without its child i.
fn without_child<L: Ledger>(
    alloc: Global,
    s: &Tree,
    i: u32,
    steps: &mut Steps<L>,
) -> Result<Tree, Memory>
    requires { IsOkAnd (unwrapped s.now i) IsWithinLimits }
    ensures made { IfOk result (λ x. x ≡ without_child s.now i) }
    ensures counted { steps.new ≤ steps.old + 1 }
{
    let _size = s.size();
    let Parts::Node(label, children) = parts_of(s) else {
        unreachable!();
    };
    let i = i as usize;
    let all = spliced(alloc, children, i, i + 1, &[])?;
    node_of(alloc, label, all, steps)
}

// How far child i goes.
#[tactic(auto, using(crate::proofs::Undone::extent_small, std::proofs::lemmas::Grind::common_steps))]
fn child_extent(s: &Tree, i: u32) -> u32
    ensures { result ≡ option_map_or extent (slice_get (children_of s.now) i) 0 }
{
    match s.child(i) {
        Some(child) => {
            let _size = child.size();
            extent(child) as u32
        }
        None => 0,
    }
}

// The arms of `undone` that make or share a part.
fn assign_back(path: Path, s: &Tree) -> Result<Mod, Memory>
    ensures { IfOk result (λ n. n ≡ Mod.Assign path s.now) }
{
    Ok(Mod::Assign(path, s.share()?))
}

fn insert_back<L: Ledger>(
    alloc: Global,
    path: Path,
    s: &Tree,
    i: u32,
    n: u32,
    steps: &mut Steps<L>,
) -> Result<Mod, Memory>
    requires { IsOkAnd (removed s.now i n) IsWithinLimits }
    ensures made { IfOk result (λ m. m ≡ Mod.Insert path i (removed_part s.now i n)) }
    ensures counted { steps.new ≤ steps.old + 1 }
{
    Ok(Mod::Insert(path, i, removed_part(alloc, s, i, n, steps)?))
}

#[tactic(auto, using(crate::proofs::Undone::labelled_node, std::proofs::lemmas::Grind::common_steps))]
fn label_back(path: Path, s: &Tree) -> Result<Mod, Memory>
    requires { IsSome (label_of s.now) }
    ensures { IfOk result (λ n. n ≡ Mod.AssignNode path (unwrap_or (label_of s.now) [])) }
{
    match s.label() {
        Some(label) => Ok(Mod::AssignNode(path, label.copy()?)),
        None => unreachable!(),
    }
}

fn wrap_back<L: Ledger>(
    alloc: Global,
    path: Path,
    s: &Tree,
    i: u32,
    steps: &mut Steps<L>,
) -> Result<Mod, Memory>
    requires { IsOkAnd (unwrapped s.now i) IsWithinLimits }
    ensures made { IfOk result (λ n. n ≡ Mod.InsertNode path i (without_child s.now i)) }
    ensures counted { steps.new ≤ steps.old + 1 }
{
    Ok(Mod::InsertNode(path, i, without_child(alloc, s, i, steps)?))
}

// What gives the subtree back.
#[tactic(auto, using(crate::proofs::Undone::extent_rules))]
pub(crate) fn undone<L: Ledger>(
    alloc: Global,
    s: &Tree,
    m: &Mod,
    steps: &mut Steps<L>,
) -> Result<Mod, Memory>
    requires { IsOkAnd (changed_at m.now s.now) IsWithinLimits }
    ensures made { IfOk result (λ n. n ≡ inverse_at m.now s.now) }
    ensures counted { steps.new ≤ steps.old + 1 }
{
    let path = m.path().copy(alloc)?;
    match m {
        Mod::Assign(..) => assign_back(path, s),
        Mod::Insert(_, i, x) => {
            let _size = x.size();
            Ok(Mod::Remove(path, *i, extent(x) as u32))
        }
        Mod::Remove(_, i, n) => insert_back(alloc, path, s, *i, *n, steps),
        Mod::Split(_, i, _) => Ok(Mod::Join(path, *i)),
        Mod::Join(_, i) => Ok(Mod::Split(path, *i, child_extent(s, *i))),
        Mod::AssignNode(..) => label_back(path, s),
        Mod::InsertNode(_, i, _) => Ok(Mod::RemoveNode(path, *i)),
        Mod::RemoveNode(_, i) => wrap_back(alloc, path, s, *i, steps),
    }
}
