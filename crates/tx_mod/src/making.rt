// Making of trees that are known to be within the limits.
ghost use Rattle.std.specs.Prelude.{◌≡◌, ◌+◌, ◌++◌, ◌≤◌, ◌<◌, length, IfOk, OnOk, IsSome, [], ◌∷◌, take, drop};
ghost use Rattle.tx_tree.specs.Limits.{IsWithinLimits};
ghost use Rattle.tx_tree.specs.Paths.{subtree};
ghost use Rattle.tx_tree.specs.Texts.{IsText};
ghost use Rattle.tx_tree.specs.WideTree.{leaf, node, forest, children_of};
ghost use Rattle.tx_mod.specs.Mods.{replaced, with_child_at};

use crate::parts::{Parts, parts_of};
use crate::ways::first_step;
use std::alloc::Global;
use std::sync::ledger::Ledger;
use tx_base::{Memory, Steps};
use tx_tree::{Label, MOST_TEXT, Text, TextFault, Tree, TreeFault, share_onto};

// The leaf of a text.
#[tactic(auto, using(crate::proofs::Built::sound, std::proofs::lemmas::Grind::common_steps))]
pub(crate) fn leaf_of(alloc: Global, bytes: &[u8]) -> Result<Tree, Memory>
    requires text { IsText bytes.now }
    requires short { length bytes.now ≤ MOST_TEXT }
    ensures { IfOk result (λ t. t ≡ leaf bytes.now) }
{
    match Text::new(alloc, bytes) {
        Ok(text) => Tree::leaf(alloc, text),
        Err(TextFault::Memory) => Err(Memory),
        Err(_) => unreachable!(),
    }
}

// The node of this label and these children.
#[tactic(auto, using(crate::proofs::Built::sound, std::proofs::lemmas::Grind::common_steps))]
pub(crate) fn node_of<L: Ledger>(
    alloc: Global,
    label: &Label,
    children: Vec<Tree>,
    steps: &mut Steps<L>,
) -> Result<Tree, Memory>
    requires { IsWithinLimits (node label.now (forest children.items)) }
    ensures made { IfOk result (λ t. t ≡ node label.now (forest children.items)) }
    ensures counted { steps.new ≤ steps.old + 1 }
{
    let label = label.copy()?;
    match Tree::node(alloc, label, children, steps) {
        Ok(tree) => Ok(tree),
        Err(TreeFault::Memory) => Err(Memory),
        Err(_) => unreachable!(),
    }
}

// The trees before place `from`, shares of others, and the trees from place `to` on.
#[tactic(auto, using(crate::proofs::Built::spliced_items, std::proofs::lemmas::Grind::common_steps))]
pub(crate) fn spliced(
    alloc: Global,
    trees: &[Tree],
    from: usize,
    to: usize,
    others: &[Tree],
) -> Result<Vec<Tree>, Memory>
    requires order { from ≤ to }
    requires there { to ≤ length trees.now }
    ensures { IfOk result (λ v. v.items ≡ take from trees.now ++ others.now ++ drop to trees.now) }
{
    let mut all = Vec::new(alloc);
    share_onto(&mut all, &trees[..from])?;
    share_onto(&mut all, others)?;
    share_onto(&mut all, &trees[to..])?;
    Ok(all)
}

// The tree with another child in place of its child i.
#[tactic(auto, using(crate::proofs::Built::child_rules))]
fn with_child_at<L: Ledger>(
    alloc: Global,
    t: &Tree,
    i: u32,
    child: Tree,
    steps: &mut Steps<L>,
) -> Result<Tree, Memory>
    requires there { i < length (children_of t.now) }
    requires within { IsWithinLimits (with_child_at t.now i child) }
    ensures made { IfOk result (λ u. u ≡ with_child_at t.now i child) }
    ensures counted { steps.new ≤ steps.old + 1 }
{
    let Parts::Node(label, children) = parts_of(t) else {
        unreachable!();
    };
    let i = i as usize;
    let all = spliced(alloc, children, i, i + 1, &[child])?;
    node_of(alloc, label, all, steps)
}

// The tree with another subtree where the path leads. It shares all other subtrees.
#[tactic(auto, using(crate::proofs::Built::path_rules))]
pub(crate) fn rebuilt<L: Ledger>(
    alloc: Global,
    t: &Tree,
    path: &[u32],
    new: Tree,
    steps: &mut Steps<L>,
) -> Result<Tree, Memory>
    requires leads { IsSome (subtree t.now path.now) }
    requires within { IsWithinLimits (replaced t.now path.now new) }
    ensures made { IfOk result (λ u. u ≡ replaced t.now path.now new) }
    ensures counted { steps.new ≤ steps.old + length path.now }
{
    let Some((i, rest)) = first_step(path) else {
        return Ok(new);
    };
    let Some(child) = t.child(i) else {
        unreachable!();
    };
    let child = rebuilt(alloc, child, rest, new, steps)?;
    with_child_at(alloc, t, i, child, steps)
}
