// Texts, leaves and nodes that are known to be within the limits.
ghost use Rattle.std.specs.Prelude.{◌≡◌, ◌+◌, ◌≤◌, length, IfOk, OnOk};
ghost use Rattle.tx_tree.specs.Texts.{IsText};
ghost use Rattle.tx_tree.specs.Labels.{IsLabel};
ghost use Rattle.tx_tree.specs.Limits.{IsWithinLimits};
ghost use Rattle.tx_tree.specs.WideTree.{leaf, node, forest};
ghost use Rattle.tx_prim.specs.Table.{failure, tuple_node, told, amount_text, truth_text};

use crate::amounts::{Amount, Answer, ValueFault};
use crate::lengths::print_length;
use crate::names::Prim;
use itoa::Buffer;
use std::alloc::Global;
use std::sync::ledger::Ledger;
use tx_base::Steps;
use tx_tree::{Label, LabelFault, MOST_TEXT, Memory, Text, TextFault, Tree, TreeFault};

/// The text of these bytes, which are one within the limit. The one error is `Memory`.
#[tactic(auto, using(crate::proofs::Sound::right, std::proofs::lemmas::Grind::common_steps))]
pub fn known_text(alloc: Global, bytes: &[u8]) -> Result<Text, Memory>
    requires text { IsText bytes.now }
    requires short { length bytes.now ≤ MOST_TEXT }
    ensures { IfOk result (λ t. t ≡ bytes.now) }
{
    match Text::new(alloc, bytes) {
        Ok(text) => Ok(text),
        Err(TextFault::Memory) => Err(Memory),
        Err(_) => unreachable!(),
    }
}

// The leaf of these bytes.
pub(crate) fn leaf_of(alloc: Global, bytes: &[u8]) -> Result<Tree, Memory>
    requires text { IsText bytes.now }
    requires short { length bytes.now ≤ MOST_TEXT }
    ensures { IfOk result (λ t. t ≡ leaf bytes.now) }
{
    let text = known_text(alloc, bytes)?;
    Tree::leaf(alloc, text)
}

// The node of these children.
#[tactic(auto, using(crate::proofs::Sound::right, std::proofs::lemmas::Grind::common_steps))]
fn node_of<L: Ledger>(
    alloc: Global,
    label: &[u8],
    children: Vec<Tree>,
    steps: &mut Steps<L>,
) -> Result<Tree, Memory>
    requires label { IsLabel label.now }
    requires within { IsWithinLimits (node label.now (forest children.items)) }
    ensures made { IfOk result (λ t. t ≡ node label.now (forest children.items)) }
    ensures counted { OnOk result (steps.new ≡ steps.old + 1) }
{
    let label = match Label::new(alloc, label) {
        Ok(label) => label,
        Err(LabelFault::Memory) => return Err(Memory),
        Err(LabelFault::BadLabel(_)) => unreachable!(),
    };
    match Tree::node(alloc, label, children, steps) {
        Ok(tree) => Ok(tree),
        Err(TreeFault::Memory) => Err(Memory),
        Err(_) => unreachable!(),
    }
}

// The tuple of these trees.
pub(crate) fn tuple_of<L: Ledger>(
    alloc: Global,
    children: Vec<Tree>,
    steps: &mut Steps<L>,
) -> Result<Tree, Memory>
    requires { IsWithinLimits (tuple_node children.items) }
    ensures made { IfOk result (λ t. t ≡ tuple_node children.items) }
    ensures counted { OnOk result (steps.new ≡ steps.old + 1) }
{
    node_of(alloc, b"tuple", children, steps)
}

// The error of this primitive.
#[tactic(auto, using(crate::proofs::Within::failure_within, std::proofs::lemmas::Grind::common_steps))]
pub(crate) fn failure<L: Ledger>(
    alloc: Global,
    fault: ValueFault,
    which: Prim,
    steps: &mut Steps<L>,
) -> Result<Tree, Memory>
    ensures made { IfOk result (λ t. t ≡ failure fault which) }
    ensures counted { OnOk result (steps.new ≡ steps.old + 1) }
{
    let mut children = Vec::new(alloc);
    children.push(leaf_of(alloc, fault.word())?)?;
    children.push(leaf_of(alloc, which.name())?)?;
    node_of(alloc, b"error", children, steps)
}

// The leaf of a number or a length.
fn amount_leaf(alloc: Global, amount: Amount) -> Result<Tree, Memory>
    ensures { IfOk result (λ t. t ≡ leaf (amount_text amount)) }
{
    match amount {
        Amount::Number(n) => {
            let mut digits = Buffer::new();
            leaf_of(alloc, digits.format(n).as_bytes())
        }
        Amount::Length(mcell) => {
            let text = print_length(alloc, mcell)?;
            Tree::leaf(alloc, text)
        }
    }
}

// The leaf `true` or `false`.
fn truth_leaf(alloc: Global, truth: bool) -> Result<Tree, Memory>
    ensures { IfOk result (λ t. t ≡ leaf (truth_text truth)) }
{
    if truth {
        leaf_of(alloc, b"true")
    } else {
        leaf_of(alloc, b"false")
    }
}

// The tree of a result.
pub(crate) fn told<L: Ledger>(
    alloc: Global,
    which: Prim,
    answer: Answer,
    steps: &mut Steps<L>,
) -> Result<Tree, Memory>
    ensures made { IfOk result (λ t. t ≡ told which answer) }
    ensures counted { OnOk result (steps.new ≡ steps.old + 1) }
{
    match answer {
        Answer::Value(amount) => {
            steps.tick();
            amount_leaf(alloc, amount)
        }
        Answer::Truth(truth) => {
            steps.tick();
            truth_leaf(alloc, truth)
        }
        Answer::Failed(fault) => failure(alloc, fault, which, steps),
    }
}
