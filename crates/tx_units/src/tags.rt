// Nodes, texts and labels that the program itself makes.
ghost use Rattle.std.specs.Prelude.{◌≡◌, ◌+◌, ◌≤◌, length, IfOk};
ghost use Rattle.tx_tree.specs.WideTree.{leaf, node, forest};
ghost use Rattle.tx_tree.specs.Labels.{IsLabel};
ghost use Rattle.tx_tree.specs.Limits.{IsWithinLimits};
ghost use Rattle.tx_tree.specs.Texts.{IsText};
ghost use Rattle.tx_tree.specs.declared.TheConstants.{MOST_TEXT};

use std::alloc::Global;
use std::sync::ledger::Ledger;
use tx_base::{Memory, Steps};
use tx_tree::{Label, LabelFault, Text, TextFault, Tree, TreeFault};

// The label of this name.
pub(crate) fn label(alloc: Global, name: &str) -> Result<Label, Memory>
    requires { IsLabel name.now }
    ensures { IfOk result (λ l. l ≡ name.now) }
{
    match Label::new(alloc, name.as_bytes()) {
        Ok(label) => Ok(label),
        Err(LabelFault::Memory) => Err(Memory),
        Err(LabelFault::BadLabel(_)) => unreachable!(),
    }
}

// The leaf with these words.
pub(crate) fn words(alloc: Global, words: &str) -> Result<Tree, Memory>
    requires text { IsText words.now }
    requires short { length words.now ≤ MOST_TEXT }
    ensures { IfOk result (λ t. t ≡ leaf words.now) }
{
    match Text::new(alloc, words.as_bytes()) {
        Ok(text) => Tree::leaf(alloc, text),
        Err(TextFault::Memory) => Err(Memory),
        Err(TextFault::TooLong(_)) => unreachable!(),
        Err(TextFault::BadByte(_)) => unreachable!(),
        Err(TextFault::BadSymbol(_)) => unreachable!(),
    }
}

// The node with this label and these children, one step.
#[tactic(auto, using(crate::proofs::Within::fault_rules, std::proofs::lemmas::Grind::common_steps))]
pub(crate) fn tag<L: Ledger>(
    alloc: Global,
    label: Label,
    children: Vec<Tree>,
    steps: &mut Steps<L>,
) -> Result<Tree, Memory>
    requires { IsWithinLimits (node label (forest children.items)) }
    ensures ok { IfOk result (λ t. t ≡ node label (forest children.items)) }
    ensures counted { steps.new ≡ steps.old + 1 }
{
    match Tree::node(alloc, label, children, steps) {
        Ok(tree) => Ok(tree),
        Err(TreeFault::Memory) => Err(Memory),
        Err(TreeFault::TooWide(_)) => unreachable!(),
        Err(TreeFault::TooDeep(_)) => unreachable!(),
        Err(TreeFault::TooBig(_)) => unreachable!(),
    }
}
