// Leaves and nodes.
ghost use Rattle.std.specs.Prelude.{◌≡◌, ◌≤◌, ◌+◌, ◌-◌, min, length, IfOk, IfSome};
ghost use Rattle.tx_tree.specs.Texts.{IsText};
ghost use Rattle.tx_tree.specs.Labels.{IsLabel};
ghost use Rattle.tx_tree.specs.WideTree.{leaf, node, forest, nodes_of};
ghost use Rattle.tx_tm_form.specs.Parts.{concat_of, document_label, collection_label, raw_data_label};
ghost use Rattle.tx_tm_content.specs.Lines.{IsMade};
ghost use Rattle.tx_tm_content.specs.ContentNodes.{nodes_in};

use crate::shared_labels::Labels;
use std::alloc::Global;
use std::sync::ledger::Ledger;
use tx_base::{Memory, Steps};
use tx_tree::{Label, LabelFault, MOST_TEXT, Text, TextFault, Tree, TreeFault};

/// The leaf of these bytes.
pub fn make_leaf(alloc: Global, bytes: &[u8]) -> Result<Tree, Memory>
    requires text { IsText bytes.now }
    requires short { length bytes.now ≤ MOST_TEXT }
    ensures { IfOk result (λ t. t ≡ leaf bytes.now) }
{
    match Text::new(alloc, bytes) {
        Ok(text) => Tree::leaf(alloc, text),
        Err(TextFault::Memory) => Err(Memory),
        Err(TextFault::TooLong(_)) => unreachable!(),
        Err(TextFault::BadByte(_)) => unreachable!(),
        Err(TextFault::BadSymbol(_)) => unreachable!(),
    }
}

// The label of these bytes.
pub(crate) fn make_label(alloc: Global, bytes: &[u8]) -> Result<Label, Memory>
    requires { IsLabel bytes.now }
    ensures { IfOk result (λ l. l ≡ bytes.now) }
{
    match Label::new(alloc, bytes) {
        Ok(label) => Ok(label),
        Err(LabelFault::Memory) => Err(Memory),
        Err(LabelFault::BadLabel(_)) => unreachable!(),
    }
}

/// The node, or None where it passes a limit.
pub fn make_node<L: Ledger>(
    alloc: Global,
    label: Label,
    children: Vec<Tree>,
    steps: &mut Steps<L>,
) -> Result<Option<Tree>, Memory>
    ensures made { IfOk result (λ made. IsMade made (node label (forest children.items))) }
    ensures counted { steps.new ≡ steps.old + 1 }
{
    match Tree::node(alloc, label, children, steps) {
        Ok(tree) => Ok(Some(tree)),
        Err(TreeFault::TooWide(_)) => Ok(None),
        Err(TreeFault::TooDeep(_)) => Ok(None),
        Err(TreeFault::TooBig(_)) => Ok(None),
        Err(TreeFault::Memory) => Err(Memory),
    }
}

// The one tree, or the concat of several.
#[tactic(auto, using(crate::proofs::Made::concat_rules))]
pub(crate) fn make_concat<L: Ledger>(
    labels: &Labels,
    mut trees: Vec<Tree>,
    steps: &mut Steps<L>,
) -> Result<Option<Tree>, Memory>
    ensures made { IfOk result (λ made. IsMade made (concat_of trees.items)) }
    ensures counted { IfOk result (λ made.
        IfSome made (λ t. steps.new + nodes_in trees.items ≤ steps.old + nodes_of t)) }
    ensures bounded { steps.new ≤ steps.old + min 1 (length trees.items - 1) }
    ensures rises { steps.old ≤ steps.new }
{
    if trees.len() >= 2 {
        let label = labels.concat()?;
        return make_node(labels.alloc, label, trees, steps);
    }
    match trees.pop() {
        Some(tree) => Ok(Some(tree)),
        None => Ok(Some(make_leaf(labels.alloc, b"")?)),
    }
}

// The document of these paragraphs.
#[tactic(auto, using(crate::proofs::Made::document_there))]
pub(crate) fn make_document<L: Ledger>(
    labels: &Labels,
    paragraphs: Vec<Tree>,
    steps: &mut Steps<L>,
) -> Result<Option<Tree>, Memory>
    ensures made { IfOk result (λ made. IsMade made (node document_label (forest paragraphs.items))) }
    ensures counted { IfOk result (λ made.
        IfSome made (λ t. steps.new + nodes_in paragraphs.items ≤ steps.old + nodes_of t)) }
    ensures bounded { steps.new ≤ steps.old + 1 }
    ensures rises { steps.old ≤ steps.new }
{
    let label = labels.document()?;
    make_node(labels.alloc, label, paragraphs, steps)
}

// The collection of these tags.
#[tactic(auto, using(crate::proofs::Made::collection_there))]
pub(crate) fn make_collection<L: Ledger>(
    alloc: Global,
    tags: Vec<Tree>,
    steps: &mut Steps<L>,
) -> Result<Option<Tree>, Memory>
    ensures made { IfOk result (λ made. IsMade made (node collection_label (forest tags.items))) }
    ensures counted { IfOk result (λ made.
        IfSome made (λ t. steps.new + nodes_in tags.items ≤ steps.old + nodes_of t)) }
    ensures bounded { steps.new ≤ steps.old + 1 }
    ensures rises { steps.old ≤ steps.new }
{
    let label = make_label(alloc, b"collection")?;
    make_node(alloc, label, tags, steps)
}

/// The label of raw data.
#[tactic(auto, using(crate::proofs::Made::raw_data_there))]
pub fn raw_data_label(alloc: Global) -> Result<Label, Memory>
    ensures { IfOk result (λ l. l ≡ raw_data_label) }
{
    make_label(alloc, b"raw-data")
}
