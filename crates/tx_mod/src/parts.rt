// A tree seen as a leaf or a node.
ghost use Rattle.std.specs.Prelude.{◌≡◌, ◌&&◌};
ghost use Rattle.tx_tree.specs.Cuts.{is_cut};
ghost use Rattle.tx_mod.specs.Measures.{ArePartsOf};

use tx_tree::{Label, Text, Tree};

// The text of a leaf, or the label and the children of a node.
#[derive(Clone, Copy)]
pub(crate) enum Parts<'a> {
    Leaf(&'a Text),
    Node(&'a Label, &'a [Tree]),
}

#[tactic(auto, using(crate::proofs::Seeing::seeing, std::proofs::lemmas::Grind::common_steps))]
pub(crate) fn parts_of(t: &Tree) -> Parts<'_>
    ensures { ArePartsOf t.now result }
{
    match t.text() {
        Some(text) => Parts::Leaf(text),
        None => match t.label() {
            Some(label) => Parts::Node(label, t.children()),
            None => unreachable!(),
        },
    }
}

// Whether the place is a cut of the text.
#[tactic(auto, using(crate::proofs::Seeing::cutting, std::proofs::lemmas::Grind::common_steps))]
pub(crate) fn is_cut(text: &Text, at: usize) -> bool
    ensures { result ≡ is_cut text.now at }
{
    let len = text.bytes().len();
    if at > len {
        return false;
    }
    !text.cuts(at)
}
