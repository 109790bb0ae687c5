// Which form a tree has.
ghost use Rattle.std.specs.Prelude.{◌≡◌, ◌≤◌, ◌+◌, length, drop, MatchOption, false};
ghost use Rattle.tx_tree.specs.WideTree.{is_leaf, forest};
ghost use Rattle.tx_tm_form.specs.Bytes.{is_digit};
ghost use Rattle.tx_tm_form.specs.Parts.{same_bytes, document_label, collection_label, concat_label, raw_data_label};
ghost use Rattle.tx_tm_write.specs.Shapes.{some, has_two, is_block, are_nodes, has_block, is_empty, are_apart};
ghost use Rattle.tx_tm_write.specs.Shapes.{stays_inline, all_digits, is_digits, is_raw, is_long, IsRaw};

use tx_tree::{Kind, Label, Text, Tree};

fn same_bytes(one: &[u8], other: &[u8]) -> bool
    ensures { result ≡ same_bytes one.now other.now }
{
    one == other
}

fn is_leaf(t: &Tree) -> bool
    ensures { result ≡ is_leaf t.now }
{
    t.kind() == Kind::Leaf
}

fn are_nodes(trees: &[Tree]) -> bool
    ensures { result ≡ are_nodes (forest trees.now) }
{
    for tree in trees {
        if is_leaf(tree) {
            return false;
        }
    }
    true
}

pub(crate) fn is_document(label: &Label) -> bool
    ensures { result ≡ same_bytes label.now document_label }
{
    same_bytes(label.bytes(), b"document")
}

fn is_collection(label: &Label) -> bool
    ensures { result ≡ same_bytes label.now collection_label }
{
    same_bytes(label.bytes(), b"collection")
}

#[tactic(auto, using(crate::proofs::Forms::some_trees))]
pub(crate) fn has_some(trees: &[Tree]) -> bool
    ensures { result ≡ some (forest trees.now) }
{
    trees.len() > 0
}

#[tactic(auto, using(crate::proofs::Forms::two_trees))]
fn has_two(trees: &[Tree]) -> bool
    ensures { result ≡ has_two (forest trees.now) }
{
    trees.len() > 1
}

/// Whether the tree is a `document` with a child, or a `collection` whose children are all nodes.
#[tactic(auto, using(crate::proofs::Forms::shape_rules))]
pub fn is_block(t: &Tree) -> bool
    ensures { result ≡ is_block t.now }
{
    let Some(label) = t.label() else {
        return false;
    };
    if is_document(label) {
        return has_some(t.children());
    }
    if !is_collection(label) {
        return false;
    }
    are_nodes(t.children())
}

// Whether one of the trees from this place on is a block.
#[tactic(auto, using(crate::proofs::Forms::drop_tree, std::proofs::lemmas::Grind::common_steps))]
pub(crate) fn has_block(trees: &[Tree], from: usize) -> bool
    requires { from ≤ length trees.now }
    ensures { result ≡ has_block (forest (drop from trees.now)) }
{
    for i in from..trees.len() {
        if is_block(&trees[i]) {
            return true;
        }
    }
    false
}

// Whether the tree is the empty text.
pub(crate) fn is_empty(t: &Tree) -> bool
    ensures { result ≡ is_empty t.now }
{
    match t.text() {
        Some(text) => text.bytes().is_empty(),
        None => false,
    }
}

// Whether none of the trees is the empty text, and no two texts are side by side.
fn are_apart(trees: &[Tree]) -> bool
    ensures { result ≡ are_apart false (forest trees.now) }
{
    let mut behind_text = false;
    for tree in trees {
        if is_empty(tree) || (behind_text && is_leaf(tree)) {
            return false;
        }
        behind_text = is_leaf(tree);
    }
    true
}

// Whether a node is written as the items of its texts and the tags of its nodes.
pub(crate) fn stays_inline(label: &Label, children: &[Tree]) -> bool
    ensures { result ≡ stays_inline label.now (forest children.now) }
{
    if !same_bytes(label.bytes(), b"concat") {
        return false;
    }
    if !has_two(children) {
        return false;
    }
    are_apart(children)
}

fn all_digits(text: &[u8]) -> bool
    ensures { result ≡ all_digits text.now }
{
    for byte in text {
        if !byte.is_ascii_hexdigit() {
            return false;
        }
    }
    true
}

// The digits of raw data that is written by them alone.
#[tactic(auto, using(crate::proofs::Forms::digit_rules))]
pub(crate) fn raw_digits<'a>(label: &Label, children: &'a [Tree]) -> Option<&'a Text>
    ensures { MatchOption result (is_raw label.now (forest children.now) ≡ false)
        (λ d. IsRaw label.now children.now d.now) }
{
    if children.len() != 1 {
        return None;
    }
    if !same_bytes(label.bytes(), b"raw-data") {
        return None;
    }
    let Some(text) = children[0].text() else {
        return None;
    };
    if !all_digits(text.bytes()) {
        return None;
    }
    Some(text)
}

// Whether the tag of a node is long.
pub(crate) fn is_long(label: &Label, children: &[Tree]) -> bool
    ensures { result ≡ is_long label.now (forest children.now) }
{
    if is_collection(label) {
        return false;
    }
    has_block(children, 0)
}

// Whether there is a tree at this place.
#[tactic(auto, using(crate::proofs::Writing::some_behind))]
pub(crate) fn has_more(trees: &[Tree], at: usize) -> bool
    ensures { result ≡ some (forest (drop at trees.now)) }
{
    at < trees.len()
}
