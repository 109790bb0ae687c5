// The length of the canonical text. A count stops at its greatest value, which no text within the limits reaches.
ghost use Rattle.std.specs.Prelude.{◌≡◌, ◌<◌, ◌≤◌, ◌+◌, ◌^◌, ◌++◌, ◌∷◌, [], true, false, length, take, drop};
ghost use Rattle.tx_tree.specs.WideTree.{forest, children_of, label_of};
ghost use Rattle.tx_tm_write.specs.Shapes.{some, is_block, has_block, is_raw};
ghost use Rattle.tx_tm_write.specs.Canonical.{byte_text, items_text, opened, part_text, content_text, parts_text};
ghost use Rattle.tx_tm_write.specs.Canonical.{arguments_text, long_text, long_part, paragraph_text, between};
ghost use Rattle.tx_tm_write.specs.Canonical.{block_text, paragraphs_text, with_ends, tags_text, tm_text};
ghost use Rattle.tx_tm_write.specs.Counts.{capped};

use crate::items::{is_control, is_held, is_marked};
use crate::shapes::{has_more, is_block, is_document, is_empty, is_long, raw_digits, stays_inline};
use tx_tree::{Label, Tree};

fn plus(count: u64, more: u64) -> u64
    ensures { result ≡ capped (count + more) }
{
    count.saturating_add(more)
}

fn byte_length(byte: u8, raw: bool) -> u64
    ensures { result ≡ length (byte_text raw byte) }
{
    if is_marked(byte) || (byte == b' ' && !raw) {
        2
    } else if is_control(byte) {
        2
    } else {
        1
    }
}

// The length of the items of a text.
#[tactic(auto, using(std::proofs::lemmas::Grind::common_steps))]
fn items_length(text: &[u8], before: bool, behind: bool) -> u64
    ensures { result ≡ capped (length (items_text before behind text.now)) }
{
    let mut count = 0;
    let mut held = before;
    for (i, byte) in text.iter().enumerate() {
        let raw = held && is_held(text, i + 1, behind);
        count = plus(count, byte_length(*byte, raw));
        held = *byte != b' ';
    }
    count
}

// The length of the short tag of a node with this label.
#[cycle(counting)]
#[tactic(auto, using(tx_tree::proofs::Walks::item_shallower, std::proofs::lemmas::Grind::common_steps))]
fn short_length(label: &Label, t: &Tree) -> u64
    ensures { result ≡ capped (length (60 ∷ (label.now ++ (arguments_text (forest (children_of t.now)) ++ 62 ∷ [])))) }
{
    let mut count = 2 + label.bytes().len() as u64;
    for child in t.children() {
        count = plus(count, plus(1, content_length(child)));
    }
    count
}

// The length of a child of a long tag, and after a block also of the beginning of the next tag.
#[cycle(counting)]
#[tactic(auto, using(std::proofs::lemmas::Grind::common_steps))]
fn long_child_length(label: &Label, children: &[Tree], i: usize, child: &Tree) -> u64
    requires { i < length children.now }
    ensures { result ≡ capped (length (long_part label.now (forest (drop (i + 1) children.now)) child.now)) }
{
    if is_block(child) {
        return plus(5 + label.bytes().len() as u64, block_length(child));
    }
    plus(1, content_length(child))
}

// The length of the long tag of a node with this label.
#[cycle(counting)]
#[tactic(auto, using(crate::proofs::Forms::child_rules))]
fn long_length(label: &Label, t: &Tree) -> u64
    ensures { result ≡ capped (length (opened 92 label.now ++ long_text label.now (forest (children_of t.now)))) }
{
    let mut count = 2 + label.bytes().len() as u64;
    let children = t.children();
    for (i, child) in children.iter().enumerate() {
        count = plus(count, long_child_length(label, children, i, child));
    }
    plus(count, 1)
}

// The length of the items of a text or of the tag of a node.
#[cycle(counting)]
#[tactic(auto, using(crate::proofs::Writing::part_rules))]
fn part_length(t: &Tree, before: bool, behind: bool) -> u64
    ensures { result ≡ capped (length (part_text before behind t.now)) }
{
    if let Some(text) = t.text() {
        return items_length(text.bytes(), before, behind);
    }
    let Some(label) = t.label() else {
        unreachable!()
    };
    if let Some(digits) = raw_digits(label, t.children()) {
        return 3 + digits.bytes().len() as u64;
    }
    if is_long(label, t.children()) {
        return long_length(label, t);
    }
    short_length(label, t)
}

// The length of the children of a node side by side.
#[cycle(counting)]
#[tactic(auto, using(crate::proofs::Forms::child_rules))]
fn parts_length(t: &Tree) -> u64
    ensures { result ≡ capped (length (parts_text false (forest (children_of t.now)))) }
{
    let mut count = 0;
    let children = t.children();
    let mut before = false;
    for (i, child) in children.iter().enumerate() {
        count = plus(count, part_length(child, before, has_more(children, i + 1)));
        before = true;
    }
    count
}

// The length of content.
#[cycle(counting)]
#[tactic(auto, using(crate::proofs::Writing::content_rules))]
fn content_length(t: &Tree) -> u64
    ensures { result ≡ capped (length (content_text t.now)) }
{
    if let Some(label) = t.label() {
        if stays_inline(label, t.children()) {
            return parts_length(t);
        }
    }
    part_length(t, false, false)
}

// The length of a paragraph.
#[cycle(counting)]
#[tactic(auto, using(std::proofs::lemmas::Grind::common_steps))]
fn paragraph_length(t: &Tree) -> u64
    ensures { result ≡ capped (length (paragraph_text t.now)) }
{
    if is_empty(t) {
        return 2;
    }
    content_length(t)
}

fn between_length(more: bool) -> u64
    ensures { result ≡ length (between more) }
{
    if more { 2 } else { 0 }
}

// The length of the children of a document.
#[cycle(counting)]
#[tactic(auto, using(crate::proofs::Forms::child_rules))]
fn paragraphs_length(t: &Tree) -> u64
    ensures { result ≡ capped (length (paragraphs_text (forest (children_of t.now)))) }
{
    let mut count = 0;
    let children = t.children();
    for (i, child) in children.iter().enumerate() {
        let gap = between_length(has_more(children, i + 1));
        count = plus(count, plus(paragraph_length(child), gap));
    }
    count
}

// The length of the lines of a collection.
#[cycle(counting)]
#[tactic(auto, using(tx_tree::proofs::Walks::item_shallower, std::proofs::lemmas::Grind::common_steps))]
fn tags_length(t: &Tree) -> u64
    ensures { result ≡ capped (length (with_ends (tags_text (forest (children_of t.now))))) }
{
    let mut count = 27;
    for child in t.children() {
        count = plus(count, plus(1, part_length(child, false, false)));
    }
    count
}

// The length of the text of a block.
#[cycle(counting)]
#[tactic(auto, using(crate::proofs::Writing::block_rules))]
fn block_length(t: &Tree) -> u64
    ensures { result ≡ capped (length (block_text t.now)) }
{
    let Some(label) = t.label() else {
        return 0;
    };
    if is_document(label) {
        return paragraphs_length(t);
    }
    tags_length(t)
}

/// The bytes of the canonical text of a block, counted without writing. Whatever the tree, there is room for one byte
/// more in 64 bits.
#[tactic(auto, using(crate::proofs::Bounds::block_short))]
pub fn length(t: &Tree) -> u64
    ensures value { is_block t.now ≡ true → result ≡ length (tm_text t.now) }
    ensures short { result + 1 < 2 ^ 64 }
{
    let _size = t.size();
    block_length(t)
}
