// The canonical text of a block.
ghost use Rattle.std.specs.Prelude.{◌≡◌, ◌<◌, ◌≤◌, ◌+◌, ◌++◌, ◌∷◌, [], true};
ghost use Rattle.std.specs.Prelude.{false, length, take, drop, get_or, OnOk, OnErr};
ghost use Rattle.tx_tree.specs.WideTree.{forest, children_of, label_of};
ghost use Rattle.tx_tm_write.specs.Shapes.{is_block, has_block, is_raw};
ghost use Rattle.tx_tm_write.specs.Canonical.{opened, next_mark, part_text, content_text, parts_text};
ghost use Rattle.tx_tm_write.specs.Canonical.{arguments_text, long_text, long_part, paragraph_text, between};
ghost use Rattle.tx_tm_write.specs.Canonical.{block_text, paragraphs_text, with_ends, tags_text, tm_text};

use crate::items::append_items;
use crate::shapes::{
    has_block, has_more, is_block, is_document, is_empty, is_long, raw_digits, stays_inline,
};
use tx_base::Memory;
use tx_tree::{Label, Tree};

// Appends the beginning of a long, middle or closing tag.
fn append_opened(mark: u8, label: &[u8], out: &mut Vec<u8>) -> Result<(), Memory>
    ensures ok { OnOk result (out.new.items ≡ out.old.items ++ opened mark label.now) }
    ensures grows { take (length out.old.items) out.new.items ≡ out.old.items }
{
    out.push(b'<')?;
    out.push(mark)?;
    out.extend_from_slice(label)?;
    Ok(())
}

// Appends raw data.
fn append_raw(digits: &[u8], out: &mut Vec<u8>) -> Result<(), Memory>
    ensures ok { OnOk result (out.new.items ≡ out.old.items ++ 60 ∷ 35 ∷ (digits.now ++ 62 ∷ [])) }
    ensures grows { take (length out.old.items) out.new.items ≡ out.old.items }
{
    out.push(b'<')?;
    out.push(b'#')?;
    out.extend_from_slice(digits)?;
    out.push(b'>')?;
    Ok(())
}

// The mark of the tag after a block, before the trees from this place on.
fn next_mark(trees: &[Tree], from: usize) -> u8
    requires { from ≤ length trees.now }
    ensures { result ≡ next_mark (has_block (forest (drop from trees.now))) }
{
    if has_block(trees, from) { b'|' } else { b'/' }
}

// Appends the short tag of a node with this label.
#[cycle(writing)]
#[tactic(auto, using(tx_tree::proofs::Walks::item_shallower, std::proofs::lemmas::Grind::common_steps))]
fn append_short(label: &Label, t: &Tree, out: &mut Vec<u8>) -> Result<(), Memory>
    ensures ok { OnOk result (out.new.items
        ≡ out.old.items ++ 60 ∷ (label.now ++ (arguments_text (forest (children_of t.now)) ++ 62 ∷ []))) }
    ensures grows { take (length out.old.items) out.new.items ≡ out.old.items }
{
    out.push(b'<')?;
    out.extend_from_slice(label.bytes())?;
    for child in t.children() {
        out.push(b'|')?;
        append_content(child, out)?;
    }
    out.push(b'>')?;
    Ok(())
}

// Appends a block on lines of its own.
#[cycle(writing)]
#[tactic(auto, using(std::proofs::lemmas::Grind::common_steps))]
fn append_lines(t: &Tree, out: &mut Vec<u8>) -> Result<(), Memory>
    ensures ok { OnOk result (out.new.items ≡ out.old.items ++ 62 ∷ 10 ∷ (block_text t.now ++ 10 ∷ [])) }
    ensures grows { take (length out.old.items) out.new.items ≡ out.old.items }
{
    out.extend_from_slice(b">\n")?;
    append_block(t, out)?;
    out.push(b'\n')?;
    Ok(())
}

// Appends a child of a long tag, and after a block the beginning of the next tag.
#[cycle(writing)]
#[tactic(auto, using(std::proofs::lemmas::Grind::common_steps))]
fn append_long_child(
    label: &Label,
    children: &[Tree],
    i: usize,
    child: &Tree,
    out: &mut Vec<u8>,
) -> Result<(), Memory>
    requires { i < length children.now }
    ensures ok { OnOk result
        (out.new.items ≡ out.old.items ++ long_part label.now (forest (drop (i + 1) children.now)) child.now) }
    ensures grows { take (length out.old.items) out.new.items ≡ out.old.items }
{
    if is_block(child) {
        append_lines(child, out)?;
        return append_opened(next_mark(children, i + 1), label.bytes(), out);
    }
    out.push(b'|')?;
    append_content(child, out)
}

// Appends the long tag of a node with this label.
#[cycle(writing)]
#[tactic(auto, using(crate::proofs::Forms::child_rules))]
fn append_long(label: &Label, t: &Tree, out: &mut Vec<u8>) -> Result<(), Memory>
    ensures ok { OnOk result
        (out.new.items ≡ out.old.items ++ (opened 92 label.now ++ long_text label.now (forest (children_of t.now)))) }
    ensures grows { take (length out.old.items) out.new.items ≡ out.old.items }
{
    append_opened(b'\\', label.bytes(), out)?;
    let children = t.children();
    for (i, child) in children.iter().enumerate() {
        append_long_child(label, children, i, child, out)?;
    }
    out.push(b'>')?;
    Ok(())
}

// Appends the items of a text or the tag of a node, where there may be parts that are no spaces before and after it.
#[cycle(writing)]
#[tactic(auto, using(crate::proofs::Writing::part_rules))]
fn append_part(t: &Tree, before: bool, behind: bool, out: &mut Vec<u8>) -> Result<(), Memory>
    ensures ok { OnOk result (out.new.items ≡ out.old.items ++ part_text before behind t.now) }
    ensures grows { take (length out.old.items) out.new.items ≡ out.old.items }
{
    if let Some(text) = t.text() {
        return append_items(text.bytes(), before, behind, out);
    }
    let Some(label) = t.label() else {
        unreachable!()
    };
    if let Some(digits) = raw_digits(label, t.children()) {
        return append_raw(digits.bytes(), out);
    }
    if is_long(label, t.children()) {
        return append_long(label, t, out);
    }
    append_short(label, t, out)
}

// Appends the children of a node side by side.
#[cycle(writing)]
#[tactic(auto, using(crate::proofs::Forms::child_rules))]
fn append_parts(t: &Tree, out: &mut Vec<u8>) -> Result<(), Memory>
    ensures ok { OnOk result (out.new.items ≡ out.old.items ++ parts_text false (forest (children_of t.now))) }
    ensures grows { take (length out.old.items) out.new.items ≡ out.old.items }
{
    let children = t.children();
    let mut before = false;
    for (i, child) in children.iter().enumerate() {
        append_part(child, before, has_more(children, i + 1), out)?;
        before = true;
    }
    Ok(())
}

// Appends content.
#[cycle(writing)]
#[tactic(auto, using(crate::proofs::Writing::content_rules))]
fn append_content(t: &Tree, out: &mut Vec<u8>) -> Result<(), Memory>
    ensures ok { OnOk result (out.new.items ≡ out.old.items ++ content_text t.now) }
    ensures grows { take (length out.old.items) out.new.items ≡ out.old.items }
{
    if let Some(label) = t.label() {
        if stays_inline(label, t.children()) {
            return append_parts(t, out);
        }
    }
    append_part(t, false, false, out)
}

// Appends a paragraph.
#[cycle(writing)]
#[tactic(auto, using(std::proofs::lemmas::Grind::common_steps))]
fn append_paragraph(t: &Tree, out: &mut Vec<u8>) -> Result<(), Memory>
    ensures ok { OnOk result (out.new.items ≡ out.old.items ++ paragraph_text t.now) }
    ensures grows { take (length out.old.items) out.new.items ≡ out.old.items }
{
    if is_empty(t) {
        out.extend_from_slice(b"\\;")?;
        return Ok(());
    }
    append_content(t, out)
}

// Appends what is between two paragraphs, where there are more.
fn append_between(more: bool, out: &mut Vec<u8>) -> Result<(), Memory>
    ensures ok { OnOk result (out.new.items ≡ out.old.items ++ between more) }
    ensures grows { take (length out.old.items) out.new.items ≡ out.old.items }
{
    if more {
        out.extend_from_slice(b"\n\n")?;
    }
    Ok(())
}

// Appends the children of a document.
#[cycle(writing)]
#[tactic(auto, using(crate::proofs::Forms::child_rules))]
fn append_paragraphs(t: &Tree, out: &mut Vec<u8>) -> Result<(), Memory>
    ensures ok { OnOk result (out.new.items ≡ out.old.items ++ paragraphs_text (forest (children_of t.now))) }
    ensures grows { take (length out.old.items) out.new.items ≡ out.old.items }
{
    let children = t.children();
    for (i, child) in children.iter().enumerate() {
        append_paragraph(child, out)?;
        append_between(has_more(children, i + 1), out)?;
    }
    Ok(())
}

// Appends the lines of a collection.
#[cycle(writing)]
#[tactic(auto, using(tx_tree::proofs::Walks::item_shallower, std::proofs::lemmas::Grind::common_steps))]
fn append_tags(t: &Tree, out: &mut Vec<u8>) -> Result<(), Memory>
    ensures ok { OnOk result (out.new.items ≡ out.old.items ++ with_ends (tags_text (forest (children_of t.now)))) }
    ensures grows { take (length out.old.items) out.new.items ≡ out.old.items }
{
    out.extend_from_slice(b"<\\collection>\n")?;
    for child in t.children() {
        append_part(child, false, false, out)?;
        out.push(b'\n')?;
    }
    out.extend_from_slice(b"</collection>")?;
    Ok(())
}

// Appends the text of a block.
#[cycle(writing)]
#[tactic(auto, using(crate::proofs::Writing::block_rules))]
fn append_block(t: &Tree, out: &mut Vec<u8>) -> Result<(), Memory>
    ensures ok { OnOk result (out.new.items ≡ out.old.items ++ block_text t.now) }
    ensures grows { take (length out.old.items) out.new.items ≡ out.old.items }
{
    let Some(label) = t.label() else {
        return Ok(());
    };
    if is_document(label) {
        return append_paragraphs(t, out);
    }
    append_tags(t, out)
}

/// Appends the canonical text of a block, without a newline after it. After `Memory` `out` is as before.
pub fn write(t: &Tree, out: &mut Vec<u8>) -> Result<(), Memory>
    requires block { is_block t.now ≡ true }
    ensures ok { OnOk result (out.new.items ≡ out.old.items ++ tm_text t.now) }
    ensures err { OnErr result (out.new.items ≡ out.old.items) }
{
    let before = out.len();
    let written = append_block(t, out);
    if written.is_err() {
        out.truncate(before);
    }
    written
}
