// Old documents, in which macros are called by `expand` and `apply`, and their modern form.
ghost use Rattle.std.specs.Prelude.{◌≡◌, ◌≤◌, ◌+◌, ◌++◌, map, IfOk, OnOk};
ghost use Rattle.std.specs.Prelude.{MatchOption, Some, None, IfSome, option_map};
ghost use Rattle.tx_tree.specs.Labels.{IsLabel, is_label_byte};
ghost use Rattle.std.specs.List.{list_all};
ghost use Rattle.tx_tree.specs.Limits.{IsWellFormed, IsWithinLimits};
ghost use Rattle.tx_tree.specs.WideTree.{node, forest, nodes_of, total_nodes, deepest};
ghost use Rattle.tx_doc.specs.Modern.{version_text, is_old, is_call, is_label, without_calls, modern};
ghost use Rattle.tx_doc.specs.Calls.{IsNamed, IsCalled};

use crate::bodies::is_labelled;
use crate::versions::is_old_version;
use std::alloc::Global;
use std::sync::ledger::Ledger;
use tx_base::{Memory, Steps};
use tx_tree::{
    Label, LabelFault, MOST_LABEL, Text, Tree, TreeFault, is_label_byte, share_onto, shares,
};

// The text that says the version of a document.
fn version_text(t: &Tree) -> Option<&Text>
    ensures { MatchOption result (version_text t.now ≡ None) (λ text. version_text t.now ≡ Some text.now) }
{
    for child in t.children() {
        if is_labelled(child, b"TeXmacs") {
            return match child.child(0) {
                Some(first) => first.text(),
                None => None,
            };
        }
    }
    None
}

// Whether the tree is an old document.
fn is_old(alloc: Global, t: &Tree) -> Result<bool, Memory>
    ensures { IfOk result (λ old. old ≡ is_old t.now) }
{
    if !is_labelled(t, b"document") {
        return Ok(false);
    }
    match version_text(t) {
        Some(text) => is_old_version(alloc, text.bytes()),
        None => Ok(false),
    }
}

fn is_call(label: &[u8]) -> bool
    ensures { result ≡ is_call label.now }
{
    label == b"expand".as_slice() || label == b"apply".as_slice()
}

fn all_label_bytes(bytes: &[u8]) -> bool
    ensures { result ≡ list_all is_label_byte bytes.now }
{
    bytes.iter().all(|byte| is_label_byte(*byte))
}

// Whether the bytes are a label.
fn is_label(bytes: &[u8]) -> bool
    ensures { result ≡ is_label bytes.now }
{
    !bytes.is_empty() && bytes.len() <= MOST_LABEL && all_label_bytes(bytes)
}

// The macro that a node of this label calls, if it is a call and this is its first child.
fn named<'a>(label: &[u8], first: &'a Tree) -> Option<&'a [u8]>
    ensures named { IsNamed label.now first.now (option_map (λ name. name.now) result) }
    ensures label { IfSome result (λ name. IsLabel name.now) }
{
    let Some(text) = first.text() else {
        return None;
    };
    let bytes = text.bytes();
    if is_call(label) && is_label(bytes) {
        Some(bytes)
    } else {
        None
    }
}

// The label and the children of a node of these, where it is no call any more.
fn called<'a>(label: &'a [u8], children: &'a [Tree]) -> (&'a [u8], &'a [Tree])
    requires { IsLabel label.now }
    ensures { IsCalled label.now children.now result.0.now result.1.now }
{
    let mut name = label;
    for (i, child) in children.iter().enumerate() {
        let Some(macro_name) = named(name, child) else {
            return (name, &children[i..]);
        };
        name = macro_name;
    }
    (name, &children[children.len()..])
}

// The label of these bytes, which shares those of this label if it has the same.
fn label_of(alloc: Global, own: &Label, bytes: &[u8]) -> Result<Label, Memory>
    requires { IsLabel bytes.now }
    ensures { IfOk result (λ label. label ≡ bytes.now) }
{
    if own.bytes() == bytes {
        return own.copy();
    }
    match Label::new(alloc, bytes) {
        Ok(label) => Ok(label),
        Err(LabelFault::Memory) => Err(Memory),
        Err(_) => unreachable!(),
    }
}

// The node of this label and these children.
#[tactic(auto, using(crate::proofs::Making::out_of_memory, std::proofs::lemmas::Grind::common_steps))]
fn node_of<L: Ledger>(
    alloc: Global,
    label: Label,
    children: Vec<Tree>,
    steps: &mut Steps<L>,
) -> Result<Tree, Memory>
    requires { IsWithinLimits (node label (forest children.items)) }
    ensures made { IfOk result (λ t. t ≡ node label (forest children.items)) }
    ensures counted { steps.new ≡ steps.old + 1 }
{
    match Tree::node(alloc, label, children, steps) {
        Ok(tree) => Ok(tree),
        Err(TreeFault::Memory) => Err(Memory),
        Err(_) => unreachable!(),
    }
}

// The node of this label and of all these trees without calls. `all` is None where they have none.
fn node_without<L: Ledger>(
    alloc: Global,
    label: Label,
    trees: &[Tree],
    all: Option<Vec<Tree>>,
    steps: &mut Steps<L>,
) -> Result<Tree, Memory>
    requires all { MatchOption all (map without_calls trees.now ≡ trees.now)
        (λ v. v.items ≡ map without_calls trees.now) }
    requires within { IsWithinLimits (node label (forest (map without_calls trees.now))) }
    ensures made { IfOk result (λ t. t ≡ node label (forest (map without_calls trees.now))) }
    ensures counted { steps.new ≤ steps.old + 1 }
{
    let children = match all {
        Some(all) => all,
        None => shares(alloc, trees)?,
    };
    node_of(alloc, label, children, steps)
}

// The trees without calls at the end of a list.
#[cycle(calls)]
fn add_changed<L: Ledger>(
    alloc: Global,
    trees: &[Tree],
    all: &mut Vec<Tree>,
    steps: &mut Steps<L>,
) -> Result<(), Memory>
    ensures made { OnOk result (all.new.items ≡ all.old.items ++ map without_calls trees.now) }
    ensures counted { steps.new ≤ steps.old + total_nodes (forest trees.now) }
{
    for tree in trees {
        match changed(alloc, tree, steps)? {
            Some(new) => all.push(new)?,
            None => all.push(tree.share()?)?,
        }
    }
    Ok(())
}

// The trees without calls, or None where none of them has one.
#[cycle(calls)]
fn all_changed<L: Ledger>(
    alloc: Global,
    trees: &[Tree],
    steps: &mut Steps<L>,
) -> Result<Option<Vec<Tree>>, Memory>
    ensures made { IfOk result (λ all. MatchOption all (map without_calls trees.now ≡ trees.now)
        (λ v. v.items ≡ map without_calls trees.now)) }
    ensures counted { steps.new ≤ steps.old + total_nodes (forest trees.now) }
{
    for (i, tree) in trees.iter().enumerate() {
        if let Some(new) = changed(alloc, tree, steps)? {
            let mut all = Vec::with_capacity(alloc, trees.len())?;
            share_onto(&mut all, &trees[..i])?;
            all.push(new)?;
            add_changed(alloc, &trees[i + 1..], &mut all, steps)?;
            return Ok(Some(all));
        }
    }
    Ok(None)
}

// The tree without calls, or None where it has none. Each node that is looked at is a step.
#[cycle(calls)]
fn changed<L: Ledger>(alloc: Global, t: &Tree, steps: &mut Steps<L>) -> Result<Option<Tree>, Memory>
    ensures made { IfOk result (λ u. MatchOption u (without_calls t.now ≡ t.now) (λ v. without_calls t.now ≡ v)) }
    ensures counted { steps.new ≤ steps.old + nodes_of t.now }
{
    let Some(label) = t.label() else {
        return Ok(None);
    };
    let children = t.children();
    let (name, others) = called(label.bytes(), children);
    let all = all_changed(alloc, others, steps)?;
    if all.is_none() && others.len() == children.len() {
        steps.tick();
        return Ok(None);
    }
    let _depth = t.depth();
    let label = label_of(alloc, label, name)?;
    let new = node_without(alloc, label, others, all, steps)?;
    Ok(Some(new))
}

/// The modern form of a tree that was read from a file.
///
/// A tree is old where its root is a `document` whose first child `TeXmacs` has a text as its first child, and this
/// text is a version before 1.0.2: numbers of one to nine digits, with points between them. In old documents a macro is
/// called by `(expand "name" ..)` or `(apply "name" ..)`. The modern form has `(name ..)` in place of each such node
/// whose first child is a text that is a label, as often as it is one. Every other tree is its own modern form.
///
/// Subtrees without such a node are shared. Each node is a step.
pub fn modern<L: Ledger>(alloc: Global, t: &Tree, steps: &mut Steps<L>) -> Result<Tree, Memory>
    ensures modern { IfOk result (λ u. u ≡ modern t.now) }
    ensures counted { steps.new ≤ steps.old + nodes_of t.now }
{
    if !is_old(alloc, t)? {
        return Ok(t.share()?);
    }
    match changed(alloc, t, steps)? {
        Some(new) => Ok(new),
        None => Ok(t.share()?),
    }
}

/// A law: the modern form of a tree is its own modern form. It is well formed and within the limits.
pub fn modern_law(t: &Tree)
    ensures again { modern (modern t.now) ≡ modern t.now }
    ensures well_formed { IsWellFormed (modern t.now) }
    ensures within { IsWithinLimits (modern t.now) }
{
    let _size = t.size();
}
