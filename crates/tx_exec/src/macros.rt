// Macros, their bodies and their arguments.
ghost use Rattle.std.specs.Prelude.{◌≡◌, ◌+◌, ◌≤◌, Ok, Some, None, Option, IfOk, MatchOption, length};
ghost use Rattle.tx_tree.specs.WideTree.{children_of};
ghost use Rattle.tx_origin.specs.TaggedTrees.{tagged_of, kids_of};
ghost use Rattle.std.specs.Prelude.{drop};
ghost use Rattle.tx_exec_form.specs.Frames.{argument, argument_in, call_all, top, first_argument};
ghost use Rattle.tx_exec_form.specs.Rows.{is_macro, is_xmacro, macro_in, xmacro_in};
ghost use Rattle.tx_exec.specs.FrameView.{params_of, found_of, word_of, first_word};
ghost use Rattle.std.specs.Prelude.{◌<◌};

use crate::argument::Argument;
use std::alloc::Global;
use tx_base::Memory;
use tx_origin::{Tagged, share_origin};
use tx_tree::{Text, Tree};

/// Whether the tree is a `macro`.
pub(crate) fn is_macro(tree: &Tree) -> bool
    ensures { result ≡ is_macro tree.now }
{
    match tree.label() {
        None => false,
        Some(label) => label.bytes() == b"macro".as_slice(),
    }
}

/// Whether the tree is an `xmacro`.
pub(crate) fn is_xmacro(tree: &Tree) -> bool
    ensures { result ≡ is_xmacro tree.now }
{
    match tree.label() {
        None => false,
        Some(label) => label.bytes() == b"xmacro".as_slice(),
    }
}

/// The second of two children, where the first is a text.
#[tactic(auto, using(crate::proofs::AllArguments::body_rules, std::proofs::lemmas::Grind::common_steps))]
pub(crate) fn body_behind(tree: &Tree) -> Option<&Tree>
    ensures { MatchOption result (xmacro_in (children_of tree.now) ≡ None)
        (λ b. xmacro_in (children_of tree.now) ≡ Some (first_word (children_of tree.now), b.now)) }
{
    let kids = tree.children();
    if kids.len() != 2 {
        return None;
    }
    if kids[0].text().is_none() {
        return None;
    }
    Some(&kids[1])
}

/// The last child, where all before it are texts.
#[tactic(auto, using(crate::proofs::Bodies::body_rules, std::proofs::lemmas::Grind::common_steps))]
pub(crate) fn body_of(tree: &Tree) -> Option<&Tree>
    ensures { MatchOption result (macro_in (children_of tree.now) ≡ None)
        (λ b. macro_in (children_of tree.now) ≡ Some (params_of (children_of tree.now), b.now)) }
{
    let kids = tree.children();
    if kids.is_empty() {
        return None;
    }
    let last = kids.len() - 1;
    for i in 0..last {
        if kids[i].text().is_none() {
            return None;
        }
    }
    Some(&kids[last])
}

// The text of a leaf, or nothing.
fn word_of(tree: &Tree) -> &[u8]
    ensures { result.now ≡ word_of tree.now }
{
    match tree.text() {
        None => &[],
        Some(text) => text.bytes(),
    }
}

/// What the name has where these are the parameters of a macro and these the arguments.
#[tactic(auto, using(crate::proofs::Bodies::argument_rules))]
pub(crate) fn argument_of(
    alloc: Global,
    meaning: &Tree,
    tag: &Tagged,
    name: &[u8],
) -> Result<Argument, Memory>
    ensures { IfOk result (λ r. found_of r
        ≡ argument name.now (params_of (children_of meaning.now)) (kids_of (tagged_of tag.now))) }
{
    let count = meaning.arity();
    if count == 0 {
        return Ok(Argument::Unbound);
    }
    for i in 0..count - 1 {
        let Some(kid) = meaning.child(i) else {
            unreachable!()
        };
        if word_of(kid) == name {
            return argument_at(alloc, tag, i);
        }
    }
    Ok(Argument::Unbound)
}

// The text of the first child, or nothing.
#[tactic(auto, using(crate::proofs::AllArguments::first_rules, std::proofs::lemmas::Grind::common_steps))]
fn first_word(tree: &Tree) -> &[u8]
    ensures { result.now ≡ first_word (children_of tree.now) }
{
    match tree.child(0) {
        None => &[],
        Some(kid) => word_of(kid),
    }
}

/// What the name has where this is an `xmacro` and these are the arguments.
pub(crate) fn all_arguments(meaning: &Tree, tag: &Tagged, name: &[u8]) -> Result<Argument, Memory>
    ensures { IfOk result (λ r. found_of r
        ≡ argument_in name.now (call_all (first_word (children_of meaning.now)) (kids_of (tagged_of tag.now)) top)) }
{
    if first_word(meaning) == name {
        return Ok(Argument::All(Tagged {
            tree: tag.tree.share()?,
            at: share_origin(&tag.at)?,
        }));
    }
    Ok(Argument::Unbound)
}

// The argument of this number.
#[tactic(auto, using(crate::proofs::Bodies::first_rules, std::proofs::lemmas::Grind::common_steps))]
fn argument_at(alloc: Global, tag: &Tagged, i: u32) -> Result<Argument, Memory>
    ensures { IfOk result (λ r. found_of r ≡ first_argument (drop i (kids_of (tagged_of tag.now)))) }
{
    match tag.child(alloc, i)? {
        None => Ok(Argument::Missing),
        Some(found) => Ok(Argument::Here(found)),
    }
}
