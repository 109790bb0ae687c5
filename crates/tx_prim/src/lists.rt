// The rows on texts and tuples whose values are parts of their operands, or these joined.
ghost use Rattle.std.specs.Prelude.{◌≡◌, ◌≤◌, ◌+◌, length, IfOk, OnOk, MatchOption, IfSome, None, Some};
ghost use Rattle.std.specs.Option.{option_map};
ghost use Rattle.std.specs.Prelude.{◌++◌};
ghost use Rattle.tx_tree.specs.WideTree.{forest, total_size, text_of};
ghost use Rattle.tx_tree.specs.Limits.{IsWithinLimits};
ghost use Rattle.tx_tree.specs.Texts.{IsText};
ghost use Rattle.tx_prim.specs.Items.{joined_lists, text_items};
ghost use Rattle.tx_prim.specs.Operands.{every, tuple_in, part, IsRising, AreShallow};
ghost use Rattle.tx_prim.specs.Table.{merged, joined_texts, ranged, tree_part, looked_up};
ghost use Rattle.tx_prim.specs.Table.{label_told, text_part, tuple_part, tuple_node, child_numbered};

use crate::MOST_OPERANDS;
use crate::amounts::ValueFault;
use crate::items::{item_count, items_between};
use crate::making::{failure, leaf_of, tuple_of};
use crate::names::Prim;
use crate::operands::{integer_in, tuple_in};
use std::alloc::Global;
use std::sync::ledger::Ledger;
use tx_base::Steps;
use tx_tree::{Kind, MOST_ARITY, Memory, Text, Tree, share_onto, shares};

// The bytes of all texts, or None where an operand is none.
#[tactic(auto, using(crate::proofs::Collecting::collecting, std::proofs::lemmas::Grind::common_steps))]
fn joined_texts(alloc: Global, operands: &[Tree]) -> Result<Option<Vec<u8>>, Memory>
    ensures is { IfOk result (λ found. MatchOption found (every text_of operands.now ≡ None)
        (λ v. option_map joined_lists (every text_of operands.now) ≡ Some v.items)) }
    ensures text { IfOk result (λ found. IfSome found (λ v. IsText v.items)) }
{
    let mut all = Vec::new(alloc);
    for operand in operands {
        match operand.text() {
            Some(text) => all.extend_from_slice(text.bytes())?,
            None => return Ok(None),
        }
    }
    Ok(Some(all))
}

// The children of all tuples, or None where an operand is none.
#[tactic(auto, using(crate::proofs::Collecting::collecting, std::proofs::lemmas::Grind::common_steps))]
fn joined_tuples(alloc: Global, operands: &[Tree]) -> Result<Option<Vec<Tree>>, Memory>
    ensures is { IfOk result (λ found. MatchOption found (every tuple_in operands.now ≡ None)
        (λ v. option_map joined_lists (every tuple_in operands.now) ≡ Some v.items)) }
    ensures shallow { IfOk result (λ found. IfSome found (λ v. AreShallow v.items)) }
{
    let mut all = Vec::new(alloc);
    for operand in operands {
        match tuple_in(operand) {
            Some(children) => share_onto(&mut all, children)?,
            None => return Ok(None),
        }
    }
    Ok(Some(all))
}

// The tuples joined, where all operands are tuples.
#[tactic(auto, using(crate::proofs::Within::within, std::proofs::lemmas::Grind::common_steps))]
fn merge_tuples<L: Ledger>(
    alloc: Global,
    operands: &[Tree],
    steps: &mut Steps<L>,
) -> Result<Tree, Memory>
    requires { total_size (forest operands.now) ≤ MOST_OPERANDS }
    ensures made { IfOk result (λ t. t ≡ joined_texts None (every tuple_in operands.now)) }
    ensures counted { OnOk result (steps.new ≡ steps.old + 1) }
{
    match joined_tuples(alloc, operands)? {
        None => failure(alloc, ValueFault::Bad, Prim::Merge, steps),
        Some(children) => {
            if children.len() > MOST_ARITY {
                return failure(alloc, ValueFault::Limit, Prim::Merge, steps);
            }
            tuple_of(alloc, children, steps)
        }
    }
}

// Texts joined, or tuples.
#[tactic(auto, using(crate::proofs::Within::within, std::proofs::lemmas::Grind::common_steps))]
pub(crate) fn merge<L: Ledger>(
    alloc: Global,
    operands: &[Tree],
    steps: &mut Steps<L>,
) -> Result<Tree, Memory>
    requires { total_size (forest operands.now) ≤ MOST_OPERANDS }
    ensures made { IfOk result (λ t. t ≡ merged operands.now) }
    ensures counted { OnOk result (steps.new ≡ steps.old + 1) }
{
    match joined_texts(alloc, operands)? {
        Some(bytes) => {
            steps.tick();
            leaf_of(alloc, &bytes)
        }
        None => merge_tuples(alloc, operands, steps),
    }
}

// The places i and j as numbers, where 0, i, j and n are in rising order.
fn rising(i: i64, j: i64, n: usize) -> Option<(usize, usize)>
    ensures { IsRising i j n result }
{
    if i < 0 || j < 0 {
        return None;
    }
    let (i, j) = (i as usize, j as usize);
    if i <= j && j <= n { Some((i, j)) } else { None }
}

// The items from place i to before j.
#[tactic(auto, using(crate::proofs::ItemRuns::between, std::proofs::lemmas::Grind::common_steps))]
fn part_of_text<L: Ledger>(
    alloc: Global,
    text: &Text,
    i: i64,
    j: i64,
    steps: &mut Steps<L>,
) -> Result<Tree, Memory>
    ensures made { IfOk result (λ t. t ≡ text_part (part i j (text_items text.now))) }
    ensures counted { OnOk result (steps.new ≡ steps.old + 1) }
{
    let bytes = text.bytes();
    match rising(i, j, item_count(bytes)) {
        None => failure(alloc, ValueFault::NoPart, Prim::Range, steps),
        Some((i, j)) => {
            steps.tick();
            leaf_of(alloc, items_between(bytes, i, j))
        }
    }
}

// The children from place i to before j.
#[tactic(auto, using(crate::proofs::Within::within, std::proofs::lemmas::Grind::common_steps))]
fn part_of_tuple<L: Ledger>(
    alloc: Global,
    children: &[Tree],
    i: i64,
    j: i64,
    steps: &mut Steps<L>,
) -> Result<Tree, Memory>
    requires { IsWithinLimits (tuple_node children.now) }
    ensures made { IfOk result (λ t. t ≡ tuple_part (part i j children.now)) }
    ensures counted { OnOk result (steps.new ≡ steps.old + 1) }
{
    match rising(i, j, children.len()) {
        None => failure(alloc, ValueFault::NoPart, Prim::Range, steps),
        Some((i, j)) => {
            let part = shares(alloc, &children[i..j])?;
            tuple_of(alloc, part, steps)
        }
    }
}

// The part of a text or a tuple.
fn tree_part<L: Ledger>(
    alloc: Global,
    t: &Tree,
    i: i64,
    j: i64,
    steps: &mut Steps<L>,
) -> Result<Tree, Memory>
    ensures made { IfOk result (λ u. u ≡ tree_part t.now i j) }
    ensures counted { OnOk result (steps.new ≡ steps.old + 1) }
{
    if let Some(text) = t.text() {
        return part_of_text(alloc, text, i, j, steps);
    }
    match tuple_in(t) {
        Some(children) => part_of_tuple(alloc, children, i, j, steps),
        None => failure(alloc, ValueFault::Bad, Prim::Range, steps),
    }
}

// Some items of a text, or some children of a tuple.
pub(crate) fn range<L: Ledger>(
    alloc: Global,
    operands: &[Tree],
    steps: &mut Steps<L>,
) -> Result<Tree, Memory>
    ensures made { IfOk result (λ t. t ≡ ranged operands.now) }
    ensures counted { OnOk result (steps.new ≡ steps.old + 1) }
{
    match operands {
        [t, i, j] => match (integer_in(i), integer_in(j)) {
            (Some(i), Some(j)) => tree_part(alloc, t, i, j, steps),
            _ => failure(alloc, ValueFault::Bad, Prim::Range, steps),
        },
        _ => failure(alloc, ValueFault::Bad, Prim::Range, steps),
    }
}

// The child of this number.
fn child_numbered(children: &[Tree], i: i64) -> Option<&Tree>
    ensures { MatchOption result (child_numbered children.now i ≡ None)
        (λ t. child_numbered children.now i ≡ Some t.now) }
{
    if i < 0 {
        return None;
    }
    let i = i as usize;
    if i < children.len() {
        Some(&children[i])
    } else {
        None
    }
}

// A child by its number.
pub(crate) fn look_up<L: Ledger>(
    alloc: Global,
    operands: &[Tree],
    steps: &mut Steps<L>,
) -> Result<Tree, Memory>
    ensures made { IfOk result (λ t. t ≡ looked_up operands.now) }
    ensures counted { OnOk result (steps.new ≡ steps.old + 1) }
{
    match operands {
        [t, i] => match (t.kind(), integer_in(i)) {
            (Kind::Node, Some(i)) => match child_numbered(t.children(), i) {
                Some(child) => {
                    steps.tick();
                    child.share()
                }
                None => failure(alloc, ValueFault::NoPart, Prim::LookUp, steps),
            },
            _ => failure(alloc, ValueFault::Bad, Prim::LookUp, steps),
        },
        _ => failure(alloc, ValueFault::Bad, Prim::LookUp, steps),
    }
}

// The label of a node as a text.
pub(crate) fn label_told<L: Ledger>(
    alloc: Global,
    operands: &[Tree],
    steps: &mut Steps<L>,
) -> Result<Tree, Memory>
    ensures made { IfOk result (λ t. t ≡ label_told operands.now) }
    ensures counted { OnOk result (steps.new ≡ steps.old + 1) }
{
    match operands {
        [t] => match t.label() {
            Some(label) => {
                steps.tick();
                leaf_of(alloc, label.bytes())
            }
            None => failure(alloc, ValueFault::Bad, Prim::GetLabel, steps),
        },
        _ => failure(alloc, ValueFault::Bad, Prim::GetLabel, steps),
    }
}
