// What operands are read as.
ghost use Rattle.std.specs.Prelude.{◌≡◌, MatchOption, None, Some, IfOk, IfSome, is_some};
ghost use Rattle.tx_tree.specs.Limits.{IsWithinLimits};
ghost use Rattle.tx_prim.specs.Table.{tuple_node};
ghost use Rattle.tx_prim.specs.Operands.{every, integer_in, amount_of, amount_in, truth_of, truth_in, tuple_in};

use crate::amounts::Amount;
use crate::lengths::length_of;
use crate::numbers::integer_of;
use std::alloc::Global;
use tx_tree::{Memory, Tree};

// The number that a text writes.
pub(crate) fn integer_in(t: &Tree) -> Option<i64>
    ensures { result ≡ integer_in t.now }
{
    match t.text() {
        None => None,
        Some(text) => integer_of(text.bytes()),
    }
}

// The number that the bytes write, or else the length.
pub(crate) fn amount_of(bytes: &[u8]) -> Option<Amount>
    ensures { result ≡ amount_of bytes.now }
{
    match (integer_of(bytes), length_of(bytes)) {
        (Some(n), _) => Some(Amount::Number(n)),
        (None, Some(mcell)) => Some(Amount::Length(mcell)),
        (None, None) => None,
    }
}

// The number or the length that a text writes.
fn amount_in(t: &Tree) -> Option<Amount>
    ensures { result ≡ amount_in t.now }
{
    match t.text() {
        None => None,
        Some(text) => amount_of(text.bytes()),
    }
}

// What the operands write, where each is a number or a length.
#[tactic(auto, using(crate::proofs::Collecting::collecting, std::proofs::lemmas::Grind::common_steps))]
pub(crate) fn amounts(alloc: Global, operands: &[Tree]) -> Result<Option<Vec<Amount>>, Memory>
    ensures { IfOk result (λ found. MatchOption found (every amount_in operands.now ≡ None)
        (λ all. every amount_in operands.now ≡ Some all.items)) }
{
    let mut all = Vec::new(alloc);
    for operand in operands {
        match amount_in(operand) {
            Some(amount) => all.push(amount)?,
            None => return Ok(None),
        }
    }
    Ok(Some(all))
}

// What the text says: true or false.
fn truth_of(bytes: &[u8]) -> Option<bool>
    ensures { result ≡ truth_of bytes.now }
{
    if bytes == b"true".as_slice() {
        Some(true)
    } else if bytes == b"false".as_slice() {
        Some(false)
    } else {
        None
    }
}

fn truth_in(t: &Tree) -> Option<bool>
    ensures { result ≡ truth_in t.now }
{
    match t.text() {
        None => None,
        Some(text) => truth_of(text.bytes()),
    }
}

// What the operands say, where each is one of the texts true and false.
#[tactic(auto, using(crate::proofs::Collecting::collecting, std::proofs::lemmas::Grind::common_steps))]
pub(crate) fn truths(alloc: Global, operands: &[Tree]) -> Result<Option<Vec<bool>>, Memory>
    ensures { IfOk result (λ found.
        MatchOption found (every truth_in operands.now ≡ None) (λ all. every truth_in operands.now ≡ Some all.items)) }
{
    let mut all = Vec::new(alloc);
    for operand in operands {
        match truth_in(operand) {
            Some(truth) => all.push(truth)?,
            None => return Ok(None),
        }
    }
    Ok(Some(all))
}

// Whether the tree is a tuple.
pub(crate) fn is_labelled_tuple(t: &Tree) -> bool
    ensures { result ≡ is_some (tuple_in t.now) }
{
    match t.label() {
        None => false,
        Some(label) => label.bytes() == b"tuple".as_slice(),
    }
}

// The children of a tuple.
#[tactic(auto, using(crate::proofs::Within::within, std::proofs::lemmas::Grind::common_steps))]
pub(crate) fn tuple_in(t: &Tree) -> Option<&[Tree]>
    ensures is { MatchOption result (tuple_in t.now ≡ None) (λ ts. tuple_in t.now ≡ Some ts.now) }
    ensures within { IfSome result (λ ts. IsWithinLimits (tuple_node ts.now)) }
{
    let _size = t.size();
    if is_labelled_tuple(t) {
        Some(t.children())
    } else {
        None
    }
}
