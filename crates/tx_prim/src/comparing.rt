// The rows that compare or test operands.
ghost use Rattle.std.specs.Prelude.{◌≡◌};
ghost use Rattle.std.specs.List.{list_all, list_any};
ghost use Rattle.tx_prim.specs.Operands.{amount_of};
ghost use Rattle.tx_prim.specs.Arithmetic.{accepts, order_of, compared, sameness};
ghost use Rattle.tx_prim.specs.Arithmetic.{all_true, some_true, one_true, none_true};

use crate::amounts::{Amount, Answer};
use crate::arithmetic::BAD;
use crate::operands::amount_of;
use std::cmp::Ordering;
use tx_tree::Tree;

/// Which orders a comparison accepts.
#[derive(Clone, Copy, Debug, PartialEq, Eq)]
pub enum Comparison {
    /// The first comes before the second.
    Before,
    /// The first doesn't come after the second.
    NotBehind,
    /// The first comes after the second.
    Behind,
    /// It doesn't come before it.
    NotBefore,
}

impl Comparison {
    fn accepts(self, order: Ordering) -> bool
        ensures { result ≡ accepts self order }
    {
        match self {
            Comparison::Before => order.is_lt(),
            Comparison::NotBehind => order.is_le(),
            Comparison::Behind => order.is_gt(),
            Comparison::NotBefore => order.is_ge(),
        }
    }
}

// The order of two texts: of numbers, else of lengths, else of their bytes.
fn order_of(s: &[u8], t: &[u8]) -> Ordering
    ensures { result ≡ order_of (amount_of s.now) (amount_of t.now) s.now t.now }
{
    match (amount_of(s), amount_of(t)) {
        (Some(Amount::Number(x)), Some(Amount::Number(y))) => x.cmp(&y),
        (Some(Amount::Length(x)), Some(Amount::Length(y))) => x.cmp(&y),
        _ => s.cmp(t),
    }
}

pub(crate) fn compared(comparison: Comparison, operands: &[Tree]) -> Answer
    ensures { result ≡ compared comparison operands.now }
{
    match operands {
        [a, b] => match (a.text(), b.text()) {
            (Some(s), Some(t)) => Answer::Truth(comparison.accepts(order_of(s.bytes(), t.bytes()))),
            _ => BAD,
        },
        _ => BAD,
    }
}

// Whether two trees are the same, or whether they differ.
pub(crate) fn sameness(wanted: bool, operands: &[Tree]) -> Answer
    ensures { result ≡ sameness wanted operands.now }
{
    match operands {
        [a, b] => {
            let same = a.same(b);
            Answer::Truth(if wanted { same } else { !same })
        }
        _ => BAD,
    }
}

fn are_all(truths: &[bool]) -> bool
    ensures { result ≡ list_all (λ x. x) truths.now }
{
    truths.iter().all(|truth| *truth)
}

fn is_any(truths: &[bool]) -> bool
    ensures { result ≡ list_any (λ x. x) truths.now }
{
    truths.iter().any(|truth| *truth)
}

pub(crate) fn all_true(truths: &[bool]) -> Answer
    ensures { result ≡ all_true truths.now }
{
    if truths.is_empty() {
        return BAD;
    }
    Answer::Truth(are_all(truths))
}

pub(crate) fn some_true(truths: &[bool]) -> Answer
    ensures { result ≡ some_true truths.now }
{
    if truths.is_empty() {
        return BAD;
    }
    Answer::Truth(is_any(truths))
}

pub(crate) fn one_true(truths: &[bool]) -> Answer
    ensures { result ≡ one_true truths.now }
{
    match truths {
        [a, b] => Answer::Truth(*a != *b),
        _ => BAD,
    }
}

pub(crate) fn none_true(truths: &[bool]) -> Answer
    ensures { result ≡ none_true truths.now }
{
    match truths {
        [a] => Answer::Truth(!*a),
        _ => BAD,
    }
}
