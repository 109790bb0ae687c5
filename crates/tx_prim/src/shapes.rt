// The rows on the shape of one operand.
ghost use Rattle.std.specs.Prelude.{◌≡◌};
ghost use Rattle.tx_prim.specs.Table.{length_row, tuple_row, arity_row};

use crate::amounts::{Amount, Answer};
use crate::arithmetic::BAD;
use crate::items::item_count;
use crate::operands::is_labelled_tuple;
use tx_tree::Tree;

// The number of items of a text, or of children.
pub(crate) fn length(operands: &[Tree]) -> Answer
    ensures { result ≡ length_row operands.now }
{
    match operands {
        [t] => match t.text() {
            Some(text) => Answer::Value(Amount::Number(item_count(text.bytes()) as i64)),
            None => Answer::Value(Amount::Number(i64::from(t.arity()))),
        },
        _ => BAD,
    }
}

// Whether the operand is a tuple.
pub(crate) fn is_tuple(operands: &[Tree]) -> Answer
    ensures { result ≡ tuple_row operands.now }
{
    match operands {
        [t] => Answer::Truth(is_labelled_tuple(t)),
        _ => BAD,
    }
}

// The number of children.
pub(crate) fn arity(operands: &[Tree]) -> Answer
    ensures { result ≡ arity_row operands.now }
{
    match operands {
        [t] => Answer::Value(Amount::Number(i64::from(t.arity()))),
        _ => BAD,
    }
}
