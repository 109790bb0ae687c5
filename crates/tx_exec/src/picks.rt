// Conditions, and what they pick.
ghost use Rattle.std.specs.Prelude.{◌≡◌, ◌+◌, ◌*◌, ◌<◌, ◌≤◌, IfOk, length, codes, Option, None};
ghost use Rattle.tx_tree.specs.WideTree.{total_size, deepest};
ghost use Rattle.tx_origin.specs.Values.{made, vals, plains};
ghost use Rattle.tx_exec_form.specs.Rows.{value_truth};

use crate::calls::label_of;
use std::alloc::Global;
use tx_base::Memory;
use tx_origin::Value;

/// What the conditions of an `if` or a `case` pick.
#[derive(Clone, Copy, Debug, PartialEq, Eq)]
pub(crate) enum Pick {
    /// A condition is neither true nor false.
    Bad,
    /// The branch that is the child of this number.
    Branch(u32),
    /// No branch.
    Nothing,
}

/// How a `while` ends.
#[derive(Clone, Copy, Debug, PartialEq, Eq)]
pub(crate) enum Ending {
    /// A condition is neither true nor false.
    Bad,
    /// The condition is false.
    Finished,
    /// The condition is true after the most turns.
    Limit,
}

/// Whether the value is the text `true` or `false`, or None where it is neither.
pub(crate) fn truth_in(value: &Value) -> Option<bool>
    ensures { result ≡ value_truth value.now }
{
    let Some(words) = value.text() else {
        return None;
    };
    if words.bytes() == b"true".as_slice() {
        return Some(true);
    }
    if words.bytes() == b"false".as_slice() {
        return Some(false);
    }
    None
}

/// How many pairs there are of so many.
pub(crate) fn half(count: u32) -> u32
    ensures least { 2 * result ≤ count }
    ensures most { count ≤ 2 * result + 1 }
{
    count / 2
}

/// The `concat` of these values.
pub(crate) fn joined(alloc: Global, values: Vec<Value>) -> Result<Value, Memory>
    requires arity { length values.items ≤ 65535 }
    requires size { total_size (plains (vals values.items)) ≤ 1000000 }
    requires depth { deepest (plains (vals values.items)) < 400 }
    ensures { IfOk result (λ v. v ≡ made (codes "concat") (vals values.items) None) }
{
    let label = label_of(alloc, b"concat".as_slice())?;
    Value::node(alloc, label, values, None)
}
