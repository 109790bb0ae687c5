// Origins that are paths, and nodes that have them.
ghost use Rattle.std.specs.Prelude.{◌≡◌, ◌<◌, ◌≤◌, ℕ, List, length, is_some, true, IfOk, Some};
ghost use Rattle.tx_tree.specs.WideTree.{label_of, total_size, deepest};
ghost use Rattle.tx_origin.specs.Values.{made, vals, plains};

use std::alloc::Global;
use tx_base::Memory;
use tx_origin::{Ip, Value};
use tx_tree::{Path, Tree};

/// The origin of the tree to which the path leads.
pub(crate) fn origin_of(alloc: Global, path: &Path) -> Result<Ip, Memory>
    ensures { IfOk result (λ p. p ≡ path.now) }
{
    let mut origin = Ip::root();
    for i in path.steps() {
        origin = origin.child(alloc, *i)?;
    }
    Ok(origin)
}

/// A node with the tree's label and these values, whose origin is the path.
pub(crate) fn node_at(
    alloc: Global,
    t: &Tree,
    path: &Path,
    values: Vec<Value>,
) -> Result<Value, Memory>
    requires node { is_some (label_of t.now) ≡ true }
    requires arity { length values.items ≤ 65535 }
    requires depth { deepest (plains (vals values.items)) < 400 }
    requires size { total_size (plains (vals values.items)) < 1000000 }
    ensures { IfOk result (λ v. (label : List ℕ) → label_of t.now ≡ Some label →
        v ≡ made label (vals values.items) (Some path.now)) }
{
    let Some(label) = t.label() else {
        unreachable!()
    };
    let origin = origin_of(alloc, path)?;
    Value::node(alloc, label.copy()?, values, Some(origin))
}
