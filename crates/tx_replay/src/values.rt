// Values of open trees.
ghost use Rattle.std.specs.Prelude.{◌≡◌, ◌<◌, ◌++◌, ◌∷◌, [], length, codes, IfOk, Some};
ghost use Rattle.tx_tree.specs.WideTree.{label_of, total_size, deepest};
ghost use Rattle.tx_origin.specs.Values.{made, vals, plains};

use crate::origins::node_at;
use std::alloc::Global;
use tx_base::Memory;
use tx_origin::Value;
use tx_tree::{Path, Tree};

/// The value of the `with` at this origin, of the values of names and texts and that of its last child.
pub(crate) fn with_value(
    alloc: Global,
    t: &Tree,
    path: &Path,
    mut values: Vec<Value>,
    inner: Value,
) -> Result<Value, Memory>
    requires label { label_of t.now ≡ Some (codes "with") }
    requires arity { length values.items < 65535 }
    requires depth { deepest (plains (vals (values.items ++ inner ∷ []))) < 400 }
    requires size { total_size (plains (vals (values.items ++ inner ∷ []))) < 1000000 }
    ensures { IfOk result (λ v. v ≡ made (codes "with") (vals (values.items ++ inner ∷ [])) (Some path.now)) }
{
    values.push(inner)?;
    node_at(alloc, t, path, values)
}
