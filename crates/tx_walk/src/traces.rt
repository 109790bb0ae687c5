// Traces of what children evaluated to together.
ghost use Rattle.std.specs.Prelude.{◌≡◌, true, false, codes, IfOk, Some, None, if◌then◌else◌};
ghost use Rattle.tx_tree.specs.WideTree.{label_of};
ghost use Rattle.tx_exec.specs.Outcomes.{wide_trace, wide_outcome, NamesOnce};
ghost use Rattle.tx_walk.specs.Steps.{so_far_of, FitsNode, document_at};
ghost use Rattle.tx_walk.specs.Walked.{AreOnce};

use crate::joined::Joined;
use crate::origins::node_at;
use std::alloc::Global;
use tx_base::Memory;
use tx_exec::{Outcome, Trace, looks_of, writes_of};
use tx_tree::{Path, Tree};

// The trace of the `document` at this origin, whose children evaluated to this.
fn document_trace(alloc: Global, t: &Tree, path: &Path, joined: Joined) -> Result<Trace, Memory>
    requires label { label_of t.now ≡ Some (codes "document") }
    requires fits { FitsNode (so_far_of joined) }
    ensures trace { IfOk result (λ w. wide_trace w ≡ document_at path.now (so_far_of joined)) }
    ensures once { IfOk result AreOnce }
{
    let cost = 1 + joined.cost;
    let height = 1 + joined.height;
    let looks = looks_of(joined.looks, alloc)?;
    let writes = writes_of(joined.writes, alloc)?;
    let value = node_at(alloc, t, path, joined.values)?;
    Ok(Trace {
        value,
        looks,
        writes,
        cost,
        height,
    })
}

/// What the `document` at this origin evaluates to, where its children evaluated to this, or one ran out.
pub(crate) fn document_of(
    alloc: Global,
    t: &Tree,
    path: &Path,
    joined: Joined,
    went: bool,
) -> Result<Outcome, Memory>
    requires label { label_of t.now ≡ Some (codes "document") }
    requires fits { went ≡ true → FitsNode (so_far_of joined) }
    ensures outcome { IfOk result (λ o. wide_outcome o
        ≡ (if went then Some (document_at path.now (so_far_of joined)) else None)) }
    ensures once { IfOk result NamesOnce }
{
    if !went {
        return Ok(Outcome::Over);
    }
    let trace = document_trace(alloc, t, path, joined)?;
    Ok(Outcome::Done(trace))
}
