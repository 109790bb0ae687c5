// Traces that share what they hold.
ghost use Rattle.std.specs.Prelude.{◌≡◌, IfOk};
ghost use Rattle.tx_origin.specs.Under.{value_under};
ghost use Rattle.tx_walk.specs.Walked.{IsTidy};

use crate::origins::origin_of;
use crate::part::Part;
use std::alloc::Global;
use tx_base::Memory;
use tx_env::Writes;
use tx_exec::{Looks, Trace};
use tx_origin::Value;
use tx_tree::{Path, share_tree};

fn share_looks(alloc: Global, looks: &Looks) -> Result<Looks, Memory>
    ensures { IfOk result (λ l. l ≡ looks.now) }
{
    let mut pairs = Vec::new(alloc);
    for (name, found) in looks.pairs() {
        pairs.push((name.copy()?, share_tree(found)?))?;
    }
    Ok(Looks::new(pairs))
}

fn share_writes(alloc: Global, writes: &Writes) -> Result<Writes, Memory>
    ensures { IfOk result (λ w. w ≡ writes.now) }
{
    let mut pairs = Vec::new(alloc);
    for (name, tree) in writes.pairs() {
        pairs.push((name.copy()?, tree.share()?))?;
    }
    Ok(Writes::new(pairs))
}

/// A copy of the trace, which shares its value and its trees. The one error is `Memory`.
pub fn share_trace(alloc: Global, trace: &Trace) -> Result<Trace, Memory>
    ensures { IfOk result (λ t. t ≡ trace.now) }
{
    Ok(Trace {
        value: trace.value.share()?,
        looks: share_looks(alloc, &trace.looks)?,
        writes: share_writes(alloc, &trace.writes)?,
        cost: trace.cost,
        height: trace.height,
    })
}

/// The value under the path. At the root it is unchanged.
pub(crate) fn value_at(alloc: Global, path: &Path, value: &Value) -> Result<Value, Memory>
    ensures { IfOk result (λ v. v ≡ value_under path.now value.now) }
{
    if path.steps().is_empty() {
        return value.share();
    }
    let base = origin_of(alloc, path)?;
    value.under(alloc, &base)
}

/// The part's value under its path. It is made anew only where it isn't at hand. The one error is `Memory`.
pub fn placed_value(alloc: Global, part: &Part) -> Result<Value, Memory>
    requires { IsTidy part.now }
    ensures { IfOk result (λ v. v ≡ value_under part.now.path part.now.trace.value) }
{
    match &part.placed {
        Some(value) => value.share(),
        None => value_at(alloc, &part.path, &part.trace.value),
    }
}

/// The part's trace, with its path before each origin of the value.
pub(crate) fn placed_trace(alloc: Global, part: &Part) -> Result<Trace, Memory>
    requires { IsTidy part.now }
    ensures { IfOk result (λ t. t
        ≡ record part.now.trace { value = value_under part.now.path part.now.trace.value }) }
{
    Ok(Trace {
        value: placed_value(alloc, part)?,
        looks: share_looks(alloc, &part.trace.looks)?,
        writes: share_writes(alloc, &part.trace.writes)?,
        cost: part.trace.cost,
        height: part.trace.height,
    })
}
