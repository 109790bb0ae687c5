// The trace of a part, as it is cached.
ghost use Rattle.std.specs.Prelude.{◌≡◌, IfOk, IfSome, MatchOption};
ghost use Rattle.tx_origin.specs.Under.{value_under};
ghost use Rattle.tx_exec.specs.Outcomes.{wide_trace};
ghost use Rattle.tx_replay.specs.Traces.{AreOnce};

use crate::origins::origin_of;
use std::alloc::Global;
use std::marker::Model;
use std::rc::Rc;
use tx_base::Memory;
use tx_exec::Trace;
use tx_origin::Value;
use tx_tree::Path;

// A value, each of whose origins has this path before it.
#[derive(Drop)]
pub(crate) struct Placed {
    path: Path,
    value: Value,
}

/// The trace of a part, with origins that begin at the part. Copies share it, and its value as it is in the unit.
#[derive(Drop)]
pub struct PartTrace {
    trace: Rc<Trace>,
    placed: Option<Placed>,
}

impl Model for PartTrace {
    ghost use Rattle.tx_exec_form.specs.Evaluated.{WideTrace};
    ghost use Rattle.tx_exec.specs.Outcomes.{wide_trace};
    ghost use Rattle.tx_replay.specs.Traces.{coded_trace, IsPartTrace};

    ghost Value = { WideTrace };

    ghost coded = { coded_trace };

    ghost view = { λ t. wide_trace t.trace.value };

    ghost invariant = { λ t. IsPartTrace t.trace.value t.placed };
}

// The value under the path.
fn value_at(alloc: Global, path: &Path, value: &Value) -> Result<Value, Memory>
    ensures { IfOk result (λ v. v ≡ value_under path.now value.now) }
{
    let base = origin_of(alloc, path)?;
    value.under(alloc, &base)
}

// What was put under a path is put there again.
fn share_placed(alloc: Global, placed: &Option<Placed>) -> Result<Option<Placed>, Memory>
    ensures { IfOk result (λ p. p ≡ placed.now) }
{
    match placed {
        None => Ok(None),
        Some(placed) => Ok(Some(Placed {
            path: placed.path.copy(alloc)?,
            value: placed.value.share()?,
        })),
    }
}

impl PartTrace {
    /// This trace, in which no name occurs twice, of a part at this path.
    pub(crate) fn new(alloc: Global, path: &Path, trace: Trace) -> Result<PartTrace, Memory>
        requires { AreOnce trace }
        ensures { IfOk result (λ t. t ≡ wide_trace trace) }
    {
        let value = value_at(alloc, path, &trace.value)?;
        let placed = Placed {
            path: path.copy(alloc)?,
            value,
        };
        Ok(PartTrace {
            trace: Rc::new(alloc, trace)?,
            placed: Some(placed),
        })
    }

    /// The trace.
    pub fn trace(&self) -> &Trace
        ensures is { wide_trace result.now ≡ self.now }
        ensures once { AreOnce result.now }
    {
        &self.trace
    }

    /// A copy, which shares the trace.
    pub fn share(&self, alloc: Global) -> Result<PartTrace, Memory>
        ensures { IfOk result (λ t. t ≡ self.now) }
    {
        Ok(PartTrace {
            trace: self.trace.clone()?,
            placed: share_placed(alloc, &self.placed)?,
        })
    }

    /// The trace of a part that is now at this path. Its value is put there, if it isn't there yet.
    pub(crate) fn moved(&self, alloc: Global, path: &Path) -> Result<PartTrace, Memory>
        ensures { IfOk result (λ t. t ≡ self.now) }
    {
        if let Some(placed) = &self.placed {
            if placed.path.steps() == path.steps() {
                return self.share(alloc);
            }
        }
        let value = value_at(alloc, path, &self.trace.value)?;
        let placed = Placed {
            path: path.copy(alloc)?,
            value,
        };
        Ok(PartTrace {
            trace: self.trace.clone()?,
            placed: Some(placed),
        })
    }

    /// The value of the part in the unit, where it is at this path. It is at hand, if it was put there.
    pub fn value_at(&self, alloc: Global, path: &Path) -> Result<Value, Memory>
        ensures { IfOk result (λ v. v ≡ value_under path.now self.now.value) }
    {
        if let Some(placed) = &self.placed {
            if placed.path.steps() == path.steps() {
                return placed.value.share();
            }
        }
        value_at(alloc, path, &self.trace.value)
    }
}
