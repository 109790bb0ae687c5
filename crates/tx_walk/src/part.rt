// Parts with their traces.
ghost use Rattle.std.specs.Prelude.{◌≡◌, IfOk, IfSome};
ghost use Rattle.tx_origin.specs.Under.{value_under};
ghost use Rattle.tx_walk.specs.Walked.{IsTidy};

use crate::sharing::share_trace;
use std::alloc::Global;
use tx_base::Memory;
use tx_exec::Trace;
use tx_origin::Value;
use tx_tree::Path;

/// A part of a unit, with its trace.
#[derive(Drop)]
pub struct Part {
    /// Its path.
    pub path: Path,
    /// Its trace alone, with origins that begin at the part.
    pub trace: Trace,
    /// Whether no cached trace of it fits, so that it was evaluated, or is the spare's.
    pub renewed: bool,
    /// The value of its trace with origins that begin at the unit, where it is at hand.
    pub placed: Option<Value>,
}

// A copy of the value, or nothing.
fn share_value(value: &Option<Value>) -> Result<Option<Value>, Memory>
    ensures { IfOk result (λ v. v ≡ value.now) }
{
    match value {
        None => Ok(None),
        Some(value) => Ok(Some(value.share()?)),
    }
}

impl Part {
    // The part's value in the unit, where it is at hand and the part is at this path.
    fn placed_at(&self, path: &Path) -> Result<Option<Value>, Memory>
        requires { IsTidy self.now }
        ensures { IfOk result (λ o. IfSome o (λ v. v ≡ value_under path.now self.now.trace.value)) }
    {
        if path.steps() == self.path.steps() {
            return share_value(&self.placed);
        }
        Ok(None)
    }

    /// A copy of the part at this path. It isn't renewed.
    pub fn moved(&self, alloc: Global, path: Path) -> Result<Part, Memory>
        requires tidy { IsTidy self.now }
        ensures path { IfOk result (λ p. p.path ≡ path) }
        ensures trace { IfOk result (λ p. p.trace ≡ self.now.trace) }
        ensures tidy { IfOk result (λ p. IsTidy p) }
    {
        let placed = self.placed_at(&path)?;
        Ok(Part {
            path,
            trace: share_trace(alloc, &self.trace)?,
            renewed: false,
            placed,
        })
    }
}
