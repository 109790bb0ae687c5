// The trace of a unit, as it is cached.
ghost use Rattle.std.specs.Prelude.{◌≡◌, IfOk, IfSome, MatchOption, None, Some};
ghost use Rattle.tx_exec.specs.Outcomes.{wide_outcome, wide_trace, NamesOnce};
ghost use Rattle.tx_view_form.specs.Outcomes.{unit_value, over_value};
ghost use Rattle.tx_unit_traces.specs.Traces.{AreOnce};

use std::alloc::Global;
use std::marker::Model;
use std::rc::Rc;
use tx_base::Memory;
use tx_exec::{Outcome, Trace};
use tx_origin::Value;
use tx_tree::{Label, text_of};

/// The trace of a unit, or none, where nothing is cached, or the unit runs out of steps or levels. Copies share it.
#[derive(Drop)]
pub struct UnitTrace {
    trace: Option<Rc<Trace>>,
}

impl Model for UnitTrace {
    ghost use Rattle.std.specs.Prelude.{Option, IfSome};
    ghost use Rattle.std.specs.Option.{option_map};
    ghost use Rattle.std.specs.Coded.{coded_option};
    ghost use Rattle.tx_exec_form.specs.Evaluated.{WideTrace};
    ghost use Rattle.tx_exec.specs.Outcomes.{wide_trace};
    ghost use Rattle.tx_unit_traces.specs.Traces.{AreOnce, coded_trace};

    ghost Value = { Option WideTrace };

    ghost coded = { coded_option coded_trace };

    ghost view = { λ t. option_map (λ r. wide_trace r.value) t.trace };

    ghost invariant = { λ t. IfSome t.trace (λ r. AreOnce r.value) };
}

impl UnitTrace {
    /// None.
    pub fn none() -> UnitTrace
        ensures { result ≡ None }
    {
        UnitTrace { trace: None }
    }

    /// What a unit evaluated to.
    pub fn new(alloc: Global, outcome: Outcome) -> Result<UnitTrace, Memory>
        requires { NamesOnce outcome }
        ensures { IfOk result (λ t. t ≡ wide_outcome outcome) }
    {
        match outcome {
            Outcome::Over => Ok(UnitTrace { trace: None }),
            Outcome::Done(trace) => Ok(UnitTrace {
                trace: Some(Rc::new(alloc, trace)?),
            }),
        }
    }

    /// The trace, if there is one.
    pub fn trace(&self) -> Option<&Trace>
        ensures is { MatchOption result (self.now ≡ None) (λ t. self.now ≡ Some (wide_trace t.now)) }
        ensures once { IfSome result (λ t. AreOnce t.now) }
    {
        match &self.trace {
            None => None,
            Some(trace) => Some(&**trace),
        }
    }

    /// A copy, which shares the trace.
    pub fn share(&self) -> Result<UnitTrace, Memory>
        ensures { IfOk result (λ t. t ≡ self.now) }
    {
        match &self.trace {
            None => Ok(UnitTrace { trace: None }),
            Some(trace) => Ok(UnitTrace {
                trace: Some(trace.clone()?),
            }),
        }
    }

    /// The value of a unit that evaluated to this.
    pub fn value(&self, alloc: Global) -> Result<Value, Memory>
        ensures { IfOk result (λ v. v ≡ unit_value self.now) }
    {
        match &self.trace {
            None => over_value(alloc),
            Some(trace) => trace.value.share(),
        }
    }
}

/// The value of a unit that runs out of steps or levels.
pub fn over_value(alloc: Global) -> Result<Value, Memory>
    ensures { IfOk result (λ v. v ≡ over_value) }
{
    let kind = Value::leaf(alloc, text_of(alloc, b"over".as_slice())?, None)?;
    let detail = Value::leaf(alloc, text_of(alloc, b"".as_slice())?, None)?;
    let parts = vec![in alloc; kind, detail]?;
    match Label::new(alloc, b"error".as_slice()) {
        Ok(label) => Value::node(alloc, label, parts, None),
        Err(_) => Err(Memory),
    }
}
