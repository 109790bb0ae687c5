// The moment before a unit.
ghost use Rattle.std.specs.Prelude.{◌≡◌, ◌+◌, ◌≤◌, [], IfOk, OnOk, OnErr};
ghost use Rattle.tx_env.specs.Environments.{overlaid};
ghost use Rattle.tx_origin.specs.TaggedTrees.{tagged_of};
ghost use Rattle.tx_view_form.specs.Outcomes.{beginning, allowance, outcome, charge, behind, unit_value};
ghost use Rattle.tx_unit_traces.specs.Moments.{IsPaid, beginning_with};

use crate::unit_trace::UnitTrace;
use std::alloc::Global;
use std::marker::Model;
use std::mem;
use std::sync::ledger::Ledger;
use tx_base::{Memory, Steps};
use tx_env::{Env, Writes};
use tx_exec::eval;
use tx_exec_form::{size_law, trace_laws};
use tx_origin::{Tagged, Value};
use tx_view_form::{MOST_UNIT_STEPS, MOST_VIEW_STEPS};

// Sets each name to its tree, in order. Where there is none, as with most paragraphs, it has nothing to do.
fn set_names(env: &mut Env, writes: &Writes) -> Result<(), Memory>
    ensures map { OnOk result (env.new.map ≡ overlaid env.old.map writes.now) }
    ensures scopes { OnOk result (env.new.scopes ≡ env.old.scopes) }
    ensures err { OnErr result (env.new ≡ env.old) }
{
    if writes.pairs().is_empty() {
        return Ok(());
    }
    env.overlay(writes)
}

/// What names have before a unit, and the steps that are left.
#[derive(Drop)]
pub struct Moment {
    env: Env,
    left: u64,
}

impl Model for Moment {
    ghost use Rattle.tx_view_form.specs.Outcomes.{Moment};
    ghost use Rattle.tx_unit_traces.specs.Moments.{coded_Moment};
    ghost use Rattle.std.specs.Prelude.{◌≡◌, []};

    ghost Value = { Moment };

    ghost coded = { coded_Moment };

    ghost view = { λ m. record { env = m.env.map; left = m.left } };

    ghost invariant = { λ m. m.env.scopes ≡ [] };
}

impl Moment {
    /// Before the first unit.
    pub fn beginning(alloc: Global) -> Moment
        ensures { result ≡ beginning }
    {
        Moment {
            env: Env::new(alloc),
            left: MOST_VIEW_STEPS,
        }
    }

    /// Before the first unit, where these names have been set, in order.
    pub fn beginning_with(alloc: Global, start: &Writes) -> Result<Moment, Memory>
        ensures { IfOk result (λ m. m ≡ beginning_with start.now) }
    {
        let mut env = Env::new(alloc);
        set_names(&mut env, start)?;
        Ok(Moment {
            env,
            left: MOST_VIEW_STEPS,
        })
    }

    /// What names have.
    pub fn env(&self) -> &Env
        ensures { result.now.map ≡ self.now.env }
    {
        &self.env
    }

    /// What names have, of a moment that is done with.
    pub fn into_env(self) -> Env
        ensures { result.map ≡ self.env }
    {
        self.env
    }

    /// The steps that are left.
    pub fn left(&self) -> u64
        ensures { result ≡ self.now.left }
    {
        self.left
    }

    /// The steps that one unit may take.
    pub fn allowance(&self) -> u64
        ensures { result ≡ allowance self.now }
    {
        MOST_UNIT_STEPS.min(self.left)
    }

    /// Takes what names have out of the moment, for an evaluation that gives it back to `put_env`.
    pub fn take_env(&mut self, alloc: Global) -> Env
        ensures map { result.map ≡ self.old.env }
        ensures scopes { result.scopes ≡ [] }
        ensures left { self.new.left ≡ self.old.left }
    {
        mem::replace(&mut self.env, Env::new(alloc))
    }

    /// Puts what names have into the moment.
    pub fn put_env(&mut self, env: Env)
        requires { env.scopes ≡ [] }
        ensures { self.new ≡ record { env = env.map; left = self.old.left } }
    {
        self.env = env;
    }

    /// What a unit with this tree evaluates to. The moment is unchanged.
    pub fn outcome<L: Ledger>(
        &mut self,
        alloc: Global,
        t: &Tagged,
        steps: &mut Steps<L>,
    ) -> Result<UnitTrace, Memory>
        ensures exact { IfOk result (λ o. o ≡ outcome (tagged_of t.now) self.old) }
        ensures counted { OnOk result (steps.new ≡ steps.old + charge self.old (outcome (tagged_of t.now) self.old)) }
        ensures stays { self.new ≡ self.old }
    {
        let allowance = MOST_UNIT_STEPS.min(self.left);
        let outcome = eval(alloc, t, &mut self.env, allowance, steps)?;
        let trace = UnitTrace::new(alloc, outcome)?;
        Ok(trace)
    }

    /// Takes the moment past a unit that evaluated to this.
    pub fn go_past(&mut self, trace: &UnitTrace) -> Result<(), Memory>
        requires enough { charge self.old trace.now ≤ self.old.left }
        ensures behind { OnOk result (self.new ≡ behind self.old trace.now) }
        ensures err { OnErr result (self.new ≡ self.old) }
    {
        match trace.trace() {
            None => {
                let allowance = MOST_UNIT_STEPS.min(self.left);
                self.left -= allowance;
            }
            Some(done) => {
                set_names(&mut self.env, &done.writes)?;
                self.left -= done.cost;
            }
        }
        Ok(())
    }

    /// The value of a unit with this tree. The moment is then the one after it.
    pub fn evaluate<L: Ledger>(
        &mut self,
        alloc: Global,
        t: &Tagged,
        steps: &mut Steps<L>,
    ) -> Result<Value, Memory>
        ensures value { IfOk result (λ v. v ≡ unit_value (outcome (tagged_of t.now) self.old)) }
        ensures behind { OnOk result (self.new ≡ behind self.old (outcome (tagged_of t.now) self.old)) }
        ensures counted { OnOk result (steps.new ≡ steps.old + charge self.old (outcome (tagged_of t.now) self.old)) }
        ensures paid { IfOk result (λ v. IsPaid self.old self.new v) }
    {
        size_law();
        trace_laws();
        let trace = self.outcome(alloc, t, steps)?;
        self.go_past(&trace)?;
        let value = trace.value(alloc)?;
        Ok(value)
    }
}
