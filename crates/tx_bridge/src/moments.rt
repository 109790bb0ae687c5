// Units evaluated in order.
ghost use Rattle.std.specs.Prelude.{◌≡◌, ◌+◌, ◌*◌, ◌≤◌, IfOk, OnOk, OnErr};
ghost use Rattle.tx_tree.specs.WideTree.{size_of};
ghost use Rattle.tx_env.specs.Environments.{overlaid};
ghost use Rattle.tx_origin.specs.Values.{plain};
ghost use Rattle.tx_origin.specs.TaggedTrees.{tagged_of};
ghost use Rattle.tx_exec.specs.Outcomes.{wide_outcome, NamesOnce};
ghost use Rattle.tx_view_form.specs.Outcomes.{beginning, allowance, outcome, charge, behind, unit_value, over_value};
ghost use Rattle.std.specs.Prelude.{true, false};
ghost use Rattle.std.specs.List.{AllByRecursion, IsDistinct};
ghost use Rattle.std.specs.Str.{bytes_eq};
ghost use Rattle.tx_walk.specs.Walked.{paths_of};
ghost use Rattle.tx_bridge.specs.Entries.{outcome_of};
ghost use Rattle.tx_bridge.specs.Moments.{IsPaid, beginning_with};
ghost use Rattle.tx_parts.specs.Opening.{opens_nothing, shells_by};
ghost use Rattle.tx_bridge.specs.PartsKept.{has_parts, fresh_parts_by, part_flags_by};
ghost use Rattle.tx_bridge.specs.Charges.{parts_charge_by, UnitLayersKnown};
ghost use Rattle.tx_bridge.specs.HeldParts.{HoldsPart, PartsHold, kept_parts, flags_of_parts};
ghost use Rattle.tx_bridge.specs.UnitLists.{HasPathIfBody};

use crate::unit_layers::UnitLayers;
use crate::unit_parts::UnitParts;
use std::alloc::Global;
use std::marker::Model;
use std::sync::ledger::Ledger;
use tx_base::{Memory, Steps};
use tx_env::{Env, Writes};
use tx_exec::{Outcome, eval};
use tx_exec_form::{size_law, trace_laws};
use tx_origin::{Tagged, Value};
use tx_parts::{opened_fitting_law, opened_standing_law, opener_law};
use tx_tree::{Label, text_of};
use tx_units::Unit;
use tx_view_form::{MOST_UNIT_STEPS, MOST_VIEW_STEPS};
use tx_walk::{LayerTrace, Opener, Part, walk_with, walked_law};

// Sets each name to its tree, in order. Where there is none, as with most paragraphs, it has nothing to do.
fn set_names(env: &mut Env, writes: &Writes) -> Result<(), Memory>
    ensures map { OnOk result (env.new.map ≡ overlaid env.old.map writes.now) }
    ensures scopes { OnOk result (env.new.scopes ≡ env.old.scopes) }
    ensures err { OnErr result (env.new ≡ env.old) }
{
    if writes.pairs().is_empty() {
        return Ok(());
    }
    env.overlay(writes)
}

// The outcome of a unit, its parts, the traces of the trees of its layers, and its charge.
#[derive(Drop)]
pub(crate) struct Evaluated {
    pub(crate) outcome: Outcome,
    pub(crate) parts: UnitParts,
    pub(crate) layers: UnitLayers,
    pub(crate) charge: u64,
}

/// What names have before a unit, and the steps that are left.
#[derive(Drop)]
pub struct Moment {
    env: Env,
    left: u64,
}

impl Model for Moment {
    ghost use Rattle.tx_view_form.specs.Outcomes.{Moment};
    ghost use Rattle.tx_bridge.specs.Moments.{coded_Moment};
    ghost use Rattle.std.specs.Prelude.{◌≡◌, []};

    ghost Value = { Moment };

    ghost coded = { coded_Moment };

    ghost view = { λ m. record { env = m.env.map; left = m.left } };

    ghost invariant = { λ m. m.env.scopes ≡ [] };
}

impl Moment {
    /// Before the first unit.
    pub fn beginning(alloc: Global) -> Moment
        ensures { result ≡ beginning }
    {
        Moment {
            env: Env::new(alloc),
            left: MOST_VIEW_STEPS,
        }
    }

    /// Before the first unit, where these names have been set, in order.
    pub fn beginning_with(alloc: Global, start: &Writes) -> Result<Moment, Memory>
        ensures { IfOk result (λ m. m ≡ beginning_with start.now) }
    {
        let mut env = Env::new(alloc);
        set_names(&mut env, start)?;
        Ok(Moment {
            env,
            left: MOST_VIEW_STEPS,
        })
    }

    /// What names have.
    pub fn env(&self) -> &Env
        ensures { result.now.map ≡ self.now.env }
    {
        &self.env
    }

    // What names have, of a moment that is done with.
    pub(crate) fn into_env(self) -> Env
        ensures { result.map ≡ self.env }
    {
        self.env
    }

    /// The steps that are left.
    pub fn left(&self) -> u64
        ensures { result ≡ self.now.left }
    {
        self.left
    }

    // The steps that one unit may take.
    pub(crate) fn allowance(&self) -> u64
        ensures { result ≡ allowance self.now }
    {
        MOST_UNIT_STEPS.min(self.left)
    }

    // The outcome of a unit with this tree. The moment is unchanged.
    pub(crate) fn outcome<L: Ledger>(
        &mut self,
        alloc: Global,
        t: &Tagged,
        steps: &mut Steps<L>,
    ) -> Result<Outcome, Memory>
        ensures exact { IfOk result (λ o. wide_outcome o ≡ outcome (tagged_of t.now) self.old) }
        ensures once { IfOk result NamesOnce }
        ensures counted { OnOk result (steps.new ≡ steps.old + charge self.old (outcome (tagged_of t.now) self.old)) }
        ensures stays { self.new ≡ self.old }
    {
        let allowance = MOST_UNIT_STEPS.min(self.left);
        let outcome = eval(alloc, t, &mut self.env, allowance, steps)?;
        Ok(outcome)
    }

    // The charge of a unit with this outcome.
    pub(crate) fn charge_of(&self, outcome: &Outcome) -> u64
        ensures { result ≡ charge self.now (wide_outcome outcome.now) }
    {
        match outcome {
            Outcome::Over => self.allowance(),
            Outcome::Done(trace) => trace.cost,
        }
    }

    // The outcome of the paragraph of the body, of which these parts and trees of layers are cached, and these are
    // spare. Where it isn't `shelled`, the opener opens nothing. The moment is unchanged.
    pub(crate) fn by_parts<O: Opener, L: Ledger>(
        &mut self,
        alloc: Global,
        unit: &Unit,
        opener: &O,
        shelled: bool,
        kept: &[Part],
        spare: &[Part],
        layers: &[LayerTrace],
        spare_layers: &[LayerTrace],
        steps: &mut Steps<L>,
    ) -> Result<Evaluated, Memory>
        requires nested { has_parts unit.now ≡ true }
        requires placed { HasPathIfBody unit.now }
        requires hold { AllByRecursion (HoldsPart unit.now.tagged.tree) kept.now }
        requires distinct { IsDistinct bytes_eq (paths_of kept.now) }
        requires spare_hold { AllByRecursion (HoldsPart unit.now.tagged.tree) spare.now }
        requires spare_distinct { IsDistinct bytes_eq (paths_of spare.now) }
        requires shut { shelled ≡ false → O.opens opener.now ≡ opens_nothing }
        ensures exact { IfOk result (λ e. wide_outcome e.outcome ≡ outcome_of self.old unit.now) }
        ensures once { IfOk result (λ e. NamesOnce e.outcome) }
        ensures parts { IfOk result (λ e. kept_parts e.parts
            ≡ fresh_parts_by (shells_by (O.opens opener.now)) self.old unit.now) }
        ensures flags { IfOk result (λ e. flags_of_parts e.parts
            ≡ part_flags_by (shells_by (O.opens opener.now)) self.old unit.now (kept_parts kept.now)) }
        ensures hold { IfOk result (λ e. PartsHold shelled unit.now (wide_outcome e.outcome) e.parts) }
        ensures charge { IfOk result (λ e. e.charge
            ≡ parts_charge_by (shells_by (O.opens opener.now)) self.old unit.now (kept_parts kept.now)
            (kept_parts spare.now) layers.now spare_layers.now) }
        ensures layers { IfOk result
            (λ e. UnitLayersKnown (shells_by (O.opens opener.now)) self.old unit.now e.layers) }
        ensures counted { IfOk result (λ e. steps.new ≡ steps.old + e.charge) }
        ensures stays { self.new ≡ self.old }
    {
        trace_laws();
        opener_law();
        opened_standing_law();
        opened_fitting_law();
        walked_law();
        let allowance = MOST_UNIT_STEPS.min(self.left);
        let walked = walk_with(
            alloc,
            &unit.tagged.tree,
            &mut self.env,
            allowance,
            opener,
            kept,
            spare,
            layers,
            spare_layers,
            steps,
        )?;
        Ok(Evaluated {
            outcome: walked.outcome,
            parts: UnitParts::new(walked.parts),
            layers: UnitLayers::new(walked.layers),
            charge: walked.charge,
        })
    }

    // Takes the moment past a unit with this outcome.
    pub(crate) fn go_behind(&mut self, outcome: &Outcome) -> Result<(), Memory>
        requires once { NamesOnce outcome.now }
        requires enough { charge self.old (wide_outcome outcome.now) ≤ self.old.left }
        ensures behind { OnOk result (self.new ≡ behind self.old (wide_outcome outcome.now)) }
        ensures err { OnErr result (self.new ≡ self.old) }
    {
        match outcome {
            Outcome::Over => {
                let allowance = MOST_UNIT_STEPS.min(self.left);
                self.left -= allowance;
            }
            Outcome::Done(trace) => {
                set_names(&mut self.env, &trace.writes)?;
                self.left -= trace.cost;
            }
        }
        Ok(())
    }

    /// The value of a unit with this tree. The moment is then the one after it.
    pub fn evaluate<L: Ledger>(
        &mut self,
        alloc: Global,
        t: &Tagged,
        steps: &mut Steps<L>,
    ) -> Result<Value, Memory>
        ensures value { IfOk result (λ v. v ≡ unit_value (outcome (tagged_of t.now) self.old)) }
        ensures behind { OnOk result (self.new ≡ behind self.old (outcome (tagged_of t.now) self.old)) }
        ensures counted { OnOk result (steps.new ≡ steps.old + charge self.old (outcome (tagged_of t.now) self.old)) }
        ensures paid { IfOk result (λ v. IsPaid self.old self.new v) }
    {
        size_law();
        trace_laws();
        let outcome = self.outcome(alloc, t, steps)?;
        self.go_behind(&outcome)?;
        let value = value_from(alloc, outcome)?;
        Ok(value)
    }
}

// The value of a unit with this outcome.
fn value_from(alloc: Global, outcome: Outcome) -> Result<Value, Memory>
    ensures { IfOk result (λ v. v ≡ unit_value (wide_outcome outcome)) }
{
    match outcome {
        Outcome::Over => over_value(alloc),
        Outcome::Done(trace) => Ok(trace.value),
    }
}

/// The value of a unit that runs out of steps or levels.
pub fn over_value(alloc: Global) -> Result<Value, Memory>
    ensures { IfOk result (λ v. v ≡ over_value) }
{
    let kind = Value::leaf(alloc, text_of(alloc, b"over".as_slice())?, None)?;
    let detail = Value::leaf(alloc, text_of(alloc, b"".as_slice())?, None)?;
    let parts = vec![in alloc; kind, detail]?;
    match Label::new(alloc, b"error".as_slice()) {
        Ok(label) => Value::node(alloc, label, parts, None),
        Err(_) => Err(Memory),
    }
}
