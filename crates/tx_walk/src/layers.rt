// The names and the trees of a layer.
ghost use Rattle.std.specs.Prelude.{◌≡◌, ◌<◌, ◌≤◌, ◌+◌, ◌-◌, ◌++◌, ◌∷◌, [], ℕ, true, IfOk, OnOk, MatchOption};
ghost use Rattle.tx_parts.specs.Atop.{env_atop};
ghost use Rattle.tx_parts.specs.Composed.{nothing_yet};
ghost use Rattle.tx_parts.specs.Shells.{IsFull};
ghost use Rattle.tx_parts.specs.LayerCosts.{holds_nothing};
ghost use Rattle.tx_exec.specs.States.{before_of};
ghost use Rattle.tx_exec.specs.Outcomes.{wide_trace};
ghost use Rattle.tx_walk.specs.Held.{agrees};
ghost use Rattle.tx_walk.specs.Walked.{AreOnce};
ghost use Rattle.tx_walk.specs.Prior.{holder_of};
ghost use Rattle.tx_walk.specs.Shells.{wide_layer};
ghost use Rattle.tx_walk.specs.Spending.{RisesAlike};
ghost use Rattle.tx_walk.specs.Steps.{so_far_of, joined_with, IsJoined};
ghost use Rattle.tx_walk.specs.Layers.{name_trace, name_outcome, set_sizes, pairs_of_settings, stage_in};
ghost use Rattle.tx_walk.specs.Layers.{TreeComes, SettingComes, LayerComes};

use crate::evaluating::spend_on;
use crate::fitting::held_layer;
use crate::joined::Joined;
use crate::layer_traces::LayerTrace;
use crate::prior::PriorStores;
use crate::progress::WalkProgress;
use crate::scopes::set_all;
use crate::sharing::share_trace;
use crate::shells::Layer;
use crate::tree_settings::TreeSetting;
use std::alloc::Global;
use std::sync::ledger::Ledger;
use tx_base::{Memory, Steps};
use tx_env::{Env, Writes};
use tx_exec::{Looks, Outcome, Trace};
use tx_origin::Value;
use tx_tree::{Text, Tree};

/// What names and trees of a layer evaluated to so far, and what each name is to be set to.
#[derive(Drop)]
pub(crate) struct LayerSoFar {
    pub joined: Joined,
    pub settings: Vec<TreeSetting>,
}

// The trace of a text without an origin.
fn name_trace(alloc: Global, name: &Text) -> Result<Trace, Memory>
    ensures trace { IfOk result (λ t. wide_trace t ≡ name_trace name.now) }
    ensures once { IfOk result AreOnce }
{
    Ok(Trace {
        value: Value::leaf(alloc, name.copy()?, None)?,
        looks: Looks::new(Vec::new(alloc)),
        writes: Writes::new(Vec::new(alloc)),
        cost: 1 + name.bytes().len() as u64,
        height: 1,
    })
}

impl Joined {
    // Adds a name. Returns false where its cost isn't allowed.
    fn add_name(&mut self, alloc: Global, name: &Text, left: u64) -> Result<bool, Memory>
        requires cost { self.old.cost ≤ left }
        requires left { left ≤ 1000000 }
        ensures { IfOk result (λ went. IsJoined (so_far_of self.old) (so_far_of self.new)
            (name_outcome (left - self.old.cost) name.now) went) }
    {
        if 1 + name.bytes().len() as u64 > left - self.cost {
            return Ok(false);
        }
        self.add(name_trace(alloc, name)?)?;
        Ok(true)
    }
}

impl LayerSoFar {
    /// Nothing yet.
    pub(crate) fn new(alloc: Global) -> LayerSoFar
        ensures joined { so_far_of result.joined ≡ nothing_yet }
        ensures settings { result.settings.items ≡ [] }
    {
        LayerSoFar {
            joined: Joined::new(alloc),
            settings: Vec::new(alloc),
        }
    }

    // Adds a tree, which is done. What it sets is set.
    fn add_done(&mut self, alloc: Global, setting: TreeSetting, env: &mut Env) -> Result<(), Memory>
        requires cost { self.old.joined.cost + setting.done.trace.cost ≤ 1000000 }
        ensures joined { OnOk result
            (so_far_of self.new.joined ≡ joined_with (so_far_of self.old.joined) setting.done.trace) }
        ensures settings { OnOk result (self.new.settings.items ≡ self.old.settings.items ++ setting ∷ []) }
        ensures names { OnOk result (before_of env.new ≡ env_atop setting.done.trace.writes (before_of env.old)) }
        ensures scopes { env.new.scopes ≡ env.old.scopes }
    {
        set_all(env, setting.trace().writes.pairs())?;
        self.joined.add(share_trace(alloc, setting.trace())?)?;
        self.settings.push(setting)?;
        Ok(())
    }

    // Adds a tree, which is held by this. Returns false where its cost or its height isn't allowed.
    fn add_held(
        &mut self,
        alloc: Global,
        name: &Text,
        found: &LayerTrace,
        env: &mut Env,
        levels: u32,
        left: u64,
    ) -> Result<bool, Memory>
        requires cost { self.old.joined.cost ≤ left }
        requires left { left ≤ 1000000 }
        requires fits { agrees (before_of env.old) found.now.trace.looks ≡ true }
        ensures comes { (count : ℕ) → IfOk result (λ went. TreeComes (λ t e. true) levels left name.now found.now.tree
            (stage_in self.old env.old count) (stage_in self.new env.new count) went) }
        ensures scopes { env.new.scopes ≡ env.old.scopes }
    {
        let rest = left - self.joined.cost;
        let trace = found.trace();
        if trace.cost > rest || trace.height > levels {
            return Ok(false);
        }
        self.add_done(alloc, TreeSetting::held(alloc, name, found)?, env)?;
        Ok(true)
    }

    // Adds a tree, which is evaluated. Returns false where it runs out.
    fn add_new<L: Ledger>(
        &mut self,
        alloc: Global,
        name: &Text,
        t: &Tree,
        env: &mut Env,
        levels: u32,
        left: u64,
        progress: &mut WalkProgress,
        steps: &mut Steps<L>,
    ) -> Result<bool, Memory>
        requires levels { levels ≤ 400 }
        requires cost { self.old.joined.cost ≤ left }
        requires left { left ≤ 1000000 }
        ensures comes { IfOk result (λ went. TreeComes holds_nothing levels left name.now t.now
            (stage_in self.old env.old steps.old) (stage_in self.new env.new steps.new) went) }
        ensures spent { OnOk result (RisesAlike steps.old progress.old.spent steps.new progress.new.spent) }
        ensures layers { progress.new.layers ≡ progress.old.layers }
        ensures scopes { env.new.scopes ≡ env.old.scopes }
    {
        let rest = left - self.joined.cost;
        match spend_on(alloc, t, None, env, levels, rest, progress, steps)? {
            Outcome::Over => Ok(false),
            Outcome::Done(trace) => {
                let setting = TreeSetting::new(name.copy()?, t.share()?, trace);
                self.add_done(alloc, setting, env)?;
                Ok(true)
            }
        }
    }

    // Adds a tree. It is evaluated where it isn't held. Returns false where it runs out.
    fn add_tree<L: Ledger>(
        &mut self,
        alloc: Global,
        name: &Text,
        t: &Tree,
        env: &mut Env,
        levels: u32,
        left: u64,
        kept: &PriorStores<'_>,
        progress: &mut WalkProgress,
        steps: &mut Steps<L>,
    ) -> Result<bool, Memory>
        requires levels { levels ≤ 400 }
        requires cost { self.old.joined.cost ≤ left }
        requires left { left ≤ 1000000 }
        ensures comes { IfOk result (λ went. TreeComes (holder_of kept.now) levels left name.now t.now
            (stage_in self.old env.old steps.old) (stage_in self.new env.new steps.new) went) }
        ensures spent { OnOk result (RisesAlike steps.old progress.old.spent steps.new progress.new.spent) }
        ensures layers { progress.new.layers ≡ progress.old.layers }
        ensures scopes { env.new.scopes ≡ env.old.scopes }
    {
        match held_layer(env, kept, t, &mut progress.next) {
            Some(found) => self.add_held(alloc, name, found, env, levels, left),
            None => self.add_new(alloc, name, t, env, levels, left, progress, steps),
        }
    }

    // Adds a name and its tree. Returns false where one of them runs out.
    fn add_setting<L: Ledger>(
        &mut self,
        alloc: Global,
        name: &Text,
        t: &Tree,
        env: &mut Env,
        levels: u32,
        left: u64,
        kept: &PriorStores<'_>,
        progress: &mut WalkProgress,
        steps: &mut Steps<L>,
    ) -> Result<bool, Memory>
        requires levels { levels ≤ 400 }
        requires cost { self.old.joined.cost ≤ left }
        requires left { left ≤ 1000000 }
        ensures comes { IfOk result (λ went. SettingComes (holder_of kept.now) levels left name.now t.now
            (stage_in self.old env.old steps.old) (stage_in self.new env.new steps.new) went) }
        ensures spent { OnOk result (RisesAlike steps.old progress.old.spent steps.new progress.new.spent) }
        ensures layers { progress.new.layers ≡ progress.old.layers }
        ensures scopes { env.new.scopes ≡ env.old.scopes }
    {
        if levels == 0 {
            return Ok(false);
        }
        let named = self.joined.add_name(alloc, name, left)?;
        if !named {
            return Ok(false);
        }
        self.add_tree(alloc, name, t, env, levels, left, kept, progress, steps)
    }

    /// Adds all names and trees of the layer, in order. Returns false where one runs out.
    pub(crate) fn add_layer<L: Ledger>(
        &mut self,
        alloc: Global,
        layer: &Layer,
        env: &mut Env,
        levels: u32,
        left: u64,
        kept: &PriorStores<'_>,
        progress: &mut WalkProgress,
        steps: &mut Steps<L>,
    ) -> Result<bool, Memory>
        requires full { IsFull (wide_layer layer.now) }
        requires levels { levels ≤ 400 }
        requires left { left ≤ 1000000 }
        requires joined { so_far_of self.old.joined ≡ nothing_yet }
        requires settings { self.old.settings.items ≡ [] }
        ensures comes { IfOk result (λ went. LayerComes (holder_of kept.now) levels left (wide_layer layer.now)
            (stage_in self.old env.old steps.old) (stage_in self.new env.new steps.new) went) }
        ensures spent { OnOk result (RisesAlike steps.old progress.old.spent steps.new progress.new.spent) }
        ensures layers { progress.new.layers ≡ progress.old.layers }
        ensures scopes { env.new.scopes ≡ env.old.scopes }
    {
        for i in 0..layer.names.len() {
            let went = self.add_setting(
                alloc,
                &layer.names[i],
                &layer.values[i],
                env,
                levels,
                left,
                kept,
                progress,
                steps,
            )?;
            if !went {
                return Ok(false);
            }
        }
        Ok(true)
    }
}

/// What the layer costs: `base`, which its names, its trees and its node cost, and the sizes of the values. None where
/// that is more than what is left.
pub(crate) fn cost_within(settings: &[TreeSetting], base: u64, left: u64) -> Option<u64>
    requires left { left ≤ 1000000 }
    ensures { MatchOption result (left < base + set_sizes (pairs_of_settings settings.now))
        (λ n. (n ≡ base + set_sizes (pairs_of_settings settings.now)) × (n ≤ left)) }
{
    if base > left {
        return None;
    }
    let mut cost = base;
    for setting in settings {
        cost += setting.size();
        if cost > left {
            return None;
        }
    }
    Some(cost)
}
