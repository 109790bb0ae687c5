// An evaluation that goes on: what it has set and looked up, what it has left, and what names have now.
ghost use Rattle.std.specs.Prelude.{◌≡◌, ◌+◌, ◌≤◌, ◌<◌, Some, IfOk, OnOk, OnErr};
ghost use Rattle.std.specs.Option.{option_or};
ghost use Rattle.std.specs.FinMap.{get};
ghost use Rattle.tx_env.specs.Environments.{overlaid};
ghost use Rattle.tx_env.specs.Changes.{map_of, with_pair};
ghost use Rattle.tx_exec_form.specs.Runs.{Before, pay};
ghost use Rattle.tx_exec_form.specs.Evaluated.{evaluated_in, paid, start};
ghost use Rattle.tx_exec.specs.Outcomes.{wide_trace, wide_outcome, NamesOnce};
ghost use Rattle.tx_parts.specs.Atop.{env_atop};
ghost use Rattle.tx_parts.specs.Adding.{after_part};
ghost use Rattle.tx_replay.specs.OpenRows.{entered};
ghost use Rattle.tx_replay.specs.Going.{names_of, last_map};
ghost use Rattle.tx_replay.specs.Held.{agrees};
ghost use Rattle.tx_replay.specs.Traces.{AreOnce};
ghost use Rattle.tx_replay.specs.Gives.{Gives};
ghost use Rattle.tx_replay.specs.Replays.{Replays, state_by, taken, lowered, looked};

use crate::evaluating::eval_within;
use crate::fitting::trace_fits;
use crate::looking::join_looks;
use crate::part_trace::PartTrace;
use crate::stop::Stop;
use std::alloc::Global;
use std::marker::Model;
use std::sync::ledger::Ledger;
use tx_base::{Memory, Steps};
use tx_env::{Env, Pairs};
use tx_exec::{Looks, Outcome, Trace};
use tx_origin::Ip;
use tx_tree::{Text, Tree};

/// What an evaluation has set and looked up, the steps that are left, and how many levels were left where the fewest
/// were. The environment has what the evaluation has set atop of what names had before, which is that to which the last
/// open scope goes back. Contracts see the state of the evaluation, and the open scopes.
#[derive(Drop)]
pub(crate) struct Progress {
    env: Env,
    own: Pairs,
    looks: Pairs,
    left: u64,
    slack: u32,
}

impl Model for Progress {
    ghost use Rattle.tx_replay.specs.Going.{Going, coded_Going};
    ghost use Rattle.tx_replay.specs.InStep.{going_of, IsInStep};

    ghost Value = { Going };

    ghost coded = { coded_Going };

    ghost view = { going_of };

    ghost invariant = { IsInStep };
}

/// What an evaluation has set and looked up, and what it has left, at its end.
#[derive(Drop)]
pub(crate) struct Noted {
    pub own: Pairs,
    pub looks: Pairs,
    pub left: u64,
    pub slack: u32,
}

// Gives the name this value, or nothing.
fn put_name(env: &mut Env, name: Text, tree: Option<Tree>) -> Result<(), Memory>
    ensures map { OnOk result (env.new.map ≡ with_pair name tree env.old.map) }
    ensures err { OnErr result (env.new ≡ env.old) }
    ensures scopes { env.new.scopes ≡ env.old.scopes }
{
    match tree {
        None => env.unset(&name),
        Some(tree) => env.set(name, tree),
    }
}

// What the pairs have at the name.
#[tactic(auto, using(tx_env::proofs::Maps::map_rules, std::proofs::lemmas::Grind::common_steps))]
fn tree_in(own: &Pairs, name: &Text) -> Result<Option<Tree>, Memory>
    ensures { IfOk result (λ t. t ≡ get (map_of own.now) name.now) }
{
    match own.get(name) {
        None => Ok(None),
        Some(tree) => Ok(Some(tree.share()?)),
    }
}

// Puts one tree, or nothing, at a name of the pairs, and another one at that name of the environment. When out of
// memory both are as before.
fn put_both(
    own: &mut Pairs,
    env: &mut Env,
    name: Text,
    tree: Option<Tree>,
    names: Option<Tree>,
) -> Result<(), Memory>
    ensures own { OnOk result (map_of own.new ≡ with_pair name tree (map_of own.old)) }
    ensures map { OnOk result (env.new.map ≡ with_pair name names env.old.map) }
    ensures own_err { OnErr result (map_of own.new ≡ map_of own.old) }
    ensures err { OnErr result (env.new ≡ env.old) }
    ensures scopes { env.new.scopes ≡ env.old.scopes }
{
    let before = tree_in(own, &name)?;
    let again = name.copy()?;
    own.put(name.copy()?, tree)?;
    match put_name(env, name, names) {
        Ok(()) => Ok(()),
        Err(memory) => {
            own.put_back(again, before);
            Err(memory)
        }
    }
}

impl Progress {
    /// Nothing set and nothing looked up, with so many steps and 400 levels. The environment is that to which its last
    /// scope goes back.
    pub(crate) fn begin(alloc: Global, env: Env, left: u64) -> Progress
        requires { env.map ≡ last_map env.scopes }
        ensures scopes { result.scopes ≡ env.scopes }
        ensures state { result.state ≡ start 400 left }
    {
        Progress {
            env,
            own: Pairs::new(alloc),
            looks: Pairs::new(alloc),
            left,
            slack: 400,
        }
    }

    /// The environment, and what is noted.
    pub(crate) fn end(self) -> (Env, Noted)
        ensures scopes { result.0.scopes ≡ self.scopes }
        ensures state { state_by result.1 ≡ self.state }
    {
        let Progress {
            env,
            own,
            looks,
            left,
            slack,
        } = self;
        let noted = Noted {
            own,
            looks,
            left,
            slack,
        };
        (env, noted)
    }

    /// The steps that are left.
    pub(crate) fn left(&self) -> u64
        ensures { result ≡ self.now.state.left }
    {
        self.left
    }

    /// Gives a name this in what was set, and that in the environment.
    pub(crate) fn change(
        &mut self,
        name: Text,
        tree: Option<Tree>,
        names: Option<Tree>,
    ) -> Result<(), Memory>
        requires { names ≡ option_or tree (names_of self.old name) }
        ensures state { OnOk result (self.new.state
            ≡ record (self.old.state) { own = with_pair name tree self.old.state.own }) }
        ensures scopes { self.new.scopes ≡ self.old.scopes }
    {
        put_both(&mut self.own, &mut self.env, name, tree, names)
    }

    /// What the evaluation has set the name to.
    pub(crate) fn own_tree(&self, name: &Text) -> Result<Option<Tree>, Memory>
        ensures { IfOk result (λ t. t ≡ get self.now.state.own name.now) }
    {
        tree_in(&self.own, name)
    }

    /// What the name has.
    pub(crate) fn tree_now(&self, name: &Text) -> Result<Option<Tree>, Memory>
        ensures { IfOk result (λ t. t ≡ env_atop self.now.state.own (names_of self.now) name.now) }
    {
        match self.env.get(name) {
            None => Ok(None),
            Some(tree) => Ok(Some(tree.share()?)),
        }
    }

    // Sets the name to the tree.
    fn set(&mut self, name: &Text, tree: &Tree) -> Result<(), Memory>
        ensures state { OnOk result (self.new.state
            ≡ record (self.old.state) { own = with_pair name.now (Some tree.now) self.old.state.own }) }
        ensures scopes { self.new.scopes ≡ self.old.scopes }
    {
        self.change(name.copy()?, Some(tree.share()?), Some(tree.share()?))
    }

    /// Sets each name to its tree, in order.
    pub(crate) fn set_all(&mut self, pairs: &[(Text, Tree)]) -> Result<(), Memory>
        ensures state { OnOk result (self.new.state
            ≡ record (self.old.state) { own = overlaid self.old.state.own pairs.now }) }
        ensures scopes { self.new.scopes ≡ self.old.scopes }
    {
        for (name, tree) in pairs {
            self.set(name, tree)?;
        }
        Ok(())
    }

    /// Takes n steps.
    pub(crate) fn pay(&mut self, n: u64) -> Result<(), Stop>
        ensures gives { (e : Before) → Gives (λ u. tt) result (pay n e self.old.state) self.new.state }
        ensures scopes { self.new.scopes ≡ self.old.scopes }
        ensures left { IfOk result (λ u. self.new.state.left + n ≡ self.old.state.left) }
        ensures slack { IfOk result (λ u. self.new.state.slack ≡ self.old.state.slack) }
    {
        if n > self.left() {
            return Err(Stop::Over);
        }
        self.take(n);
        Ok(())
    }

    // Takes n steps, which are left.
    fn take(&mut self, n: u64)
        requires { n ≤ self.old.state.left }
        ensures state { self.new.state ≡ taken n self.old.state }
        ensures scopes { self.new.scopes ≡ self.old.scopes }
    {
        self.left -= n;
    }

    // Notes that so many levels were left.
    fn lower(&mut self, slack: u32)
        ensures state { self.new.state ≡ lowered slack self.old.state }
        ensures scopes { self.new.scopes ≡ self.old.scopes }
    {
        self.slack = self.slack.min(slack);
    }

    /// Takes a level and a step.
    pub(crate) fn enter(&mut self, levels: u32) -> Result<(), Stop>
        ensures gives { (e : Before) → Gives (λ u. tt) result (entered levels e self.old.state) self.new.state }
        ensures scopes { self.new.scopes ≡ self.old.scopes }
        ensures left { IfOk result (λ u. self.new.state.left + 1 ≡ self.old.state.left) }
        ensures slack { IfOk result (λ u. self.new.state.slack < levels) }
    {
        if levels == 0 {
            return Err(Stop::Over);
        }
        if self.left() == 0 {
            return Err(Stop::Over);
        }
        self.take(1);
        self.lower(levels - 1);
        Ok(())
    }

    // Adds looks after the others, but those at names that were set.
    fn add_looks(&mut self, more: &Looks) -> Result<(), Memory>
        ensures state { OnOk result (self.new.state ≡ looked more.now self.old.state) }
        ensures scopes { self.new.scopes ≡ self.old.scopes }
    {
        join_looks(&self.own, &mut self.looks, more)
    }

    // Does all that a trace says that is allowed.
    fn replay_allowed(&mut self, trace: &Trace, levels: u32) -> Result<(), Memory>
        requires once { AreOnce trace.now }
        requires cost { trace.now.cost ≤ self.old.state.left }
        requires height { trace.now.height ≤ levels }
        ensures state { OnOk result (self.new.state ≡ after_part levels self.old.state (wide_trace trace.now)) }
        ensures scopes { self.new.scopes ≡ self.old.scopes }
    {
        self.add_looks(&trace.looks)?;
        self.set_all(trace.writes.pairs())?;
        self.take(trace.cost);
        self.lower(levels - trace.height);
        Ok(())
    }

    /// Does what the trace of a part says that had so many levels. It runs out where the cost or the height isn't
    /// allowed.
    pub(crate) fn replay(&mut self, trace: &Trace, levels: u32) -> Result<(), Stop>
        requires once { AreOnce trace.now }
        ensures replays { Replays result levels (wide_trace trace.now) self.old.state self.new.state }
        ensures scopes { self.new.scopes ≡ self.old.scopes }
    {
        if trace.cost > self.left() {
            return Err(Stop::Over);
        }
        if trace.height > levels {
            return Err(Stop::Over);
        }
        self.replay_allowed(trace, levels)?;
        Ok(())
    }

    /// What the tree evaluates to where this has come to, with the steps that are left.
    pub(crate) fn evaluate<L: Ledger>(
        &mut self,
        alloc: Global,
        steps: &mut Steps<L>,
        t: &Tree,
        at: Option<Ip>,
        levels: u32,
    ) -> Result<Outcome, Memory>
        requires levels { levels ≤ 400 }
        requires left { self.old.state.left ≤ 1000000 }
        ensures exact { IfOk result (λ o. wide_outcome o ≡ evaluated_in levels self.old.state.left
            (record { tree = t.now; at = at }) (env_atop self.old.state.own (names_of self.old))) }
        ensures counted { IfOk result (λ o. steps.new ≡ steps.old + paid self.old.state.left (wide_outcome o)) }
        ensures names_once { IfOk result NamesOnce }
        ensures same { self.new ≡ self.old }
    {
        eval_within(alloc, t, at, &mut self.env, levels, self.left, steps)
    }

    /// Whether the trace fits what names have now.
    pub(crate) fn fits(&self, trace: &PartTrace) -> bool
        ensures { result ≡ agrees (env_atop self.now.state.own (names_of self.now)) trace.now.looks }
    {
        trace_fits(&self.env, trace)
    }
}
