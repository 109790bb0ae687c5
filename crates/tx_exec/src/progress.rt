// What an evaluation has set and looked up, and what it has left.
ghost use Rattle.std.specs.Prelude.{◌≡◌, ◌+◌, ◌-◌, ◌≤◌, [], Ok, IfOk, OnOk, Option};
ghost use Rattle.std.specs.FinMap as maps;
ghost use Rattle.tx_env.specs.Pairs.{put};
ghost use Rattle.tx_env.specs.Changes.{map_of, with_pair};
ghost use Rattle.tx_exec_form.specs.Runs.{Before, Done, pay, need, look};
ghost use Rattle.tx_exec.specs.Gives.{Gives, Counts, CountsBut};
ghost use Rattle.tx_exec.specs.States.{state_of, before_of};

use crate::stop::Stop;
use std::alloc::Global;
use std::sync::ledger::Ledger;
use tx_base::{Memory, Steps};
use tx_env::{Env, Pairs};
use tx_tree::{Text, Tree};

/// What an evaluation has set and looked up, the steps that are left, and how many levels were left where the fewest
/// were.
#[derive(Drop)]
pub(crate) struct Progress {
    pub(crate) own: Pairs,
    pub(crate) looks: Pairs,
    pub(crate) left: u64,
    pub(crate) slack: u32,
}

impl Progress {
    /// Nothing set and nothing looked up, with so many steps and 400 levels.
    pub(crate) fn begin(alloc: Global, allowance: u64) -> Progress
        ensures own { result.own ≡ [] }
        ensures looks { result.looks ≡ [] }
        ensures left { result.left ≡ allowance }
        ensures slack { result.slack ≡ 400 }
    {
        Progress {
            own: Pairs::new(alloc),
            looks: Pairs::new(alloc),
            left: allowance,
            slack: 400,
        }
    }

    /// Takes n steps.
    #[tactic(auto, unfolding(tx_exec_form::specs::Runs::pay))]
    pub(crate) fn pay<L: Ledger>(&mut self, steps: &mut Steps<L>, n: u64) -> Result<(), Stop>
        ensures gives { (e : Before) → Gives (λ u. tt) result (pay n e (state_of self.old)) (state_of self.new) }
        ensures paid { Counts result (steps.old + self.old.left) (steps.new + self.new.left) }
        ensures left { IfOk result (λ u. self.new.left + n ≡ self.old.left) }
    {
        if n > self.left {
            return Err(Stop::Over);
        }
        self.left -= n;
        steps.add(n);
        Ok(())
    }

    /// Takes n steps, of which so many are counted later.
    #[tactic(auto, unfolding(tx_exec_form::specs::Runs::pay))]
    pub(crate) fn charge<L: Ledger>(
        &mut self,
        steps: &mut Steps<L>,
        n: u64,
        later: u64,
    ) -> Result<(), Stop>
        requires { later ≤ n }
        ensures gives { (e : Before) → Gives (λ u. tt) result (pay n e (state_of self.old)) (state_of self.new) }
        ensures paid { CountsBut later result (steps.old + self.old.left) (steps.new + self.new.left) }
        ensures left { IfOk result (λ u. self.new.left + n ≡ self.old.left) }
    {
        if n > self.left {
            return Err(Stop::Over);
        }
        self.left -= n;
        steps.add(n - later);
        Ok(())
    }

    /// Of these levels n are needed.
    #[tactic(auto, unfolding(tx_exec_form::specs::Runs::need))]
    pub(crate) fn need(&mut self, n: u32, levels: u32) -> Result<(), Stop>
        ensures gives { (e : Before) → Gives (λ u. tt) result
            (need n levels e (state_of self.old)) (state_of self.new) }
        ensures left { self.new.left ≡ self.old.left }
    {
        if n > levels {
            return Err(Stop::Over);
        }
        self.slack = self.slack.min(levels - n);
        Ok(())
    }

    /// What the evaluation has set the name to.
    #[tactic(auto, using(tx_env::proofs::Maps::map_rules, std::proofs::lemmas::Grind::common_steps))]
    pub(crate) fn own_tree(&self, name: &Text) -> Result<Option<Tree>, Memory>
        ensures { IfOk result (λ t. t ≡ maps.get (map_of self.now.own) name.now) }
    {
        match self.own.get(name) {
            None => Ok(None),
            Some(tree) => Ok(Some(tree.share()?)),
        }
    }

    /// Sets the name to this.
    #[tactic(auto, using(tx_env::proofs::Maps::map_rules, std::proofs::lemmas::Grind::common_steps))]
    pub(crate) fn set(&mut self, name: Text, tree: Option<Tree>) -> Result<(), Memory>
        ensures own { OnOk result (state_of self.new
            ≡ record (state_of self.old) { own = with_pair name tree (state_of self.old).own }) }
        ensures left { self.new.left ≡ self.old.left }
    {
        self.own.put(name, tree)
    }

    /// What a name has: what the evaluation has set, or else what it had before, which is a look.
    #[tactic(auto, unfolding(tx_exec_form::specs::Runs::look), using(crate::proofs::Noting::look_rules))]
    pub(crate) fn look(&mut self, env: &Env, name: &Text) -> Result<Option<Tree>, Memory>
        ensures gives { IfOk result
            (λ t. look name.now (before_of env.now) (state_of self.old) ≡ Done t (state_of self.new)) }
        ensures left { self.new.left ≡ self.old.left }
    {
        if let Some(found) = self.own.get(name) {
            return Ok(Some(found.share()?));
        }
        let found = match env.get(name) {
            None => None,
            Some(tree) => Some(tree.share()?),
        };
        if self.looks.lists(name) {
            return Ok(found);
        }
        self.note(name, found)
    }

    // Notes what a name had before.
    fn note(&mut self, name: &Text, found: Option<Tree>) -> Result<Option<Tree>, Memory>
        ensures found { IfOk result (λ t. t ≡ found) }
        ensures looks { OnOk result (self.new ≡ record self.old { looks = put name.now found self.old.looks }) }
        ensures left { self.new.left ≡ self.old.left }
    {
        let kept = match &found {
            None => None,
            Some(tree) => Some(tree.share()?),
        };
        self.looks.put(name.copy()?, kept)?;
        Ok(found)
    }
}
