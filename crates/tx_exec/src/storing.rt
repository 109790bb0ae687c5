// What is set, and its tree.
ghost use Rattle.std.specs.Prelude.{◌≡◌, ◌+◌, ◌<◌, ◌≤◌, Ok, Some, IfOk};
ghost use Rattle.tx_tree.specs.WideTree.{size_of, depth_of};
ghost use Rattle.tx_origin.specs.Values.{plain};
ghost use Rattle.tx_exec_form.specs.Runs.{Before, pay};
ghost use Rattle.tx_exec_form.specs.Rows.{stored};
ghost use Rattle.tx_exec.specs.Gives.{Gives, Counts};
ghost use Rattle.tx_exec.specs.Settings.{sets_of, held_of, nodes_in};
ghost use Rattle.tx_exec.specs.States.{state_of};

use crate::progress::Progress;
use crate::stop::Stop;
use crate::withs::{Held, Pair, Parts, made_of_two, trees_of};
use std::alloc::Global;
use std::sync::ledger::Ledger;
use tx_base::Steps;
use tx_origin::{Tagged, Value};
use tx_tree::{Label, Tree};

impl Progress {
    /// Sets the name to the value, and makes the node of both.
    #[tactic(auto, unfolding(tx_exec_form::specs::Rows::stored))]
    pub(crate) fn stored<L: Ledger>(
        &mut self,
        alloc: Global,
        steps: &mut Steps<L>,
        t: &Tagged,
        label: &Label,
        pair: Pair,
    ) -> Result<Value, Stop>
        requires name { size_of (plain pair.name) ≤ 1000000 }
        requires value { size_of (plain pair.value) ≤ 1000000 }
        requires name_depth { depth_of (plain pair.name) < 400 }
        requires value_depth { depth_of (plain pair.value) < 400 }
        ensures gives { (e : Before) → Gives (λ v. v) result
            (stored label.now t.now.at pair.name pair.words pair.value
            e (state_of self.old))
            (state_of self.new) }
        ensures paid { Counts result (steps.old + self.old.left) (steps.new + self.new.left) }
    {
        let tree = self.bare(alloc, steps, &pair.value)?;
        self.set(pair.words, Some(tree))?;
        Ok(made_of_two(alloc, t, label, pair.name, pair.value)?)
    }

    /// The value's tree without origins, paid by its size.
    #[tactic(auto, using(tx_origin::proofs::Parts::nodes_le_size, std::proofs::lemmas::Grind::common_steps))]
    pub(crate) fn bare<L: Ledger>(
        &mut self,
        alloc: Global,
        steps: &mut Steps<L>,
        value: &Value,
    ) -> Result<Tree, Stop>
        ensures over { (e : Before) → Gives (λ t. tt) result
            (pay (size_of (plain value.now)) e (state_of self.old)) (state_of self.new) }
        ensures plain { IfOk result (λ t. t ≡ plain value.now) }
        ensures paid { Counts result (steps.old + self.old.left) (steps.new + self.new.left) }
        ensures left { IfOk result (λ t. self.new.left ≤ self.old.left) }
    {
        self.charge(steps, value.size(), value.nodes())?;
        Ok(value.plain(alloc, steps)?)
    }
    /// The names with the trees of the values, paid by their sizes at once.
    pub(crate) fn charged<L: Ledger>(
        &mut self,
        alloc: Global,
        steps: &mut Steps<L>,
        parts: &Parts,
    ) -> Result<Vec<Held>, Stop>
        requires few { parts.now.nodes ≤ parts.now.total }
        requires nodes { parts.now.nodes ≡ nodes_in parts.now.settings.items }
        ensures over { (e : Before) → Gives (λ h. tt) result
            (pay parts.now.total e (state_of self.old)) (state_of self.new) }
        ensures trees { IfOk result (λ h. held_of h.items ≡ sets_of parts.now.settings.items) }
        ensures paid { Counts result (steps.old + self.old.left) (steps.new + self.new.left) }
        ensures left { IfOk result (λ h. self.new.left ≤ self.old.left) }
    {
        self.charge(steps, parts.total, parts.nodes)?;
        Ok(trees_of(alloc, steps, &parts.settings)?)
    }
}
