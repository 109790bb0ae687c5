// Names of the primitives.
ghost use Rattle.std.specs.Prelude.{◌≡◌, ◌+◌, ◌-◌, ◌<◌, ◌≤◌, Ok, Some, None, Option, IfOk, OnOk, map};
ghost use Rattle.tx_tree.specs.WideTree.{total_size, total_nodes};
ghost use Rattle.tx_origin.specs.Values.{vals, plain, plains};
ghost use Rattle.tx_origin.specs.TaggedTrees.{tagged_of, kids_of};
ghost use Rattle.tx_exec_form.specs.Runs.{Before};
ghost use Rattle.tx_exec_form.specs.Rows.{ex, primitive};
ghost use Rattle.tx_exec.specs.CallRuns.{computed};
ghost use Rattle.tx_exec.specs.FrameView.{frame_in};
ghost use Rattle.tx_exec.specs.Gives.{Gives, Counts};
ghost use Rattle.tx_exec.specs.States.{state_of, before_of};

use crate::frame::Call;
use crate::progress::Progress;
use crate::stop::Stop;
use std::alloc::Global;
use std::sync::ledger::Ledger;
use tx_base::{Memory, Steps};
use tx_env::Env;
use tx_origin::{Tagged, Value};
use tx_prim::{Prim, primitive};
use tx_tree::Tree;

// How many nodes the values have together.
#[tactic(auto, using(crate::proofs::Computing::node_rules, std::proofs::lemmas::Grind::common_steps))]
fn nodes_of(values: &[Value]) -> u64
    requires { total_size (plains (vals values.now)) ≤ 1000000 }
    ensures nodes { result ≡ total_nodes (plains (vals values.now)) }
    ensures few { result ≤ 1000000 }
{
    let mut nodes = 0u64;
    for value in values {
        nodes += value.nodes();
    }
    nodes
}

// The trees of the values. A step is taken for each node.
#[tactic(auto, using(crate::proofs::Computing::tree_rules, std::proofs::lemmas::Grind::common_steps))]
fn plain_trees<L: Ledger>(
    alloc: Global,
    steps: &mut Steps<L>,
    values: &[Value],
) -> Result<Vec<Tree>, Memory>
    ensures trees { IfOk result (λ ts. ts.items ≡ map plain values.now) }
    ensures counted { OnOk result (steps.new ≡ steps.old + total_nodes (plains (vals values.now))) }
{
    let mut trees = Vec::new(alloc);
    for value in values {
        trees.push(value.plain(alloc, steps)?)?;
    }
    Ok(trees)
}

impl Progress {
    /// The table of the primitives on all children.
    #[cycle(ev)]
    #[tactic(auto, unfolding(tx_exec_form::specs::Rows::primitive, crate::specs::CallRuns::computed))]
    pub(crate) fn primitive<L: Ledger>(
        &mut self,
        alloc: Global,
        env: &Env,
        steps: &mut Steps<L>,
        t: &Tagged,
        which: Prim,
        frame: Option<&Call>,
        levels: u32,
    ) -> Result<Value, Stop>
        requires some { 0 < levels }
        requires levels { levels ≤ 400 }
        requires left { self.old.left ≤ 1000000 }
        ensures gives { Gives (λ v. v) result
            (primitive levels (ex (levels - 1)) (frame_in frame.entry) which (kids_of (tagged_of t.now))
            (before_of env.now) (state_of self.old))
            (state_of self.new) }
        ensures paid { Counts result (steps.old + self.old.left) (steps.new + self.new.left) }
    {
        let values = self.each(alloc, env, steps, t, 0, frame, levels - 1)?;
        self.computed(alloc, steps, which, &values, levels)
    }

    // The table of the primitives on these values. The step of the table is one of those of its value.
    #[tactic(auto, using(crate::proofs::Computing::compute_rules))]
    fn computed<L: Ledger>(
        &mut self,
        alloc: Global,
        steps: &mut Steps<L>,
        which: Prim,
        values: &[Value],
        levels: u32,
    ) -> Result<Value, Stop>
        requires { total_size (plains (vals values.now)) ≤ 1000000 }
        ensures gives { (e : Before) → Gives (λ v. v) result
            (computed levels which values.now
            e (state_of self.old))
            (state_of self.new) }
        ensures paid { Counts result (steps.old + self.old.left) (steps.new + self.new.left) }
    {
        let counted = nodes_of(values) + 1;
        self.charge(steps, counted, counted)?;
        let operands = plain_trees(alloc, steps, values)?;
        let tree = primitive(alloc, which, &operands, steps)?;
        self.itself(alloc, steps, &tree, &None, levels)
    }
}
