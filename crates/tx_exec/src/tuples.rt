// The tuple of all arguments.
ghost use Rattle.std.specs.Prelude.{◌≡◌, ◌+◌, ◌<◌, ◌≤◌, IfOk, Option, None, length, codes};
ghost use Rattle.tx_tree.specs.WideTree.{size_of, depth_of, total_size, deepest};
ghost use Rattle.tx_origin.specs.Values.{made, vals, plain, plains};
ghost use Rattle.tx_origin.specs.TaggedTrees.{tagged_of, kids_of};
ghost use Rattle.tx_exec_form.specs.Runs.{Before};
ghost use Rattle.tx_exec_form.specs.Rows.{taken, tuple_of};
ghost use Rattle.tx_exec.specs.Gives.{Gives, Counts};
ghost use Rattle.tx_exec.specs.States.{state_of};

use crate::calls::label_of;
use crate::children::kid;
use crate::progress::Progress;
use crate::stop::Stop;
use std::alloc::Global;
use std::sync::ledger::Ledger;
use tx_base::{Memory, Steps};
use tx_origin::{Tagged, Value};

// The tuple of these values.
fn tuple(alloc: Global, values: Vec<Value>) -> Result<Value, Memory>
    requires arity { length values.items ≤ 65535 }
    requires size { total_size (plains (vals values.items)) ≤ 1000000 }
    requires depth { deepest (plains (vals values.items)) < 400 }
    ensures { IfOk result (λ v. v ≡ made (codes "tuple") (vals values.items) None) }
{
    let label = label_of(alloc, b"tuple".as_slice())?;
    Value::node(alloc, label, values, None)
}

// The size of the tuple of all children.
#[tactic(auto, using(crate::proofs::Tupling::measure_rules, std::proofs::lemmas::Grind::common_steps))]
fn tuple_size(tag: &Tagged) -> u64
    ensures { result ≡ size_of (plain (tuple_of (kids_of (tagged_of tag.now)))) }
{
    match tag.tree.label() {
        None => 1,
        Some(_) => tag.tree.size(),
    }
}

// The depth of the tuple of all children.
#[tactic(auto, using(crate::proofs::Tupling::measure_rules, std::proofs::lemmas::Grind::common_steps))]
fn tuple_depth(tag: &Tagged) -> u32
    ensures { result ≡ depth_of (plain (tuple_of (kids_of (tagged_of tag.now)))) }
{
    match tag.tree.label() {
        None => 1,
        Some(_) => tag.tree.depth(),
    }
}

// The tuple of all children, with their origins.
#[tactic(auto, using(crate::proofs::Tupling::tuple_rules, std::proofs::lemmas::Grind::common_steps))]
fn tuple_of(alloc: Global, tag: &Tagged) -> Result<Value, Memory>
    requires { size_of (plain (tuple_of (kids_of (tagged_of tag.now)))) ≤ 1000000 }
    ensures { IfOk result (λ v. v ≡ tuple_of (kids_of (tagged_of tag.now))) }
{
    let _size = tag.tree.size();
    let mut values = Vec::new(alloc);
    for i in 0..tag.arity() {
        let kid = kid(alloc, tag, i)?;
        values.push(Value::whole(alloc, &kid.tree, &kid.at)?)?;
    }
    tuple(alloc, values)
}

impl Progress {
    /// The tuple of all children of the tag, unevaluated.
    #[tactic(auto, unfolding(tx_exec_form::specs::Rows::taken))]
    pub(crate) fn all_taken<L: Ledger>(
        &mut self,
        alloc: Global,
        steps: &mut Steps<L>,
        tag: &Tagged,
        levels: u32,
    ) -> Result<Value, Stop>
        requires left { self.old.left ≤ 1000000 }
        ensures gives { (e : Before) → Gives (λ v. v) result
            (taken levels (tuple_of (kids_of (tagged_of tag.now)))
            e (state_of self.old))
            (state_of self.new) }
        ensures paid { Counts result (steps.old + self.old.left) (steps.new + self.new.left) }
    {
        self.need(tuple_depth(tag), levels)?;
        self.pay(steps, tuple_size(tag))?;
        Ok(tuple_of(alloc, tag)?)
    }
}
