// Error nodes, and texts.
ghost use Rattle.std.specs.Prelude.{◌≡◌, ◌+◌, Ok, Some, None, Option, IfOk, ◌≤◌, length};
ghost use Rattle.tx_exec_form.specs.Runs.{Before};
ghost use Rattle.tx_exec_form.specs.Rows.{wrong, leaf_run, taken, itself, error_node};
ghost use Rattle.tx_origin.specs.Values.{plain, whole, text};
ghost use Rattle.tx_origin.specs.TaggedTrees.{tagged_of};
ghost use Rattle.tx_exec.specs.Gives.{Gives, Counts};
ghost use Rattle.tx_exec.specs.States.{state_of};

use crate::progress::Progress;
use crate::stop::Stop;
use std::alloc::Global;
use std::sync::ledger::Ledger;
use tx_base::{Memory, Steps};
use tx_origin::{Ip, Tagged, Value, share_origin};
use tx_tree::{Label, Text, Tree, text_of};

impl Progress {
    /// The error node of this kind and this detail.
    #[tactic(auto, unfolding(tx_exec_form::specs::Rows::wrong))]
    pub(crate) fn wrong<L: Ledger>(
        &mut self,
        alloc: Global,
        steps: &mut Steps<L>,
        levels: u32,
        kind: &[u8],
        detail: &[u8],
    ) -> Result<Value, Stop>
        requires kind { length kind.now ≤ 1048575 }
        requires detail { length detail.now ≤ 1048575 }
        ensures gives { (e : Before) → Gives (λ v. v) result
            (wrong levels kind.now detail.now
            e (state_of self.old))
            (state_of self.new) }
        ensures paid { Counts result (steps.old + self.old.left) (steps.new + self.new.left) }
    {
        self.need(2, levels)?;
        self.pay(steps, 3 + kind.len() as u64 + detail.len() as u64)?;
        Ok(error_node(alloc, kind, detail)?)
    }

    /// A text.
    #[tactic(auto, unfolding(tx_exec_form::specs::Rows::leaf_run))]
    pub(crate) fn leaf<L: Ledger>(
        &mut self,
        alloc: Global,
        steps: &mut Steps<L>,
        words: &Text,
        at: &Option<Ip>,
        levels: u32,
    ) -> Result<Value, Stop>
        ensures gives { (e : Before) → Gives (λ v. v) result
            (leaf_run levels words.now at.now
            e (state_of self.old))
            (state_of self.new) }
        ensures paid { Counts result (steps.old + self.old.left) (steps.new + self.new.left) }
    {
        self.need(1, levels)?;
        self.pay(steps, 1 + words.bytes().len() as u64)?;
        Ok(Value::leaf(alloc, words.copy()?, share_origin(at)?)?)
    }

    /// A word of the evaluator's own.
    #[tactic(auto, unfolding(tx_exec_form::specs::Rows::taken))]
    pub(crate) fn word<L: Ledger>(
        &mut self,
        alloc: Global,
        steps: &mut Steps<L>,
        words: Text,
        levels: u32,
    ) -> Result<Value, Stop>
        ensures gives { (e : Before) → Gives (λ v. v) result
            (taken levels (text words None)
            e (state_of self.old))
            (state_of self.new) }
        ensures paid { Counts result (steps.old + self.old.left) (steps.new + self.new.left) }
    {
        self.need(1, levels)?;
        self.pay(steps, 1 + words.bytes().len() as u64)?;
        Ok(Value::leaf(alloc, words, None)?)
    }

    /// The tree, unevaluated, at this origin.
    #[tactic(auto, unfolding(tx_exec_form::specs::Rows::taken), using(crate::proofs::Kids::whole_rules))]
    pub(crate) fn taken<L: Ledger>(
        &mut self,
        alloc: Global,
        steps: &mut Steps<L>,
        tree: &Tree,
        at: &Option<Ip>,
        levels: u32,
    ) -> Result<Value, Stop>
        ensures gives { (e : Before) → Gives (λ v. v) result
            (taken levels (whole at.now tree.now)
            e (state_of self.old))
            (state_of self.new) }
        ensures paid { Counts result (steps.old + self.old.left) (steps.new + self.new.left) }
    {
        self.need(tree.depth(), levels)?;
        self.pay(steps, tree.size())?;
        Ok(Value::whole(alloc, tree, at)?)
    }

    /// The tree, unevaluated, at this origin. One step of its size is paid already.
    #[tactic(auto, using(crate::proofs::Kids::whole_rules))]
    pub(crate) fn itself<L: Ledger>(
        &mut self,
        alloc: Global,
        steps: &mut Steps<L>,
        tree: &Tree,
        at: &Option<Ip>,
        levels: u32,
    ) -> Result<Value, Stop>
        ensures gives { (e : Before) → Gives (λ v. v) result
            (itself levels (record { tree = tree.now; at = at.now })
            e (state_of self.old))
            (state_of self.new) }
        ensures paid { Counts result (steps.old + self.old.left) (steps.new + self.new.left) }
    {
        self.need(tree.depth(), levels)?;
        self.pay(steps, tree.size() - 1)?;
        Ok(Value::whole(alloc, tree, at)?)
    }
}

fn error_node(alloc: Global, kind: &[u8], detail: &[u8]) -> Result<Value, Memory>
    ensures { IfOk result (λ v. v ≡ error_node kind.now detail.now) }
{
    let Ok(label) = Label::new(alloc, b"error".as_slice()) else {
        return Err(Memory);
    };
    let kind = text_of(alloc, kind)?;
    let detail = text_of(alloc, detail)?;
    let _kind = kind.bytes();
    let _detail = detail.bytes();
    let mut parts = Vec::new(alloc);
    parts.push(Value::leaf(alloc, kind, None)?)?;
    parts.push(Value::leaf(alloc, detail, None)?)?;
    Value::node(alloc, label, parts, None)
}
