// Rows that look names up, and rows without evaluation.
ghost use Rattle.std.specs.Prelude.{◌≡◌, ◌+◌, ◌<◌, ◌≤◌, [], Ok, Some, None, Option, IfOk, length};
ghost use Rattle.tx_origin.specs.Values.{plain, made, none};
ghost use Rattle.tx_origin.specs.TaggedTrees.{tagged_of, kids_of};
ghost use Rattle.tx_exec_form.specs.Runs.{Before};
ghost use Rattle.tx_exec_form.specs.Frames.{top};
ghost use Rattle.tx_exec_form.specs.Rows.{row, value_of, provides_of, quote, macro, xmacro, truth};
ghost use Rattle.tx_exec.specs.Gives.{Gives, Counts};
ghost use Rattle.tx_exec.specs.Kinds.{IsStill, nothing, nothing_all};
ghost use Rattle.tx_exec.specs.States.{state_of, before_of};

use crate::children::kid;
use crate::progress::Progress;
use crate::stop::Stop;
use std::alloc::Global;
use std::sync::ledger::Ledger;
use tx_base::{Memory, Steps};
use tx_env::Env;
use tx_exec_form::Row;
use tx_origin::{Tagged, Value, share_origin};
use tx_tree::{Label, Text, Tree, text_of};

impl Progress {
    /// Rows that evaluate no part.
    #[tactic(auto, unfolding(tx_exec_form::specs::Rows::row))]
    pub(crate) fn still_row<L: Ledger>(
        &mut self,
        alloc: Global,
        steps: &mut Steps<L>,
        t: &Tagged,
        label: &Label,
        kind: Row,
        levels: u32,
    ) -> Result<Value, Stop>
        requires kind { IsStill kind }
        ensures gives { (e : Before) → Gives (λ v. v) result
            (row kind levels nothing nothing_all (tagged_of t.now) label.now (kids_of (tagged_of t.now)) top
            e (state_of self.old))
            (state_of self.new) }
        ensures paid { Counts result (steps.old + self.old.left) (steps.new + self.new.left) }
    {
        match kind {
            Row::Refused => {
                self.wrong(alloc, steps, levels, b"refused".as_slice(), label.bytes())
            }
            Row::RawData => Ok(without_parts(alloc, label, t)?),
            Row::DrdProps => Ok(Value::leaf(alloc, text_of(alloc, &[])?, None)?),
            Row::Macro => self.macro_itself(alloc, steps, t, label, levels),
            Row::XMacro => self.xmacro_itself(alloc, steps, t, label, levels),
            Row::Quote => self.quote(alloc, steps, t, label, levels),
            _ => unreachable!(),
        }
    }

    /// `value` of a name: its tree.
    #[tactic(auto, unfolding(tx_exec_form::specs::Rows::value_of))]
    pub(crate) fn value_of<L: Ledger>(
        &mut self,
        alloc: Global,
        env: &Env,
        steps: &mut Steps<L>,
        label: &Label,
        name: &Value,
        levels: u32,
    ) -> Result<Value, Stop>
        ensures gives { Gives (λ v. v) result
            (value_of levels label.now name.now
            (before_of env.now) (state_of self.old))
            (state_of self.new) }
        ensures paid { Counts result (steps.old + self.old.left) (steps.new + self.new.left) }
    {
        match name.text() {
            None => self.wrong(alloc, steps, levels, b"bad".as_slice(), label.bytes()),
            Some(words) => match self.look(env, words)? {
                None => self.wrong(alloc, steps, levels, b"undefined".as_slice(), words.bytes()),
                Some(tree) => self.taken(alloc, steps, &tree, &None, levels),
            },
        }
    }

    /// `provides` of a name: whether it has a tree.
    #[tactic(auto, unfolding(tx_exec_form::specs::Rows::provides_of))]
    pub(crate) fn provides_of<L: Ledger>(
        &mut self,
        alloc: Global,
        env: &Env,
        steps: &mut Steps<L>,
        label: &Label,
        name: &Value,
        levels: u32,
    ) -> Result<Value, Stop>
        ensures gives { Gives (λ v. v) result
            (provides_of levels label.now name.now
            (before_of env.now) (state_of self.old))
            (state_of self.new) }
        ensures paid { Counts result (steps.old + self.old.left) (steps.new + self.new.left) }
    {
        match name.text() {
            None => self.wrong(alloc, steps, levels, b"bad".as_slice(), label.bytes()),
            Some(words) => {
                let found = self.look(env, words)?;
                let truth = truth_of(alloc, &found)?;
                self.word(alloc, steps, truth, levels)
            }
        }
    }

    /// `quote`: the child, unevaluated.
    #[tactic(auto, using(crate::proofs::Shapes::quote_rules, std::proofs::lemmas::Grind::common_steps))]
    pub(crate) fn quote<L: Ledger>(
        &mut self,
        alloc: Global,
        steps: &mut Steps<L>,
        t: &Tagged,
        label: &Label,
        levels: u32,
    ) -> Result<Value, Stop>
        ensures gives { (e : Before) → Gives (λ v. v) result
            (quote levels label.now (kids_of (tagged_of t.now))
            e (state_of self.old))
            (state_of self.new) }
        ensures paid { Counts result (steps.old + self.old.left) (steps.new + self.new.left) }
    {
        if t.arity() != 1 {
            return self.wrong(alloc, steps, levels, b"bad".as_slice(), label.bytes());
        }
        let quoted = kid(alloc, t, 0)?;
        self.taken(alloc, steps, &quoted.tree, &quoted.at, levels)
    }

    /// `macro`: itself.
    #[tactic(auto, using(crate::proofs::Shapes::macro_rules))]
    pub(crate) fn macro_itself<L: Ledger>(
        &mut self,
        alloc: Global,
        steps: &mut Steps<L>,
        t: &Tagged,
        label: &Label,
        levels: u32,
    ) -> Result<Value, Stop>
        ensures gives { (e : Before) → Gives (λ v. v) result
            (macro levels label.now (tagged_of t.now) (kids_of (tagged_of t.now))
            e (state_of self.old))
            (state_of self.new) }
        ensures paid { Counts result (steps.old + self.old.left) (steps.new + self.new.left) }
    {
        if t.arity() == 0 {
            return self.wrong(alloc, steps, levels, b"bad".as_slice(), label.bytes());
        }
        self.need(t.tree.depth(), levels)?;
        self.pay(steps, t.tree.size() - 1)?;
        Ok(Value::whole(alloc, &t.tree, &t.at)?)
    }

    /// `xmacro`: itself.
    #[tactic(auto, using(crate::proofs::AllArguments::xmacro_rules))]
    pub(crate) fn xmacro_itself<L: Ledger>(
        &mut self,
        alloc: Global,
        steps: &mut Steps<L>,
        t: &Tagged,
        label: &Label,
        levels: u32,
    ) -> Result<Value, Stop>
        ensures gives { (e : Before) → Gives (λ v. v) result
            (xmacro levels label.now (tagged_of t.now) (kids_of (tagged_of t.now))
            e (state_of self.old))
            (state_of self.new) }
        ensures paid { Counts result (steps.old + self.old.left) (steps.new + self.new.left) }
    {
        if t.arity() != 2 {
            return self.wrong(alloc, steps, levels, b"bad".as_slice(), label.bytes());
        }
        self.itself(alloc, steps, &t.tree, &t.at, levels)
    }
}

fn truth_of(alloc: Global, found: &Option<Tree>) -> Result<Text, Memory>
    ensures { IfOk result (λ t. t ≡ truth found.now) }
{
    match found {
        None => text_of(alloc, b"false".as_slice()),
        Some(_) => text_of(alloc, b"true".as_slice()),
    }
}

/// The node with this label and this origin, and no parts.
pub(crate) fn without_parts(alloc: Global, label: &Label, t: &Tagged) -> Result<Value, Memory>
    ensures { IfOk result (λ v. v ≡ made label.now none t.now.at) }
{
    Value::node(alloc, label.copy()?, Vec::new(alloc), share_origin(&t.at)?)
}
