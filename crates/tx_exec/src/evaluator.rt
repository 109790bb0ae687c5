// The evaluator: functions that lead back to the evaluation of a part.
ghost use Rattle.std.specs.Prelude.{◌≡◌, ◌+◌, ◌-◌, ◌<◌, ◌≤◌, [], Ok, Some, None, Option, IfOk, drop, length};
ghost use Rattle.tx_tree.specs.WideTree.{size_of, depth_of, total_size, deepest, children_of};
ghost use Rattle.tx_origin.specs.Values.{vals, plain, plains};
ghost use Rattle.tx_origin.specs.TaggedTrees.{tagged_of, kids_of};
ghost use Rattle.tx_exec_form.specs.Rows.{ex, ex_all, each, rebuilt, node_run, row, by_name, tag_run, called};
ghost use Rattle.tx_exec_form.specs.Rows.{unary_row, only_child, eval_of};
ghost use Rattle.tx_prim.specs.Names.{named};
ghost use Rattle.tx_exec.specs.FrameView.{frame_in, frame_by};
ghost use Rattle.tx_exec.specs.Gives.{Gives, Counts};
ghost use Rattle.tx_exec.specs.Kinds.{IsOther};
ghost use Rattle.tx_exec.specs.PartRuns.{kid_run};
ghost use Rattle.tx_exec.specs.States.{state_of, before_of};

use crate::binding::Binding;
use crate::children::kid;
use crate::frame::Call;
use crate::macros::{body_behind, body_of, is_macro, is_xmacro};
use crate::progress::Progress;
use crate::stop::Stop;
use std::alloc::Global;
use std::sync::ledger::Ledger;
use tx_base::Steps;
use tx_env::Env;
use tx_exec_form::{Row, Taking, Unary, row_for};
use tx_origin::{Ip, Tagged, Value, share_origin};
use tx_prim::Prim;
use tx_tree::{Label, Tree, text_of};

impl Progress {
    /// The tree's value.
    #[cycle(ev)]
    #[tactic(auto, using(crate::proofs::Sizes::small_rules, std::proofs::lemmas::Grind::common_steps))]
    pub(crate) fn ev<L: Ledger>(
        &mut self,
        alloc: Global,
        env: &Env,
        steps: &mut Steps<L>,
        t: &Tagged,
        frame: Option<&Call>,
        levels: u32,
    ) -> Result<Value, Stop>
        requires levels { levels ≤ 400 }
        requires left { self.old.left ≤ 1000000 }
        ensures gives { Gives (λ v. v) result
            (ex levels (tagged_of t.now) (frame_in frame.entry)
            (before_of env.now) (state_of self.old))
            (state_of self.new) }
        ensures paid { Counts result (steps.old + self.old.left) (steps.new + self.new.left) }
        ensures size { IfOk result (λ v. size_of (plain v) + self.new.left ≤ self.old.left) }
        ensures depth { IfOk result (λ v. depth_of (plain v) ≤ levels) }
        ensures slack { IfOk result (λ v. self.new.slack ≤ levels) }
    {
        self.level(alloc, env, steps, t, frame, levels)
    }

    // One level.
    #[cycle(ev)]
    #[tactic(auto, using(crate::proofs::Levels::level_rules))]
    fn level<L: Ledger>(
        &mut self,
        alloc: Global,
        env: &Env,
        steps: &mut Steps<L>,
        t: &Tagged,
        frame: Option<&Call>,
        levels: u32,
    ) -> Result<Value, Stop>
        requires levels { levels ≤ 400 }
        requires left { self.old.left ≤ 1000000 }
        ensures gives { Gives (λ v. v) result
            (ex levels (tagged_of t.now) (frame_in frame.entry)
            (before_of env.now) (state_of self.old))
            (state_of self.new) }
        ensures paid { Counts result (steps.old + self.old.left) (steps.new + self.new.left) }
    {
        if levels == 0 {
            return Err(Stop::Over);
        }
        if let Some(words) = t.tree.text() {
            return self.leaf(alloc, steps, words, &t.at, levels);
        }
        let Some(label) = t.tree.label() else {
            unreachable!()
        };
        self.node(alloc, env, steps, t, label, frame, levels)
    }

    // A node.
    #[cycle(ev)]
    #[tactic(auto, unfolding(tx_exec_form::specs::Rows::node_run))]
    fn node<L: Ledger>(
        &mut self,
        alloc: Global,
        env: &Env,
        steps: &mut Steps<L>,
        t: &Tagged,
        label: &Label,
        frame: Option<&Call>,
        levels: u32,
    ) -> Result<Value, Stop>
        requires some { 0 < levels }
        requires levels { levels ≤ 400 }
        requires left { self.old.left ≤ 1000000 }
        ensures gives { Gives (λ v. v) result
            (node_run levels (ex (levels - 1)) (ex_all (levels - 1)) (tagged_of t.now) label.now
            (kids_of (tagged_of t.now)) (frame_in frame.entry) (before_of env.now) (state_of self.old))
            (state_of self.new) }
        ensures paid { Counts result (steps.old + self.old.left) (steps.new + self.new.left) }
    {
        self.need(1, levels)?;
        self.pay(steps, 1)?;
        let kind = row_for(label.bytes());
        self.row(alloc, env, steps, t, label, kind, frame, levels)
    }

    // What the table has for a node of this kind. A row more is a line more here or in `other_row`.
    #[cycle(ev)]
    #[tactic(auto, unfolding(tx_exec_form::specs::Rows::row))]
    fn row<L: Ledger>(
        &mut self,
        alloc: Global,
        env: &Env,
        steps: &mut Steps<L>,
        t: &Tagged,
        label: &Label,
        kind: Row,
        frame: Option<&Call>,
        levels: u32,
    ) -> Result<Value, Stop>
        requires some { 0 < levels }
        requires levels { levels ≤ 400 }
        requires left { self.old.left ≤ 1000000 }
        ensures gives { Gives (λ v. v) result
            (row kind levels (ex (levels - 1)) (ex_all (levels - 1)) (tagged_of t.now) label.now
            (kids_of (tagged_of t.now)) (frame_in frame.entry) (before_of env.now) (state_of self.old))
            (state_of self.new) }
        ensures paid { Counts result (steps.old + self.old.left) (steps.new + self.new.left) }
    {
        match kind {
            Row::Same => self.rebuilt(alloc, env, steps, t, label, &t.at, frame, levels),
            Row::Assign => self.assign(alloc, env, steps, t, label, frame, levels),
            Row::With => self.with_row(alloc, env, steps, t, label, frame, levels),
            Row::Tag => self.by_name(alloc, env, steps, t, label, frame, levels),
            other => self.other_row(alloc, env, steps, t, label, other, frame, levels),
        }
    }

    // The other rows: of one child, of an argument, and those that evaluate nothing.
    #[cycle(ev)]
    #[tactic(auto, unfolding(tx_exec_form::specs::Rows::row))]
    fn other_row<L: Ledger>(
        &mut self,
        alloc: Global,
        env: &Env,
        steps: &mut Steps<L>,
        t: &Tagged,
        label: &Label,
        kind: Row,
        frame: Option<&Call>,
        levels: u32,
    ) -> Result<Value, Stop>
        requires kind { IsOther kind }
        requires some { 0 < levels }
        requires levels { levels ≤ 400 }
        requires left { self.old.left ≤ 1000000 }
        ensures gives { Gives (λ v. v) result
            (row kind levels (ex (levels - 1)) (ex_all (levels - 1)) (tagged_of t.now) label.now
            (kids_of (tagged_of t.now)) (frame_in frame.entry) (before_of env.now) (state_of self.old))
            (state_of self.new) }
        ensures paid { Counts result (steps.old + self.old.left) (steps.new + self.new.left) }
    {
        match kind {
            Row::Value => self.only(alloc, env, steps, t, label, Unary::Value, frame, levels),
            Row::Provides => self.only(alloc, env, steps, t, label, Unary::Provides, frame, levels),
            Row::Eval => self.only(alloc, env, steps, t, label, Unary::Eval, frame, levels),
            Row::Arg => self.arg(
                alloc,
                env,
                steps,
                t,
                label,
                Taking::Evaluated,
                frame,
                levels,
            ),
            Row::QuoteArg => self.arg(alloc, env, steps, t, label, Taking::Quoted, frame, levels),
            other => self.flow_row(alloc, env, steps, t, label, other, frame, levels),
        }
    }

    // The node with this label and this origin, of the children evaluated.
    #[cycle(ev)]
    #[tactic(auto, unfolding(tx_exec_form::specs::Rows::rebuilt), using(crate::proofs::Kids::kid_rules))]
    pub(crate) fn rebuilt<L: Ledger>(
        &mut self,
        alloc: Global,
        env: &Env,
        steps: &mut Steps<L>,
        t: &Tagged,
        label: &Label,
        at: &Option<Ip>,
        frame: Option<&Call>,
        levels: u32,
    ) -> Result<Value, Stop>
        requires some { 0 < levels }
        requires levels { levels ≤ 400 }
        requires left { self.old.left ≤ 1000000 }
        ensures gives { Gives (λ v. v) result
            (rebuilt (ex (levels - 1)) (frame_in frame.entry) label.now (kids_of (tagged_of t.now)) at.now
            (before_of env.now) (state_of self.old))
            (state_of self.new) }
        ensures paid { Counts result (steps.old + self.old.left) (steps.new + self.new.left) }
    {
        let _size = t.tree.size();
        let values = self.each(alloc, env, steps, t, 0, frame, levels - 1)?;
        Ok(Value::node(alloc, label.copy()?, values, share_origin(at)?)?)
    }

    // The values of the children from the first of these numbers on.
    #[cycle(ev)]
    pub(crate) fn each<L: Ledger>(
        &mut self,
        alloc: Global,
        env: &Env,
        steps: &mut Steps<L>,
        t: &Tagged,
        first: u32,
        frame: Option<&Call>,
        levels: u32,
    ) -> Result<Vec<Value>, Stop>
        requires levels { levels < 400 }
        requires left { self.old.left ≤ 1000000 }
        requires first { first ≤ length (kids_of (tagged_of t.now)) }
        ensures gives { Gives (λ v. v.items) result
            (each (ex levels) (frame_in frame.entry) [] (drop first (kids_of (tagged_of t.now)))
            (before_of env.now) (state_of self.old))
            (state_of self.new) }
        ensures paid { Counts result (steps.old + self.old.left) (steps.new + self.new.left) }
        ensures arity { IfOk result (λ v. length v.items + first ≡ length (kids_of (tagged_of t.now))) }
        ensures size { IfOk result (λ v. total_size (plains (vals v.items)) + self.new.left ≤ self.old.left) }
        ensures depth { IfOk result (λ v. deepest (plains (vals v.items)) ≤ levels) }
    {
        let mut values = Vec::new(alloc);
        for i in first..t.arity() {
            let value = self.kid_value(alloc, env, steps, t, i, frame, levels)?;
            values.push(value)?;
        }
        Ok(values)
    }

    /// The value of the child of this number.
    #[cycle(ev)]
    #[tactic(auto, using(crate::proofs::Kids::kid_run_is, std::proofs::lemmas::Grind::common_steps))]
    pub(crate) fn kid_value<L: Ledger>(
        &mut self,
        alloc: Global,
        env: &Env,
        steps: &mut Steps<L>,
        t: &Tagged,
        number: u32,
        frame: Option<&Call>,
        levels: u32,
    ) -> Result<Value, Stop>
        requires levels { levels < 400 }
        requires left { self.old.left ≤ 1000000 }
        requires number { number < length (kids_of (tagged_of t.now)) }
        ensures gives { Gives (λ v. v) result
            (kid_run (ex levels) (frame_in frame.entry) (kids_of (tagged_of t.now)) number
            (before_of env.now) (state_of self.old))
            (state_of self.new) }
        ensures paid { Counts result (steps.old + self.old.left) (steps.new + self.new.left) }
        ensures size { IfOk result (λ v. size_of (plain v) + self.new.left ≤ self.old.left) }
        ensures depth { IfOk result (λ v. depth_of (plain v) ≤ levels) }
    {
        let kid = kid(alloc, t, number)?;
        self.ev(alloc, env, steps, &kid, frame, levels)
    }

    // A row that goes on with the value of its only child.
    #[cycle(ev)]
    #[tactic(auto, using(crate::proofs::Shapes::only_rules, std::proofs::lemmas::Grind::common_steps))]
    fn only<L: Ledger>(
        &mut self,
        alloc: Global,
        env: &Env,
        steps: &mut Steps<L>,
        t: &Tagged,
        label: &Label,
        unary: Unary,
        frame: Option<&Call>,
        levels: u32,
    ) -> Result<Value, Stop>
        requires some { 0 < levels }
        requires levels { levels ≤ 400 }
        requires left { self.old.left ≤ 1000000 }
        ensures gives { Gives (λ v. v) result
            (unary_row unary levels (ex (levels - 1)) (frame_in frame.entry) label.now (kids_of (tagged_of t.now))
            (before_of env.now) (state_of self.old))
            (state_of self.new) }
        ensures paid { Counts result (steps.old + self.old.left) (steps.new + self.new.left) }
    {
        if t.arity() != 1 {
            return self.wrong(alloc, steps, levels, b"bad".as_slice(), label.bytes());
        }
        let child = kid(alloc, t, 0)?;
        self.only_child(alloc, env, steps, &child, label, unary, frame, levels)
    }

    // The value of the only child, and what is done with it.
    #[cycle(ev)]
    #[tactic(auto, unfolding(tx_exec_form::specs::Rows::only_child))]
    fn only_child<L: Ledger>(
        &mut self,
        alloc: Global,
        env: &Env,
        steps: &mut Steps<L>,
        child: &Tagged,
        label: &Label,
        unary: Unary,
        frame: Option<&Call>,
        levels: u32,
    ) -> Result<Value, Stop>
        requires some { 0 < levels }
        requires levels { levels ≤ 400 }
        requires left { self.old.left ≤ 1000000 }
        ensures gives { Gives (λ v. v) result
            (only_child unary levels (ex (levels - 1)) (frame_in frame.entry) label.now (tagged_of child.now)
            (before_of env.now) (state_of self.old))
            (state_of self.new) }
        ensures paid { Counts result (steps.old + self.old.left) (steps.new + self.new.left) }
    {
        let value = self.ev(alloc, env, steps, child, frame, levels - 1)?;
        match unary {
            Unary::Value => self.value_of(alloc, env, steps, label, &value, levels),
            Unary::Provides => self.provides_of(alloc, env, steps, label, &value, levels),
            Unary::Eval => self.again(alloc, env, steps, &value, frame, levels),
        }
    }

    // The value's tree, evaluated again.
    #[cycle(ev)]
    #[tactic(auto, unfolding(tx_exec_form::specs::Rows::eval_of))]
    fn again<L: Ledger>(
        &mut self,
        alloc: Global,
        env: &Env,
        steps: &mut Steps<L>,
        value: &Value,
        frame: Option<&Call>,
        levels: u32,
    ) -> Result<Value, Stop>
        requires some { 0 < levels }
        requires levels { levels ≤ 400 }
        requires left { self.old.left ≤ 1000000 }
        ensures gives { Gives (λ v. v) result
            (eval_of (ex (levels - 1)) (frame_in frame.entry) value.now
            (before_of env.now) (state_of self.old))
            (state_of self.new) }
        ensures paid { Counts result (steps.old + self.old.left) (steps.new + self.new.left) }
    {
        let tree = self.bare(alloc, steps, value)?;
        let t = Tagged { tree, at: None };
        self.ev(alloc, env, steps, &t, frame, levels - 1)
    }

    // The name of a primitive, or any other tag.
    #[cycle(ev)]
    fn by_name<L: Ledger>(
        &mut self,
        alloc: Global,
        env: &Env,
        steps: &mut Steps<L>,
        t: &Tagged,
        label: &Label,
        frame: Option<&Call>,
        levels: u32,
    ) -> Result<Value, Stop>
        requires some { 0 < levels }
        requires levels { levels ≤ 400 }
        requires left { self.old.left ≤ 1000000 }
        ensures gives { Gives (λ v. v) result
            (by_name levels (ex (levels - 1)) label.now t.now.at (kids_of (tagged_of t.now))
            (frame_in frame.entry) (named label.now)
            (before_of env.now) (state_of self.old))
            (state_of self.new) }
        ensures paid { Counts result (steps.old + self.old.left) (steps.new + self.new.left) }
    {
        match Prim::named(label.bytes()) {
            None => self.tag(alloc, env, steps, t, label, frame, levels),
            Some(which) => self.primitive(alloc, env, steps, t, which, frame, levels),
        }
    }

    // A tag: a call where the environment has a meaning for its label, or else the same node of evaluated children.
    #[cycle(ev)]
    #[tactic(auto, unfolding(tx_exec_form::specs::Rows::tag_run))]
    fn tag<L: Ledger>(
        &mut self,
        alloc: Global,
        env: &Env,
        steps: &mut Steps<L>,
        t: &Tagged,
        label: &Label,
        frame: Option<&Call>,
        levels: u32,
    ) -> Result<Value, Stop>
        requires some { 0 < levels }
        requires levels { levels ≤ 400 }
        requires left { self.old.left ≤ 1000000 }
        ensures gives { Gives (λ v. v) result
            (tag_run levels (ex (levels - 1)) label.now t.now.at (kids_of (tagged_of t.now))
            (frame_in frame.entry) (before_of env.now) (state_of self.old))
            (state_of self.new) }
        ensures paid { Counts result (steps.old + self.old.left) (steps.new + self.new.left) }
    {
        let name = text_of(alloc, label.bytes())?;
        match self.look(env, &name)? {
            None => self.rebuilt(alloc, env, steps, t, label, &t.at, frame, levels),
            Some(meaning) => self.call(alloc, env, steps, t, label, &meaning, frame, levels),
        }
    }

    // A tag with this meaning.
    #[cycle(ev)]
    #[tactic(auto, unfolding(tx_exec_form::specs::Rows::called))]
    fn call<L: Ledger>(
        &mut self,
        alloc: Global,
        env: &Env,
        steps: &mut Steps<L>,
        t: &Tagged,
        label: &Label,
        meaning: &Tree,
        frame: Option<&Call>,
        levels: u32,
    ) -> Result<Value, Stop>
        requires some { 0 < levels }
        requires levels { levels ≤ 400 }
        requires left { self.old.left ≤ 1000000 }
        ensures gives { Gives (λ v. v) result
            (called levels (ex (levels - 1)) label.now (kids_of (tagged_of t.now)) (frame_in frame.entry) meaning.now
            (before_of env.now) (state_of self.old))
            (state_of self.new) }
        ensures paid { Counts result (steps.old + self.old.left) (steps.new + self.new.left) }
    {
        if is_macro(meaning) {
            let Some(body) = body_of(meaning) else {
                return self.wrong(alloc, steps, levels, b"bad".as_slice(), label.bytes());
            };
            let each = Binding::Each;
            return self.applied(alloc, env, steps, t, meaning, body, each, frame, levels);
        }
        if is_xmacro(meaning) {
            let Some(body) = body_behind(meaning) else {
                return self.wrong(alloc, steps, levels, b"bad".as_slice(), label.bytes());
            };
            let all = Binding::All;
            return self.applied(alloc, env, steps, t, meaning, body, all, frame, levels);
        }
        self.wrong(alloc, steps, levels, b"not-macro".as_slice(), label.bytes())
    }

    // The body, without origins, in the frame of this call.
    #[cycle(ev)]
    fn applied<L: Ledger>(
        &mut self,
        alloc: Global,
        env: &Env,
        steps: &mut Steps<L>,
        t: &Tagged,
        meaning: &Tree,
        body: &Tree,
        binding: Binding,
        frame: Option<&Call>,
        levels: u32,
    ) -> Result<Value, Stop>
        requires some { 0 < levels }
        requires levels { levels ≤ 400 }
        requires left { self.old.left ≤ 1000000 }
        ensures gives { Gives (λ v. v) result
            (ex (levels - 1) (record { tree = body.now; at = None })
            (frame_by binding (children_of meaning.now) (kids_of (tagged_of t.now)) (frame_in frame.entry))
            (before_of env.now) (state_of self.old))
            (state_of self.new) }
        ensures paid { Counts result (steps.old + self.old.left) (steps.new + self.new.left) }
    {
        let body = Tagged {
            tree: body.share()?,
            at: None,
        };
        let call = Call::new(binding, meaning, t, frame);
        self.ev(alloc, env, steps, &body, Some(&call), levels - 1)
    }
}
