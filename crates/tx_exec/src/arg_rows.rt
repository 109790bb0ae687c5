// Rows that use an argument: `arg` and `quote-arg`.
ghost use Rattle.std.specs.Prelude.{◌≡◌, ◌+◌, ◌-◌, ◌<◌, ◌≤◌, Ok, Some, None, Option, drop, length};
ghost use Rattle.tx_origin.specs.TaggedTrees.{tagged_of, kids_of};
ghost use Rattle.tx_exec_form.specs.Numbers.{integers_of};
ghost use Rattle.tx_exec_form.specs.Rows.{ex, ex_all, arg, arg_of, arg_part, numbered, used};
ghost use Rattle.tx_exec_form.specs.Rows.{all_part, all_numbered, all_used, tuple_run};
ghost use Rattle.tx_exec.specs.FrameView.{frame_in};
ghost use Rattle.tx_exec.specs.Gives.{Gives, Counts};
ghost use Rattle.tx_exec.specs.States.{state_of, before_of};

use crate::argument::Argument;
use crate::calls::label_of;
use crate::children::kid;
use crate::frame::{Call, caller_in};
use crate::numbers::{numbers_in, part_at};
use crate::progress::Progress;
use crate::stop::Stop;
use std::alloc::Global;
use std::sync::ledger::Ledger;
use tx_base::Steps;
use tx_env::Env;
use tx_exec_form::Taking;
use tx_origin::{Tagged, Value};
use tx_tree::{Label, Text};

impl Progress {
    /// arg and quote-arg: a name, which is not evaluated, and numbers.
    #[cycle(ev)]
    #[tactic(auto, using(crate::proofs::Shapes::arg_rules, std::proofs::lemmas::Grind::common_steps))]
    pub(crate) fn arg<L: Ledger>(
        &mut self,
        alloc: Global,
        env: &Env,
        steps: &mut Steps<L>,
        t: &Tagged,
        label: &Label,
        taking: Taking,
        frame: Option<&Call>,
        levels: u32,
    ) -> Result<Value, Stop>
        requires some { 0 < levels }
        requires levels { levels ≤ 400 }
        requires left { self.old.left ≤ 1000000 }
        ensures gives { Gives (λ v. v) result
            (arg taking levels (ex (levels - 1)) (ex_all (levels - 1)) (frame_in frame.entry) label.now
            (kids_of (tagged_of t.now)) (before_of env.now) (state_of self.old))
            (state_of self.new) }
        ensures paid { Counts result (steps.old + self.old.left) (steps.new + self.new.left) }
    {
        if t.arity() == 0 {
            return self.wrong(alloc, steps, levels, b"bad".as_slice(), label.bytes());
        }
        let x = kid(alloc, t, 0)?;
        match x.tree.text() {
            None => self.wrong(alloc, steps, levels, b"bad".as_slice(), label.bytes()),
            Some(name) => self.arg_of(alloc, env, steps, t, label, name, taking, frame, levels),
        }
    }

    // The argument of this name, and the numbers after it.
    #[cycle(ev)]
    #[tactic(auto, unfolding(tx_exec_form::specs::Rows::arg_of))]
    fn arg_of<L: Ledger>(
        &mut self,
        alloc: Global,
        env: &Env,
        steps: &mut Steps<L>,
        t: &Tagged,
        label: &Label,
        name: &Text,
        taking: Taking,
        frame: Option<&Call>,
        levels: u32,
    ) -> Result<Value, Stop>
        requires some { 0 < levels }
        requires levels { levels ≤ 400 }
        requires left { self.old.left ≤ 1000000 }
        requires kids { 0 < length (kids_of (tagged_of t.now)) }
        ensures gives { Gives (λ v. v) result
            (arg_of taking levels (ex (levels - 1)) (ex_all (levels - 1)) (frame_in frame.entry) label.now name.now
            (drop 1 (kids_of (tagged_of t.now))) (before_of env.now) (state_of self.old))
            (state_of self.new) }
        ensures paid { Counts result (steps.old + self.old.left) (steps.new + self.new.left) }
    {
        let Some(call) = frame else {
            return self.wrong(alloc, steps, levels, b"unbound".as_slice(), name.bytes());
        };
        match call.argument(alloc, name.bytes())? {
            Argument::Unbound => {
                self.wrong(alloc, steps, levels, b"unbound".as_slice(), name.bytes())
            }
            Argument::Missing => {
                self.wrong(alloc, steps, levels, b"missing".as_slice(), name.bytes())
            }
            Argument::Here(found) => {
                self.arg_part(
                    alloc, env, steps, t, &found, label, name, taking, frame, levels,
                )
            }
            Argument::All(tag) => {
                self.all_part(
                    alloc, env, steps, t, &tag, label, name, taking, frame, levels,
                )
            }
        }
    }

    // The part of the argument to which the numbers lead.
    #[cycle(ev)]
    #[tactic(auto, unfolding(tx_exec_form::specs::Rows::arg_part))]
    fn arg_part<L: Ledger>(
        &mut self,
        alloc: Global,
        env: &Env,
        steps: &mut Steps<L>,
        t: &Tagged,
        found: &Tagged,
        label: &Label,
        name: &Text,
        taking: Taking,
        frame: Option<&Call>,
        levels: u32,
    ) -> Result<Value, Stop>
        requires some { 0 < levels }
        requires levels { levels ≤ 400 }
        requires left { self.old.left ≤ 1000000 }
        requires kids { 0 < length (kids_of (tagged_of t.now)) }
        ensures gives { Gives (λ v. v) result
            (arg_part taking levels (ex (levels - 1)) (frame_in frame.entry) label.now name.now (tagged_of found.now)
            (drop 1 (kids_of (tagged_of t.now)))
            (before_of env.now) (state_of self.old))
            (state_of self.new) }
        ensures paid { Counts result (steps.old + self.old.left) (steps.new + self.new.left) }
    {
        let values = self.each(alloc, env, steps, t, 1, frame, levels - 1)?;
        self.numbered(
            alloc, env, steps, found, &values, label, name, taking, frame, levels,
        )
    }

    // The part to which these values lead as numbers.
    #[cycle(ev)]
    fn numbered<L: Ledger>(
        &mut self,
        alloc: Global,
        env: &Env,
        steps: &mut Steps<L>,
        found: &Tagged,
        values: &[Value],
        label: &Label,
        name: &Text,
        taking: Taking,
        frame: Option<&Call>,
        levels: u32,
    ) -> Result<Value, Stop>
        requires some { 0 < levels }
        requires levels { levels ≤ 400 }
        requires left { self.old.left ≤ 1000000 }
        ensures gives { Gives (λ v. v) result
            (numbered taking levels (ex (levels - 1)) (frame_in frame.entry) label.now name.now (tagged_of found.now)
            (integers_of values.now)
            (before_of env.now) (state_of self.old))
            (state_of self.new) }
        ensures paid { Counts result (steps.old + self.old.left) (steps.new + self.new.left) }
    {
        let Some(numbers) = numbers_in(alloc, values)? else {
            return self.wrong(alloc, steps, levels, b"bad".as_slice(), label.bytes());
        };
        match part_at(alloc, found, &numbers)? {
            None => self.wrong(alloc, steps, levels, b"no-part".as_slice(), name.bytes()),
            Some(part) => self.used(alloc, env, steps, &part, taking, frame, levels),
        }
    }

    // What was found: evaluated in the frame of the caller, or unevaluated.
    #[cycle(ev)]
    #[tactic(auto, unfolding(tx_exec_form::specs::Rows::used))]
    fn used<L: Ledger>(
        &mut self,
        alloc: Global,
        env: &Env,
        steps: &mut Steps<L>,
        part: &Tagged,
        taking: Taking,
        frame: Option<&Call>,
        levels: u32,
    ) -> Result<Value, Stop>
        requires some { 0 < levels }
        requires levels { levels ≤ 400 }
        requires left { self.old.left ≤ 1000000 }
        ensures gives { Gives (λ v. v) result
            (used taking levels (ex (levels - 1)) (frame_in frame.entry) (tagged_of part.now)
            (before_of env.now) (state_of self.old))
            (state_of self.new) }
        ensures paid { Counts result (steps.old + self.old.left) (steps.new + self.new.left) }
    {
        match taking {
            Taking::Evaluated => { self.ev(alloc, env, steps, part, caller_in(frame), levels - 1) }
            Taking::Quoted => self.taken(alloc, steps, &part.tree, &part.at, levels),
        }
    }

    // The numbers after the parameter of an `xmacro`, and what they lead to.
    #[cycle(ev)]
    #[tactic(auto, unfolding(tx_exec_form::specs::Rows::all_part))]
    fn all_part<L: Ledger>(
        &mut self,
        alloc: Global,
        env: &Env,
        steps: &mut Steps<L>,
        t: &Tagged,
        tag: &Tagged,
        label: &Label,
        name: &Text,
        taking: Taking,
        frame: Option<&Call>,
        levels: u32,
    ) -> Result<Value, Stop>
        requires some { 0 < levels }
        requires levels { levels ≤ 400 }
        requires left { self.old.left ≤ 1000000 }
        requires kids { 0 < length (kids_of (tagged_of t.now)) }
        ensures gives { Gives (λ v. v) result
            (all_part taking levels (ex (levels - 1)) (ex_all (levels - 1)) (frame_in frame.entry) label.now name.now
            (kids_of (tagged_of tag.now)) (drop 1 (kids_of (tagged_of t.now)))
            (before_of env.now) (state_of self.old))
            (state_of self.new) }
        ensures paid { Counts result (steps.old + self.old.left) (steps.new + self.new.left) }
    {
        let values = self.each(alloc, env, steps, t, 1, frame, levels - 1)?;
        self.all_numbered(
            alloc, env, steps, tag, &values, label, name, taking, frame, levels,
        )
    }

    // The argument that the first of these values picks, or its part, or all arguments.
    #[cycle(ev)]
    #[tactic(auto, using(crate::proofs::AllArguments::first_number_rules, std::proofs::lemmas::Grind::common_steps))]
    fn all_numbered<L: Ledger>(
        &mut self,
        alloc: Global,
        env: &Env,
        steps: &mut Steps<L>,
        tag: &Tagged,
        values: &[Value],
        label: &Label,
        name: &Text,
        taking: Taking,
        frame: Option<&Call>,
        levels: u32,
    ) -> Result<Value, Stop>
        requires some { 0 < levels }
        requires levels { levels ≤ 400 }
        requires left { self.old.left ≤ 1000000 }
        ensures gives { Gives (λ v. v) result
            (all_numbered taking levels (ex (levels - 1)) (ex_all (levels - 1)) (frame_in frame.entry) label.now
            name.now (kids_of (tagged_of tag.now)) (integers_of values.now)
            (before_of env.now) (state_of self.old))
            (state_of self.new) }
        ensures paid { Counts result (steps.old + self.old.left) (steps.new + self.new.left) }
    {
        if values.is_empty() {
            return self.all_used(alloc, env, steps, tag, taking, frame, levels);
        }
        self.numbered(
            alloc, env, steps, tag, values, label, name, taking, frame, levels,
        )
    }

    // All arguments: evaluated in the frame of the caller, or unevaluated.
    #[cycle(ev)]
    #[tactic(auto, unfolding(tx_exec_form::specs::Rows::all_used))]
    fn all_used<L: Ledger>(
        &mut self,
        alloc: Global,
        env: &Env,
        steps: &mut Steps<L>,
        tag: &Tagged,
        taking: Taking,
        frame: Option<&Call>,
        levels: u32,
    ) -> Result<Value, Stop>
        requires some { 0 < levels }
        requires levels { levels ≤ 400 }
        requires left { self.old.left ≤ 1000000 }
        ensures gives { Gives (λ v. v) result
            (all_used taking levels (ex_all (levels - 1)) (frame_in frame.entry) (kids_of (tagged_of tag.now))
            (before_of env.now) (state_of self.old))
            (state_of self.new) }
        ensures paid { Counts result (steps.old + self.old.left) (steps.new + self.new.left) }
    {
        match taking {
            Taking::Evaluated => self.all(alloc, env, steps, tag, caller_in(frame), levels - 1),
            Taking::Quoted => self.all_taken(alloc, steps, tag, levels),
        }
    }

    // The tuple of the values of all arguments.
    #[cycle(ev)]
    #[tactic(auto, using(crate::proofs::AllArguments::ex_all_rules))]
    fn all<L: Ledger>(
        &mut self,
        alloc: Global,
        env: &Env,
        steps: &mut Steps<L>,
        tag: &Tagged,
        frame: Option<&Call>,
        levels: u32,
    ) -> Result<Value, Stop>
        requires levels { levels < 400 }
        requires left { self.old.left ≤ 1000000 }
        ensures gives { Gives (λ v. v) result
            (ex_all levels (kids_of (tagged_of tag.now)) (frame_in frame.entry)
            (before_of env.now) (state_of self.old))
            (state_of self.new) }
        ensures paid { Counts result (steps.old + self.old.left) (steps.new + self.new.left) }
    {
        if levels == 0 {
            return Err(Stop::Over);
        }
        self.all_values(alloc, env, steps, tag, frame, levels)
    }

    // The tuple of the values of all arguments, where there is a level.
    #[cycle(ev)]
    #[tactic(auto, unfolding(tx_exec_form::specs::Rows::tuple_run))]
    fn all_values<L: Ledger>(
        &mut self,
        alloc: Global,
        env: &Env,
        steps: &mut Steps<L>,
        tag: &Tagged,
        frame: Option<&Call>,
        levels: u32,
    ) -> Result<Value, Stop>
        requires some { 0 < levels }
        requires levels { levels ≤ 400 }
        requires left { self.old.left ≤ 1000000 }
        ensures gives { Gives (λ v. v) result
            (tuple_run levels (ex (levels - 1)) (kids_of (tagged_of tag.now)) (frame_in frame.entry)
            (before_of env.now) (state_of self.old))
            (state_of self.new) }
        ensures paid { Counts result (steps.old + self.old.left) (steps.new + self.new.left) }
    {
        let label = label_of(alloc, b"tuple".as_slice())?;
        self.need(1, levels)?;
        self.pay(steps, 1)?;
        self.rebuilt(alloc, env, steps, tag, &label, &None, frame, levels)
    }
}
