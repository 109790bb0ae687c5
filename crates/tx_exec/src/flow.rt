// Rows of conditions: `if`, `case` and `while`.
ghost use Rattle.std.specs.Prelude.{◌≡◌, ◌+◌, ◌-◌, ◌<◌, ◌≤◌, [], Ok, Some, None, Option, IfOk, length, if◌then◌else◌};
ghost use Rattle.tx_tree.specs.WideTree.{total_size, deepest};
ghost use Rattle.tx_origin.specs.Values.{vals, plains};
ghost use Rattle.tx_origin.specs.TaggedTrees.{tagged_of, kids_of};
ghost use Rattle.tx_exec_form.specs.Rows.{ex, ex_all, row, chosen, if_row, case_row, while_row, turns};
ghost use Rattle.tx_exec.specs.FrameView.{frame_in};
ghost use Rattle.tx_exec.specs.FlowRuns.{truth_run, picked, IsPick, ended_by};
ghost use Rattle.tx_exec.specs.Gives.{Gives, LeadsOn, Counts};
ghost use Rattle.tx_exec.specs.Kinds.{IsFlow};
ghost use Rattle.tx_exec.specs.States.{state_of, before_of};
ghost use Rattle.tx_exec.specs.declared.picks.Ending.TheVariants.{Limit, Finished};

use crate::children::kid;
use crate::frame::Call;
use crate::picks::{Ending, Pick, half, joined, truth_in};
use crate::progress::Progress;
use crate::stop::Stop;
use std::alloc::Global;
use std::sync::ledger::Ledger;
use tx_base::Steps;
use tx_env::Env;
use tx_exec_form::{MOST_TURNS, Row};
use tx_origin::{Tagged, Value};
use tx_tree::{Label, text_of};

impl Progress {
    /// Rows of conditions, `map-args`, and those that evaluate nothing.
    #[cycle(ev)]
    #[tactic(auto, unfolding(tx_exec_form::specs::Rows::row))]
    pub(crate) fn flow_row<L: Ledger>(
        &mut self,
        alloc: Global,
        env: &Env,
        steps: &mut Steps<L>,
        t: &Tagged,
        label: &Label,
        kind: Row,
        frame: Option<&Call>,
        levels: u32,
    ) -> Result<Value, Stop>
        requires kind { IsFlow kind }
        requires some { 0 < levels }
        requires levels { levels ≤ 400 }
        requires left { self.old.left ≤ 1000000 }
        ensures gives { Gives (λ v. v) result
            (row kind levels (ex (levels - 1)) (ex_all (levels - 1)) (tagged_of t.now) label.now
            (kids_of (tagged_of t.now)) (frame_in frame.entry)
            (before_of env.now) (state_of self.old))
            (state_of self.new) }
        ensures paid { Counts result (steps.old + self.old.left) (steps.new + self.new.left) }
    {
        match kind {
            Row::If => self.if_row(alloc, env, steps, t, label, frame, levels),
            Row::Case => self.case_row(alloc, env, steps, t, label, frame, levels),
            Row::While => self.while_row(alloc, env, steps, t, label, frame, levels),
            Row::MapArgs => self.map_args(alloc, env, steps, t, label, frame, levels),
            other => self.still_row(alloc, steps, t, label, other, levels),
        }
    }

    // Whether the value of the tree is true or false.
    #[cycle(ev)]
    #[tactic(auto, unfolding(crate::specs::FlowRuns::truth_run))]
    fn truth<L: Ledger>(
        &mut self,
        alloc: Global,
        env: &Env,
        steps: &mut Steps<L>,
        t: &Tagged,
        frame: Option<&Call>,
        levels: u32,
    ) -> Result<Option<bool>, Stop>
        requires levels { levels < 400 }
        requires left { self.old.left ≤ 1000000 }
        ensures gives { Gives (λ v. v) result
            (truth_run (ex levels) (frame_in frame.entry) (tagged_of t.now)
            (before_of env.now) (state_of self.old))
            (state_of self.new) }
        ensures paid { Counts result (steps.old + self.old.left) (steps.new + self.new.left) }
        ensures left { IfOk result (λ r. self.new.left ≤ self.old.left) }
    {
        let value = self.ev(alloc, env, steps, t, frame, levels)?;
        Ok(truth_in(&value))
    }

    // if: a condition and one branch or two.
    #[cycle(ev)]
    #[tactic(auto, using(crate::proofs::Choosing::if_rules, std::proofs::lemmas::Grind::common_steps))]
    fn if_row<L: Ledger>(
        &mut self,
        alloc: Global,
        env: &Env,
        steps: &mut Steps<L>,
        t: &Tagged,
        label: &Label,
        frame: Option<&Call>,
        levels: u32,
    ) -> Result<Value, Stop>
        requires some { 0 < levels }
        requires levels { levels ≤ 400 }
        requires left { self.old.left ≤ 1000000 }
        ensures gives { Gives (λ v. v) result
            (if_row levels (ex (levels - 1)) (frame_in frame.entry) label.now (kids_of (tagged_of t.now))
            (before_of env.now) (state_of self.old))
            (state_of self.new) }
        ensures paid { Counts result (steps.old + self.old.left) (steps.new + self.new.left) }
    {
        if t.arity() < 2 {
            return self.wrong(alloc, steps, levels, b"bad".as_slice(), label.bytes());
        }
        if t.arity() > 3 {
            return self.wrong(alloc, steps, levels, b"bad".as_slice(), label.bytes());
        }
        self.chosen(alloc, env, steps, t, label, frame, levels)
    }

    // case: conditions with a branch each, and a last branch or none.
    #[cycle(ev)]
    #[tactic(auto, using(crate::proofs::Choosing::case_rules, std::proofs::lemmas::Grind::common_steps))]
    fn case_row<L: Ledger>(
        &mut self,
        alloc: Global,
        env: &Env,
        steps: &mut Steps<L>,
        t: &Tagged,
        label: &Label,
        frame: Option<&Call>,
        levels: u32,
    ) -> Result<Value, Stop>
        requires some { 0 < levels }
        requires levels { levels ≤ 400 }
        requires left { self.old.left ≤ 1000000 }
        ensures gives { Gives (λ v. v) result
            (case_row levels (ex (levels - 1)) (frame_in frame.entry) label.now (kids_of (tagged_of t.now))
            (before_of env.now) (state_of self.old))
            (state_of self.new) }
        ensures paid { Counts result (steps.old + self.old.left) (steps.new + self.new.left) }
    {
        if t.arity() < 2 {
            return self.wrong(alloc, steps, levels, b"bad".as_slice(), label.bytes());
        }
        self.chosen(alloc, env, steps, t, label, frame, levels)
    }

    // The value of the branch that is picked.
    #[cycle(ev)]
    #[tactic(auto, unfolding(crate::specs::FlowRuns::picked))]
    fn chosen<L: Ledger>(
        &mut self,
        alloc: Global,
        env: &Env,
        steps: &mut Steps<L>,
        t: &Tagged,
        label: &Label,
        frame: Option<&Call>,
        levels: u32,
    ) -> Result<Value, Stop>
        requires some { 0 < levels }
        requires levels { levels ≤ 400 }
        requires left { self.old.left ≤ 1000000 }
        ensures gives { Gives (λ v. v) result
            (chosen levels (ex (levels - 1)) (frame_in frame.entry) label.now (kids_of (tagged_of t.now))
            (before_of env.now) (state_of self.old))
            (state_of self.new) }
        ensures paid { Counts result (steps.old + self.old.left) (steps.new + self.new.left) }
    {
        match self.pick(alloc, env, steps, t, label, frame, levels)? {
            Pick::Bad => self.wrong(alloc, steps, levels, b"bad".as_slice(), label.bytes()),
            Pick::Branch(number) => self.kid_value(alloc, env, steps, t, number, frame, levels - 1),
            Pick::Nothing => {
                let empty = text_of(alloc, &[])?;
                self.word(alloc, steps, empty, levels)
            }
        }
    }

    // What the first condition that is true picks, or else the last child that is alone, or nothing.
    #[cycle(ev)]
    fn pick<L: Ledger>(
        &mut self,
        alloc: Global,
        env: &Env,
        steps: &mut Steps<L>,
        t: &Tagged,
        label: &Label,
        frame: Option<&Call>,
        levels: u32,
    ) -> Result<Pick, Stop>
        requires some { 0 < levels }
        requires levels { levels ≤ 400 }
        requires left { self.old.left ≤ 1000000 }
        ensures goes { LeadsOn result
            (chosen levels (ex (levels - 1)) (frame_in frame.entry) label.now (kids_of (tagged_of t.now))
            (before_of env.now) (state_of self.old))
            (λ pick. picked levels (ex (levels - 1)) (frame_in frame.entry) label.now (kids_of (tagged_of t.now)) pick
            (before_of env.now) (state_of self.new)) }
        ensures paid { Counts result (steps.old + self.old.left) (steps.new + self.new.left) }
        ensures left { IfOk result (λ r. self.new.left ≤ self.old.left) }
        ensures pick { IfOk result (IsPick (kids_of (tagged_of t.now))) }
    {
        let count = t.arity();
        let pairs = half(count);
        for i in 0..pairs {
            let condition = kid(alloc, t, 2 * i)?;
            let found = self.truth(alloc, env, steps, &condition, frame, levels - 1)?;
            let Some(holds) = found else {
                return Ok(Pick::Bad);
            };
            if holds {
                return Ok(Pick::Branch(2 * i + 1));
            }
        }
        if count == 2 * pairs {
            return Ok(Pick::Nothing);
        }
        Ok(Pick::Branch(2 * pairs))
    }

    // while: a condition and a body.
    #[cycle(ev)]
    #[tactic(auto, using(crate::proofs::Choosing::while_rules, std::proofs::lemmas::Grind::common_steps))]
    fn while_row<L: Ledger>(
        &mut self,
        alloc: Global,
        env: &Env,
        steps: &mut Steps<L>,
        t: &Tagged,
        label: &Label,
        frame: Option<&Call>,
        levels: u32,
    ) -> Result<Value, Stop>
        requires some { 0 < levels }
        requires levels { levels ≤ 400 }
        requires left { self.old.left ≤ 1000000 }
        ensures gives { Gives (λ v. v) result
            (while_row levels (ex (levels - 1)) (frame_in frame.entry) label.now (kids_of (tagged_of t.now))
            (before_of env.now) (state_of self.old))
            (state_of self.new) }
        ensures paid { Counts result (steps.old + self.old.left) (steps.new + self.new.left) }
    {
        if t.arity() != 2 {
            return self.wrong(alloc, steps, levels, b"bad".as_slice(), label.bytes());
        }
        let condition = kid(alloc, t, 0)?;
        let body = kid(alloc, t, 1)?;
        self.turns(alloc, env, steps, &condition, &body, label, frame, levels)
    }

    // The values of the body while the condition is true.
    #[cycle(ev)]
    #[tactic(auto, unfolding(crate::specs::FlowRuns::ended_by, tx_exec_form::specs::Rows::gathered))]
    fn turns<L: Ledger>(
        &mut self,
        alloc: Global,
        env: &Env,
        steps: &mut Steps<L>,
        condition: &Tagged,
        body: &Tagged,
        label: &Label,
        frame: Option<&Call>,
        levels: u32,
    ) -> Result<Value, Stop>
        requires some { 0 < levels }
        requires levels { levels ≤ 400 }
        requires left { self.old.left ≤ 1000000 }
        ensures gives { Gives (λ v. v) result
            (turns MOST_TURNS levels (ex (levels - 1)) (frame_in frame.entry) label.now (tagged_of condition.now)
            (tagged_of body.now) []
            (before_of env.now) (state_of self.old))
            (state_of self.new) }
        ensures paid { Counts result (steps.old + self.old.left) (steps.new + self.new.left) }
    {
        let mut values = Vec::new(alloc);
        match self.all_turns(
            alloc,
            env,
            steps,
            condition,
            body,
            label,
            &mut values,
            frame,
            levels,
        )? {
            Ending::Bad => self.wrong(alloc, steps, levels, b"bad".as_slice(), label.bytes()),
            Ending::Finished => Ok(joined(alloc, values)?),
            Ending::Limit => self.wrong(alloc, steps, levels, b"limit".as_slice(), label.bytes()),
        }
    }

    // Puts the values of the body after one another, and returns how they end.
    #[cycle(ev)]
    fn all_turns<L: Ledger>(
        &mut self,
        alloc: Global,
        env: &Env,
        steps: &mut Steps<L>,
        condition: &Tagged,
        body: &Tagged,
        label: &Label,
        values: &mut Vec<Value>,
        frame: Option<&Call>,
        levels: u32,
    ) -> Result<Ending, Stop>
        requires some { 0 < levels }
        requires levels { levels ≤ 400 }
        requires left { self.old.left ≤ 1000000 }
        requires values { values.old.items ≡ [] }
        ensures goes { LeadsOn result
            (turns MOST_TURNS levels (ex (levels - 1)) (frame_in frame.entry) label.now (tagged_of condition.now)
            (tagged_of body.now) [] (before_of env.now) (state_of self.old))
            (λ ending. ended_by levels label.now values.new.items ending (before_of env.now) (state_of self.new)) }
        ensures paid { Counts result (steps.old + self.old.left) (steps.new + self.new.left) }
        ensures few { IfOk result (λ r. length values.new.items ≤ 65535) }
        ensures size { IfOk result (λ r.
            total_size (plains (vals values.new.items)) + self.new.left ≤ self.old.left) }
        ensures depth { IfOk result (λ r. deepest (plains (vals values.new.items)) ≤ levels - 1) }
    {
        for turn in 0..MOST_TURNS {
            let found = self.truth(alloc, env, steps, condition, frame, levels - 1)?;
            let Some(holds) = found else {
                return Ok(Ending::Bad);
            };
            if !holds {
                return Ok(Ending::Finished);
            }
            let value = self.ev(alloc, env, steps, body, frame, levels - 1)?;
            values.push(value)?;
        }
        let last = self.truth(alloc, env, steps, condition, frame, levels - 1)?;
        match last {
            None => Ok(Ending::Bad),
            Some(holds) => Ok(last_ending(holds)),
        }
    }
}

// How a `while` ends that has had its most turns.
fn last_ending(holds: bool) -> Ending
    ensures { result ≡ (if holds then Limit else Finished) }
{
    if holds {
        Ending::Limit
    } else {
        Ending::Finished
    }
}
