// Rows that set names: `assign` and `with`.
ghost use Rattle.std.specs.Prelude.{◌≡◌, ◌+◌, ◌-◌, ◌*◌, ◌<◌, ◌≤◌, [], Ok, Some, None, Option, IfOk, drop, length};
ghost use Rattle.tx_tree.specs.WideTree.{size_of, depth_of};
ghost use Rattle.tx_origin.specs.Values.{plain};
ghost use Rattle.tx_origin.specs.TaggedTrees.{tagged_of, kids_of};
ghost use Rattle.tx_exec_form.specs.Rows.{ex, assign, with_row, with_parts};
ghost use Rattle.tx_exec.specs.FrameView.{frame_in};
ghost use Rattle.tx_exec.specs.Gives.{Gives, GoesOn, Counts};
ghost use Rattle.tx_exec.specs.PartRuns.{pair_run, assign_run, held_run, with_run, size_in_pair, IsShallowPair};
ghost use Rattle.tx_exec.specs.Settings.{sets_of, held_of};
ghost use Rattle.tx_exec.specs.Told.{IsTold, ToldIfNone};
ghost use Rattle.tx_exec.specs.States.{state_of, before_of};

use crate::frame::Call;
use crate::progress::Progress;
use crate::stop::Stop;
use crate::withs::{Held, Pair, Parts, made_with, pairs_in, words_of};
use std::alloc::Global;
use std::sync::ledger::Ledger;
use tx_base::Steps;
use tx_env::Env;
use tx_origin::{Tagged, Value};
use tx_tree::Label;

impl Progress {
    // The value of the child of this number, which is to be a text, and that of the next one, or None where it is a
    // node.
    #[cycle(ev)]
    #[tactic(auto, unfolding(crate::specs::PartRuns::pair_run))]
    fn pair<L: Ledger>(
        &mut self,
        alloc: Global,
        env: &Env,
        steps: &mut Steps<L>,
        t: &Tagged,
        first: u32,
        frame: Option<&Call>,
        levels: u32,
    ) -> Result<Option<Pair>, Stop>
        requires levels { levels < 400 }
        requires left { self.old.left ≤ 1000000 }
        requires second { first + 1 < length (kids_of (tagged_of t.now)) }
        requires fits { first < 65535 }
        ensures gives { Gives (λ p. p) result
            (pair_run (ex levels) (frame_in frame.entry) (kids_of (tagged_of t.now)) first
            (before_of env.now) (state_of self.old))
            (state_of self.new) }
        ensures paid { Counts result (steps.old + self.old.left) (steps.new + self.new.left) }
        ensures size { IfOk result (λ p. size_in_pair p + self.new.left ≤ self.old.left) }
        ensures depth { IfOk result (IsShallowPair levels) }
    {
        let name = self.kid_value(alloc, env, steps, t, first, frame, levels)?;
        match words_of(&name)? {
            None => Ok(None),
            Some(words) => {
                let value = self.kid_value(alloc, env, steps, t, first + 1, frame, levels)?;
                Ok(Some(Pair { name, words, value }))
            }
        }
    }

    // assign: a name and a value.
    #[cycle(ev)]
    #[tactic(auto, using(crate::proofs::Shapes::assign_rules, std::proofs::lemmas::Grind::common_steps))]
    pub(crate) fn assign<L: Ledger>(
        &mut self,
        alloc: Global,
        env: &Env,
        steps: &mut Steps<L>,
        t: &Tagged,
        label: &Label,
        frame: Option<&Call>,
        levels: u32,
    ) -> Result<Value, Stop>
        requires some { 0 < levels }
        requires levels { levels ≤ 400 }
        requires left { self.old.left ≤ 1000000 }
        ensures gives { Gives (λ v. v) result
            (assign levels (ex (levels - 1)) (frame_in frame.entry) label.now t.now.at (kids_of (tagged_of t.now))
            (before_of env.now) (state_of self.old))
            (state_of self.new) }
        ensures paid { Counts result (steps.old + self.old.left) (steps.new + self.new.left) }
    {
        if t.arity() != 2 {
            return self.wrong(alloc, steps, levels, b"bad".as_slice(), label.bytes());
        }
        self.assigned(alloc, env, steps, t, label, frame, levels)
    }

    // The name and what is after it.
    #[cycle(ev)]
    #[tactic(auto, unfolding(crate::specs::PartRuns::assign_run))]
    fn assigned<L: Ledger>(
        &mut self,
        alloc: Global,
        env: &Env,
        steps: &mut Steps<L>,
        t: &Tagged,
        label: &Label,
        frame: Option<&Call>,
        levels: u32,
    ) -> Result<Value, Stop>
        requires some { 0 < levels }
        requires levels { levels ≤ 400 }
        requires left { self.old.left ≤ 1000000 }
        requires two { length (kids_of (tagged_of t.now)) ≡ 2 }
        ensures gives { Gives (λ v. v) result
            (assign_run levels (ex (levels - 1)) (frame_in frame.entry) label.now t.now.at (kids_of (tagged_of t.now))
            (before_of env.now) (state_of self.old))
            (state_of self.new) }
        ensures paid { Counts result (steps.old + self.old.left) (steps.new + self.new.left) }
    {
        match self.pair(alloc, env, steps, t, 0, frame, levels - 1)? {
            None => self.wrong(alloc, steps, levels, b"bad".as_slice(), label.bytes()),
            Some(pair) => self.stored(alloc, steps, t, label, pair),
        }
    }

    // with: names and values, and a body.
    #[cycle(ev)]
    #[tactic(auto, using(crate::proofs::Kids::few_kids, std::proofs::lemmas::Grind::common_steps))]
    pub(crate) fn with_row<L: Ledger>(
        &mut self,
        alloc: Global,
        env: &Env,
        steps: &mut Steps<L>,
        t: &Tagged,
        label: &Label,
        frame: Option<&Call>,
        levels: u32,
    ) -> Result<Value, Stop>
        requires some { 0 < levels }
        requires levels { levels ≤ 400 }
        requires left { self.old.left ≤ 1000000 }
        ensures gives { Gives (λ v. v) result
            (with_row levels (ex (levels - 1)) (frame_in frame.entry) label.now t.now.at (kids_of (tagged_of t.now))
            (before_of env.now) (state_of self.old))
            (state_of self.new) }
        ensures paid { Counts result (steps.old + self.old.left) (steps.new + self.new.left) }
    {
        let _size = t.tree.size();
        match pairs_in(t.arity()) {
            None => self.wrong(alloc, steps, levels, b"bad".as_slice(), label.bytes()),
            Some(pairs) => self.with_parts(alloc, env, steps, t, label, pairs, frame, levels),
        }
    }

    // The names and values, in order, and what is done with them.
    #[cycle(ev)]
    #[tactic(auto, using(crate::proofs::WithLoop::with_rules))]
    fn with_parts<L: Ledger>(
        &mut self,
        alloc: Global,
        env: &Env,
        steps: &mut Steps<L>,
        t: &Tagged,
        label: &Label,
        pairs: u32,
        frame: Option<&Call>,
        levels: u32,
    ) -> Result<Value, Stop>
        requires some { 0 < levels }
        requires levels { levels ≤ 400 }
        requires left { self.old.left ≤ 1000000 }
        requires pairs { length (kids_of (tagged_of t.now)) ≡ 2 * pairs + 1 }
        requires fits { pairs < 32768 }
        ensures gives { Gives (λ v. v) result
            (with_parts levels (ex (levels - 1)) (frame_in frame.entry) label.now t.now.at [] []
            (kids_of (tagged_of t.now)) (before_of env.now) (state_of self.old))
            (state_of self.new) }
        ensures paid { Counts result (steps.old + self.old.left) (steps.new + self.new.left) }
    {
        let mut parts = Parts::new(alloc);
        match self.all_pairs(
            alloc, env, steps, t, label, pairs, &mut parts, frame, levels,
        )? {
            Some(error) => Ok(error),
            None => self.with_body(alloc, env, steps, t, label, pairs, parts, frame, levels),
        }
    }

    // Puts the names and values after the parts, in order. The error of the first name that is a node, or None where
    // all are texts.
    #[cycle(ev)]
    #[tactic(auto, using(crate::proofs::WithLoop::double_fits, std::proofs::lemmas::Grind::common_steps))]
    fn all_pairs<L: Ledger>(
        &mut self,
        alloc: Global,
        env: &Env,
        steps: &mut Steps<L>,
        t: &Tagged,
        label: &Label,
        pairs: u32,
        parts: &mut Parts,
        frame: Option<&Call>,
        levels: u32,
    ) -> Result<Option<Value>, Stop>
        requires some { 0 < levels }
        requires levels { levels ≤ 400 }
        requires left { self.old.left ≤ 1000000 }
        requires pairs { length (kids_of (tagged_of t.now)) ≡ 2 * pairs + 1 }
        requires fits { pairs < 32768 }
        requires values { parts.old.values.items ≡ [] }
        requires settings { parts.old.settings.items ≡ [] }
        requires total { parts.old.total ≡ 0 }
        requires nodes { parts.old.nodes ≡ 0 }
        ensures goes { GoesOn result
            (with_parts levels (ex (levels - 1)) (frame_in frame.entry) label.now t.now.at [] []
            (kids_of (tagged_of t.now)) (before_of env.now) (state_of self.old))
            (with_parts levels (ex (levels - 1)) (frame_in frame.entry) label.now t.now.at parts.new.values.items
            (sets_of parts.new.settings.items) (drop (2 * pairs) (kids_of (tagged_of t.now)))
            (before_of env.now) (state_of self.new))
            (state_of self.new) }
        ensures paid { Counts result (steps.old + self.old.left) (steps.new + self.new.left) }
        ensures told { IfOk result (ToldIfNone (IsTold parts.new self.new.left self.old.left (levels - 1) pairs)) }
    {
        for i in 0..pairs {
            let found = self.pair(alloc, env, steps, t, 2 * i, frame, levels - 1)?;
            let Some(pair) = found else {
                let bad = self.wrong(alloc, steps, levels, b"bad".as_slice(), label.bytes())?;
                return Ok(Some(bad));
            };
            parts.add(pair)?;
        }
        Ok(None)
    }

    // The body, with the names set.
    #[cycle(ev)]
    fn with_body<L: Ledger>(
        &mut self,
        alloc: Global,
        env: &Env,
        steps: &mut Steps<L>,
        t: &Tagged,
        label: &Label,
        pairs: u32,
        parts: Parts,
        frame: Option<&Call>,
        levels: u32,
    ) -> Result<Value, Stop>
        requires some { 0 < levels }
        requires levels { levels ≤ 400 }
        requires left { self.old.left ≤ 1000000 }
        requires pairs { length (kids_of (tagged_of t.now)) ≡ 2 * pairs + 1 }
        requires fits { pairs < 32768 }
        requires told { IsTold parts self.old.left 1000000 (levels - 1) pairs }
        ensures gives { Gives (λ v. v) result
            (with_run (ex (levels - 1)) (frame_in frame.entry) label.now t.now.at parts.values.items
            (sets_of parts.settings.items) (kids_of (tagged_of t.now)) (2 * pairs)
            (before_of env.now) (state_of self.old))
            (state_of self.new) }
        ensures paid { Counts result (steps.old + self.old.left) (steps.new + self.new.left) }
    {
        let trees = self.charged(alloc, steps, &parts)?;
        let value = self.with_names(alloc, env, steps, t, 2 * pairs, &trees, frame, levels - 1)?;
        Ok(made_with(alloc, t, label, parts.values, value)?)
    }

    // The value of the child of this number while these names are set.
    #[cycle(ev)]
    #[tactic(auto, unfolding(crate::specs::PartRuns::held_run))]
    fn with_names<L: Ledger>(
        &mut self,
        alloc: Global,
        env: &Env,
        steps: &mut Steps<L>,
        t: &Tagged,
        number: u32,
        names: &[Held],
        frame: Option<&Call>,
        levels: u32,
    ) -> Result<Value, Stop>
        requires levels { levels < 400 }
        requires left { self.old.left ≤ 1000000 }
        requires number { number < length (kids_of (tagged_of t.now)) }
        ensures gives { Gives (λ v. v) result
            (held_run (ex levels) (frame_in frame.entry) (held_of names.now) (kids_of (tagged_of t.now)) number
            (before_of env.now) (state_of self.old))
            (state_of self.new) }
        ensures paid { Counts result (steps.old + self.old.left) (steps.new + self.new.left) }
        ensures size { IfOk result (λ v. size_of (plain v) + self.new.left ≤ self.old.left) }
        ensures depth { IfOk result (λ v. depth_of (plain v) ≤ levels) }
    {
        let kept = self.kept(alloc, names)?;
        self.set_all(names)?;
        let value = self.kid_value(alloc, env, steps, t, number, frame, levels)?;
        self.set_all(&kept)?;
        Ok(value)
    }
}
