// `map-args`: the calls on the parts of an argument, or on all arguments.
ghost use Rattle.std.specs.Prelude.{◌≡◌, ◌+◌, ◌-◌, ◌<◌, ◌≤◌, Ok, Some, None, Option, drop, length};
ghost use Rattle.tx_origin.specs.TaggedTrees.{tagged_of, kids_of};
ghost use Rattle.tx_exec_form.specs.Rows.{ex, map_args, map_args_run, map_parts};
ghost use Rattle.tx_exec.specs.FrameView.{frame_in};
ghost use Rattle.tx_exec.specs.Gives.{Gives, Counts};
ghost use Rattle.tx_exec.specs.States.{state_of, before_of};

use crate::argument::Argument;
use crate::calls::{MapCall, MapWords, map_words};
use crate::frame::Call;
use crate::progress::Progress;
use crate::stop::Stop;
use std::alloc::Global;
use std::sync::ledger::Ledger;
use tx_base::Steps;
use tx_env::Env;
use tx_origin::{Tagged, Value};
use tx_tree::Label;

impl Progress {
    /// map-args: two labels and a name, which are not evaluated, and at most two numbers.
    #[cycle(ev)]
    pub(crate) fn map_args<L: Ledger>(
        &mut self,
        alloc: Global,
        env: &Env,
        steps: &mut Steps<L>,
        t: &Tagged,
        label: &Label,
        frame: Option<&Call>,
        levels: u32,
    ) -> Result<Value, Stop>
        requires some { 0 < levels }
        requires levels { levels ≤ 400 }
        requires left { self.old.left ≤ 1000000 }
        ensures gives { Gives (λ v. v) result
            (map_args levels (ex (levels - 1)) (frame_in frame.entry) label.now (kids_of (tagged_of t.now))
            (before_of env.now) (state_of self.old))
            (state_of self.new) }
        ensures paid { Counts result (steps.old + self.old.left) (steps.new + self.new.left) }
    {
        match map_words(alloc, t)? {
            None => self.wrong(alloc, steps, levels, b"bad".as_slice(), label.bytes()),
            Some(words) => self.map_of(alloc, env, steps, t, label, &words, frame, levels),
        }
    }

    // The parts of what this name has, and the numbers after it.
    #[cycle(ev)]
    #[tactic(auto, unfolding(tx_exec_form::specs::Rows::map_args_run))]
    fn map_of<L: Ledger>(
        &mut self,
        alloc: Global,
        env: &Env,
        steps: &mut Steps<L>,
        t: &Tagged,
        label: &Label,
        words: &MapWords,
        frame: Option<&Call>,
        levels: u32,
    ) -> Result<Value, Stop>
        requires some { 0 < levels }
        requires levels { levels ≤ 400 }
        requires left { self.old.left ≤ 1000000 }
        requires three { 3 ≤ length (kids_of (tagged_of t.now)) }
        ensures gives { Gives (λ v. v) result
            (map_args_run levels (ex (levels - 1)) (frame_in frame.entry) label.now words.now.foo words.now.root
            words.now.name (drop 3 (kids_of (tagged_of t.now)))
            (before_of env.now) (state_of self.old))
            (state_of self.new) }
        ensures paid { Counts result (steps.old + self.old.left) (steps.new + self.new.left) }
    {
        let name = words.name.bytes();
        let Some(call) = frame else {
            return self.wrong(alloc, steps, levels, b"unbound".as_slice(), name);
        };
        match call.argument(alloc, name)? {
            Argument::Unbound => self.wrong(alloc, steps, levels, b"unbound".as_slice(), name),
            Argument::Missing => self.wrong(alloc, steps, levels, b"missing".as_slice(), name),
            Argument::Here(found) => {
                let count = found.arity();
                self.map_parts(alloc, env, steps, t, label, words, count, frame, levels)
            }
            Argument::All(tag) => {
                let count = tag.arity();
                self.map_parts(alloc, env, steps, t, label, words, count, frame, levels)
            }
        }
    }

    // So many parts: the numbers are all evaluated, and then judged.
    #[cycle(ev)]
    #[tactic(auto, unfolding(tx_exec_form::specs::Rows::map_parts))]
    fn map_parts<L: Ledger>(
        &mut self,
        alloc: Global,
        env: &Env,
        steps: &mut Steps<L>,
        t: &Tagged,
        label: &Label,
        words: &MapWords,
        count: u32,
        frame: Option<&Call>,
        levels: u32,
    ) -> Result<Value, Stop>
        requires some { 0 < levels }
        requires levels { levels ≤ 400 }
        requires left { self.old.left ≤ 1000000 }
        requires three { 3 ≤ length (kids_of (tagged_of t.now)) }
        ensures gives { Gives (λ v. v) result
            (map_parts levels (ex (levels - 1)) (frame_in frame.entry) label.now words.now.foo words.now.root
            words.now.name count (drop 3 (kids_of (tagged_of t.now)))
            (before_of env.now) (state_of self.old))
            (state_of self.new) }
        ensures paid { Counts result (steps.old + self.old.left) (steps.new + self.new.left) }
    {
        let values = self.each(alloc, env, steps, t, 3, frame, levels - 1)?;
        match self.map_call(alloc, steps, words, count, &values)? {
            MapCall::Bad => self.wrong(alloc, steps, levels, b"bad".as_slice(), label.bytes()),
            MapCall::NoPart => {
                let name = words.name.bytes();
                self.wrong(alloc, steps, levels, b"no-part".as_slice(), name)
            }
            MapCall::Call(call) => self.ev(alloc, env, steps, &call, frame, levels - 1),
        }
    }
}
