// The trace of a tree.
ghost use Rattle.std.specs.Prelude.{◌≡◌, ◌+◌, ◌≤◌, ◌↔◌, Some, IfOk};
ghost use Rattle.tx_origin.specs.TaggedTrees.{tagged_of};
ghost use Rattle.tx_exec_form.specs.Laws.{IsPast};
ghost use Rattle.tx_exec_form.specs.Evaluated.{evaluated, paid, trace_of};
ghost use Rattle.tx_exec.specs.States.{before_of, state_of};
ghost use Rattle.tx_exec.specs.Outcomes.{wide_outcome, NamesOnce};
ghost use Rattle.tx_exec.specs.declared.outcome.Outcome.TheVariants.{Over};

use crate::looks::Looks;
use crate::names::{looks_of, writes_of};
use crate::progress::Progress;
use crate::stop::Stop;
use std::alloc::Global;
use std::sync::ledger::Ledger;
use tx_base::{Memory, Steps};
use tx_env::{Env, Writes};
use tx_origin::{Tagged, Value};

/// What a tree evaluates to where it is evaluated.
#[derive(Drop)]
pub struct Trace {
    /// Its value.
    pub value: Value,
    /// The names that were looked up and not set before, with what they had. Each occurs once.
    pub looks: Looks,
    /// The names that are set at the end, with their trees. Each occurs once.
    pub writes: Writes,
    /// The fewest steps that suffice.
    pub cost: u64,
    /// The fewest levels that suffice.
    pub height: u32,
}

/// A trace, or that steps or levels ran out.
#[derive(Drop)]
pub enum Outcome {
    /// The trace.
    Done(Trace),
    /// Steps or levels ran out.
    Over,
}

/// The trace of the tree without a frame, where this many steps are allowed, at most 1,000,000, and 400 levels.
///
/// `Over` is returned exactly where the cost passes the allowance or the height passes 400. The steps rise by the cost,
/// or by the allowance for `Over`. The environment is unchanged in every case.
#[tactic(auto, using(crate::proofs::Ending::over_iff, std::proofs::lemmas::Grind::common_steps))]
pub fn eval<L: Ledger>(
    alloc: Global,
    t: &Tagged,
    env: &mut Env,
    allowance: u64,
    steps: &mut Steps<L>,
) -> Result<Outcome, Memory>
    requires { allowance ≤ 1000000 }
    ensures exact { IfOk result (λ o. wide_outcome o ≡ evaluated (tagged_of t.now) (before_of env.old) allowance) }
    ensures over { IfOk result (λ o. (o ≡ Over) ↔ IsPast 400 allowance (tagged_of t.now) (before_of env.old)) }
    ensures once { IfOk result NamesOnce }
    ensures counted { IfOk result (λ o. steps.new ≡ steps.old + paid allowance (wide_outcome o)) }
    ensures env { env.new ≡ env.old }
{
    let outcome = evaluate(alloc, t, env, allowance, steps)?;
    Ok(outcome)
}

// The trace of the tree, in an environment that is only read.
fn evaluate<L: Ledger>(
    alloc: Global,
    t: &Tagged,
    env: &Env,
    allowance: u64,
    steps: &mut Steps<L>,
) -> Result<Outcome, Memory>
    requires { allowance ≤ 1000000 }
    ensures exact { IfOk result (λ o. wide_outcome o ≡ evaluated (tagged_of t.now) (before_of env.now) allowance) }
    ensures once { IfOk result NamesOnce }
    ensures counted { IfOk result (λ o. steps.new ≡ steps.old + paid allowance (wide_outcome o)) }
{
    let mut progress = Progress::begin(alloc, allowance);
    match progress.ev(alloc, env, steps, t, None, 400) {
        Ok(value) => trace_from(alloc, value, progress, allowance),
        Err(Stop::Over) => {
            steps.add(progress.left);
            Ok(Outcome::Over)
        }
        Err(Stop::Memory) => Err(Memory),
    }
}

// The trace of this value, where the rest was used.
fn trace_from(
    alloc: Global,
    value: Value,
    progress: Progress,
    allowance: u64,
) -> Result<Outcome, Memory>
    requires left { progress.left ≤ allowance }
    requires slack { progress.slack ≤ 400 }
    ensures trace { IfOk result (λ o. wide_outcome o ≡ Some (trace_of 400 allowance value (state_of progress))) }
    ensures once { IfOk result NamesOnce }
{
    let cost = allowance - progress.left;
    let height = 400 - progress.slack;
    let looks = looks_of(progress.looks, alloc)?;
    let writes = writes_of(progress.own, alloc)?;
    Ok(Outcome::Done(Trace {
        value,
        looks,
        writes,
        cost,
        height,
    }))
}
