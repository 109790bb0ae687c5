// Trees that are evaluated on the way.
ghost use Rattle.std.specs.Prelude.{◌≡◌, ◌≤◌, ◌+◌, IfOk};
ghost use Rattle.tx_exec_form.specs.Evaluated.{evaluated_in, paid};
ghost use Rattle.tx_exec.specs.States.{before_of};
ghost use Rattle.tx_exec.specs.Outcomes.{wide_outcome, NamesOnce};

use std::alloc::Global;
use std::sync::ledger::Ledger;
use tx_base::{Memory, Steps};
use tx_env::Env;
use tx_exec::{Outcome, eval};
use tx_origin::{Ip, Tagged};
use tx_tree::Tree;

// What the tree at this origin evaluates to without a frame, with all levels.
fn eval_at<L: Ledger>(
    alloc: Global,
    t: &Tree,
    at: Option<Ip>,
    env: &mut Env,
    left: u64,
    steps: &mut Steps<L>,
) -> Result<Outcome, Memory>
    requires left { left ≤ 1000000 }
    ensures exact { IfOk result
        (λ o. wide_outcome o ≡ evaluated_in 400 left (record { tree = t.now; at = at }) (before_of env.old)) }
    ensures counted { IfOk result (λ o. steps.new ≡ steps.old + paid left (wide_outcome o)) }
    ensures names_once { IfOk result NamesOnce }
    ensures env { env.new ≡ env.old }
{
    let tagged = Tagged {
        tree: t.share()?,
        at,
    };
    eval(alloc, &tagged, env, left, steps)
}

/// What the tree at this origin evaluates to without a frame, with so many levels and steps. Where the levels don't
/// suffice, all steps that are left are taken.
pub(crate) fn eval_within<L: Ledger>(
    alloc: Global,
    t: &Tree,
    at: Option<Ip>,
    env: &mut Env,
    levels: u32,
    left: u64,
    steps: &mut Steps<L>,
) -> Result<Outcome, Memory>
    requires levels { levels ≤ 400 }
    requires left { left ≤ 1000000 }
    ensures exact { IfOk result
        (λ o. wide_outcome o ≡ evaluated_in levels left (record { tree = t.now; at = at }) (before_of env.old)) }
    ensures counted { IfOk result (λ o. steps.new ≡ steps.old + paid left (wide_outcome o)) }
    ensures names_once { IfOk result NamesOnce }
    ensures env { env.new ≡ env.old }
{
    match eval_at(alloc, t, at, env, left, steps)? {
        Outcome::Over => Ok(Outcome::Over),
        Outcome::Done(trace) => {
            if trace.height > levels {
                steps.add(left - trace.cost);
                return Ok(Outcome::Over);
            }
            Ok(Outcome::Done(trace))
        }
    }
}
