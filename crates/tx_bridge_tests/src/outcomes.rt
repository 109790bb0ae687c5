// Trees that are evaluated, and their outcomes.
ghost use Rattle.std.specs.Prelude.{◌≤◌};

use std::alloc::Global;
use std::sync::ledger::Ledger;
use tx_base::Steps;
use tx_env::Env;
use tx_exec::{Outcome, eval};
use tx_origin::{Ip, Tagged};
use tx_tree::Tree;

// The outcome of the whole tree.
pub(crate) fn evaluated<L: Ledger>(
    alloc: Global,
    t: &Tree,
    env: &mut Env,
    allowance: u64,
    steps: &mut Steps<L>,
) -> Option<Outcome>
    requires { allowance ≤ 1000000 }
{
    let tagged = Tagged {
        tree: t.share().ok()?,
        at: Some(Ip::root()),
    };
    eval(alloc, &tagged, env, allowance, steps).ok()
}

// Whether both are done, with one value, cost and height.
pub(crate) fn same<L: Ledger>(
    alloc: Global,
    one: &Outcome,
    other: &Outcome,
    steps: &mut Steps<L>,
) -> Option<bool> {
    match (one, other) {
        (Outcome::Done(a), Outcome::Done(b)) => {
            let value = a.value.plain(alloc, steps).ok()?;
            let fresh = b.value.plain(alloc, steps).ok()?;
            Some(value.same(&fresh) && a.cost == b.cost && a.height == b.height)
        }
        _ => Some(false),
    }
}

// Whether both are done, with one value, cost and height, or both run out of steps or levels.
pub(crate) fn alike<L: Ledger>(
    alloc: Global,
    one: &Outcome,
    other: &Outcome,
    steps: &mut Steps<L>,
) -> Option<bool> {
    match (one, other) {
        (Outcome::Over, Outcome::Over) => Some(true),
        _ => same(alloc, one, other, steps),
    }
}
