// Whether what was looked up is there again.
ghost use Rattle.std.specs.Prelude.{◌≡◌, Some, None};
ghost use Rattle.std.specs.List.{list_all};
ghost use Rattle.std.specs.FinMap as maps;
ghost use Rattle.tx_exec.specs.States.{before_of};
ghost use Rattle.tx_exec.specs.Outcomes.{wide_trace};
ghost use Rattle.tx_replay.specs.SameTrees.{same};
ghost use Rattle.tx_replay.specs.Held.{agrees};

use crate::part_trace::PartTrace;
use tx_env::Env;
use tx_exec::Looks;
use tx_tree::{Text, Tree};

/// Whether the trees are equal.
#[tactic(auto, using(crate::proofs::Trees::same_result, std::proofs::lemmas::Grind::common_steps))]
pub fn same_trees(t: &Tree, u: &Tree) -> bool
    ensures { result ≡ same (Some t.now) (Some u.now) }
{
    t.same(u)
}

// Whether the name has what was found there.
fn agrees_at(env: &Env, name: &Text, found: &Option<Tree>) -> bool
    ensures { result ≡ same (maps.get env.now.map name.now) found.now }
{
    match (env.get(name), found) {
        (None, None) => true,
        (Some(tree), Some(found)) => same_trees(tree, found),
        _ => false,
    }
}

/// Whether each name has what was found where it was looked up.
pub fn looks_agree(env: &Env, looks: &Looks) -> bool
    ensures { result ≡ list_all (λ look. same (maps.get env.now.map look.0) look.1) looks.now }
{
    looks
        .pairs()
        .iter()
        .all(|look| agrees_at(env, &look.0, &look.1))
}

/// Whether the trace fits what names have.
pub(crate) fn trace_fits(env: &Env, trace: &PartTrace) -> bool
    ensures { result ≡ agrees (before_of env.now) trace.now.looks }
{
    looks_agree(env, &trace.trace().looks)
}
