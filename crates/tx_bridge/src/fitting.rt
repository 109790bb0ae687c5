// Whether what is cached can be used.
ghost use Rattle.std.specs.Prelude.{◌≡◌, true, ◌&&◌, IsTrue};
ghost use Rattle.tx_bridge.specs.HeldParts.{is_same_part, are_same_parts};
ghost use Rattle.std.specs.List.{list_all};
ghost use Rattle.std.specs.FinMap as maps;
ghost use Rattle.tx_exec.specs.Outcomes.{wide_outcome, NamesOnce};
ghost use Rattle.tx_walk.specs.SameTrees.{same};
ghost use Rattle.tx_bridge.specs.Reached.{can_be_used};
ghost use Rattle.tx_bridge.specs.Settled.{AgreesWith, IsSilent};

use crate::moments::Moment;
use tx_env::Env;
use tx_exec::{Looks, Outcome};
use tx_walk::{Part, looks_agree};

// Whether each name has what was found where it was looked up, which is known where `settled`.
fn agrees_or(env: &Env, looks: &Looks, settled: bool) -> bool
    requires { settled ≡ true → list_all (λ look. same (maps.get env.now.map look.0) look.1) looks.now ≡ true }
    ensures { result ≡ list_all (λ look. same (maps.get env.now.map look.0) look.1) looks.now }
{
    settled || looks_agree(env, looks)
}

// Whether what is cached can be used at the moment. Where `settled`, its looks are known to agree with what names have.
pub(crate) fn can_be_used(moment: &Moment, kept: &Outcome, settled: bool) -> bool
    requires once { NamesOnce kept.now }
    requires settled { settled ≡ true → AgreesWith moment.now.env (wide_outcome kept.now) }
    ensures { result ≡ can_be_used moment.now (wide_outcome kept.now) }
{
    match kept {
        Outcome::Over => false,
        Outcome::Done(trace) => agrees_or(moment.env(), &trace.looks, settled)
            && trace.cost <= moment.allowance(),
    }
}

// Whether the part is the same one, and isn't marked as renewed.
fn is_same_part(kept: &Part, part: &Part) -> bool
    ensures { result ≡ is_same_part kept.now part.now }
{
    kept.path.steps() == part.path.steps() && !part.renewed
}

// Whether the parts are the same ones, in order, and none is marked as renewed.
fn same_parts(kept: &[Part], parts: &[Part]) -> bool
    ensures { result ≡ are_same_parts kept.now parts.now }
{
    if kept.len() != parts.len() {
        return false;
    }
    for i in 0..parts.len() {
        if !is_same_part(&kept[i], &parts[i]) {
            return false;
        }
    }
    true
}

// Whether what is cached of a unit can be used, and its parts are the cached ones.
pub(crate) fn stays_kept(used: bool, kept: &[Part], parts: &[Part]) -> bool
    ensures { result ≡ (used && are_same_parts kept.now parts.now) }
{
    used && same_parts(kept, parts)
}

/// Whether a unit with this outcome sets no name.
pub fn is_silent(kept: &Outcome) -> bool
    ensures { IsTrue result → IsSilent (wide_outcome kept.now) }
{
    match kept {
        Outcome::Over => true,
        Outcome::Done(trace) => trace.writes.pairs().is_empty(),
    }
}
