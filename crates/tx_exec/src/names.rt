// What an evaluation noted of names, as it is returned.
ghost use Rattle.std.specs.Prelude.{◌≡◌, IfOk};
ghost use Rattle.std.specs.List.{IsDistinct};
ghost use Rattle.std.specs.Map.{keys_of};
ghost use Rattle.std.specs.Str.{bytes_eq};
ghost use Rattle.tx_exec.specs.States.{set_pairs};

use crate::looks::Looks;
use std::alloc::Global;
use tx_base::Memory;
use tx_env::{Pairs, Writes};

/// All that was noted, each name once.
pub fn looks_of(noted: Pairs, alloc: Global) -> Result<Looks, Memory>
    ensures all { IfOk result (λ l. l ≡ noted) }
    ensures once { IsDistinct bytes_eq (keys_of noted) }
{
    Ok(Looks::new(noted.into_vec(alloc)?))
}

/// The names of which a tree was noted, each once.
#[tactic(auto, using(crate::proofs::Ending::next_some, std::proofs::lemmas::Grind::common_steps))]
pub fn writes_of(noted: Pairs, alloc: Global) -> Result<Writes, Memory>
    ensures all { IfOk result (λ w. w ≡ set_pairs noted) }
    ensures once { IsDistinct bytes_eq (keys_of noted) }
{
    let mut pairs = Vec::new(alloc);
    for (name, value) in noted.into_vec(alloc)? {
        if let Some(tree) = value {
            pairs.push((name, tree))?;
        }
    }
    Ok(Writes::new(pairs))
}
