// An edit is left out, before the ones that came later.
ghost use Rattle.std.specs.Prelude.{◌≡◌, ◌≤◌, ◌<◌, ◌+◌, ◌*◌, ◌∷◌, length, map, IfOk, IsOk};
ghost use Rattle.tx_commute.specs.Leaving.{left_out, lists_in_turn, total, IsLeft, NamesLimit};

use crate::known::Known;
use crate::midway::{Passed, begin, past_list};
use std::alloc::Global;
use std::sync::ledger::Ledger;
use tx_base::{Memory, Steps};
use tx_mod::{Mod, ModFault, ModList};
use tx_tree::Tree;

/// What comes of leaving an edit out.
#[derive(Drop)]
pub enum Left {
    /// The modifications that take the edit, and it alone, back from the present tree.
    Mods(ModList),
    /// The first later list, from 0, with a modification that doesn't commute with what is left of the edit.
    Entangled(u32),
    /// The first later list, from 0, with a modification that passes a limit without the edit.
    Refused(u32, ModFault),
}

// The inverses, in order.
fn undoing(alloc: Global, known: Vec<Known>) -> Result<ModList, Memory>
    ensures { IfOk result (λ mods. mods ≡ map (λ k. k.undoes) known.items) }
{
    let mut mods = Vec::new(alloc);
    for k in known {
        mods.push(k.undoes)?;
    }
    Ok(ModList::from(mods))
}

/// Leaves the edit out, which was applied to the tree `before`, and after which the later lists were applied. Either each
/// later modification commutes with what is left of the edit, and the result is the edit that takes it back from the tree
/// after all of them. Or the result has the number of the first list that fails, and how its first failing modification
/// does. Trees between two modifications of the edit may pass a limit. It takes at most 805 steps for each modification.
pub fn leave<L: Ledger>(
    alloc: Global,
    before: &Tree,
    edit: &[Mod],
    later: &[ModList],
    steps: &mut Steps<L>,
) -> Result<Left, Memory>
    requires few { length later.now < 4294967296 }
    requires leads { IsOk (lists_in_turn (edit.now ∷ later.now) before.now) }
    ensures left { IfOk result (IsLeft (left_out before.now edit.now later.now)) }
    ensures limit { IfOk result NamesLimit }
    ensures counted { steps.new ≤ steps.old + 805 * (length edit.now + total later.now) }
{
    let mut now = begin(alloc, before, edit, steps)?;
    let mut k = 0;
    for mods in later {
        let passed = past_list(alloc, now, mods.as_slice(), steps)?;
        now = match passed {
            Passed::All(next) => next,
            Passed::Stuck => return Ok(Left::Entangled(k)),
            Passed::Limit(cause) => return Ok(Left::Refused(k, cause)),
        };
        k += 1;
    }
    let mods = undoing(alloc, now.known)?;
    Ok(Left::Mods(mods))
}
