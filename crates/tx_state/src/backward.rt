// A walk back to the tree of a buffer before its last edits.
ghost use Rattle.std.specs.Prelude.{◌≡◌, ◌≤◌, ◌+◌, ◌*◌, IfOk, Ok, length, reverse, take};
ghost use Rattle.tx_mod.specs.InTurn.{changed_in_turn, AreSoundMods};
ghost use Rattle.tx_commute.specs.Leaving.{total};
ghost use Rattle.tx_state.specs.Backward.{tree_before, edit_before, AppliesIn, AllApplyIn, edits_back, IsBackward};

use crate::changing::change_in_turn;
use crate::edits::Entry;
use std::alloc::Global;
use std::sync::ledger::Ledger;
use tx_base::{Memory, Steps};
use tx_history::History;
use tx_mod::{ApplyFault, Mod, ModList, sound};
use tx_tree::Tree;

// The tree of a buffer before some edits, and what these do to the buffer, the first one first. Edits of other buffers
// do nothing.
#[derive(Drop)]
pub(crate) struct Backward {
    pub tree: Tree,
    pub edits: Vec<ModList>,
}

// Modifications in hand are sound.
pub(crate) fn all_sound(mods: &[Mod])
    ensures { AreSoundMods mods.now }
{
    for m in mods {
        sound(m);
    }
}

// The tree before the edit that the entry takes back, and what the edit does to the buffer.
fn step_back<L: Ledger>(
    alloc: Global,
    tree: &Tree,
    buffer: u32,
    entry: &Entry,
    steps: &mut Steps<L>,
) -> Result<(Tree, ModList), Memory>
    requires { AppliesIn buffer entry.now tree.now }
    ensures tree { IfOk result (λ r. r.0 ≡ tree_before buffer entry.now tree.now) }
    ensures edit { IfOk result (λ r. r.1 ≡ edit_before buffer entry.now tree.now) }
    ensures leads { IfOk result (λ r. changed_in_turn r.1 r.0 ≡ Ok tree.now) }
    ensures sound { IfOk result (λ r. AreSoundMods r.1) }
    ensures counted { steps.new ≤ steps.old + 804 * length (edit_before buffer entry.now tree.now) }
{
    let _size = tree.size();
    if entry.buffer != buffer {
        return Ok((tree.share()?, ModList::from(Vec::new(alloc))));
    }
    match change_in_turn(alloc, tree, entry.mods.as_slice(), None, steps) {
        Ok(changed) => {
            all_sound(&changed.back);
            Ok((changed.tree, ModList::from(changed.back)))
        }
        Err(ApplyFault::Memory) => Err(Memory),
        Err(ApplyFault::Refused(_)) => unreachable!(),
    }
}

// Back through the newest entries of the past, so many.
pub(crate) fn walk_back<L: Ledger>(
    alloc: Global,
    history: &History<Entry>,
    tree: &Tree,
    buffer: u32,
    count: u32,
    steps: &mut Steps<L>,
) -> Result<Backward, Memory>
    requires many { count ≤ length history.now.past }
    requires apply { AllApplyIn buffer (take count (reverse history.now.past)) tree.now }
    ensures backward { IfOk result (IsBackward buffer (take count (reverse history.now.past)) tree.now) }
    ensures counted { steps.new
        ≤ steps.old + 804 * total (edits_back buffer (take count (reverse history.now.past)) tree.now) }
{
    let mut now = tree.share()?;
    let mut edits = Vec::new(alloc);
    for k in 0..count {
        let Some(entry) = history.past(k + 1) else {
            unreachable!();
        };
        let (before, edit) = step_back(alloc, &now, buffer, entry, steps)?;
        edits.push(edit)?;
        now = before;
    }
    edits.reverse();
    Ok(Backward { tree: now, edits })
}
