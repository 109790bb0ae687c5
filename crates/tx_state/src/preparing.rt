// Changes made ready.
ghost use Rattle.std.specs.Prelude.{◌≡◌, ◌≤◌, ◌+◌, ◌<◌, IfOk, None, length};
ghost use Rattle.std.specs.Option.{option_map_or};
ghost use Rattle.tx_mod.specs.InTurn.{changed_in_turn, inverses_of, AreUndone};
ghost use Rattle.tx_doc.specs.Buffers.{tree_of};
ghost use Rattle.tx_state.specs.Entries.{EntryLeads};
ghost use Rattle.tx_state.specs.Changing.{IsAlong};
ghost use Rattle.tx_state.specs.Ready.{cost_both_ways};

use crate::changing::{Changing, change_in_turn};
use crate::edits::{Entry, Prepared};
use std::alloc::Global;
use std::sync::ledger::Ledger;
use tx_base::{Memory, Steps};
use tx_doc::Buffer;
use tx_mod::{ApplyFault, ModList};
use tx_tree::{Place, Tree};

// The tree of a buffer.
pub(crate) fn tree_at(buffers: &[Buffer], buffer: u32) -> &Tree
    requires { buffer < length buffers.now }
    ensures { result.now ≡ tree_of buffers.now buffer }
{
    &buffers[buffer as usize].tree
}

// The first place that there is, of one that was given, one that was moved, and the cursor.
pub(crate) fn chosen(
    alloc: Global,
    given: Option<Place>,
    moved: Option<Place>,
    cursor: &Place,
) -> Result<Place, Memory>
    ensures { IfOk result (λ at. at ≡ option_map_or (λ p. p) given (option_map_or (λ p. p) moved cursor.now)) }
{
    match given {
        Some(at) => Ok(at),
        None => match moved {
            Some(at) => Ok(at),
            None => cursor.copy(alloc),
        },
    }
}

// What comes of an entry's modifications, with shares of them.
fn along(alloc: Global, entry: &Entry, changed: Changing) -> Result<Prepared, Memory>
    ensures buffer { IfOk result (λ p. p.buffer ≡ entry.now.buffer) }
    ensures tree { IfOk result (λ p. p.tree ≡ changed.tree) }
    ensures mods { IfOk result (λ p. p.mods ≡ entry.now.mods) }
    ensures back { IfOk result (λ p. p.back ≡ changed.back.items) }
    ensures cursor { IfOk result (λ p. p.cursor ≡ entry.now.cursor) }
{
    let mods = entry.mods.copy(alloc)?;
    let cursor = entry.cursor.copy(alloc)?;
    Ok(Prepared {
        buffer: entry.buffer,
        tree: changed.tree,
        mods,
        back: ModList::from(changed.back),
        cursor,
    })
}

// What an entry makes of its buffer's tree.
pub(crate) fn step_along<L: Ledger>(
    alloc: Global,
    buffers: &[Buffer],
    entry: &Entry,
    steps: &mut Steps<L>,
) -> Result<Prepared, Memory>
    requires { EntryLeads buffers.now entry.now }
    ensures along { IfOk result (IsAlong buffers.now entry.now) }
    ensures counted { steps.new ≤ steps.old + cost_both_ways entry.now.mods }
{
    let tree = &buffers[entry.buffer as usize].tree;
    match change_in_turn(alloc, tree, entry.mods.as_slice(), None, steps) {
        Ok(changed) => along(alloc, entry, changed),
        Err(ApplyFault::Memory) => Err(Memory),
        Err(ApplyFault::Refused(_)) => unreachable!(),
    }
}
