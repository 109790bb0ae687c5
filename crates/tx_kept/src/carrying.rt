// An edit carries entries: first all moves are found, which takes memory, and then all are made, which takes none.
ghost use Rattle.std.specs.Prelude.{◌≡◌, ◌+◌, ◌<◌, ◌++◌, ◌∷◌, [], List, reverse, IfOk, OnOk, Some, length, slice_get};
ghost use Rattle.std.specs.Option.{IsSome};
ghost use Rattle.tx_tree.specs.Paths.{subtree};
ghost use Rattle.tx_tree.specs.WideTree.{WideTree};
ghost use Rattle.tx_mod.specs.Followed.{changed_by_all, carried_by_all};
ghost use Rattle.tx_kept.specs.declared.path_map.Entry.{Entry};
ghost use Rattle.tx_kept.specs.Carrying.{trees_before, is_beside_all, carry};
ghost use Rattle.tx_kept.specs.Entries.{AllLead};
ghost use Rattle.tx_kept.specs.Moves.{moved, due, if_stays, IsNoted};

use crate::course::{carried_along, is_beside_all};
use crate::path_map::Entry;
use std::alloc::Global;
use tx_base::Memory;
use tx_mod::Mod;
use tx_tree::{Path, Tree};

// Where the entry of this number goes. None is for one that is taken out.
#[derive(Drop)]
pub(crate) struct Move {
    pub at: usize,
    pub to: Option<Path>,
}

// Adds the move of the entry of this number, if it has one.
fn note(
    alloc: Global,
    before: &Tree,
    mods: &[Mod],
    trees: &[Tree],
    at: usize,
    path: &Path,
    moves: &mut Vec<Move>,
) -> Result<(), Memory>
    requires applies { (u : WideTree) × (changed_by_all mods.now before.now ≡ Some u) }
    requires trees { trees.now ≡ trees_before mods.now before.now }
    requires leads { IsSome (subtree before.now path.now) }
    ensures { OnOk result (IsNoted at path.now (carried_by_all mods.now before.now path.now)
        moves.old.items moves.new.items) }
{
    if is_beside_all(mods, path) {
        return Ok(());
    }
    let to = carried_along(alloc, before, mods, trees, path)?;
    moves.push(Move { at, to })?;
    Ok(())
}

// The moves of all entries, the first one last.
pub(crate) fn moves_of<X: Drop>(
    alloc: Global,
    before: &Tree,
    mods: &[Mod],
    trees: &[Tree],
    entries: &[Entry<X>],
) -> Result<Vec<Move>, Memory>
    requires applies { (u : WideTree) × (changed_by_all mods.now before.now ≡ Some u) }
    requires trees { trees.now ≡ trees_before mods.now before.now }
    requires lead { AllLead before.now entries.now }
    ensures { IfOk result (λ v. moved 0 (reverse v.items) entries.now ≡ carry mods.now before.now entries.now) }
{
    let mut moves = Vec::new(alloc);
    let count = entries.len();
    for done in 0..count {
        let at = count - 1 - done;
        let entry = &entries[at];
        note(alloc, before, mods, trees, at, &entry.path, &mut moves)?;
    }
    Ok(moves)
}

// Makes the next move, where it is the one of this number. False is for an entry that is taken out.
fn settle_one<X: Drop>(
    next: &mut Option<Move>,
    stack: &mut Vec<Move>,
    at: usize,
    entry: &mut Entry<X>,
) -> bool
    ensures { (rest : List (Entry X)) → moved at (due next.old stack.old.items) (entry.old ∷ rest)
        ≡ if_stays result entry.new ++ moved (at + 1) (due next.new stack.new.items) rest }
{
    let Some(first) = next.take() else {
        return true;
    };
    if first.at != at {
        *next = Some(first);
        return true;
    }
    *next = stack.pop();
    match first.to {
        Some(path) => {
            entry.path = path;
            true
        }
        None => false,
    }
}

// Makes the moves.
pub(crate) fn settle<X: Drop>(entries: &mut Vec<Entry<X>>, moves: Vec<Move>)
    ensures { entries.new.items ≡ moved 0 (reverse moves.items) entries.old.items }
{
    let mut stack = moves;
    let mut next = stack.pop();
    let mut end = 0;
    for at in 0..entries.len() {
        let stays = settle_one(&mut next, &mut stack, at, &mut entries[at]);
        if stays {
            entries.swap(end, at);
            end += 1;
        }
    }
    entries.truncate(end);
}
