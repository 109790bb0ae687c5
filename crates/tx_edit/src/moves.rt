// What a key makes.
ghost use Rattle.std.specs.Prelude.{◌≡◌, ◌∷◌, [], IfOk};
ghost use Rattle.tx_mod.specs.Moves.{place};

use std::alloc::Global;
use tx_base::Memory;
use tx_mod::{Mod, ModList};
use tx_tree::{Path, Place};

/// What a key makes: modifications that are to be applied in their order, and the cursor afterwards, or another cursor
/// alone.
#[derive(Drop)]
pub enum Move {
    /// The modifications, at least one, and the cursor in the changed tree.
    Edit(ModList, Place),
    /// The cursor; the tree is unchanged.
    Go(Place),
}

// One modification, and the cursor after it.
pub(crate) fn edit(alloc: Global, change: Mod, path: Path, offset: u32) -> Result<Move, Memory>
    ensures { IfOk result (λ m. m ≡ Move.Edit (change ∷ []) (place path offset)) }
{
    let mut mods = Vec::new(alloc);
    mods.push(change)?;
    Ok(Move::Edit(ModList::from(mods), Place { path, offset }))
}

// Two modifications, and the cursor after them.
pub(crate) fn edit_twice(
    alloc: Global,
    first: Mod,
    second: Mod,
    path: Path,
    offset: u32,
) -> Result<Move, Memory>
    ensures { IfOk result (λ m. m ≡ Move.Edit (first ∷ second ∷ []) (place path offset)) }
{
    let mut mods = Vec::new(alloc);
    mods.push(first)?;
    mods.push(second)?;
    Ok(Move::Edit(ModList::from(mods), Place { path, offset }))
}
