// Lines that change the tree after a place.
ghost use Rattle.std.specs.Prelude.{◌<◌, length, IfOk, MatchOption};
ghost use Rattle.tx_tree.specs.declared.TheConstants.{MOST_STEPS};
ghost use Rattle.tx_mod.specs.declared.mods.Mod.TheVariants.{Join, Remove};
ghost use Rattle.tx_cmd.specs.declared.command.Command.TheVariants.{Change};
ghost use Rattle.tx_telling.specs.Lines.{IsScriptLine};

use std::alloc::Global;
use tx_base::Memory;
use tx_tree::{MOST_STEPS, Path, path_law};

/// The line `remove` of so many bytes of a text, or children of a node, from this place on. None exactly where the path
/// has more than 400 numbers, to which no line goes.
pub fn remove_line(
    alloc: Global,
    path: &Path,
    from: u32,
    count: u32,
) -> Result<Option<Vec<u8>>, Memory>
    ensures { IfOk result (λ told. MatchOption told (MOST_STEPS < length path.now)
        (λ line. IsScriptLine line.items (Change (Remove path.now from count)))) }
{
    path_law();
    let numbers = path.steps();
    if numbers.len() > MOST_STEPS {
        return Ok(None);
    }
    Ok(Some(format!(in alloc; "remove {path} {from} {count}")?.into_bytes()))
}

/// The line `join` of a child and the next one. None exactly where the path has more than 400 numbers, to which no line
/// goes.
pub fn join_line(alloc: Global, path: &Path, child: u32) -> Result<Option<Vec<u8>>, Memory>
    ensures { IfOk result (λ told. MatchOption told (MOST_STEPS < length path.now)
        (λ line. IsScriptLine line.items (Change (Join path.now child)))) }
{
    path_law();
    let numbers = path.steps();
    if numbers.len() > MOST_STEPS {
        return Ok(None);
    }
    Ok(Some(format!(in alloc; "join {path} {child}")?.into_bytes()))
}
