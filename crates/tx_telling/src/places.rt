// The line by which the cursor goes to a place.
ghost use Rattle.std.specs.Prelude.{ℕ, ◌≤◌, List, [], ◌∷◌, ◌++◌, length, IfOk, MatchOption};
ghost use Rattle.tx_tree.specs.declared.TheConstants.{MOST_STEPS};
ghost use Rattle.tx_cmd.specs.declared.command.Command.TheVariants.{Go};
ghost use Rattle.tx_telling.specs.Lines.{IsScriptLine};

use std::alloc::Global;
use tx_base::Memory;
use tx_tree::{MOST_STEPS, Place, path_law};

/// The line `go` of a place. None exactly where its path has 400 numbers or more, to which no line goes: a place of a
/// tree has fewer.
pub fn go_line(alloc: Global, at: &Place) -> Result<Option<Vec<u8>>, Memory>
    ensures { IfOk result (λ told. MatchOption told (MOST_STEPS ≤ length at.now.path)
        (λ line. IsScriptLine line.items (Go (at.now.path ++ at.now.offset ∷ [])))) }
{
    path_law();
    let numbers = at.path.steps();
    let _offset = at.offset;
    if numbers.len() >= MOST_STEPS {
        return Ok(None);
    }
    Ok(Some(format!(in alloc; "go {at}")?.into_bytes()))
}
