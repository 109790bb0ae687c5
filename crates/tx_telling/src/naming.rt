// Lines with the name of a buffer or of a file.
ghost use Rattle.std.specs.Prelude.{◌≡◌, ◌↔◌, ◌∷◌, ◌++◌, IsTrue, IfOk, MatchOption};
ghost use Rattle.tx_cmd.specs.Words.{IsFileName};
ghost use Rattle.tx_cmd.specs.declared.command.Command.TheVariants.{At, Save};
ghost use Rattle.tx_telling.specs.Lines.{IsScriptLine};

use std::alloc::Global;
use tx_base::Memory;
use tx_cmd::MOST_NAME;

// Whether the bytes are a name that a line may have: 1 to 255 bytes, each from `!` to `~`.
fn is_name(bytes: &[u8]) -> bool
    ensures { IsTrue result ↔ IsFileName bytes.now }
{
    !bytes.is_empty()
        && bytes.len() <= MOST_NAME
        && bytes.iter().all(|byte| byte.is_ascii_graphic())
}

// The line of a word and a name, or None where the bytes are no name.
fn named_line(alloc: Global, word: &[u8], name: &[u8]) -> Result<Option<Vec<u8>>, Memory>
    ensures { IfOk result (λ told. MatchOption told (¬ IsFileName name.now)
        (λ line. IsFileName name.now × (line.items ≡ word.now ++ 32 ∷ name.now))) }
{
    if !is_name(name) {
        return Ok(None);
    }
    let mut line = Vec::from_slice(alloc, word)?;
    line.push(b' ')?;
    line.extend_from_slice(name)?;
    Ok(Some(line))
}

/// The line `at` of a buffer's name. None exactly where no line has such a name: one has 1 to 255 bytes, each from `!`
/// to `~`.
pub fn at_line(alloc: Global, name: &[u8]) -> Result<Option<Vec<u8>>, Memory>
    ensures { IfOk result (λ told. MatchOption told (¬ IsFileName name.now)
        (λ line. IsScriptLine line.items (At name.now))) }
{
    named_line(alloc, b"at", name)
}

/// The line `save` of a file's name. None exactly where no line has such a name: one has 1 to 255 bytes, each from `!`
/// to `~`.
pub fn save_line(alloc: Global, name: &[u8]) -> Result<Option<Vec<u8>>, Memory>
    ensures { IfOk result (λ told. MatchOption told (¬ IsFileName name.now)
        (λ line. IsScriptLine line.items (Save name.now))) }
{
    named_line(alloc, b"save", name)
}
