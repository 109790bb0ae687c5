// Lines that type characters.
ghost use Rattle.std.specs.Prelude.{◌≡◌, ℕ, ◌≤◌, List, [], false, length, IfOk, MatchOption, None};
ghost use Rattle.tx_tree.specs.Texts.{Item, item_bytes};
ghost use Rattle.tx_text.specs.Displays.{is_shown_code};
ghost use Rattle.tx_keys.specs.Typing.{IsTyped};
ghost use Rattle.tx_cmd.specs.declared.command.Command.TheVariants.{Typed};
ghost use Rattle.tx_telling.specs.Lines.{HasNoLine, IsScriptLine};
ghost use Rattle.tx_telling.specs.Characters.{IsTypedText, TypesAll, TypesNone, shown_codes};

use crate::SURE_CHARACTERS;
use std::alloc::Global;
use tx_base::Memory;
use tx_cmd::MOST_LINE;
use tx_keys::push_typed;
use tx_tree::{Text, TextFault, Tree, text_fault_laws};

// The line that types a text, or None where no line does.
fn type_line(alloc: Global, bytes: &[u8]) -> Result<Option<Vec<u8>>, Memory>
    ensures { IfOk result (λ told. MatchOption told (HasNoLine (Typed bytes.now))
        (λ line. IsScriptLine line.items (Typed bytes.now))) }
{
    text_fault_laws();
    let text = match Text::new(alloc, bytes) {
        Ok(text) => text,
        Err(TextFault::Memory) => return Err(Memory),
        Err(_) => return Ok(None),
    };
    let tree = Tree::leaf(alloc, text)?;
    let mut line = Vec::from_slice(alloc, b"type ")?;
    if tx_scm::length(&tree) > (MOST_LINE - line.len()) as u64 {
        return Ok(None);
    }
    tx_scm::write(&tree, &mut line)?;
    Ok(Some(line))
}

// The text of all characters that can be typed.
fn typed_text(alloc: Global, codes: &[u32]) -> Result<Vec<u8>, Memory>
    ensures { IfOk result (λ text. IsTypedText codes.now text.items) }
{
    let mut text = Vec::new(alloc);
    for code in codes {
        push_typed(*code, &mut text)?;
    }
    Ok(text)
}

/// The line `type` of a character, given by its code point. None exactly where it can't be typed: a control and a
/// surrogate.
///
/// The text is one item, which shows this character (`push_typed` of `tx_keys`).
pub fn typed_line(alloc: Global, code: u32) -> Result<Option<Vec<u8>>, Memory>
    ensures { IfOk result (λ told. MatchOption told (is_shown_code code ≡ false)
        (λ line. (item : Item) × IsTyped code item × IsScriptLine line.items (Typed (item_bytes item)))) }
{
    let mut text = Vec::new(alloc);
    if !push_typed(code, &mut text)? {
        return Ok(None);
    }
    type_line(alloc, &text)
}

/// The line `type` of all characters that can be typed, in order, as for a paste. Controls, line ends among them, and
/// surrogates are left out. Characters are given by their code points.
///
/// None where nothing is left, or where the line would have more than 1,048,576 bytes. [`SURE_CHARACTERS`] and fewer
/// have room.
pub fn text_line(alloc: Global, codes: &[u32]) -> Result<Option<Vec<u8>>, Memory>
    ensures told { IfOk result (λ told. MatchOption told (TypesNone codes.now)
        (λ line. TypesAll codes.now line.items)) }
    ensures room { length codes.now ≤ SURE_CHARACTERS
        → IfOk result (λ told. told ≡ None → shown_codes codes.now ≡ []) }
{
    let text = typed_text(alloc, codes)?;
    if text.is_empty() {
        return Ok(None);
    }
    type_line(alloc, &text)
}
