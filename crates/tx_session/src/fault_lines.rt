// Lines that say why bytes spell no tree.
ghost use Rattle.std.specs.Prelude.{◌≡◌, ◌++◌, ◌∷◌, List, ℕ, decimal, IfOk};
ghost use Rattle.tx_session.specs.FaultTexts.{read_fault_text, limit_word};
ghost use Rattle.tx_print.specs.Lines.{line};

use itoa::Buffer;
use std::alloc::Global;
use tx_base::Memory;
use tx_tree::{ReadFault, Which};

// Adds a word and a number.
fn push_numbered(text: &mut Vec<u8>, word: &[u8], number: u64) -> Result<(), Memory>
    ensures { IfOk result (λ _. text.new.items ≡ text.old.items ++ (word.now ++ decimal number)) }
{
    let mut digits = Buffer::new();
    text.extend_from_slice(word)?;
    text.extend_from_slice(digits.format(number).as_bytes())?;
    Ok(())
}

// The word of a limit, and a space.
fn limit_word(which: Which) -> &'static [u8]
    ensures { result.now ≡ limit_word which }
{
    match which {
        Which::Text => b"text ",
        Which::Arity => b"arity ",
        Which::Depth => b"depth ",
        Which::Size => b"size ",
    }
}

// Adds a fault as it is printed.
fn push_fault(text: &mut Vec<u8>, fault: ReadFault) -> Result<(), Memory>
    ensures { IfOk result (λ _. text.new.items ≡ text.old.items ++ read_fault_text fault) }
{
    match fault {
        ReadFault::Unclosed(n) => push_numbered(text, b"unclosed ", n as u64),
        ReadFault::Stray(n) => push_numbered(text, b"stray ", n as u64),
        ReadFault::BadEscape(n) => push_numbered(text, b"bad-escape ", n as u64),
        ReadFault::BadLabel(n) => push_numbered(text, b"bad-label ", n as u64),
        ReadFault::BadText(n) => push_numbered(text, b"bad-text ", n as u64),
        ReadFault::Mismatch(tag, n) => {
            push_numbered(text, b"mismatch ", tag as u64)?;
            push_numbered(text, b" ", n as u64)
        }
        ReadFault::After(n) => push_numbered(text, b"after ", n as u64),
        ReadFault::Limit(which, n) => {
            text.extend_from_slice(b"limit ")?;
            push_numbered(text, limit_word(which), n)
        }
        ReadFault::Memory => Ok(()),
    }
}

/// A line of these words and of a fault.
pub(crate) fn line_of_fault(
    alloc: Global,
    words: &[u8],
    fault: ReadFault,
) -> Result<Vec<u8>, Memory>
    ensures { IfOk result (λ text. text.items ≡ line (words.now ++ read_fault_text fault)) }
{
    let mut text = Vec::from_slice(alloc, words)?;
    push_fault(&mut text, fault)?;
    text.push(b'\n')?;
    Ok(text)
}
