// Texts of one line as rows of characters.
ghost use Rattle.std.specs.Prelude.{◌≡◌, ℕ, ◌≤◌, IfOk, List};
ghost use Rattle.tx_terminal.specs.declared.inks.Ink.{Ink as InkValue};
ghost use Rattle.tx_page.specs.Lines.{row_width};
ghost use Rattle.tx_page.specs.Texts.{code_cells, code_character, all_characters, text_characters};

use crate::clusters::{cells_alone, encoded, known};
use std::alloc::Global;
use tx_base::Memory;
use tx_terminal::{Character, Ink, Row};

// The cells in which a character of a text is shown.
fn code_cells(code: char) -> u8
    ensures { result ≡ code_cells code }
{
    if cells_alone(code) == 2 { 2 } else { 1 }
}

// A character of a text, or `?` where it takes neither one cell nor two.
fn code_character(code: char, ink: Ink) -> Character
    ensures { result ≡ code_character ink code }
{
    match cells_alone(code) {
        1 => encoded(code, 1, ink),
        2 => encoded(code, 2, ink),
        _ => known(b"?", 1, ink),
    }
}

/// A text as a row of characters in an ink, cut at a width in cells. A character that takes one cell or two alone is
/// shown, and any other, as a control or an accent, is `?`.
pub fn text_row(alloc: Global, text: &str, width: u32, ink: Ink) -> Result<Row, Memory>
    ensures { IfOk result (λ row. row ≡ text_characters text.now width ink) }
{
    let mut row = Vec::new(alloc);
    let mut left = width;
    for code in text.chars() {
        let cells = u32::from(code_cells(code));
        if cells > left {
            break;
        }
        row.push(code_character(code, ink))?;
        left -= cells;
    }
    Ok(Row::new(row))
}

/// A law: the row of a text is no wider than the width, and nothing is cut where all of the text fits.
pub fn text_law()
    ensures fits { (text : List ℕ) (width : ℕ) (ink : InkValue) → row_width (text_characters text width ink) ≤ width }
    ensures whole { (text : List ℕ) (width : ℕ) (ink : InkValue) → row_width (all_characters text ink) ≤ width
        → text_characters text width ink ≡ all_characters text ink }
{}

#[cfg(test)]
mod tests {
    use super::text_row;
    use std::alloc::Global;
    use tx_base::Memory;
    use tx_terminal::Ink;

    // The characters that show a text in so many cells, one after another.
    fn characters(alloc: Global, text: &str, width: u32) -> Result<Vec<u8>, Memory> {
        let row = text_row(alloc, text, width, Ink::PLAIN)?;
        let mut bytes = Vec::new(alloc);
        for character in row.characters() {
            bytes.extend_from_slice(character.bytes())?;
        }
        Ok(bytes)
    }

    // A wide character takes two cells; an accent and a control take one, as `?`.
    #[test]
    fn texts(rt: HostRuntime) {
        let all = characters(rt.alloc(), "a\u{6f22}\u{301}\n~", 6).expect(&rt, "memory");
        assert!(rt; all.as_slice() == "a\u{6f22}??~".as_bytes());
        let cut = characters(rt.alloc(), "a\u{6f22}~", 2).expect(&rt, "memory");
        assert!(rt; cut.as_slice() == b"a".as_slice());
    }
}
