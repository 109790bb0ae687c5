// The characters that show a cluster.
ghost use Rattle.std.specs.Prelude.{◌≡◌, ◌≤◌, ◌++◌, codes, encode_utf8, true, OnOk, IfSome};
ghost use Rattle.tx_terminal.specs.Characters.{is_character};
ghost use Rattle.tx_page.specs.Clusters.{shown, blanks, cells_alone, if_narrow, narrow_first, replaced};
ghost use Rattle.tx_page.specs.Clusters.{several_characters, cluster_characters};

use std::str;
use tx_base::Memory;
use tx_terminal::{Character, Ink};
use unicode_width::UnicodeWidthChar;

// These bytes, which are one character, in their cells.
pub(crate) fn known(bytes: &[u8], cells: u8, ink: Ink) -> Character
    requires one { is_character bytes.now ≡ true }
    requires seen { 1 ≤ cells }
    ensures { result ≡ shown bytes.now cells ink }
{
    match Character::new(bytes, cells, ink) {
        Some(character) => character,
        None => unreachable!(),
    }
}

// The cells that a character takes alone; none for a control.
pub(crate) fn cells_alone(code: char) -> u8
    ensures { result ≡ cells_alone code }
{
    code.width().unwrap_or(0) as u8
}

// A character that takes cells alone.
pub(crate) fn encoded(code: char, cells: u8, ink: Ink) -> Character
    requires alone { 1 ≤ cells_alone code }
    requires seen { 1 ≤ cells }
    ensures { result ≡ shown (encode_utf8 code) cells ink }
{
    let mut held = [0; 4];
    known(code.encode_utf8(&mut held).as_bytes(), cells, ink)
}

// Adds so many blanks.
pub(crate) fn push_blanks(row: &mut Vec<Character>, count: u32, ink: Ink) -> Result<(), Memory>
    ensures { OnOk result (row.new.items ≡ row.old.items ++ blanks count ink) }
{
    for _ in 0..count {
        row.push(known(b" ", 1, ink))?;
    }
    Ok(())
}

// The character, where it takes one cell alone.
fn if_narrow(first: Option<char>) -> Option<char>
    ensures same { result ≡ if_narrow first }
    ensures narrow { IfSome result (λ code. cells_alone code ≡ 1) }
{
    match first {
        Some(code) if cells_alone(code) == 1 => Some(code),
        _ => None,
    }
}

// The first character of a text, where it takes one cell alone.
fn narrow_first(bytes: &[u8]) -> Option<char>
    ensures first { result ≡ narrow_first bytes.now }
    ensures narrow { IfSome result (λ code. cells_alone code ≡ 1) }
{
    match str::from_utf8(bytes) {
        Ok(text) => if_narrow(text.chars().next()),
        Err(_) => None,
    }
}

// Adds what stands in place of a cluster in these cells.
fn push_replaced(row: &mut Vec<Character>, cells: u8, ink: Ink) -> Result<(), Memory>
    ensures { OnOk result (row.new.items ≡ row.old.items ++ replaced cells ink) }
{
    row.push(known(b"\xef\xbf\xbd", 1, ink))?;
    push_blanks(row, u32::from(cells.saturating_sub(1)), ink)
}

// Adds what shows several characters in these cells.
fn push_several(row: &mut Vec<Character>, glyphs: &[u8], cells: u8, ink: Ink) -> Result<(), Memory>
    ensures { OnOk result (row.new.items ≡ row.old.items ++ several_characters (narrow_first glyphs.now) cells ink) }
{
    match narrow_first(glyphs) {
        Some(first) if cells == 1 => {
            row.push(encoded(first, 1, ink))?;
            Ok(())
        }
        _ => push_replaced(row, cells, ink),
    }
}

// Adds the characters that show a cluster in its cells.
pub(crate) fn push_cluster(
    row: &mut Vec<Character>,
    glyphs: &[u8],
    cells: u8,
    ink: Ink,
) -> Result<(), Memory>
    ensures { OnOk result (row.new.items ≡ row.old.items ++ cluster_characters glyphs.now cells ink) }
{
    if cells == 0 {
        return Ok(());
    }
    match Character::new(glyphs, cells, ink) {
        Some(whole) => {
            row.push(whole)?;
            Ok(())
        }
        None => push_several(row, glyphs, cells, ink),
    }
}
