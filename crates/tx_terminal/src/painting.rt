// The bytes that paint rows and place the cursor.
ghost use Rattle.std.specs.Prelude.{◌≡◌, ℕ, ◌+◌, ◌<◌, ◌++◌, List, take, length, decimal, IfOk, OnOk, OnErr};
ghost use Rattle.std.specs.List.{AllByRecursion};
ghost use Rattle.tx_terminal.specs.Inks.{plain};
ghost use Rattle.tx_terminal.specs.Characters.{IsShown};
ghost use Rattle.tx_terminal.specs.Terminals.{Terminal, after_bytes};
ghost use Rattle.tx_terminal.specs.Painting.{Paints, PaintsRows, Moves, ShowsCursor};
ghost use Rattle.tx_terminal.specs.Painting.{move_bytes, part_bytes, color_bytes, change_bytes, text_bytes, row_bytes};
ghost use Rattle.tx_terminal.specs.Painting.{rows_bytes};

use crate::characters::{Character, Row};
use crate::inks::{Color, Ink};
use itoa::Buffer;
use tx_base::Memory;

// Adds a number in decimal, counted from 1.
fn add_place(place: u16, out: &mut Vec<u8>) -> Result<(), Memory>
    ensures added { OnOk result (out.new.items ≡ out.old.items ++ decimal (place + 1)) }
    ensures grows { take (length out.old.items) out.new.items ≡ out.old.items }
{
    let mut digits = Buffer::new();
    out.extend_from_slice(digits.format(u32::from(place) + 1).as_bytes())?;
    Ok(())
}

// Adds the move to a cell.
fn add_move(row: u16, column: u16, out: &mut Vec<u8>) -> Result<(), Memory>
    ensures added { OnOk result (out.new.items ≡ out.old.items ++ move_bytes row column) }
    ensures grows { take (length out.old.items) out.new.items ≡ out.old.items }
{
    out.extend_from_slice(b"\x1b[")?;
    add_place(row, out)?;
    out.push(b';')?;
    add_place(column, out)?;
    out.push(b'H')?;
    Ok(())
}

// Adds a part of an ink by its digit, where the ink has it.
fn add_part(is_set: bool, digit: u8, out: &mut Vec<u8>) -> Result<(), Memory>
    ensures added { OnOk result (out.new.items ≡ out.old.items ++ part_bytes is_set digit) }
    ensures grows { take (length out.old.items) out.new.items ≡ out.old.items }
{
    if is_set {
        out.extend_from_slice(&[0x1b, b'[', digit, b'm'])?;
    }
    Ok(())
}

// Adds the color of an ink.
fn add_color(color: Option<Color>, out: &mut Vec<u8>) -> Result<(), Memory>
    ensures added { OnOk result (out.new.items ≡ out.old.items ++ color_bytes color) }
    ensures grows { take (length out.old.items) out.new.items ≡ out.old.items }
{
    if let Some(color) = color {
        out.extend_from_slice(&[0x1b, b'[', b'3', b'0' + color as u8, b'm'])?;
    }
    Ok(())
}

// Adds what writes text in another ink, and nothing where it is the same.
fn add_ink(from: Ink, to: Ink, out: &mut Vec<u8>) -> Result<(), Memory>
    ensures added { OnOk result (out.new.items ≡ out.old.items ++ change_bytes from to) }
    ensures grows { take (length out.old.items) out.new.items ≡ out.old.items }
{
    if from == to {
        return Ok(());
    }
    out.extend_from_slice(b"\x1b[m")?;
    add_part(to.bold, b'1', out)?;
    add_part(to.italic, b'3', out)?;
    add_part(to.reverse, b'7', out)?;
    add_color(to.color, out)
}

// Adds one character, and returns the ink in which text is written after it.
fn add_character(from: Ink, character: &Character, out: &mut Vec<u8>) -> Result<Ink, Memory>
    ensures added { IfOk result (λ to. (to ≡ character.now.ink)
        × (out.new.items ≡ out.old.items ++ (change_bytes from character.now.ink ++ character.now.glyphs))) }
    ensures valid { IsShown character.now }
    ensures grows { take (length out.old.items) out.new.items ≡ out.old.items }
{
    let bytes = character.bytes();
    let to = character.ink();
    add_ink(from, to, out)?;
    out.extend_from_slice(bytes)?;
    Ok(to)
}

// Adds the characters of a row to plain text, and makes text plain after them.
fn add_text(row: &[Character], out: &mut Vec<u8>) -> Result<(), Memory>
    ensures added { OnOk result (out.new.items ≡ out.old.items ++ text_bytes plain row.now) }
    ensures valid { OnOk result (AllByRecursion IsShown row.now) }
    ensures grows { take (length out.old.items) out.new.items ≡ out.old.items }
{
    let mut ink = Ink::PLAIN;
    for character in row {
        ink = add_character(ink, character, out)?;
    }
    add_ink(ink, Ink::PLAIN, out)
}

// Adds what paints a row.
fn add_row(at: u16, row: &[Character], out: &mut Vec<u8>) -> Result<(), Memory>
    ensures added { OnOk result (out.new.items ≡ out.old.items ++ row_bytes at row.now) }
    ensures valid { OnOk result (AllByRecursion IsShown row.now) }
    ensures grows { take (length out.old.items) out.new.items ≡ out.old.items }
{
    add_move(at, 0, out)?;
    out.extend_from_slice(b"\x1b[m\x1b[2K")?;
    add_text(row, out)
}

/// Adds the bytes that show a row of characters at a row of the terminal, counted from 0, with blanks after them: at
/// most 20, 4 for each character, and 20 for each whose ink isn't that of the one before it. They hold for each terminal
/// that has this row, is as wide as the characters together, and shows each of them in its cells. All other rows stay,
/// and text is plain afterwards. After an `Err` nothing is added.
pub fn paint_row(at: u16, row: &[Character], out: &mut Vec<u8>) -> Result<(), Memory>
    ensures painted { OnOk result ((bytes : List ℕ) × (out.new.items ≡ out.old.items ++ bytes)
        × Paints bytes at row.now) }
    ensures refused { OnErr result (out.new.items ≡ out.old.items) }
{
    let count = out.len();
    match add_row(at, row, out) {
        Ok(()) => Ok(()),
        Err(fault) => {
            out.truncate(count);
            Err(fault)
        }
    }
}

// Adds what paints rows, from the first of the terminal on.
fn add_rows(rows: &[Row], out: &mut Vec<u8>) -> Result<(), Memory>
    requires { length rows.now < 65536 }
    ensures added { OnOk result (out.new.items ≡ out.old.items ++ rows_bytes 0 rows.now) }
    ensures valid { OnOk result (AllByRecursion (AllByRecursion IsShown) rows.now) }
    ensures grows { take (length out.old.items) out.new.items ≡ out.old.items }
{
    let mut at = 0;
    for row in rows {
        add_row(at, row.characters(), out)?;
        at += 1;
    }
    Ok(())
}

/// Adds the bytes that show rows, from the first row of the terminal on: at most those that [`paint_row`] adds for
/// each. They hold for each terminal that has as many rows, is as wide as each row, and shows each character in its
/// cells. All further rows stay. It needs fewer than 65,536 rows. After an `Err` nothing is added.
pub fn paint_rows(rows: &[Row], out: &mut Vec<u8>) -> Result<(), Memory>
    requires { length rows.now < 65536 }
    ensures painted { OnOk result ((bytes : List ℕ) × (out.new.items ≡ out.old.items ++ bytes)
        × PaintsRows bytes rows.now) }
    ensures refused { OnErr result (out.new.items ≡ out.old.items) }
{
    let count = out.len();
    match add_rows(rows, out) {
        Ok(()) => Ok(()),
        Err(fault) => {
            out.truncate(count);
            Err(fault)
        }
    }
}

/// Adds the bytes that move the cursor to a cell, by its row and column from 0: at most 14. After an `Err` nothing is
/// added.
pub fn move_to(row: u16, column: u16, out: &mut Vec<u8>) -> Result<(), Memory>
    ensures moved { OnOk result ((bytes : List ℕ) × (out.new.items ≡ out.old.items ++ bytes)
        × Moves bytes row column) }
    ensures refused { OnErr result (out.new.items ≡ out.old.items) }
{
    let count = out.len();
    match add_move(row, column, out) {
        Ok(()) => Ok(()),
        Err(fault) => {
            out.truncate(count);
            Err(fault)
        }
    }
}

/// Adds the 6 bytes that show the cursor or hide it.
pub fn set_cursor_shown(is_shown: bool, out: &mut Vec<u8>) -> Result<(), Memory>
    ensures shown { OnOk result ((bytes : List ℕ) × (out.new.items ≡ out.old.items ++ bytes)
        × ShowsCursor bytes is_shown) }
    ensures refused { OnErr result (out.new.items ≡ out.old.items) }
{
    if is_shown {
        out.extend_from_slice(b"\x1b[?25h")?;
        return Ok(());
    }
    out.extend_from_slice(b"\x1b[?25l")?;
    Ok(())
}

/// What bytes make of a terminal is what their parts make of it in order.
pub fn terminal_laws()
    ensures parts { (t : Terminal) (xs ys : List ℕ)
        → after_bytes t (xs ++ ys) ≡ after_bytes (after_bytes t xs) ys }
{}

#[cfg(test)]
mod tests {
    use super::{move_to, paint_row, paint_rows, set_cursor_shown};
    use crate::characters::{Character, Row};
    use crate::inks::{Color, Ink};
    use std::alloc::Global;
    use tx_base::Memory;

    // In reverse alone.
    const REVERSE: Ink = Ink {
        bold: false,
        italic: false,
        reverse: true,
        color: None,
    };

    // All at once.
    const WHOLE: Ink = Ink {
        bold: true,
        italic: true,
        reverse: true,
        color: Some(Color::Cyan),
    };

    // A plain letter, a wide and a narrow character in reverse, a letter with all that an ink has.
    fn mixed(alloc: Global) -> Result<Vec<Character>, Memory> {
        let mut row = Vec::new(alloc);
        row.push(Character::new(b"a", 1, Ink::PLAIN).unwrap())?;
        row.push(Character::new(b"\xe6\xbc\xa2", 2, REVERSE).unwrap())?;
        row.push(Character::new(b"\xc3\xa9", 1, REVERSE).unwrap())?;
        row.push(Character::new(b"z", 1, WHOLE).unwrap())?;
        Ok(row)
    }

    // It is painted in the third row.
    fn third(alloc: Global) -> Result<Vec<u8>, Memory> {
        let row = mixed(alloc)?;
        let mut out = Vec::new(alloc);
        paint_row(2, &row, &mut out)?;
        Ok(out)
    }

    // Two rows, the first one empty, and the cursor in the last cell that can be named.
    fn two(alloc: Global) -> Result<Vec<u8>, Memory> {
        let mut characters = Vec::new(alloc);
        characters.push(Character::new(b"x", 1, REVERSE).unwrap())?;
        let mut rows = Vec::new(alloc);
        rows.push(Row::new(Vec::new(alloc)))?;
        rows.push(Row::new(characters))?;
        let mut out = Vec::new(alloc);
        set_cursor_shown(false, &mut out)?;
        if rows.len() == 2 {
            paint_rows(&rows, &mut out)?;
        }
        move_to(65535, 9, &mut out)?;
        set_cursor_shown(true, &mut out)?;
        Ok(out)
    }

    #[test]
    fn rows(rt: HostRuntime) {
        let painted = third(rt.alloc()).expect(&rt, "memory");
        assert!(rt;
            painted.starts_with(b"\x1b[3;1H\x1b[m\x1b[2Ka\x1b[m\x1b[7m\xe6\xbc\xa2\xc3\xa9")
        );
        assert!(rt; painted.ends_with(b"\xc3\xa9\x1b[m\x1b[1m\x1b[3m\x1b[7m\x1b[36mz\x1b[m"));
        let painted = two(rt.alloc()).expect(&rt, "memory");
        assert!(rt; painted.starts_with(b"\x1b[?25l\x1b[1;1H\x1b[m\x1b[2K\x1b[2;1H\x1b[m\x1b[2K"));
        assert!(rt; painted.ends_with(b"\x1b[m\x1b[7mx\x1b[m\x1b[65536;10H\x1b[?25h"));
    }
}
