// Only the rows that differ from those that were painted before.
ghost use Rattle.std.specs.Prelude.{◌≡◌, ◌≢◌, ℕ, ◌<◌, ◌↔◌, ◌++◌, List, [], Some, None, take, length, slice_get};
ghost use Rattle.std.specs.Prelude.{IsTrue, OnOk, OnErr, Option};
ghost use Rattle.tx_terminal.specs.Characters.{Shown};
ghost use Rattle.tx_terminal.specs.Terminals.{Terminal};
ghost use Rattle.tx_terminal.specs.Painter.{HasRoom, HidesWhere, IsPainted, Repaints, Shows, ShowsAt, WriteRows};

use crate::characters::Row;
use crate::painting::{move_to, paint_row, set_cursor_shown};
use std::alloc::Global;
use std::marker::Model;
use tx_base::Memory;

// Whether a row is the former one of its number.
fn is_former(former: &[Row], at: usize, row: &Row) -> bool
    ensures { IsTrue result ↔ (slice_get former.now at ≡ Some row.now) }
{
    match former.get(at) {
        Some(old) => old.is(row),
        None => false,
    }
}

// Whether all rows are the former ones.
fn are_former(former: &[Row], rows: &[Row]) -> bool
    ensures { IsTrue result ↔ (take (length rows.now) former.now ≡ rows.now) }
{
    for (at, row) in rows.iter().enumerate() {
        if !is_former(former, at, row) {
            return false;
        }
    }
    true
}

// Adds the rows that aren't the former ones.
fn add_changed(former: &[Row], rows: &[Row], out: &mut Vec<u8>) -> Result<(), Memory>
    requires { length rows.now < 65536 }
    ensures added { OnOk result ((bytes : List ℕ) × (out.new.items ≡ out.old.items ++ bytes)
        × WriteRows former.now 0 rows.now bytes) }
    ensures grows { take (length out.old.items) out.new.items ≡ out.old.items }
{
    for (at, row) in rows.iter().enumerate() {
        if !is_former(former, at, row) {
            paint_row(at as u16, row.characters(), out)?;
        }
    }
    Ok(())
}

// Adds what hides the cursor, where it is to be hidden.
fn add_hiding(is_hidden: bool, out: &mut Vec<u8>) -> Result<(), Memory>
    ensures added { OnOk result ((bytes : List ℕ) × (out.new.items ≡ out.old.items ++ bytes)
        × HidesWhere is_hidden bytes) }
    ensures grows { take (length out.old.items) out.new.items ≡ out.old.items }
{
    if is_hidden {
        return set_cursor_shown(false, out);
    }
    Ok(())
}

// Adds what shows the cursor at a cell.
fn add_cursor(cursor: Option<(u16, u16)>, out: &mut Vec<u8>) -> Result<(), Memory>
    ensures added { OnOk result ((bytes : List ℕ) × (out.new.items ≡ out.old.items ++ bytes)
        × ShowsAt cursor bytes) }
    ensures grows { take (length out.old.items) out.new.items ≡ out.old.items }
{
    if let Some((row, column)) = cursor {
        move_to(row, column, out)?;
        return set_cursor_shown(true, out);
    }
    Ok(())
}

// Adds what paints rows where the former ones are shown, and places the cursor.
fn add_rows(
    former: &[Row],
    rows: &[Row],
    cursor: Option<(u16, u16)>,
    out: &mut Vec<u8>,
) -> Result<(), Memory>
    requires { length rows.now < 65536 }
    ensures added { OnOk result ((bytes : List ℕ) × (out.new.items ≡ out.old.items ++ bytes)
        × Repaints bytes former.now rows.now cursor) }
    ensures grows { take (length out.old.items) out.new.items ≡ out.old.items }
{
    add_hiding(cursor.is_none() || !are_former(former, rows), out)?;
    add_changed(former, rows, out)?;
    add_cursor(cursor, out)
}

/// The rows that were painted on a terminal, from its first one on, so that only rows that differ are written. It has
/// none where nothing is known of the terminal.
#[derive(Drop)]
pub struct Painter {
    painted: Vec<Row>,
}

impl Model for Painter {
    ghost use Rattle.std.specs.Prelude.{List};
    ghost use Rattle.tx_terminal.specs.Characters.{Shown};

    ghost Value = { List (List Shown) };

    ghost view = { λ p. p.painted.items };
}

impl Painter {
    /// A painter for a terminal of which nothing is known.
    pub fn new(alloc: Global) -> Painter
        ensures { result ≡ [] }
    {
        Painter {
            painted: Vec::new(alloc),
        }
    }

    /// Nothing is known of the terminal any more, as after its size changed: each row is written the next time.
    pub fn forget(&mut self)
        ensures { self.new ≡ [] }
    {
        self.painted.clear();
    }

    /// Adds the bytes that show rows on a terminal, from its first row on, each with blanks after it, and the cursor at
    /// a cell, by row and column from 0, or hidden. They hold for each terminal that shows the rows that were painted
    /// before, has as many rows as are given, is as wide as each of them, shows each character in its cells, and has
    /// the cell of the cursor. All further rows stay. Rows that are the former ones of their number are not written:
    /// there are at most 26 bytes, and for each other row 20 and 8 for each character. The cursor is hidden while rows
    /// are written. It needs fewer than 65,536 rows. After an `Err` nothing is added, and the painter is as before.
    pub fn paint(
        &mut self,
        rows: Vec<Row>,
        cursor: Option<(u16, u16)>,
        out: &mut Vec<u8>,
    ) -> Result<(), Memory>
        requires { length rows.items < 65536 }
        ensures painted { OnOk result ((bytes : List ℕ) × (out.new.items ≡ out.old.items ++ bytes)
            × Repaints bytes self.old rows.items cursor) }
        ensures kept { OnOk result (self.new ≡ rows.items) }
        ensures refused { OnErr result ((out.new.items ≡ out.old.items) × (self.new ≡ self.old)) }
    {
        let count = out.len();
        match add_rows(&self.painted, &rows, cursor, out) {
            Ok(()) => {
                self.painted = rows;
                Ok(())
            }
            Err(fault) => {
                out.truncate(count);
                Err(fault)
            }
        }
    }
}

/// A terminal that was painted shows these rows, and has as many rows as before.
pub fn painter_laws()
    ensures shown { (t u : Terminal) (rows : List (List Shown)) (cursor : Option (ℕ × ℕ))
        → IsPainted t rows cursor u → Shows u rows }
    ensures as_many { (t u : Terminal) (rows : List (List Shown)) (cursor : Option (ℕ × ℕ))
        → HasRoom t rows cursor → IsPainted t rows cursor u → length u.rows ≡ length t.rows }
{}

#[cfg(test)]
mod tests {
    use super::Painter;
    use crate::characters::{Character, Row};
    use crate::inks::Ink;
    use std::alloc::Global;
    use tx_base::Memory;

    // A row of letters.
    fn row(alloc: Global, letters: &[u8]) -> Result<Row, Memory> {
        let mut characters = Vec::new(alloc);
        for letter in letters {
            if let Some(character) = Character::new(&[*letter], 1, Ink::PLAIN) {
                characters.push(character)?;
            }
        }
        Ok(Row::new(characters))
    }

    // The bytes that paint rows of letters.
    fn painted(
        painter: &mut Painter,
        alloc: Global,
        words: &[&[u8]],
        cursor: Option<(u16, u16)>,
    ) -> Result<Vec<u8>, Memory> {
        let mut rows = Vec::new(alloc);
        for word in words {
            rows.push(row(alloc, word)?)?;
        }
        let mut out = Vec::new(alloc);
        if rows.len() < 65536 {
            painter.paint(rows, cursor, &mut out)?;
        }
        Ok(out)
    }

    // What is painted in turn, with the cursor at a cell of it or hidden, and the bytes.
    const TURNS: [(&[&[u8]], Option<(u16, u16)>, &[u8]); 7] = [
        // nothing is known
        (
            &[b"ab", b"c"],
            Some((1, 1)),
            b"\x1b[?25l\x1b[1;1H\x1b[m\x1b[2Kab\x1b[2;1H\x1b[m\x1b[2Kc\x1b[2;2H\x1b[?25h",
        ),
        // the same rows
        (&[b"ab", b"c"], None, b"\x1b[?25l"),
        (&[b"ab", b"c"], Some((0, 2)), b"\x1b[1;3H\x1b[?25h"),
        // one row differs
        (
            &[b"ab", b"d"],
            Some((0, 0)),
            b"\x1b[?25l\x1b[2;1H\x1b[m\x1b[2Kd\x1b[1;1H\x1b[?25h",
        ),
        // fewer rows: the others stay
        (&[b"ab"], Some((0, 1)), b"\x1b[1;2H\x1b[?25h"),
        // more rows
        (
            &[b"ab", b"", b"e"],
            None,
            b"\x1b[?25l\x1b[2;1H\x1b[m\x1b[2K\x1b[3;1H\x1b[m\x1b[2Ke",
        ),
        // no rows
        (&[], None, b"\x1b[?25l"),
    ];

    #[test]
    fn turns(rt: HostRuntime) {
        let mut painter = Painter::new(rt.alloc());
        for (words, cursor, bytes) in &TURNS {
            let out = painted(&mut painter, rt.alloc(), words, *cursor).expect(&rt, "memory");
            assert!(rt; out.as_slice() == *bytes);
        }
    }

    #[test]
    fn forgotten(rt: HostRuntime) {
        let mut painter = Painter::new(rt.alloc());
        for _ in 0..2 {
            let out = painted(&mut painter, rt.alloc(), &[b"x"], None).expect(&rt, "memory");
            assert!(rt; out.as_slice() == b"\x1b[?25l\x1b[1;1H\x1b[m\x1b[2Kx".as_slice());
            painter.forget();
        }
    }
}
