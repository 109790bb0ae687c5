// A terminal in memory.
ghost use Rattle.std.specs.Prelude.{◌≡◌, ◌+◌, ◌-◌, ◌*◌, ◌<◌, ◌≤◌, ◌++◌, [], ◌∷◌, true, false, length, get_or, set};
ghost use Rattle.std.specs.Prelude.{take, drop, replicate, slice_get, nat_lt, nat_le, not, ◌&&◌, ◌||◌, Some, None};
ghost use Rattle.std.specs.Prelude.{IfSome, IfOk, OnOk, OnErr, if◌then◌else◌};
ghost use Rattle.tx_terminal.specs.Inks.{plain, colors, is_same_ink};
ghost use Rattle.tx_terminal.specs.Terminals.{blank, character_cells, cursor_at, standing_at, writing_in};
ghost use Rattle.tx_terminal.specs.Terminals.{is_rest, put, write, go_to, erase_row, set_rendition, end_single};
ghost use Rattle.tx_terminal.specs.Terminals.{end_private, end_control, ask, in_control, in_settled, in_character};
ghost use Rattle.tx_terminal.specs.Terminals.{take_in, after_byte, after_bytes};
ghost use Rattle.tx_terminal.specs.Terminals.Mode.{settled, escaped, control, unknown};
ghost use Rattle.tx_terminal.specs.Emulators.{terminal, empty, code_of, cells_of_code, cells_of, is_known, known_width};
ghost use Rattle.tx_terminal.specs.Emulators.{shown_cursor, without_last_blanks, glyphs_of, text_of, ink_at, mode_of};
ghost use Rattle.tx_terminal.specs.Numbers.{index_of, place_of};

use crate::begun::{Begun, Partial, Sequence, length_after};
use crate::cells::{Content, Glyphs, Line};
use crate::inks::{Color, Ink};
use crate::numbers::Number;
use std::alloc::Global;
use std::marker::Model;
use std::mem;
use tx_base::Memory;
use unicode_width::UnicodeWidthChar;

// The number of a character by its bytes in UTF-8.
fn code_of(bytes: &[u8]) -> u32
    ensures { result ≡ code_of bytes.now }
{
    match bytes {
        [] => 0,
        [a] => u32::from(*a),
        [a, b] => part(*a, 192) * 64 + part(*b, 128),
        [a, b, c] => (part(*a, 224) * 64 + part(*b, 128)) * 64 + part(*c, 128),
        [a, b, c, d, ..] => ((part(*a, 240) * 64 + part(*b, 128)) * 64 + part(*c, 128)) * 64
            + part(*d, 128),
    }
}

// What a byte adds to the number of a character.
fn part(byte: u8, mark: u8) -> u32
    ensures exact { result ≡ byte - mark }
    ensures small { result < 256 }
{
    u32::from(byte.saturating_sub(mark))
}

// In how many cells a character is shown.
fn cells_of_code(code: u32) -> u8
    ensures { result ≡ cells_of_code code }
{
    match char::from_u32(code) {
        Some(character) => known_width(character.width()),
        None => 0,
    }
}

// A width, and 0 where there is none.
fn known_width(width: Option<usize>) -> u8
    requires { IfSome width (λ n. n ≤ 3) }
    ensures { result ≡ known_width width }
{
    match width {
        Some(width) => width as u8,
        None => 0,
    }
}

// In how many cells the character of these bytes is shown.
#[tactic(auto, unfolding(crate::specs::Emulators::cells_of))]
fn cells_of(bytes: &[u8]) -> u8
    ensures { result ≡ cells_of bytes.now }
{
    cells_of_code(code_of(bytes))
}

// Whether text in an ink is plain.
fn is_plain(ink: Ink) -> bool
    ensures { result ≡ is_same_ink ink plain }
{
    ink == Ink::PLAIN
}

// The color of a number from 0 to 7.
fn color_of(number: u32) -> Option<Color>
    ensures { result ≡ slice_get colors number }
{
    match number {
        0 => Some(Color::Black),
        1 => Some(Color::Red),
        2 => Some(Color::Green),
        3 => Some(Color::Yellow),
        4 => Some(Color::Blue),
        5 => Some(Color::Magenta),
        6 => Some(Color::Cyan),
        7 => Some(Color::White),
        _ => None,
    }
}

// The place after a character of so many cells; None after the last column.
fn next_place(place: (u16, u16), cells: u8, width: u16) -> Option<(u16, u16)>
    ensures { result
        ≡ (if nat_lt (place.1 + cells) width then Some (place.0, place.1 + cells) else None) }
{
    let end = u32::from(place.1) + u32::from(cells);
    if end < u32::from(width) {
        Some((place.0, end as u16))
    } else {
        None
    }
}

// The row of a number.
fn row_of(rows: &[Line], row: u16) -> &Line
    requires { row < length rows.now }
    ensures { result.now ≡ get_or rows.now row [] }
{
    &rows[usize::from(row)]
}

// Puts a character of so many cells at a column of a row.
fn put_in(rows: &mut [Line], place: (u16, u16), glyphs: Glyphs, cells: u8, ink: Ink)
    requires there { place.0 < length rows.old }
    requires some { 1 ≤ cells }
    requires room { place.1 + cells ≤ length (get_or rows.old place.0 []) }
    ensures { let row = get_or rows.old place.0 [] in
        rows.new ≡ set rows.old place.0
        (take place.1 row ++ (character_cells glyphs cells ink ++ drop (place.1 + cells) row)) }
{
    let row = &mut rows[usize::from(place.0)];
    row.put(usize::from(place.1), glyphs, usize::from(cells), ink);
}

// Makes a row blank.
fn erase_in(rows: &mut [Line], row: u16)
    requires { row < length rows.old }
    ensures { rows.new ≡ set rows.old row (replicate (length (get_or rows.old row [])) blank) }
{
    let row = &mut rows[usize::from(row)];
    row.erase();
}

// Takes the blanks at the end away, from a place on.
fn trim(out: &mut Vec<u8>, start: usize)
    requires { start ≤ length out.old.items }
    ensures { out.new.items ≡ take start out.old.items ++ without_last_blanks (drop start out.old.items) }
{
    let mut end = out.len();
    while start < end && out[end - 1] == b' ' {
        end -= 1;
    }
    out.truncate(end);
}

// Adds the characters of a row.
fn add_glyphs(row: &[Content], out: &mut Vec<u8>) -> Result<(), Memory>
    ensures added { OnOk result (out.new.items ≡ out.old.items ++ glyphs_of row.now) }
    ensures grows { take (length out.old.items) out.new.items ≡ out.old.items }
{
    for content in row {
        out.extend_from_slice(content.bytes())?;
    }
    Ok(())
}

/// A terminal in memory that shows what bytes make of it, as `specs/Terminals.antt` defines. Each character takes the
/// cells of its width by Unicode, as `unicode_width` has it outside East Asian contexts.
#[derive(Drop)]
pub struct Emulator {
    alloc: Global,
    width: u16,
    rows: Vec<Line>,
    cursor: Option<(u16, u16)>,
    ink: Ink,
    cursor_shown: bool,
    begun: Begun,
}

impl Model for Emulator {
    ghost use Rattle.tx_terminal.specs.Emulators.{Screen, IsWhole, mode_of};

    ghost Value = { Screen };

    ghost view = { λ e. record {
      width = e.width;
      rows = e.rows.items;
      cursor = e.cursor;
      ink = e.ink;
      cursor_shown = e.cursor_shown;
      mode = mode_of e.begun;
    } };

    ghost invariant = { λ e. IsWhole e.width e.rows.items e.cursor };
}

// Rows of blanks.
fn blank_rows(alloc: Global, width: u16, height: u16) -> Result<Vec<Line>, Memory>
    ensures { IfOk result (λ rows. rows.items ≡ replicate height (replicate width blank)) }
{
    let mut rows = Vec::new(alloc);
    for _row in 0..height {
        rows.push(Line::new(alloc, width)?)?;
    }
    Ok(rows)
}

impl Emulator {
    /// A terminal of so many columns and rows. All its cells are blank, and text is plain. The cursor is shown, but its
    /// place isn't known, so the first bytes have to move it.
    pub fn new(alloc: Global, width: u16, height: u16) -> Result<Emulator, Memory>
        ensures { IfOk result (λ e. e ≡ empty width height) }
    {
        let rows = blank_rows(alloc, width, height)?;
        Ok(Emulator {
            alloc,
            width,
            rows,
            cursor: None,
            ink: Ink::PLAIN,
            cursor_shown: true,
            begun: Begun::Nothing,
        })
    }

    // From now on this has begun.
    fn begin(&mut self, begun: Begun)
        ensures { self.new ≡ record self.old { mode = mode_of begun } }
    {
        self.begun = begun;
    }

    // Nothing is known from now on.
    fn lose(&mut self)
        ensures { self.new ≡ record self.old { mode = unknown } }
    {
        self.begun = Begun::Lost;
    }

    // Takes out what has begun. Nothing is known meanwhile.
    fn take_begun(&mut self) -> Begun
        ensures begun { mode_of result ≡ self.old.mode }
        ensures same { self.new ≡ record self.old { mode = unknown } }
    {
        mem::replace(&mut self.begun, Begun::Lost)
    }

    // ---- text

    // Whether a character of so many cells has room there, and is over no part of a character alone.
    fn has_room(&self, place: (u16, u16), cells: u8) -> bool
        requires { place.0 < length self.now.rows }
        ensures { let row = get_or self.now.rows place.0 [] in
            result ≡ (nat_le 1 cells && (nat_le (place.1 + cells) self.now.width
            && not (is_rest row place.1 || is_rest row (place.1 + cells)))) }
    {
        let column = usize::from(place.1);
        let end = column + usize::from(cells);
        let row = row_of(&self.rows, place.0);
        1 <= cells && (end <= usize::from(self.width) && !(row.is_rest(column) || row.is_rest(end)))
    }

    // Puts a character where it has room.
    fn put_there(&mut self, place: (u16, u16), glyphs: Glyphs, cells: u8)
        requires there { place.0 < length self.old.rows }
        requires some { 1 ≤ cells }
        requires room { place.1 + cells ≤ self.old.width }
        ensures { let row = get_or self.old.rows place.0 [] in
            terminal self.new ≡ record (terminal self.old) {
              rows = set self.old.rows place.0 (take place.1 row
                  ++ (character_cells glyphs cells self.old.ink ++ drop (place.1 + cells) row));
              cursor = cursor_at (terminal self.old) place.0 (place.1 + cells);
              mode = settled;
            } }
    {
        put_in(&mut self.rows, place, glyphs, cells, self.ink);
        self.cursor = next_place(place, cells, self.width);
        self.begun = Begun::Nothing;
    }

    // Puts a character of so many cells at a place.
    fn put(&mut self, place: (u16, u16), glyphs: Glyphs, cells: u8)
        requires { place.0 < length self.old.rows }
        ensures { terminal self.new ≡ put (terminal self.old) place.0 place.1 glyphs cells }
    {
        if self.has_room(place, cells) {
            self.put_there(place, glyphs, cells);
        } else {
            self.lose();
        }
    }

    // Writes a character at the cursor.
    fn write(&mut self, glyphs: Glyphs)
        ensures { terminal self.new ≡ write (terminal self.old) self.old.cursor glyphs }
    {
        match self.cursor {
            Some(place) => {
                let cells = cells_of(glyphs.bytes());
                self.put(place, glyphs, cells);
            }
            None => self.lose(),
        }
    }

    // ---- control sequences

    // The cell of these numbers, which are counted from 1; None where there is none.
    fn place_of(&self, row: &Number, column: &Number) -> Option<(u16, u16)>
        ensures place { result
            ≡ place_of (index_of row.now (length self.now.rows)) (index_of column.now self.now.width) }
        ensures within { IfSome result (λ place. (place.0 < length self.now.rows) × (place.1 < self.now.width)) }
    {
        match row.index(self.rows.len()) {
            Some(row) => match column.index(usize::from(self.width)) {
                Some(column) => Some((row, column)),
                None => None,
            },
            None => None,
        }
    }

    // Moves the cursor to a cell.
    fn stand_at(&mut self, row: u16, column: u16)
        requires there { row < length self.old.rows }
        requires within { column < self.old.width }
        ensures { terminal self.new ≡ standing_at (terminal self.old) row column }
    {
        self.cursor = Some((row, column));
        self.begun = Begun::Nothing;
    }

    // CUP.
    fn go_to(&mut self, row: &Number, column: &Number)
        ensures { terminal self.new ≡ go_to (terminal self.old) row.now column.now }
    {
        match self.place_of(row, column) {
            Some((row, column)) => self.stand_at(row, column),
            None => self.lose(),
        }
    }

    // Makes a row blank.
    fn erase(&mut self, row: u16)
        requires { row < length self.old.rows }
        ensures { terminal self.new ≡ record (terminal self.old) {
          rows = set self.old.rows row (replicate self.old.width blank);
          mode = settled;
        } }
    {
        erase_in(&mut self.rows, row);
        self.begun = Begun::Nothing;
    }

    // EL 2.
    fn erase_row(&mut self)
        ensures { terminal self.new ≡ erase_row (terminal self.old) self.old.cursor }
    {
        match self.cursor {
            Some(place) => {
                if is_plain(self.ink) {
                    self.erase(place.0);
                } else {
                    self.lose();
                }
            }
            None => self.lose(),
        }
    }

    // Writes text in an ink from now on.
    fn write_in(&mut self, ink: Ink)
        ensures { terminal self.new ≡ writing_in (terminal self.old) ink }
    {
        self.ink = ink;
        self.begun = Begun::Nothing;
    }

    // SGR with a number below 65536.
    fn set_small_rendition(&mut self, number: u32)
        ensures { terminal self.new ≡ set_rendition (terminal self.old) number }
    {
        let ink = self.ink;
        match number {
            0 => self.write_in(Ink::PLAIN),
            1 => self.write_in(Ink { bold: true, ..ink }),
            3 => self.write_in(Ink {
                italic: true,
                ..ink
            }),
            7 => self.write_in(Ink {
                reverse: true,
                ..ink
            }),
            30..=37 => self.write_in(Ink {
                color: color_of(number - 30),
                ..ink
            }),
            _ => self.lose(),
        }
    }

    // SGR.
    fn set_rendition(&mut self, number: &Number)
        ensures { terminal self.new ≡ set_rendition (terminal self.old) number.now }
    {
        match number.value() {
            Some(number) => self.set_small_rendition(number),
            None => self.lose(),
        }
    }

    // The end of a sequence with one number.
    fn end_single(&mut self, number: &Number, byte: u8)
        ensures { terminal self.new ≡ end_single (terminal self.old) number.now byte }
    {
        if byte == b'm' {
            self.set_rendition(number);
        } else if byte == b'K' && number.is(2) {
            self.erase_row();
        } else {
            self.lose();
        }
    }

    // Shows the cursor from now on, or hides it.
    fn show_cursor(&mut self, is_shown: bool)
        ensures { terminal self.new ≡ record (terminal self.old) { cursor_shown = is_shown; mode = settled } }
    {
        self.cursor_shown = is_shown;
        self.begun = Begun::Nothing;
    }

    // DECTCEM.
    fn end_private(&mut self, number: &Number, byte: u8)
        ensures { terminal self.new ≡ end_private (terminal self.old) number.now byte }
    {
        let is_cursor = number.is(25);
        if is_cursor && byte == b'h' {
            self.show_cursor(true);
        } else if is_cursor && byte == b'l' {
            self.show_cursor(false);
        } else {
            self.lose();
        }
    }

    // The end of a sequence without `?`.
    fn end_public(&mut self, done: &[Number], last: &Number, byte: u8)
        ensures { terminal self.new ≡ end_control (terminal self.old) false done.now last.now byte }
    {
        match done {
            [] => self.end_single(last, byte),
            [row] if byte == b'H' => self.go_to(row, last),
            _ => self.lose(),
        }
    }

    // The end of a sequence with `?`.
    fn end_asked(&mut self, done: &[Number], last: &Number, byte: u8)
        ensures { terminal self.new ≡ end_control (terminal self.old) true done.now last.now byte }
    {
        match done {
            [] => self.end_private(last, byte),
            _ => self.lose(),
        }
    }

    // The end of a sequence.
    fn end_control(&mut self, sequence: &Sequence, byte: u8)
        ensures { let s = sequence.now in
            terminal self.new ≡ end_control (terminal self.old) s.asked s.done.items s.last byte }
    {
        if sequence.asked {
            self.end_asked(&sequence.done, &sequence.last, byte);
        } else {
            self.end_public(&sequence.done, &sequence.last, byte);
        }
    }

    // `?` after `CSI`.
    fn ask(&mut self, sequence: Sequence)
        ensures { terminal self.new ≡ ask (terminal self.old) sequence.asked sequence.done.items sequence.last }
    {
        if sequence.may_ask() {
            let Sequence {
                asked: _,
                done,
                last,
            } = sequence;
            self.begin(Begun::Control(Sequence {
                asked: true,
                done,
                last,
            }));
        } else {
            self.lose();
        }
    }

    // A digit of a number.
    fn add_digit(&mut self, sequence: Sequence, digit: u8) -> Result<(), Memory>
        ensures added { OnOk result (terminal self.new ≡ record (terminal self.old) {
          mode = control sequence.asked sequence.done.items (sequence.last * 10 + (digit - 48));
        }) }
        ensures refused { OnErr result (self.new ≡ self.old) }
    {
        let Sequence {
            asked,
            done,
            mut last,
        } = sequence;
        last.push(digit)?;
        self.begin(Begun::Control(Sequence { asked, done, last }));
        Ok(())
    }

    // The end of a number.
    fn end_number(&mut self, sequence: Sequence) -> Result<(), Memory>
        ensures ended { OnOk result (terminal self.new ≡ record (terminal self.old) {
          mode = control sequence.asked (sequence.done.items ++ sequence.last ∷ []) 0;
        }) }
        ensures refused { OnErr result (self.new ≡ self.old) }
    {
        let Sequence {
            asked,
            mut done,
            last,
        } = sequence;
        done.push(last)?;
        let last = Number::new(self.alloc);
        self.begin(Begun::Control(Sequence { asked, done, last }));
        Ok(())
    }

    // A byte within a control sequence.
    fn in_control(&mut self, sequence: Sequence, byte: u8) -> Result<(), Memory>
        ensures taken { OnOk result (terminal self.new
            ≡ in_control (terminal self.old) sequence.asked sequence.done.items sequence.last byte) }
        ensures refused { OnErr result (self.new ≡ self.old) }
    {
        match byte {
            b'0'..=b'9' => return self.add_digit(sequence, byte),
            b';' => return self.end_number(sequence),
            b'?' => self.ask(sequence),
            _ => self.end_control(&sequence, byte),
        }
        Ok(())
    }

    // ---- bytes

    // A byte where nothing has begun.
    fn in_settled(&mut self, byte: u8)
        ensures { terminal self.new ≡ in_settled (terminal self.old) byte }
    {
        if byte == 0x1b {
            self.begin(Begun::Escape);
            return;
        }
        match length_after(byte) {
            0 => self.lose(),
            1 => self.write(Glyphs::one(byte)),
            length => self.begin(Begun::Character(Partial::new(length - 1, byte))),
        }
    }

    // A byte after `ESC`.
    fn in_escape(&mut self, byte: u8)
        ensures { terminal self.new ≡ take_in escaped (terminal self.old) byte }
    {
        if byte == b'[' {
            let sequence = Sequence::new(self.alloc);
            self.begin(Begun::Control(sequence));
        } else {
            self.lose();
        }
    }

    // A byte within a character.
    fn in_character(&mut self, partial: Partial, byte: u8)
        ensures { terminal self.new ≡ in_character (terminal self.old) partial.0 partial.1 byte }
    {
        if !partial.goes_on(byte) {
            self.lose();
        } else if partial.left() == 1 {
            self.write(partial.ended(byte));
        } else {
            self.begin(Begun::Character(partial.longer(byte)));
        }
    }

    // A byte.
    fn take_byte(&mut self, byte: u8) -> Result<(), Memory>
        ensures taken { OnOk result (terminal self.new ≡ after_byte (terminal self.old) byte) }
        ensures refused { OnErr result (self.new.mode ≡ unknown) }
    {
        match self.take_begun() {
            Begun::Nothing => self.in_settled(byte),
            Begun::Escape => self.in_escape(byte),
            Begun::Control(sequence) => return self.in_control(sequence, byte),
            Begun::Character(partial) => self.in_character(partial, byte),
            Begun::Lost => {}
        }
        Ok(())
    }

    /// Takes bytes, after which it shows what they make of it. A sequence and a character may go on in the next bytes.
    /// Memory is taken for the numbers of a control sequence, of which each digit is held. After an `Err` nothing is
    /// known any more.
    pub fn take(&mut self, bytes: &[u8]) -> Result<(), Memory>
        ensures taken { OnOk result (terminal self.new ≡ after_bytes (terminal self.old) bytes.now) }
        ensures refused { OnErr result (self.new.mode ≡ unknown) }
    {
        for byte in bytes {
            self.take_byte(*byte)?;
        }
        Ok(())
    }

    // ---- what it shows

    /// Whether it is known what it shows. From bytes on that the definition doesn't know, or with which terminals
    /// differ, it isn't.
    pub fn is_known(&self) -> bool
        ensures { result ≡ is_known self.now.mode }
    {
        match &self.begun {
            Begun::Lost => false,
            _ => true,
        }
    }

    /// The row and column of the cursor, from 0. None where it is hidden, and where its place isn't known.
    pub fn cursor(&self) -> Option<(u16, u16)>
        ensures { result ≡ shown_cursor self.now }
    {
        if self.cursor_shown { self.cursor } else { None }
    }

    /// How the cell at a row and a column is shown, from 0. None where there is no such cell.
    pub fn ink(&self, row: u16, column: u16) -> Option<Ink>
        ensures { result ≡ ink_at self.now row column }
    {
        let row = self.rows.get(usize::from(row))?;
        let content = row.cells().get(usize::from(column))?;
        Some(content.ink())
    }

    /// Adds the bytes of the characters of a row, from 0, without the blanks at its end. It adds none where there is
    /// no such row. After an `Err` nothing is added.
    pub fn row_text(&self, row: u16, out: &mut Vec<u8>) -> Result<(), Memory>
        ensures added { OnOk result (out.new.items ≡ out.old.items ++ text_of self.now row) }
        ensures refused { OnErr result (out.new.items ≡ out.old.items) }
    {
        let start = out.len();
        let Some(row) = self.rows.get(usize::from(row)) else {
            return Ok(());
        };
        if let Err(fault) = add_glyphs(row.cells(), out) {
            out.truncate(start);
            return Err(fault);
        }
        trim(out, start);
        Ok(())
    }
}

#[cfg(test)]
mod tests {
    use super::Emulator;
    use crate::characters::Character;
    use crate::inks::{Color, Ink};
    use crate::painting::{move_to, paint_row};
    use std::alloc::Global;
    use tx_base::Memory;

    const REVERSE: Ink = Ink {
        bold: false,
        italic: false,
        reverse: true,
        color: None,
    };

    const WHOLE: Ink = Ink {
        bold: true,
        italic: true,
        reverse: true,
        color: Some(Color::Cyan),
    };

    // What paints a plain letter, a wide character and a narrow one in reverse, and a letter with all that an ink has,
    // and moves the cursor.
    fn mixed(alloc: Global) -> Result<Vec<u8>, Memory> {
        let mut row = Vec::new(alloc);
        row.push(Character::new(b"a", 1, Ink::PLAIN).unwrap())?;
        row.push(Character::new(b"\xe6\xbc\xa2", 2, REVERSE).unwrap())?;
        row.push(Character::new(b"\xc3\xa9", 1, REVERSE).unwrap())?;
        row.push(Character::new(b" ", 1, Ink::PLAIN).unwrap())?;
        row.push(Character::new(b"z", 1, WHOLE).unwrap())?;
        row.push(Character::new(b" ", 1, REVERSE).unwrap())?;
        let mut out = Vec::new(alloc);
        paint_row(2, &row, &mut out)?;
        move_to(1, 3, &mut out)?;
        Ok(out)
    }

    // A terminal of four rows, after these bytes.
    fn after(alloc: Global, bytes: &[u8]) -> Result<Emulator, Memory> {
        let mut emulator = Emulator::new(alloc, 8, 4)?;
        emulator.take(bytes)?;
        Ok(emulator)
    }

    fn text(alloc: Global, emulator: &Emulator, row: u16) -> Result<Vec<u8>, Memory> {
        let mut out = Vec::new(alloc);
        emulator.row_text(row, &mut out)?;
        Ok(out)
    }

    #[test]
    fn painted(rt: HostRuntime) {
        let alloc = rt.alloc();
        let bytes = mixed(alloc).expect(&rt, "memory");
        let emulator = after(alloc, &bytes).expect(&rt, "memory");
        let shown = text(alloc, &emulator, 2).expect(&rt, "memory");
        assert!(rt; shown.as_slice() == b"a\xe6\xbc\xa2\xc3\xa9 z".as_slice());
        assert!(rt; text(alloc, &emulator, 1).expect(&rt, "memory").is_empty());
        assert!(rt; emulator.is_known());
        assert!(rt; emulator.cursor() == Some((1, 3)));
        assert!(rt; emulator.ink(2, 0) == Some(Ink::PLAIN));
        assert!(rt; emulator.ink(2, 2) == Some(REVERSE));
        assert!(rt; emulator.ink(2, 5) == Some(WHOLE));
        assert!(rt; emulator.ink(2, 8).is_none());
    }

    // A place without a row, a great number, text after the last column, an unknown sequence, half a wide character.
    const UNKNOWN: [&[u8]; 5] = [
        b"\x1b[5;1H",
        b"\x1b[18446744073709551617;1H",
        b"\x1b[1;8Hab",
        b"\x1b[6n",
        b"\x1b[1;1H\xe6\xbc\xa2\x1b[1;2Ha",
    ];

    const KNOWN: [&[u8]; 4] = [
        b"\x1b[00000000000000000000004;8Ha",
        b"\x1b[?25l\x1b[m\x1b[1;3H\x1b[2K",
        b"\x1b[1;1H\xe6\xbc\xa2\x1b[1;1H\xe6\xbc\xa2",
        b"\x1b[1;1Ha\xe6\xbc",
    ];

    #[test]
    fn known(rt: HostRuntime) {
        let alloc = rt.alloc();
        for bytes in &UNKNOWN {
            assert!(rt; !after(alloc, *bytes).expect(&rt, "memory").is_known());
        }
        for bytes in &KNOWN {
            assert!(rt; after(alloc, *bytes).expect(&rt, "memory").is_known());
        }
    }
}
