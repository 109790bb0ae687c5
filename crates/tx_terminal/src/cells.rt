// The cells of a terminal.
ghost use Rattle.std.specs.Prelude.{◌≡◌, ◌+◌, ◌<◌, ◌≤◌, ◌++◌, [], ◌∷◌, length, take, drop, replicate, IfOk};
ghost use Rattle.tx_terminal.specs.Inks.{plain};
ghost use Rattle.tx_terminal.specs.Terminals.{blank, character_cells, is_rest, is_rest_of};

use crate::inks::Ink;
use std::alloc::Global;
use std::marker::Model;
use tx_base::Memory;

// The bytes of a character, at most four.
#[derive(Drop)]
pub(crate) struct Glyphs {
    held: [u8; 4],
    len: u8,
}

impl Model for Glyphs {
    ghost use Rattle.std.specs.Prelude.{◌≤◌, ℕ, List, take};

    ghost Value = { List ℕ };

    ghost view = { λ g. take g.len g.held };

    ghost invariant = { λ g. g.len ≤ 4 };
}

impl Glyphs {
    // No bytes.
    pub(crate) fn none() -> Glyphs
        ensures { result ≡ [] }
    {
        Glyphs {
            held: [0; 4],
            len: 0,
        }
    }

    // One byte.
    pub(crate) fn one(byte: u8) -> Glyphs
        ensures { result ≡ byte ∷ [] }
    {
        Glyphs {
            held: [byte, 0, 0, 0],
            len: 1,
        }
    }

    // Adds a byte at the end.
    pub(crate) fn push(&mut self, byte: u8)
        requires { length self.old < 4 }
        ensures { self.new ≡ self.old ++ byte ∷ [] }
    {
        self.held[usize::from(self.len)] = byte;
        self.len += 1;
    }

    // The bytes in order.
    pub(crate) fn bytes(&self) -> &[u8]
        ensures { result.now ≡ self.now }
    {
        &self.held[..usize::from(self.len)]
    }
}

// What a cell shows: a character in the first of its cells, and none in the others.
#[derive(Drop)]
pub(crate) struct Content {
    glyphs: Glyphs,
    ink: Ink,
}

impl Model for Content {
    ghost use Rattle.tx_terminal.specs.Terminals.{Cell};

    ghost Value = { Cell };

    ghost view = { λ c. record { glyphs = c.glyphs; ink = c.ink } };
}

impl Content {
    // A plain blank.
    fn blank() -> Content
        ensures { result ≡ blank }
    {
        Content {
            glyphs: Glyphs::one(b' '),
            ink: Ink::PLAIN,
        }
    }

    // A cell that isn't the first one of its character.
    fn rest(ink: Ink) -> Content
        ensures { result ≡ record { glyphs = []; ink = ink } }
    {
        Content {
            glyphs: Glyphs::none(),
            ink,
        }
    }

    // The bytes of its character.
    pub(crate) fn bytes(&self) -> &[u8]
        ensures { result.now ≡ self.now.glyphs }
    {
        self.glyphs.bytes()
    }

    // How it is shown.
    pub(crate) fn ink(&self) -> Ink
        ensures { result ≡ self.now.ink }
    {
        self.ink
    }

    // Whether it isn't the first cell of its character.
    #[tactic(auto, using(crate::proofs::Emulating::rest_by_length))]
    fn is_rest(&self) -> bool
        ensures { result ≡ is_rest_of self.now.glyphs }
    {
        self.bytes().is_empty()
    }
}

// Puts a character of so many cells at a column.
fn put_cells(row: &mut [Content], column: usize, glyphs: Glyphs, cells: usize, ink: Ink)
    requires some { 1 ≤ cells }
    requires room { column + cells ≤ length row.old }
    ensures { row.new
        ≡ take column row.old ++ (character_cells glyphs cells ink ++ drop (column + cells) row.old) }
{
    row[column] = Content { glyphs, ink };
    for at in column + 1..column + cells {
        row[at] = Content::rest(ink);
    }
}

// Makes all cells blank.
fn erase_cells(row: &mut [Content])
    ensures { row.new ≡ replicate (length row.old) blank }
{
    for at in 0..row.len() {
        row[at] = Content::blank();
    }
}

// The cells of a row.
#[derive(Drop)]
pub(crate) struct Line {
    cells: Vec<Content>,
}

impl Model for Line {
    ghost use Rattle.std.specs.Prelude.{List};
    ghost use Rattle.tx_terminal.specs.Terminals.{Cell};

    ghost Value = { List Cell };

    ghost view = { λ l. l.cells.items };
}

impl Line {
    // A row of blanks.
    pub(crate) fn new(alloc: Global, width: u16) -> Result<Line, Memory>
        ensures { IfOk result (λ l. l ≡ replicate width blank) }
    {
        let mut cells = Vec::new(alloc);
        for _column in 0..width {
            cells.push(Content::blank())?;
        }
        Ok(Line { cells })
    }

    // Its cells in order.
    pub(crate) fn cells(&self) -> &[Content]
        ensures { result.now ≡ self.now }
    {
        &self.cells
    }

    // Whether the cell at a column isn't the first one of its character.
    pub(crate) fn is_rest(&self, column: usize) -> bool
        ensures { result ≡ is_rest self.now column }
    {
        match self.cells.get(column) {
            Some(content) => content.is_rest(),
            None => false,
        }
    }

    // Puts a character of so many cells at a column.
    pub(crate) fn put(&mut self, column: usize, glyphs: Glyphs, cells: usize, ink: Ink)
        requires some { 1 ≤ cells }
        requires room { column + cells ≤ length self.old }
        ensures { self.new
            ≡ take column self.old ++ (character_cells glyphs cells ink ++ drop (column + cells) self.old) }
    {
        put_cells(&mut self.cells, column, glyphs, cells, ink);
    }

    // Makes all its cells blank.
    pub(crate) fn erase(&mut self)
        ensures { self.new ≡ replicate (length self.old) blank }
    {
        erase_cells(&mut self.cells);
    }
}
