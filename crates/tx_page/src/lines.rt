// The lines of a page as rows of characters.
ghost use Rattle.std.specs.Prelude.{◌≡◌, ℕ, ◌≤◌, ◌++◌, All, IfOk, List, OnOk};
ghost use Rattle.tx_items.specs.declared.drawing.Paragraph.{Paragraph};
ghost use Rattle.tx_layout.specs.declared.layout.Line.{Line};
ghost use Rattle.tx_layout.specs.Shapes.{IsShape};
ghost use Rattle.tx_page.specs.Lines.{drawn_characters, item_characters, line_characters, line_cells, row_width};

use crate::clusters::{push_blanks, push_cluster};
use crate::inks::ink_of;
use std::alloc::Global;
use tx_base::Memory;
use tx_items::{Drawn, Item};
use tx_layout::{Line, within_page};
use tx_terminal::{Character, Ink, Row};

// Adds the characters that show a cluster in the ink of its text.
fn push_drawn(row: &mut Vec<Character>, drawn: &Drawn) -> Result<(), Memory>
    ensures { OnOk result (row.new.items ≡ row.old.items ++ drawn_characters drawn.now) }
{
    let cluster = &drawn.cluster;
    push_cluster(
        row,
        cluster.glyphs.bytes(),
        cluster.cells,
        ink_of(&drawn.look),
    )
}

// Adds the characters that show an item.
fn push_item(row: &mut Vec<Character>, item: &Item) -> Result<(), Memory>
    ensures { OnOk result (row.new.items ≡ row.old.items ++ item_characters item.now) }
{
    match item {
        Item::Glyph(drawn) => push_drawn(row, drawn),
        Item::Space(drawn) => push_drawn(row, drawn),
        Item::Chance(_) => Ok(()),
        Item::Gap(cells) => push_blanks(row, *cells, Ink::PLAIN),
        Item::Break => Ok(()),
        Item::PageEnd => Ok(()),
        Item::Down(_) => Ok(()),
    }
}

/// The row of characters that shows a line: its indent and its gaps as blanks, and each cluster in its cells, in the
/// ink of its text. A cluster of several characters is shown by the first of them or by U+FFFD (README).
pub fn line_row(alloc: Global, line: &Line) -> Result<Row, Memory>
    ensures { IfOk result (λ row. row ≡ line_characters line.now) }
{
    let mut row = Vec::new(alloc);
    push_blanks(&mut row, line.indent, Ink::PLAIN)?;
    for item in line.items.all() {
        push_item(&mut row, item)?;
    }
    Ok(Row::new(row))
}

/// A law: the row that shows a line takes exactly the cells of the line, so that of a paragraph's line is within its
/// page.
pub fn row_law()
    ensures exact { (line : Line) → row_width (line_characters line) ≡ line_cells line }
    ensures within { (p : Paragraph) (width : ℕ) (lines : List Line) → IsShape p width lines
        → All (λ line. row_width (line_characters line) ≤ width) lines }
{
    within_page();
}
