// What a terminal is to show.
ghost use Rattle.std.specs.Prelude.{◌≡◌, ◌<◌, ◌-◌, ℕ, List, true, IfOk, Some, length, option_and_then, slice_get};
ghost use Rattle.std.specs.Option.{option_map};
ghost use Rattle.tx_view_form.specs.Views.{lines_of};
ghost use Rattle.tx_moves.specs.PageNumbers.{page_of};
ghost use Rattle.tx_terminal.specs.Characters.{Shown};
ghost use Rattle.tx_screen.specs.Frames.{cell_on, framed, line_shown, lines_shown, padded, page_shown};
ghost use Rattle.tx_screen.specs.Frames.{IsSessionScreen};

use crate::desk::Desk;
use crate::messages::tags_round;
use crate::modes::{Mode, Question, Size};
use crate::moving::cell_of;
use crate::status::{error_text, printable, status_text, typed_columns};
use std::alloc::Global;
use tx_base::Memory;
use tx_page::{cut_row, line_row, text_row};
use tx_session::Session;
use tx_terminal::{Ink, Row};
use tx_view::View;

/// The rows of a terminal, the cell of its cursor, and the page that is shown.
#[derive(Drop)]
pub(crate) struct Frame {
    pub(crate) rows: Vec<Row>,
    pub(crate) cursor: Option<(u16, u16)>,
    pub(crate) page: u32,
}

// The page of the cursor, or the one that is shown, where the cursor is drawn nowhere.
fn page_of(view: &View, cell: Option<(u32, u32)>, shown: u32) -> u32
    ensures { (p : ℕ × ℕ) (k : ℕ) → cell ≡ Some p → page_of view.now.shown.pages p.0 ≡ Some k → result ≡ k }
{
    let count = u32::try_from(view.pages().len()).unwrap_or(u32::MAX);
    let last = count.saturating_sub(1);
    match cell.and_then(|(row, _)| view.page_of(row)) {
        Some(page) => page,
        None => shown.min(last),
    }
}

// The row that shows a line of the view, cut at the terminal's width, or none after the last line.
fn shown_row(alloc: Global, view: &View, number: u32, size: Size) -> Result<Option<Row>, Memory>
    ensures { IfOk result (λ row.
        row ≡ option_map (line_shown size) (slice_get (lines_of view.now.shown.units) number)) }
{
    match view.line(number) {
        Some(line) => Ok(Some(cut_row(line_row(alloc, line)?, u32::from(size.columns)))),
        None => Ok(None),
    }
}

// The rows that show the lines of the view from one on and before another.
fn shown_rows(
    alloc: Global,
    view: &View,
    from: u32,
    to: u32,
    size: Size,
) -> Result<Vec<Row>, Memory>
    ensures { IfOk result (λ rows. rows.items ≡ lines_shown size (lines_of view.now.shown.units) from to) }
{
    let mut rows = Vec::new(alloc);
    for number in from..to {
        if let Some(row) = shown_row(alloc, view, number, size)? {
            rows.push(row)?;
        }
    }
    Ok(rows)
}

// How many rows there are above the status line.
fn room_above(size: Size) -> u16
    ensures room { result ≡ size.rows - 1 }
    ensures few { result < 65535 }
{
    size.rows.saturating_sub(1)
}

// The rows that show a page, as many as there is room for, cut at the terminal's width.
fn page_rows(alloc: Global, view: &View, page: u32, size: Size) -> Result<Vec<Row>, Memory>
    ensures { IfOk result (λ rows.
        rows.items ≡ page_shown size (lines_of view.now.shown.units) (slice_get view.now.shown.pages page)) }
{
    let Some(cut) = view.pages().get(page as usize) else {
        return Ok(Vec::new(alloc));
    };
    let room = u32::from(room_above(size));
    let to = cut.to.min(cut.from.saturating_add(room));
    shown_rows(alloc, view, cut.from, to, size)
}

// Adds the row of a text, where there is room above the status line.
fn push_text(alloc: Global, rows: &mut Vec<Row>, text: &str, size: Size) -> Result<(), Memory> {
    if rows.len() + 1 < usize::from(size.rows) {
        rows.push(text_row(alloc, text, u32::from(size.columns), Ink::PLAIN)?)?;
    }
    Ok(())
}

// Adds the rows of a line of a text, as many as it needs. Code points from U+1100 on count as two cells.
fn push_line(alloc: Global, rows: &mut Vec<Row>, line: &str, size: Size) -> Result<(), Memory> {
    let mut piece = String::new(alloc);
    let mut left = size.columns;
    for code in line.chars() {
        let cells = if code < '\u{1100}' { 1 } else { 2 };
        if cells > left {
            push_text(alloc, rows, &piece, size)?;
            piece.clear();
            left = size.columns;
        }
        left = left.saturating_sub(cells);
        piece.push(code)?;
    }
    push_text(alloc, rows, &piece, size)
}

// Rows of the lines of a text.
fn text_rows(alloc: Global, text: &[u8], size: Size) -> Result<Vec<Row>, Memory> {
    let mut rows = Vec::new(alloc);
    for line in text.split(|byte| *byte == b'\n') {
        push_line(alloc, &mut rows, &printable(alloc, line)?, size)?;
    }
    Ok(rows)
}

// Rows of the errors round the one that is chosen, which is in reverse.
fn error_rows(alloc: Global, view: &View, chosen: u32, size: Size) -> Result<Vec<Row>, Memory> {
    let mut rows = Vec::new(alloc);
    let room = (size.rows as u32).saturating_sub(1);
    let from = chosen.saturating_add(1).saturating_sub(room);
    for number in from..view.errors() {
        if rows.len() >= room as usize {
            return Ok(rows);
        }
        if let Some((path, error)) = view.error(number) {
            let text = error_text(alloc, path, error)?;
            let ink = ink_of(number == chosen);
            rows.push(text_row(alloc, &text, size.columns as u32, ink)?)?;
        }
    }
    Ok(rows)
}

// Plain, or reverse.
fn ink_of(is_reverse: bool) -> Ink {
    let mut ink = Ink::PLAIN;
    ink.reverse = is_reverse;
    ink
}

// These rows, and empty ones after them, so that there are at least so many.
fn pad_rows(alloc: Global, mut rows: Vec<Row>, count: usize) -> Result<Vec<Row>, Memory>
    ensures { IfOk result (λ all. all.items ≡ padded count rows.items) }
{
    let missing = count.saturating_sub(rows.len());
    for _ in 0..missing {
        rows.push(Row::new(Vec::new(alloc)))?;
    }
    Ok(rows)
}

// All rows of the terminal: these, as many as there is room for, empty rows after them, and the status line.
fn with_status(
    alloc: Global,
    desk: &Desk,
    mut rows: Vec<Row>,
    text: &str,
) -> Result<Vec<Row>, Memory>
    ensures few { IfOk result (λ all. length all.items < 65536) }
    ensures framed { IfOk result (λ all. (status : List Shown)
        × (all.items ≡ framed desk.now.size rows.items status)) }
{
    let room = usize::from(room_above(desk.size));
    rows.truncate(room);
    let mut all = pad_rows(alloc, rows, room)?;
    let columns = u32::from(desk.size.columns);
    all.push(text_row(alloc, text, columns, ink_of(true))?)?;
    Ok(all)
}

// The cell of the terminal for a cell of the view, where it is on the page and on the terminal above the status line.
fn cursor_on(view: &View, cell: Option<(u32, u32)>, page: u32, size: Size) -> Option<(u16, u16)>
    ensures { result ≡ option_and_then (cell_on size (slice_get view.now.shown.pages page)) cell }
{
    let (row, column) = cell?;
    let cut = view.pages().get(page as usize)?;
    if row < cut.from || row >= cut.to {
        return None;
    }
    let row = row - cut.from;
    if row.saturating_add(1) >= size.rows as u32 || column >= size.columns as u32 {
        return None;
    }
    Some((row as u16, column as u16))
}

// The cell after what has been typed in the status line.
fn status_cursor(question: Question, typed: &[u32], size: Size) -> Option<(u16, u16)> {
    let column = typed_columns(question, typed);
    if size.rows == 0 || column >= size.columns as u32 {
        return None;
    }
    Some((size.rows - 1, column as u16))
}

// The rows above the status line: those of a page, or what is shown in its place.
fn upper_rows(alloc: Global, view: &View, desk: &Desk, page: u32) -> Result<Vec<Row>, Memory>
    ensures page { desk.now.edits ≡ true → IfOk result (λ rows. rows.items
        ≡ page_shown desk.now.size (lines_of view.now.shown.units) (slice_get view.now.shown.pages page)) }
{
    match &desk.mode {
        Mode::Errors(chosen) => error_rows(alloc, view, *chosen, desk.size),
        Mode::Shown(text) => text_rows(alloc, text, desk.size),
        _ => page_rows(alloc, view, page, desk.size),
    }
}

// The cell of the terminal's cursor: that of the document's cursor, or where an answer is typed.
fn cursor_in(view: &View, desk: &Desk, cell: Option<(u32, u32)>, page: u32) -> Option<(u16, u16)>
    ensures page { desk.now.edits ≡ true
        → result ≡ option_and_then (cell_on desk.now.size (slice_get view.now.shown.pages page)) cell }
{
    match &desk.mode {
        Mode::Errors(_) | Mode::Shown(_) | Mode::Leaving => None,
        Mode::Asked(question, typed) => status_cursor(*question, typed, desk.size),
        _ => cursor_on(view, cell, page, desk.size),
    }
}

/// What the terminal is to show of a session, where the desk is so. There are fewer than 65,536 rows.
pub(crate) fn frame_of(alloc: Global, session: &Session, desk: &Desk) -> Result<Frame, Memory>
    ensures few { IfOk result (λ frame. length frame.rows.items < 65536) }
    ensures screen { desk.now.edits ≡ true → IfOk result (λ frame.
        IsSessionScreen desk.now.size session.now.seen frame.rows.items frame.cursor) }
{
    let (view, state) = (session.view(), session.state());
    let at = state.cursor();
    let cell = cell_of(alloc, view, at)?;
    let page = page_of(view, cell, desk.page);
    let rows = upper_rows(alloc, view, desk, page)?;
    let tags = tags_round(alloc, state.document(), &at.path)?;
    let text = status_text(alloc, view, desk, cell, page, &tags)?;
    let rows = with_status(alloc, desk, rows, &text)?;
    let cursor = cursor_in(view, desk, cell, page);
    Ok(Frame { rows, cursor, page })
}
