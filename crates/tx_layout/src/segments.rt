// The lines of a segment's words.
ghost use Rattle.std.specs.Prelude.{◌≡◌, ◌≤◌, ◌<◌, ◌+◌, ◌^◌, min, map, length, All, IfOk};
ghost use Rattle.tx_lines.specs.Cuts.{Partitions};
ghost use Rattle.tx_layout.specs.Frames.{least_width, IsFrame};
ghost use Rattle.tx_layout.specs.Segments.{shift, put_in, width_at, indent_at};
ghost use Rattle.tx_layout.specs.Rows.{Narrow, Rises, row_at, rows_at, AreRows};

use crate::measures::{Frame, Side};
use crate::pieces::{Span, capped_cells, pieces_of, spans_of};
use std::alloc::Global;
use tx_base::Memory;
use tx_items::Item;
use tx_lines::{Cut, fill};

// A line, by the places of its items in the paragraph.
#[derive(Clone, Copy)]
pub(crate) struct Row {
    // The free cells before it.
    pub(crate) indent: u32,
    // Its first item.
    pub(crate) from: u32,
    // The place after its last item.
    pub(crate) to: u32,
    // The cells that are put in after its spaces.
    pub(crate) put: u32,
    // Whether it is the last of its page.
    pub(crate) page_end: bool,
}

// By how much a line with so many free cells is moved right.
fn shift(side: Side, free: u32) -> u32
    ensures { result ≡ shift side free }
{
    match side {
        Side::Left => 0,
        Side::Center => free / 2,
        Side::Right => free,
        Side::Justify => 0,
    }
}

// How many of a line's free cells are put in after its spaces.
fn put_in(side: Side, is_last: bool, free: u32) -> u32
    ensures { result ≡ put_in side is_last free }
{
    match side {
        Side::Left | Side::Center | Side::Right => 0,
        Side::Justify => { if is_last { 0 } else { free } }
    }
}

// The indent of the first line, or of another.
fn indent_at(frame: Frame, is_first: bool) -> u32
    ensures { result ≡ indent_at frame is_first }
{
    if is_first {
        frame.first_indent
    } else {
        frame.later_indent
    }
}

// The width of the first line, or of another.
fn width_at(frame: Frame, is_first: bool) -> u32
    ensures { result ≡ width_at frame is_first }
{
    if is_first {
        frame.first_width
    } else {
        frame.later_width
    }
}

// The narrower of the two widths.
pub(crate) fn least_width(frame: Frame) -> u32
    ensures { result ≡ least_width frame }
{
    frame.first_width.min(frame.later_width)
}

// The line that a cut gives.
fn row_of(
    frame: Frame,
    is_first: bool,
    is_last: bool,
    start: u32,
    segment: &[Item],
    spans: &[Span],
    cut: Cut,
) -> Row
    requires few { start + length segment.now < 2 ^ 32 }
    requires frame { IsFrame frame }
    requires some { cut.from < cut.to }
    requires within { cut.to ≤ length spans.now }
    requires rise { Rises segment.now spans.now }
    ensures { result ≡ row_at frame is_first is_last start segment.now spans.now cut }
{
    let from = spans[cut.from as usize].from;
    let to = spans[cut.to as usize - 1].to;
    let used = capped_cells(&segment[from as usize..to as usize]);
    let free = width_at(frame, is_first).saturating_sub(used);
    Row {
        indent: indent_at(frame, is_first) + shift(frame.side, free),
        from: start + from,
        to: start + to,
        put: put_in(frame.side, is_last, free),
        page_end: false,
    }
}

// The lines of cuts.
fn cut_rows(
    alloc: Global,
    frame: Frame,
    is_first: bool,
    start: u32,
    segment: &[Item],
    spans: &[Span],
    cuts: &[Cut],
) -> Result<Vec<Row>, Memory>
    requires few { start + length segment.now < 2 ^ 32 }
    requires frame { IsFrame frame }
    requires cuts { Partitions cuts.now 0 (length spans.now) }
    requires rise { Rises segment.now spans.now }
    ensures { IfOk result (λ rows. rows.items ≡ rows_at frame is_first start segment.now spans.now cuts.now) }
{
    let mut rows = Vec::with_capacity(alloc, cuts.len())?;
    let mut first = is_first;
    let mut left = cuts.len();
    for cut in cuts {
        left -= 1;
        let row = row_of(frame, first, left == 0, start, segment, spans, *cut);
        rows.push(row)?;
        first = false;
    }
    Ok(rows)
}

// The lines of the words of a segment that begins at a place of the paragraph.
pub(crate) fn rows_of(
    alloc: Global,
    frame: Frame,
    is_first: bool,
    start: u32,
    segment: &[Item],
) -> Result<Vec<Row>, Memory>
    requires few { start + length segment.now < 2 ^ 32 }
    requires narrow { All (Narrow (least_width frame)) segment.now }
    requires frame { IsFrame frame }
    ensures { IfOk result (λ rows. AreRows frame is_first start segment.now rows.items) }
{
    let least = least_width(frame);
    let spans = spans_of(alloc, segment, least)?;
    let pieces = pieces_of(alloc, segment, &spans)?;
    let cuts = fill(alloc, &pieces, width_at(frame, is_first), frame.later_width)?;
    cut_rows(alloc, frame, is_first, start, segment, &spans, &cuts)
}
