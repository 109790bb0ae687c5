// The lines of a paragraph's segments.
ghost use Rattle.std.specs.Prelude.{◌≡◌, ◌≤◌, ◌<◌, ◌+◌, ◌^◌, ◌++◌, ℕ, List, map, true, length, All, IfOk, OnOk};
ghost use Rattle.std.specs.Prelude.{slice_range};
ghost use Rattle.tx_items.specs.declared.drawing.Item.{Item};
ghost use Rattle.tx_layout.specs.Frames.{least_width, IsFrame};
ghost use Rattle.tx_layout.specs.Shapes.{is_break, Cutting, Whole, HasLines};
ghost use Rattle.tx_layout.specs.Rows.{Narrow, IsWithin, line_at, rows_behind, rows_or_empty, OwnLines};

use crate::measures::Frame;
use crate::segments::{Row, rows_of};
use std::alloc::Global;
use tx_base::Memory;
use tx_items::Item;

const EMPTY: Row = Row {
    indent: 0,
    from: 0,
    to: 0,
    put: 0,
    page_end: false,
};

// Whether a paragraph is cut here.
fn is_break(item: &Item) -> bool
    ensures { result ≡ is_break item.now }
{
    match item {
        Item::Glyph(_) => false,
        Item::Space(_) => false,
        Item::Chance(_) => false,
        Item::Gap(_) => false,
        Item::Break => true,
        Item::PageEnd => true,
        Item::Down(_) => true,
    }
}

// The next cut, or the end.
fn cut_place(items: &[Item], from: usize) -> usize
    requires { from ≤ length items.now }
    ensures onward { from ≤ result }
    ensures within { result ≤ length items.now }
    ensures whole { All Whole (slice_range items.now from result) }
    ensures cut { result < length items.now → All Cutting (slice_range items.now result (result + 1)) }
{
    let mut end = from;
    while end < items.len() {
        if is_break(&items[end]) {
            return end;
        }
        end += 1;
    }
    end
}

// Without a word an empty line, but none in the last segment, after a cut.
fn or_empty(rows: &mut Vec<Row>, is_first: bool, is_last: bool) -> Result<(), Memory>
    ensures { OnOk result (rows.new.items ≡ rows_or_empty is_first is_last rows.old.items) }
{
    if !rows.is_empty() {
        return Ok(());
    }
    if is_last && !is_first {
        return Ok(());
    }
    rows.push(EMPTY)?;
    Ok(())
}

// The lines of the segment between two places.
fn own_rows(
    alloc: Global,
    frame: Frame,
    is_first: bool,
    is_last: bool,
    items: &[Item],
    start: usize,
    end: usize,
) -> Result<Vec<Row>, Memory>
    requires few { length items.now < 2 ^ 32 }
    requires narrow { All (Narrow (least_width frame)) items.now }
    requires frame { IsFrame frame }
    requires onward { start ≤ end }
    requires there { end ≤ length items.now }
    ensures lines { IfOk result (λ rows. OwnLines frame is_first is_last (slice_range items.now start end)
        (map (line_at items.now) rows.items)) }
    ensures within { IfOk result (λ rows. All (IsWithin (length items.now)) rows.items) }
{
    let mut rows = rows_of(alloc, frame, is_first, start as u32, &items[start..end])?;
    or_empty(&mut rows, is_first, is_last)?;
    Ok(rows)
}

// What a cut makes of the lines before it.
fn add_cut(own: &mut Vec<Row>, cut: &Item) -> Result<(), Memory>
    ensures { OnOk result (own.new.items ≡ rows_behind cut.now own.old.items) }
{
    match cut {
        Item::Glyph(_) => {}
        Item::Space(_) => {}
        Item::Chance(_) => {}
        Item::Gap(_) => {}
        Item::Break => {}
        Item::PageEnd => {
            let count = own.len();
            if count > 0 {
                own[count - 1].page_end = true;
            }
        }
        Item::Down(count) => {
            let len = own.len().saturating_add(*count as usize);
            own.resize(len, EMPTY)?;
        }
    }
    Ok(())
}

// The rows of some segments, and those of the next one after them.
fn joined(mut rows: Vec<Row>, mut own: Vec<Row>) -> Result<Vec<Row>, Memory>
    ensures { IfOk result (λ all. all.items ≡ rows.items ++ own.items) }
{
    if rows.is_empty() {
        return Ok(own);
    }
    rows.append(&mut own)?;
    Ok(rows)
}

// The lines of a paragraph with these items.
pub(crate) fn shape(alloc: Global, frame: Frame, items: &[Item]) -> Result<Vec<Row>, Memory>
    requires few { length items.now < 2 ^ 32 }
    requires narrow { All (Narrow (least_width frame)) items.now }
    requires frame { IsFrame frame }
    ensures lines { IfOk result (λ rows. HasLines frame true items.now (map (line_at items.now) rows.items)) }
    ensures within { IfOk result (λ rows. All (IsWithin (length items.now)) rows.items) }
{
    let mut rows = Vec::new(alloc);
    let mut start = 0;
    let mut is_first = true;
    let mut end = cut_place(items, 0);
    while end < items.len() {
        let mut own = own_rows(alloc, frame, is_first, false, items, start, end)?;
        add_cut(&mut own, &items[end])?;
        rows.append(&mut own)?;
        start = end + 1;
        is_first = false;
        end = cut_place(items, start);
    }
    let own = own_rows(alloc, frame, is_first, true, items, start, end)?;
    joined(rows, own)
}
