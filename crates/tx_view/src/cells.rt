// The cluster or the place at a column of a line.
ghost use Rattle.std.specs.Prelude.{◌≡◌, ◌+◌, ◌≤◌, ◌^◌, ◌<◌, length, MatchOption, None, Some, option_and_then};
ghost use Rattle.tx_view_form.specs.Cells.{items_before, item_number, item_at, drawn_in, drawn_at};

use tx_items::{Drawn, Item};
use tx_layout::{Line, item_cells};

/// The cluster of an item, or None for one that isn't drawn.
pub fn drawn_in(item: &Item) -> Option<&Drawn>
    ensures { MatchOption result (drawn_in item.now ≡ None) (λ d. drawn_in item.now ≡ Some d.now) }
{
    match item {
        Item::Glyph(drawn) => Some(drawn),
        Item::Chance(drawn) => Some(drawn),
        Item::Space(drawn) => Some(drawn),
        Item::Gap(_) => None,
        Item::Break => None,
        Item::PageEnd => None,
        Item::Down(_) => None,
    }
}

/// The number of the item of a line that covers a column, or of the first after it.
pub(crate) fn item_number(line: &Line, column: u32) -> usize
    ensures number { result ≡ item_number line.now column }
    ensures within { result ≤ length line.now.items }
{
    let items = line.items.all();
    let mut at = u64::from(line.indent);
    for (i, item) in items.iter().enumerate() {
        at += u64::from(item_cells(item));
        if at > u64::from(column) {
            return i;
        }
    }
    items.len()
}

/// The item of a line that covers a column.
pub(crate) fn item_at(line: &Line, column: u32) -> Option<&Item>
    ensures { MatchOption result (item_at line.now column ≡ None) (λ i. item_at line.now column ≡ Some i.now) }
{
    if column < line.indent {
        return None;
    }
    line.items.all().get(item_number(line, column))
}

/// The cluster that covers a column of a line.
pub(crate) fn drawn_at(line: &Line, column: u32) -> Option<&Drawn>
    ensures { MatchOption result (drawn_at line.now column ≡ None) (λ d. drawn_at line.now column ≡ Some d.now) }
{
    match item_at(line, column) {
        None => None,
        Some(item) => drawn_in(item),
    }
}
