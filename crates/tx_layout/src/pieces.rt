// Words of a segment, cut into pieces.
ghost use Rattle.std.specs.Prelude.{◌≡◌, ◌≤◌, ◌<◌, ◌+◌, ◌-◌, ◌^◌, ◌⊎◌, min, map, length, All, IfOk, slice_range};
ghost use Rattle.tx_items.specs.Cells.{cells_across};
ghost use Rattle.tx_layout.specs.Words.{is_blank_item, is_chance_item, Solid, Blank};
ghost use Rattle.tx_layout.specs.Words.{Breakable, Unbreakable, IsSpan, SpansFrom};
ghost use Rattle.tx_layout.specs.Segments.{piece_of};
ghost use Rattle.tx_layout.specs.Rows.{Narrow, capped_piece};

use std::alloc::Global;
use tx_base::Memory;
use tx_items::{Item, item_cells};
use tx_lines::Piece;

/// Spaces, which may be none, and a piece of a word after them, by the places of items.
#[derive(Clone, Copy, Debug, PartialEq, Eq)]
pub struct Span {
    /// Where the spaces begin.
    pub spaces: u32,
    /// Where the piece begins.
    pub from: u32,
    /// The place after the piece.
    pub to: u32,
}

// No line has room for more cells than this.
const TOO_MANY: u32 = 501;

// Whether a space is here.
pub(crate) fn is_blank_item(item: &Item) -> bool
    ensures { result ≡ is_blank_item item.now }
{
    match item {
        Item::Glyph(_) => false,
        Item::Space(_) => true,
        Item::Chance(_) => false,
        Item::Gap(_) => false,
        Item::Break => false,
        Item::PageEnd => false,
        Item::Down(_) => false,
    }
}

// Whether a line may end after the item.
fn is_chance_item(item: &Item) -> bool
    ensures { result ≡ is_chance_item item.now }
{
    matches!(item, Item::Chance(_))
}

// The cells of items, or 501 where there are more.
pub(crate) fn capped_cells(items: &[Item]) -> u32
    ensures { result ≡ min (cells_across items.now) 501 }
{
    let mut cells: u32 = 0;
    for item in items {
        cells = cells.saturating_add(item_cells(item)).min(TOO_MANY);
    }
    cells
}

// The first place from here on where no space is, or the end.
fn spaces_end(items: &[Item], from: usize) -> usize
    requires { from ≤ length items.now }
    ensures onward { from ≤ result }
    ensures within { result ≤ length items.now }
    ensures blank { All Blank (slice_range items.now from result) }
    ensures stops { result < length items.now → All Solid (slice_range items.now result (result + 1)) }
{
    let mut end = from;
    while end < items.len() {
        if !is_blank_item(&items[end]) {
            return end;
        }
        end += 1;
    }
    end
}

// The end of the piece that begins here: its greatest front that is no wider than `least`, and without a chance before
// its last item.
fn piece_end(items: &[Item], from: usize, least: u32) -> usize
    requires there { from < length items.now }
    requires begins { All Solid (slice_range items.now from (from + 1)) }
    requires narrow_items { All (Narrow least) items.now }
    requires least_fits { least ≤ 500 }
    ensures some { from < result }
    ensures within { result ≤ length items.now }
    ensures solid { All Solid (slice_range items.now from result) }
    ensures unbroken { All Unbreakable (slice_range items.now from (result - 1)) }
    ensures narrow { cells_across (slice_range items.now from result) ≤ least }
    ensures greatest { result < length items.now →
        All Blank (slice_range items.now result (result + 1))
        ⊎ All Breakable (slice_range items.now (result - 1) result)
        ⊎ (least < cells_across (slice_range items.now from (result + 1))) }
{
    let mut used = item_cells(&items[from]);
    let mut end = from + 1;
    while end < items.len() {
        let before = &items[end - 1];
        let item = &items[end];
        if is_blank_item(item) {
            return end;
        }
        if is_chance_item(before) {
            return end;
        }
        let more = used + item_cells(item);
        if more > least {
            return end;
        }
        used = more;
        end += 1;
    }
    end
}

// The pieces of a segment's words, none wider than `least`.
pub(crate) fn spans_of(alloc: Global, items: &[Item], least: u32) -> Result<Vec<Span>, Memory>
    requires few { length items.now < 2 ^ 32 }
    requires narrow_items { All (Narrow least) items.now }
    requires least_fits { least ≤ 500 }
    ensures { IfOk result (λ spans. SpansFrom least items.now 0 spans.items) }
{
    let mut spans = Vec::new(alloc);
    let mut at = 0;
    let mut from = spaces_end(items, 0);
    while from < items.len() {
        let to = piece_end(items, from, least);
        spans.push(Span {
            spaces: at as u32,
            from: from as u32,
            to: to as u32,
        })?;
        at = to;
        from = spaces_end(items, at);
    }
    Ok(spans)
}

// The pieces as first-fit knows them, where more spaces than a line has room for count as 501.
pub(crate) fn pieces_of(alloc: Global, items: &[Item], spans: &[Span]) -> Result<Vec<Piece>, Memory>
    requires onward { All (λ s. s.spaces ≤ s.from) spans.now }
    requires some { All (λ s. s.from ≤ s.to) spans.now }
    requires within { All (λ s. s.to ≤ length items.now) spans.now }
    ensures { IfOk result (λ pieces. pieces.items ≡ map (λ s. capped_piece (piece_of items.now s)) spans.now) }
{
    let mut pieces = Vec::with_capacity(alloc, spans.len())?;
    for span in spans {
        let before = capped_cells(&items[span.spaces as usize..span.from as usize]);
        let cells = capped_cells(&items[span.from as usize..span.to as usize]);
        pieces.push(Piece { before, cells })?;
    }
    Ok(pieces)
}
