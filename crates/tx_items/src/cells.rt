// How many cells items take.
ghost use Rattle.std.specs.Prelude.{◌≡◌};
ghost use Rattle.tx_items.specs.Cells.{item_cells};

use crate::drawing::Item;

/// The cells that an item takes on its line: those of its cluster or of its gap, and none for a chance, a break or a
/// cut.
pub fn item_cells(item: &Item) -> u32
    ensures { result ≡ item_cells item.now }
{
    match item {
        Item::Glyph(drawn) => u32::from(drawn.cluster.cells),
        Item::Space(drawn) => u32::from(drawn.cluster.cells),
        Item::Chance(_) => 0,
        Item::Gap(cells) => *cells,
        Item::Break => 0,
        Item::PageEnd => 0,
        Item::Down(_) => 0,
    }
}
