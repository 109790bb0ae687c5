// Laws of what tables show.
ghost use Rattle.std.specs.Prelude.{◌≡◌, ◌<◌, ℕ, List, Some, length, slice_get};
ghost use Rattle.tx_table.specs.declared.settings.Side.{Side};
ghost use Rattle.tx_table.specs.Columns.{across};
ghost use Rattle.tx_items.specs.declared.drawing.Item.{Item};
ghost use Rattle.tx_items.specs.Cells.{cells_across};
ghost use Rattle.tx_items.specs.Tables.{row_items};
ghost use Rattle.tx_items.specs.RowPlaces.{FitsRow, ColumnStands};

/// A law: where no cell of a row is wider than its column, the row takes the cells of all columns and of a gap of 2
/// between them, and each cell's items are in order after the columns and gaps before it and its left pad.
pub fn row_law()
    ensures across { (columns : List ℕ) (sides : List Side) (cells : List (List Item)) →
        FitsRow columns sides cells → 0 < length cells →
        cells_across (row_items columns sides cells) ≡ across columns }
    ensures places { (columns : List ℕ) (sides : List Side) (cells : List (List Item)) (j : ℕ) (x : List Item) →
        FitsRow columns sides cells → slice_get cells j ≡ Some x → ColumnStands columns sides cells j x }
{}
