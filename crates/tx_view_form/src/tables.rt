// Laws of tables on lines.
ghost use Rattle.std.specs.Prelude.{◌≡◌, ◌+◌, ◌<◌, ◌≤◌, ◌∷◌, [], ◌++◌, ℕ, List, Some};
ghost use Rattle.tx_table.specs.declared.settings.Side.{Side};
ghost use Rattle.tx_table.specs.Columns.{across};
ghost use Rattle.tx_items.specs.declared.drawing.Item.{Item};
ghost use Rattle.tx_items.specs.declared.drawing.Paragraph.{Paragraph};
ghost use Rattle.tx_items.specs.Cells.{item_cells, cells_across};
ghost use Rattle.tx_layout.specs.declared.layout.Line.{Line};
ghost use Rattle.tx_layout.specs.Shapes.{IsShape};
ghost use Rattle.tx_layout.specs.OneLine.{one_line};
ghost use Rattle.tx_view_form.specs.Cells.{item_at, drawn_in, drawn_at};
ghost use Rattle.tx_view_form.specs.Positions.{Mark, mark_of, start_of, place_on};
ghost use Rattle.tx_view_form.specs.TableCells.{IsTableRow, CoversColumn};

use tx_items::row_law;
use tx_layout::one_line_law;

/// A law: an item of a line covers each of its cells, which are after the indent and the cells of the items before it.
pub fn cell_law()
    ensures { (line : Line) (front back : List Item) (item : Item) (c : ℕ) → line.items ≡ front ++ item ∷ back →
        line.indent + cells_across front ≤ c → c < line.indent + cells_across front + item_cells item →
        item_at line c ≡ Some item }
{}

/// A law: a row of a table whose columns have room side by side is one line. It takes the cells of its columns and of a
/// gap of 2 between them. What a cell shows begins after the indent of the line, the widths and gaps of the columns
/// before, and the left pad. Each cluster is found at each of its columns, in order, and a cluster that has a place has
/// it there.
pub fn table_place_law()
    ensures line { (p : Paragraph) (width : ℕ) (columns : List ℕ) (sides : List Side) (cells : List (List Item))
        (lines : List Line) → IsTableRow p width columns sides cells → IsShape p width lines →
        lines ≡ one_line p width ∷ [] }
    ensures cells { (p : Paragraph) (width : ℕ) (columns : List ℕ) (sides : List Side) (cells : List (List Item)) →
        IsTableRow p width columns sides cells → cells_across (one_line p width).items ≡ across columns }
    ensures drawn { (p : Paragraph) (width : ℕ) (columns : List ℕ) (sides : List Side) (cells : List (List Item))
        (j : ℕ) (item : Item) (c : ℕ) → IsTableRow p width columns sides cells →
        CoversColumn p width columns sides cells j item c → drawn_at (one_line p width) c ≡ drawn_in item }
    ensures place { (p : Paragraph) (width : ℕ) (columns : List ℕ) (sides : List Side) (cells : List (List Item))
        (j : ℕ) (item : Item) (c : ℕ) (path : List ℕ) (above below : List Line) (m : Mark) →
        IsTableRow p width columns sides cells → CoversColumn p width columns sides cells j item c →
        mark_of item ≡ Some m → place_on path above (one_line p width) below c ≡ start_of path m }
{
    row_law();
    one_line_law();
}
