// A law of the rows of tables.
ghost use Rattle.std.specs.Prelude.{◌≡◌, ℕ, ◌<◌, true, List, [], ◌∷◌, ◌++◌, map, length, Some};
ghost use Rattle.std.specs.Prelude.{option_and_then, slice_get, if◌then◌else◌, codes};
ghost use Rattle.tx_origin.specs.Values.{WideValue};
ghost use Rattle.tx_table.specs.declared.grids.Grid.{Grid};
ghost use Rattle.tx_table.specs.Grids.{grid_of};
ghost use Rattle.tx_doc.specs.declared.buffer.Buffer.{Buffer};
ghost use Rattle.tx_items.specs.declared.attributes.Attrs.{Attrs};
ghost use Rattle.tx_items.specs.declared.drawing.Item.{Item};
ghost use Rattle.tx_items.specs.declared.drawing.Paragraph.{Paragraph};
ghost use Rattle.tx_items.specs.RowPlaces.{ColumnStands};
ghost use Rattle.tx_items.specs.Shows.{show, listed, bad};
ghost use Rattle.tx_layout.specs.declared.layout.Line.{Line};
ghost use Rattle.tx_layout.specs.Frames.{line_frame};
ghost use Rattle.tx_layout.specs.Segments.{HasWords};
ghost use Rattle.tx_layout.specs.Shapes.{items_shown};
ghost use Rattle.tx_layout.specs.OneLine.{one_line};
ghost use Rattle.tx_view_form.specs.Views.{UnitView, AreLines, IsShown, WideView, IsView, lines_of};
ghost use Rattle.tx_view_form.specs.Cells.{drawn_in, drawn_at};
ghost use Rattle.tx_view_form.specs.Positions.{Mark, mark_of, start_of, position_in};
ghost use Rattle.tx_table_rows.specs.GridRows.{rows_fit, columns_of, cells_at, sides_at, row_shown, all_rows};
ghost use Rattle.tx_table_rows.specs.GridRows.{IsFullRow, IsTable};
ghost use Rattle.tx_table_rows.specs.RowLines.{RowHasRoom, row_line, AreBetween, IsPageRow, CellCovers};
ghost use Rattle.tx_table_rows.specs.TableUnits.{IsTableUnit, StandsInUnit};

use tx_items::row_law;
use tx_view_form::table_place_law;

/// A law: a `tabular` with a grid shows a paragraph for each row, in order, where each cell shows in a line that
/// nothing ends; else it shows as an error. In a row each cell is after the columns before it, with a gap of 2 each,
/// and its left pad. A row that has room is one line, and any other is filled first-fit as other items are. What a cell
/// shows in a row that has room is found at its columns of the page, and its place is the position there.
pub fn shown_rows_law()
    ensures shown { (a : Attrs) (v : WideValue) (g : Grid) → grid_of v ≡ Some g →
        (show a v).form
        ≡ (if rows_fit a g.rows then listed (all_rows a g) else (bad a (codes "tabular")).form) }
    ensures rows { (a : Attrs) (v : WideValue) (g : Grid) (width : ℕ) (path : List ℕ) (x : UnitView) → IsTable a v g →
        IsShown width a v (Some path) x → x.paragraphs ≡ all_rows a g }
    ensures row { (a : Attrs) (v : WideValue) (g : Grid) (i : ℕ) → IsTable a v g → i < length g.rows → IsFullRow a g i }
    ensures cells { (a : Attrs) (v : WideValue) (g : Grid) (i j : ℕ) (cell : List Item) → IsTable a v g →
        i < length g.rows → slice_get (cells_at a g i) j ≡ Some cell →
        ColumnStands (columns_of a g) (sides_at g i) (cells_at a g i) j cell }
    ensures lines { (a : Attrs) (v : WideValue) (g : Grid) (width i : ℕ) (before after : List Paragraph)
        (lines : List Line) → IsTable a v g → i < length g.rows → RowHasRoom a g width i →
        AreLines width (before ++ row_shown a g i ∷ after) lines →
        AreBetween width before after (row_line a g width i ∷ []) lines }
    ensures all { (a : Attrs) (v : WideValue) (g : Grid) (width : ℕ) (path : List ℕ) (x : UnitView) → IsTable a v g →
        ((i : ℕ) → i < length g.rows → RowHasRoom a g width i) → IsShown width a v (Some path) x →
        x.lines ≡ map (λ p. one_line p width) (all_rows a g) }
    ensures wide { (a : Attrs) (v : WideValue) (g : Grid) (width i : ℕ) (before after : List Paragraph)
        (lines : List Line) → IsTable a v g → i < length g.rows →
        AreLines width (before ++ row_shown a g i ∷ after) lines →
        (own : List Line) × (AreBetween width before after own lines
        × HasWords (line_frame (row_shown a g i) width) true (items_shown (row_shown a g i) width) own) }
    ensures document { (buffers : List Buffer) (width height : ℕ) (w : WideView) (n i : ℕ) (path : List ℕ) (a : Attrs)
        (g : Grid) → IsView buffers width height w → IsTableUnit buffers n path a g → i < length g.rows →
        RowHasRoom a g width i → StandsInUnit a g width n i w.units path }
    ensures drawn { (a : Attrs) (v : WideValue) (g : Grid) (width i : ℕ) (xs : List UnitView) (r : ℕ) (path : List ℕ)
        (j : ℕ) (item : Item) (c : ℕ) → IsTable a v g → IsPageRow a g width i xs r path →
        CellCovers a g width i j item c →
        option_and_then (λ line. drawn_at line c) (slice_get (lines_of xs) r) ≡ drawn_in item }
    ensures place { (a : Attrs) (v : WideValue) (g : Grid) (width i : ℕ) (xs : List UnitView) (r : ℕ) (path : List ℕ)
        (j : ℕ) (item : Item) (c : ℕ) (m : Mark) → IsTable a v g → IsPageRow a g width i xs r path →
        CellCovers a g width i j item c → mark_of item ≡ Some m →
        position_in xs width r c ≡ Some (start_of path m) }
{
    row_law();
    table_place_law();
}
