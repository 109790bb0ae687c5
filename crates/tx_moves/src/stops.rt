// Laws of the place on a row.
ghost use Rattle.std.specs.Prelude.{◌≡◌, ◌+◌, ◌≤◌, ◌∷◌, ◌++◌, ℕ, List, [], Some, None, true};
ghost use Rattle.std.specs.List.{list_any};
ghost use Rattle.tx_tree.specs.SamePlaces.{same_place};
ghost use Rattle.tx_tree.specs.declared.places.Place.{Place};
ghost use Rattle.tx_doc.specs.declared.buffer.Buffer.{Buffer};
ghost use Rattle.tx_items.specs.declared.drawing.Item.{Item};
ghost use Rattle.tx_items.specs.Cells.{item_cells, cells_across};
ghost use Rattle.tx_layout.specs.declared.layout.Line.{Line};
ghost use Rattle.tx_view_form.specs.Views.{UnitView, WideView, IsView};
ghost use Rattle.tx_view_form.specs.Cells.{item_at};
ghost use Rattle.tx_view_form.specs.Positions.{Mark, mark_of, marks_of};
ghost use Rattle.tx_view_form.specs.Stops.{stops_of};
ghost use Rattle.tx_moves.specs.Rows.{start_place};
ghost use Rattle.tx_moves.specs.RowStops.{stop_on, end_on, IsRowOf, IsDrawnUpTo};

/// A law: where a cluster with a place begins is drawn on its row or above, and so is the place on a row. Where such a
/// cluster covers the column, the place on the row is where that cluster begins. A column after the last such cluster
/// gives its end, or its start where its end is drawn on a later row. In a view the place on a row is one of the stops.
/// A row without such a cluster has none.
pub fn stop_laws()
    ensures starts { (units : List UnitView) (r : ℕ) (path : List ℕ) (line : Line) (front back : List Item)
        (item : Item) (m : Mark) → IsRowOf units r path line → line.items ≡ front ++ item ∷ back →
        mark_of item ≡ Some m → IsDrawnUpTo units (start_place path m) r }
    ensures up_to { (units : List UnitView) (r goal : ℕ) (at : Place) → stop_on units r goal ≡ Some at →
        IsDrawnUpTo units at r }
    ensures covered { (units : List UnitView) (r goal : ℕ) (path : List ℕ) (line : Line) (item : Item) (m : Mark) →
        IsRowOf units r path line → item_at line goal ≡ Some item → mark_of item ≡ Some m →
        stop_on units r goal ≡ Some (start_place path m) }
    ensures after { (units : List UnitView) (r goal : ℕ) (path : List ℕ) (line : Line) (front back : List Item)
        (item : Item) (m : Mark) → IsRowOf units r path line → line.items ≡ front ++ item ∷ back →
        mark_of item ≡ Some m → marks_of back ≡ [] → line.indent + cells_across front + item_cells item ≤ goal →
        stop_on units r goal ≡ Some (end_on units r path m) }
    ensures stops { (buffers : List Buffer) (width height r goal : ℕ) (v : WideView) (at : Place) →
        IsView buffers width height v → stop_on v.units r goal ≡ Some at →
        list_any (same_place at) (stops_of v.units) ≡ true }
    ensures none { (units : List UnitView) (r goal : ℕ) (path : List ℕ) (line : Line) →
        IsRowOf units r path line → marks_of line.items ≡ [] → stop_on units r goal ≡ None }
{}
