// Laws of the row of a place.
ghost use Rattle.std.specs.Prelude.{◌≡◌, ◌<◌, ◌≤◌, ℕ, List, Some};
ghost use Rattle.std.specs.Option.{option_map};
ghost use Rattle.tx_tree.specs.declared.places.Place.{Place};
ghost use Rattle.tx_doc.specs.declared.buffer.Buffer.{Buffer};
ghost use Rattle.tx_view_form.specs.Views.{UnitView, WideView, IsView};
ghost use Rattle.tx_view_form.specs.Positions.{position_in};
ghost use Rattle.tx_moves.specs.Rows.{whole_place, Extent, begun_at, bare_at, row_of, IsInUnit};

use tx_layout::within_page;
use tx_view_form::cell_law;

/// A law: where a place has a row by a cluster that begins there, the position at each column of that cluster is the
/// place. In a view all these columns are on the page. Where the place has a row as that of a unit, the position there
/// is the place. The row is one of the unit whose path is that of the place or begins it. In a view the column is at
/// most the width of the page.
pub fn row_laws()
    ensures begun { (units : List UnitView) (width c : ℕ) (at : Place) (e : Extent) →
        begun_at units at ≡ Some e → e.from ≤ c → c < e.to → c < width →
        option_map whole_place (position_in units width e.row c) ≡ Some at }
    ensures reach { (buffers : List Buffer) (width height : ℕ) (v : WideView) (at : Place) (e : Extent) →
        IsView buffers width height v → begun_at v.units at ≡ Some e → e.to ≤ width }
    ensures bare { (units : List UnitView) (width : ℕ) (at : Place) (e : Extent) →
        bare_at units at ≡ Some e → e.from < width →
        option_map whole_place (position_in units width e.row e.from) ≡ Some at }
    ensures unit { (units : List UnitView) (at : Place) (p : ℕ × ℕ) → row_of units at ≡ Some p →
        IsInUnit units at p.0 }
    ensures within { (buffers : List Buffer) (width height : ℕ) (v : WideView) (at : Place) (p : ℕ × ℕ) →
        IsView buffers width height v → row_of v.units at ≡ Some p → p.1 ≤ width }
{
    cell_law();
    within_page();
}
