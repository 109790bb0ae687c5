// Laws of views.
ghost use Rattle.std.specs.Prelude.{◌≡◌, ◌≤◌, ◌*◌, ℕ, List, length, All, Some};
ghost use Rattle.std.specs.List.{flat_map, AllByRecursion};
ghost use Rattle.tx_tree.specs.WideTree.{size_of};
ghost use Rattle.tx_tree.specs.Limits.{IsWellFormed, IsWithinLimits};
ghost use Rattle.tx_tree.specs.Places.{IsPlace};
ghost use Rattle.tx_origin.specs.Values.{WideValue, plain};
ghost use Rattle.tx_origin.specs.RelativePlaces.{BasedPlace};
ghost use Rattle.tx_doc.specs.Buffers.{document_of};
ghost use Rattle.tx_doc.specs.declared.buffer.Buffer.{Buffer};
ghost use Rattle.tx_items.specs.declared.attributes.Attrs.{Attrs};
ghost use Rattle.tx_items.specs.declared.drawing.Paragraph.{Paragraph};
ghost use Rattle.tx_items.specs.Shows.{show, shown_paragraphs};
ghost use Rattle.tx_layout.specs.declared.layout.Line.{Line};
ghost use Rattle.tx_view_form.specs.Outcomes.{over_value};
ghost use Rattle.tx_view_form.specs.Views.{AreLines, WideView, IsView};
ghost use Rattle.tx_view_form.specs.Positions.{IsShort, whole_path, position_in};
ghost use Rattle.tx_view_form.specs.Stops.{stops_of};
ghost use Rattle.tx_view_form.specs.Weights.{weight_of};

use crate::{MOST_UNIT_STEPS, MOST_VIEW_STEPS};
use tx_doc::{Buffer, formed_law};
use tx_layout::{one_paging, one_shape};

/// A law: buffers have at most one view on pages of given width and height.
pub fn one_view()
    ensures { (buffers : List Buffer) (width height : ℕ) (v w : WideView) →
        IsView buffers width height v → IsView buffers width height w → v ≡ w }
{
    one_shape();
    one_paging();
}

/// A law: how many items, lines and errors there are at most. A well formed value weighs at most 242 for each unit of
/// its size. The value of a unit that runs out of steps weighs at most 49. Paragraphs have at most as many items, and
/// as many lines, as they weigh.
pub fn weight_laws()
    ensures value { (a : Attrs) (v : WideValue) → IsWellFormed (plain v) →
        weight_of (shown_paragraphs a v) ≤ 242 * size_of (plain v) }
    ensures over { (a : Attrs) → weight_of (shown_paragraphs a over_value) ≤ 49 }
    ensures items { (ps : List Paragraph) → length (flat_map (λ p. p.items) ps) ≤ weight_of ps }
    ensures lines { (width : ℕ) (ps : List Paragraph) (lines : List Line) → AreLines width ps lines →
        length lines ≤ weight_of ps }
    ensures errors { (a : Attrs) (v : WideValue) → length (show a v).errors ≤ size_of (plain v) }
{}

/// A law: where a cluster of a well formed value has a place, it ends within the longest text.
pub fn short_law()
    ensures items { (a : Attrs) (v : WideValue) → IsWellFormed (plain v) → IsWithinLimits (plain v) →
        All (λ p. All IsShort p.items) (shown_paragraphs a v) }
    ensures lines { (width : ℕ) (ps : List Paragraph) (lines : List Line) → AreLines width ps lines →
        All (λ p. All IsShort p.items) ps → All (λ line. All IsShort line.items) lines }
{}

/// A law: the position at a row and a column is a place of the document, and so is each stop.
pub fn place_law(buffers: &[Buffer])
    ensures positions { (width height r c : ℕ) (v : WideView) (p : BasedPlace) → IsView buffers.now width height v →
        position_in v.units width r c ≡ Some p → IsPlace (document_of buffers.now) (whole_path p) p.offset }
    ensures stops { (width height : ℕ) (v : WideView) → IsView buffers.now width height v →
        AllByRecursion (λ p. IsPlace (document_of buffers.now) p.path p.offset) (stops_of v.units) }
{
    formed_law(buffers);
}

/// A law: the limits of what a view evaluates, by which contracts and definitions name them, are these numbers.
pub fn limit_laws()
    ensures unit { MOST_UNIT_STEPS ≡ 1000000 }
    ensures view { MOST_VIEW_STEPS ≡ 16000000 }
{}
