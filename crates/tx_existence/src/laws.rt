// Laws of existence.
ghost use Rattle.std.specs.Prelude.{ℕ, ◌<◌, ◌≤◌, List, All};
ghost use Rattle.tx_doc.specs.declared.buffer.Buffer.{Buffer};
ghost use Rattle.tx_items.specs.Narrow.{IsNarrow};
ghost use Rattle.tx_items.specs.declared.drawing.Paragraph.{Paragraph};
ghost use Rattle.tx_layout.specs.Paging.{PagesFrom};
ghost use Rattle.tx_layout.specs.Shapes.{IsShape};
ghost use Rattle.tx_layout.specs.declared.layout.Line.{Line};
ghost use Rattle.tx_lines.specs.declared.cut.Cut.{Cut};
ghost use Rattle.tx_view_form.specs.Views.{WideView, IsView};

/// A law: a paragraph has lines on each page that is at least 20 cells wide, where no cluster has more than 2 cells.
pub fn some_shape()
    ensures { (p : Paragraph) (width : ℕ) → 20 ≤ width → All IsNarrow p.items →
        (lines : List Line) × IsShape p width lines }
{}

/// A law: lines have pages of each height but 0.
pub fn some_paging()
    ensures { (lines : List Line) (height : ℕ) → 0 < height → (pages : List Cut) × PagesFrom lines height 0 pages }
{}

/// A law: buffers have a view on pages of each height but 0, at least 20 cells wide. No cluster that they show has more
/// than 2 cells.
pub fn some_view()
    ensures { (buffers : List Buffer) (width height : ℕ) → 20 ≤ width → 0 < height →
        (v : WideView) × IsView buffers width height v }
{}
