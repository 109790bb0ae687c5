// Laws of lines under a path.
ghost use Rattle.std.specs.Prelude.{ℕ, List, ◌++◌, map};
ghost use Rattle.tx_items.specs.declared.drawing.Paragraph.{Paragraph};
ghost use Rattle.tx_layout.specs.declared.layout.Line.{Line};
ghost use Rattle.tx_layout.specs.declared.paging.Paginator.{Paginator};
ghost use Rattle.tx_layout.specs.Told.{HasTold};
ghost use Rattle.tx_view_form.specs.Views.{AreLines};
ghost use Rattle.tx_part_items.specs.ItemsUnder.{paragraph_under};
ghost use Rattle.tx_part_layout.specs.LinesUnder.{line_under};

/// A law: paragraphs whose items have their origins under a path have the lines that they have without it, with their
/// items' origins under the path. Pages are cut of these lines as of those.
pub fn lines_under_law()
    ensures lines { (base : List ℕ) (width : ℕ) (ps : List Paragraph) (ls : List Line) → AreLines width ps ls
        → AreLines width (map (paragraph_under base) ps) (map (line_under base) ls) }
    ensures told { (base : List ℕ) (before own : List Line) (height : ℕ) (p : Paginator)
        → HasTold (before ++ own) height p → HasTold (before ++ map (line_under base) own) height p }
{}
