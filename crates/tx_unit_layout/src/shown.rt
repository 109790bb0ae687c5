// What is shown of a unit.
ghost use Rattle.std.specs.Prelude.{◌≡◌, ◌++◌, ◌+◌, ◌<◌, ◌^◌, List, ℕ, length, All, OnOk, IsTrue};
ghost use Rattle.tx_layout.specs.declared.layout.Line.{Line as Shape};
ghost use Rattle.tx_layout.specs.Paging.{Unmarked};
ghost use Rattle.tx_layout.specs.Told.{HasTold, lines_told};
ghost use Rattle.tx_part_layout.specs.LaidParts.{is_before, AreBelow, placed_lines};
ghost use Rattle.tx_unit_layout.specs.Views.{unit_view};

use crate::laid_parts::LaidParts;
use tx_base::Memory;
use tx_items::{Attrs, ErrorAt, Paragraph};
use tx_layout::Paginator;
use tx_part_layout::{LineList, PlacedPart, lines_under_law, same_attrs};
use tx_tree::Path;

/// What is shown of a unit. But for its path, nothing in it depends on where the unit is among others.
#[derive(Drop)]
pub struct Shown {
    /// The path of a unit that is on pages.
    pub path: Option<Path>,
    /// The attributes for which it was laid out, or None where it isn't.
    pub laid: Option<Attrs>,
    /// All errors in it.
    pub errors: Vec<ErrorAt>,
    /// The paragraphs that it has besides those of its parts, which come first.
    pub paragraphs: Vec<Paragraph>,
    /// The lines of these paragraphs.
    pub lines: LineList,
    /// The layouts of the parts of a paragraph of the body. There may be some where the unit isn't laid out.
    pub parts: LaidParts,
}

// How many lines there are on parts.
fn lines_on(parts: &[PlacedPart]) -> u64
    requires below { AreBelow 0 parts.now }
    requires few { length (placed_lines parts.now) < 2 ^ 63 }
    ensures { result ≡ length (placed_lines parts.now) }
{
    let count = parts.len();
    if count == 0 {
        return 0;
    }
    let last = &parts[count - 1];
    last.above + last.laid.lines.all().len() as u64
}

// Gives the paginator the lines of parts. When memory runs out, nothing is known of what it was given.
fn tell_parts(parts: &[PlacedPart], paginator: &mut Paginator) -> Result<(), Memory>
    requires begun { (before : List Shape) × (height : ℕ) × HasTold before height paginator.old }
    requires few { lines_told paginator.old + length (placed_lines parts.now) < 2 ^ 32 }
    ensures told { OnOk result ((before : List Shape) (height : ℕ) → HasTold before height paginator.old
        → HasTold (before ++ placed_lines parts.now) height paginator.new) }
{
    lines_under_law();
    for part in parts {
        part.laid.lines.tell(paginator)?;
    }
    Ok(())
}

impl Shown {
    /// Whether it is laid out for these attributes.
    pub fn is_laid_for(&self, attrs: &Attrs) -> bool
        ensures { result ≡ is_before self.now.laid attrs.now }
    {
        match &self.laid {
            None => false,
            Some(laid) => same_attrs(laid, attrs),
        }
    }

    /// How many lines it has.
    pub fn line_count(&self) -> u64
        requires below { AreBelow 0 self.now.parts }
        requires few { length (unit_view self.now).lines < 2 ^ 63 }
        ensures { result ≡ length (unit_view self.now).lines }
    {
        lines_on(self.parts.all()) + self.lines.all().len() as u64
    }

    /// No line ends its page. False says nothing.
    pub fn is_unmarked(&self) -> bool
        ensures { IsTrue result → All Unmarked (unit_view self.now).lines }
    {
        self.parts.is_unmarked() && self.lines.is_unmarked()
    }

    /// Gives the paginator its lines, after those that it was given before.
    pub fn tell(&self, paginator: &mut Paginator) -> Result<(), Memory>
        requires begun { (before : List Shape) × (height : ℕ) × HasTold before height paginator.old }
        requires few { lines_told paginator.old + length (unit_view self.now).lines < 2 ^ 32 }
        ensures told { OnOk result ((before : List Shape) (height : ℕ) → HasTold before height paginator.old
            → HasTold (before ++ (unit_view self.now).lines) height paginator.new) }
    {
        tell_parts(self.parts.all(), paginator)?;
        self.lines.tell(paginator)
    }
}
