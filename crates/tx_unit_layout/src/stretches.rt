// What is shown of a unit, stretch by stretch.
ghost use Rattle.std.specs.Prelude.{◌≡◌, ◌≤◌, ◌<◌, length, Some, slice_get};
ghost use Rattle.tx_part_layout.specs.declared.laid.PlacedPart.{PlacedPart as Placed};
ghost use Rattle.tx_part_layout.specs.LaidParts.{AreBelow};
ghost use Rattle.tx_unit_layout.specs.Stretches.{stretches};
ghost use Rattle.tx_unit_layout.specs.Rows.{IsPartAbove, IsLineOf};
ghost use Rattle.tx_unit_layout.specs.Views.{unit_view};

use crate::shown::Shown;
use std::marker::Model;
use tx_items::Paragraph;
use tx_layout::Line;
use tx_part_layout::PlacedPart;
use tx_tree::Path;

/// Paragraphs of a unit and their lines that give their places from one path: those of a part, or those that the unit
/// has besides, which give them from the unit's tree.
#[derive(Drop)]
pub struct Stretch<'a> {
    pub part: Option<&'a Path>,
    pub paragraphs: &'a [Paragraph],
    pub lines: &'a [Line],
}

impl<'a> Model for Stretch<'a> {
    ghost use Rattle.std.specs.Prelude.{option_copied};
    ghost use Rattle.tx_unit_layout.specs.Stretches.{WideStretch, coded_WideStretch, part_or_root};

    ghost Value = { WideStretch };

    ghost coded = { coded_WideStretch };

    ghost view = { λ s. record {
      part = part_or_root (option_copied s.part);
      paragraphs = s.paragraphs.now;
      lines = s.lines.now;
    } };
}

// The number of the last of some parts that begins in this line or above it.
fn part_above(parts: &[PlacedPart], line: u64) -> usize
    requires some { 0 < length parts.now }
    requires first { (p : Placed) → slice_get parts.now 0 ≡ Some p → p.above ≤ line }
    ensures within { result < length parts.now }
    ensures found { IsPartAbove parts.now line result }
{
    let mut low = 0;
    let mut high = parts.len();
    while high - low > 1 {
        let middle = low + (high - low) / 2;
        if parts[middle].above <= line {
            low = middle;
        } else {
            high = middle;
        }
    }
    low
}

impl Shown {
    /// How many stretches it has: one for each part, and the last for what it shows besides.
    pub fn stretch_count(&self) -> usize
        ensures { result ≡ length (stretches self.now) }
    {
        self.parts.all().len() + 1
    }

    /// The stretch of this number.
    pub fn stretch(&self, i: usize) -> Stretch<'_>
        requires { i < length (stretches self.now) }
        ensures { slice_get (stretches self.now) i ≡ Some result }
    {
        match self.parts.all().get(i) {
            Some(part) => Stretch {
                part: Some(&part.path),
                paragraphs: &part.laid.paragraphs,
                lines: part.laid.lines.all(),
            },
            None => Stretch {
                part: None,
                paragraphs: &self.paragraphs,
                lines: self.lines.all(),
            },
        }
    }

    /// The number of the stretch in which a line is, and its number there.
    pub fn line_in(&self, line: u64) -> (usize, usize)
        requires there { line < length (unit_view self.now).lines }
        requires below { AreBelow 0 self.now.parts }
        ensures { IsLineOf self.now line result }
    {
        let parts = self.parts.all();
        if parts.is_empty() {
            return (0, line as usize);
        }
        let k = part_above(parts, line);
        let below = line - parts[k].above;
        let own = parts[k].laid.lines.all().len() as u64;
        if below < own {
            return (k, below as usize);
        }
        (parts.len(), (below - own) as usize)
    }
}
