// Indents, widths and the side of a paragraph's lines.
ghost use Rattle.std.specs.Prelude.{◌≡◌, ◌≤◌};
ghost use Rattle.tx_layout.specs.Frames.{whole_cells, moved_by, left_margin, right_margin, first_indent};
ghost use Rattle.tx_layout.specs.Frames.{side_of, line_frame, IsFrame};

use tx_items::Paragraph;

/// Where a line is in its width.
#[derive(Clone, Copy, Debug, PartialEq, Eq)]
pub enum Side {
    /// At the left.
    Left,
    /// In the middle, half of the free cells before it, rounded down.
    Center,
    /// At the right.
    Right,
    /// At the left, its free cells put in after its spaces, but on the last line of a segment.
    Justify,
}

/// The measures of a paragraph's lines, in cells.
#[derive(Clone, Copy, Debug, PartialEq, Eq)]
pub struct Frame {
    /// The indent of the first line.
    pub first_indent: u32,
    /// The indent of the others.
    pub later_indent: u32,
    /// The width of the first line, from 10 to 500.
    pub first_width: u32,
    /// The width of the others, from 10 to 500.
    pub later_width: u32,
    /// Where each line is in its width.
    pub side: Side,
}

// The whole thousands of a length, where one below 0 counts as 0.
fn whole_cells(length: i64) -> u64
    ensures { result ≡ whole_cells length }
{
    (length / 1000).max(0) as u64
}

// Cells and the whole thousands of a length, rounded down, but not below 0.
fn moved_by(cells: u32, length: i64) -> u64
    ensures { result ≡ moved_by cells length }
{
    if length < 0 {
        return u64::from(cells).saturating_sub((length.unsigned_abs() - 1) / 1000 + 1);
    }
    u64::from(cells) + length.unsigned_abs() / 1000
}

// The margins at the left and the right.
fn margins(paragraph: &Paragraph, width: u32) -> (u32, u32)
    requires { width ≤ 500 }
    ensures left { result.0 ≡ left_margin paragraph.now width }
    ensures right { result.1 ≡ right_margin paragraph.now width }
{
    let left = whole_cells(paragraph.left);
    let right = whole_cells(paragraph.right);
    if left.saturating_add(right).saturating_add(10) <= u64::from(width) {
        (left as u32, right as u32)
    } else {
        (0, 0)
    }
}

// Where lines are, by the text of `par-mode`.
fn side_of(mode: &[u8]) -> Side
    ensures { result ≡ side_of mode.now }
{
    if mode == b"center".as_slice() {
        Side::Center
    } else if mode == b"right".as_slice() {
        Side::Right
    } else if mode == b"justify".as_slice() {
        Side::Justify
    } else {
        Side::Left
    }
}

/// The measures of a paragraph's lines on a page of this width, from 20 to 500 cells. Margins below 0 count as 0, and
/// both margins count as 0 where they leave less than 10 cells. The first line's indent is that of the others and
/// `par-first`, cut so that it isn't below 0 and leaves 10 cells. Every mode but `center`, `right` and `justify` is at
/// the left.
pub fn line_frame(paragraph: &Paragraph, width: u32) -> Frame
    requires least { 20 ≤ width }
    requires most { width ≤ 500 }
    ensures measures { result ≡ line_frame paragraph.now width }
    ensures widths { IsFrame result }
{
    let (left, right) = margins(paragraph, width);
    let first = moved_by(left, paragraph.first).min(u64::from(width - right - 10)) as u32;
    Frame {
        first_indent: first,
        later_indent: left,
        first_width: width - first - right,
        later_width: width - left - right,
        side: side_of(paragraph.mode.bytes()),
    }
}
