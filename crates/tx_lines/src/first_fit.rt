// Pieces, and the lines that they fill.
ghost use Rattle.std.specs.Prelude.{◌≡◌, ℕ, ◌+◌, ◌^◌, ◌<◌, ◌≤◌, min, List, length, All, IfOk, slice_range};
ghost use Rattle.std.specs.List.{flat_map};
ghost use Rattle.tx_lines.specs.declared.cut.Cut.{Cut};
ghost use Rattle.tx_lines.specs.declared.first_fit.Piece.{Piece};
ghost use Rattle.tx_lines.specs.FirstFit.{IsWidth, line_cells, IsFirstFit};

use crate::cut::Cut;
use std::alloc::Global;
use tx_base::Memory;

/// What is on a line undivided, as a word or a part of one.
#[derive(Clone, Copy, Debug, PartialEq, Eq)]
pub struct Piece {
    /// The spaces that part it from the piece before it, where both are on one line: a cell each.
    pub before: u32,
    /// Its own cells.
    pub cells: u32,
}

/// The lines of the pieces, first-fit: a piece is on the line of the piece before it where it and the spaces between
/// the two still fit. Else it begins the next line, and its spaces are on no line. The first line alone has the width
/// `first`. Each cut is the places of one line's pieces, and no piece gives no line.
///
/// There are fewer than 2^32 pieces, none wider than the narrower width, and both widths are 10 to 500 cells. The one
/// error is `Memory`.
pub fn fill(alloc: Global, pieces: &[Piece], first: u32, later: u32) -> Result<Vec<Cut>, Memory>
    requires few_pieces { length pieces.now < 2 ^ 32 }
    requires first_width { IsWidth first }
    requires later_width { IsWidth later }
    requires narrow_pieces { All (λ piece. piece.cells ≤ min first later) pieces.now }
    ensures first_fit { IfOk result (λ lines. IsFirstFit pieces.now first later lines.items) }
{
    let mut lines = Vec::new(alloc);
    let mut width = first;
    let mut from = 0;
    while from < pieces.len() {
        let to = line_end(pieces, from, width);
        lines.push(Cut {
            from: from as u32,
            to: to as u32,
        })?;
        from = to;
        width = later;
    }
    Ok(lines)
}

/// Where the line of this width ends that begins with the piece at `from`.
fn line_end(pieces: &[Piece], from: usize, width: u32) -> usize
    requires there { from < length pieces.now }
    requires narrow { line_cells pieces.now from (from + 1) ≤ width }
    ensures some { from < result }
    ensures within { result ≤ length pieces.now }
    ensures fits { line_cells pieces.now from result ≤ width }
    ensures full { result < length pieces.now → width < line_cells pieces.now from (result + 1) }
{
    let mut used = u64::from(pieces[from].cells);
    for end in from + 1..pieces.len() {
        let piece = &pieces[end];
        used += u64::from(piece.before) + u64::from(piece.cells);
        if used > u64::from(width) {
            return end;
        }
    }
    pieces.len()
}

/// A law: for given pieces and widths at most one list of lines is first-fit. That there is one is [`some_filling`].
pub fn one_filling()
    ensures { (pieces : List Piece) (first later : ℕ) (lines others : List Cut) →
        IsFirstFit pieces first later lines → IsFirstFit pieces first later others → lines ≡ others }
{}

/// A law: where no piece is wider than the narrower width, some lines are first-fit, however much memory there is.
pub fn some_filling()
    ensures { (pieces : List Piece) (first later : ℕ) → All (λ piece. piece.cells ≤ min first later) pieces →
        (lines : List Cut) × IsFirstFit pieces first later lines }
{}

/// A law: what is on lines that are first-fit is, line after line, the pieces themselves.
pub fn nothing_lost()
    ensures { (pieces : List Piece) (first later : ℕ) (lines : List Cut) →
        IsFirstFit pieces first later lines →
        flat_map (λ line. slice_range pieces line.from line.to) lines ≡ pieces }
{}
