// Pieces, and the lines that they fill.
ghost use Rattle.std.specs.Prelude.{◌<◌};

use std::alloc::Global;
use std::test::Fail;
use tx_base::Memory;
use tx_lines::{Cut, Piece, fill};

/// Pieces as spaces and cells, the two widths, and the lines that they fill.
type Row = (&'static [(u32, u32)], u32, u32, &'static [(u32, u32)]);

const ROWS: &[Row] = &[
    (&[], 20, 20, &[]),
    (&[(7, 20)], 20, 20, &[(0, 1)]),
    // "the quick brown fox jumps over the lazy dog"
    (
        &[
            (0, 3),
            (1, 5),
            (1, 5),
            (1, 3),
            (1, 5),
            (1, 4),
            (1, 3),
            (1, 4),
            (1, 3),
        ],
        20,
        20,
        &[(0, 4), (4, 8), (8, 9)],
    ),
    // a word of 45 letters, cut for this width
    (
        &[(0, 20), (0, 20), (0, 5)],
        20,
        20,
        &[(0, 1), (1, 2), (2, 3)],
    ),
    (
        &[(0, 6), (1, 3), (1, 1), (1, 9), (1, 9), (1, 1)],
        10,
        20,
        &[(0, 2), (2, 4), (4, 6)],
    ),
    (
        &[(0, 10), (1, 9), (3, 10), (0, 1)],
        20,
        10,
        &[(0, 2), (2, 3), (3, 4)],
    ),
    (
        &[(u32::MAX, 1), (u32::MAX, 1), (0, 1)],
        10,
        10,
        &[(0, 1), (1, 3)],
    ),
];

fn pieces_of(alloc: Global, given: &[(u32, u32)]) -> Result<Vec<Piece>, Memory> {
    let mut pieces = Vec::new(alloc);
    for one in given {
        pieces.push(Piece {
            before: one.0,
            cells: one.1,
        })?;
    }
    Ok(pieces)
}

/// The cells that pieces take side by side.
fn cells_beside(pieces: &[Piece]) -> u64 {
    let mut cells: u64 = 0;
    for (i, piece) in pieces.iter().enumerate() {
        let spaces = if i == 0 { 0 } else { piece.before };
        cells = cells
            .saturating_add(u64::from(spaces))
            .saturating_add(u64::from(piece.cells));
    }
    cells
}

/// Whether the lines follow the rule, found line by line from the whole list of pieces.
fn are_first_fit(pieces: &[Piece], first: u32, later: u32, lines: &[Cut]) -> bool {
    let mut end = 0;
    for (i, line) in lines.iter().enumerate() {
        let (from, to) = (line.from as usize, line.to as usize);
        if from != end || to <= from || to > pieces.len() {
            return false;
        }
        let width = u64::from(if i == 0 { first } else { later });
        let is_full = to == pieces.len() || cells_beside(&pieces[from..to + 1]) > width;
        if cells_beside(&pieces[from..to]) > width || !is_full {
            return false;
        }
        end = to;
    }
    end == pieces.len()
}

fn are_wanted(lines: &[Cut], want: &[(u32, u32)]) -> bool {
    for (i, line) in lines.iter().enumerate() {
        if want.get(i) != Some(&(line.from, line.to)) {
            return false;
        }
    }
    lines.len() == want.len()
}

fn is_filled(alloc: Global, row: &Row) -> Result<bool, Memory> {
    let pieces = pieces_of(alloc, row.0)?;
    let (first, later) = (row.1, row.2);
    if pieces.len() >= 100 || first < 10 || first > 500 || later < 10 || later > 500 {
        return Ok(false);
    }
    if !pieces.iter().all(|piece| piece.cells <= first.min(later)) {
        return Ok(false);
    }
    let lines = fill(alloc, &pieces, first, later)?;
    Ok(are_wanted(&lines, row.3) && are_first_fit(&pieces, first, later, &lines))
}

fn first_misfilled(alloc: Global, rows: &[Row]) -> Result<Option<usize>, Memory> {
    for (i, row) in rows.iter().enumerate() {
        if !is_filled(alloc, row)? {
            return Ok(Some(i));
        }
    }
    Ok(None)
}

#[test]
fn lines_are_filled(rt: HostRuntime) -> Result<(), Fail> {
    assert_eq!(rt; first_misfilled(rt.alloc(), ROWS)?, None);
    Ok(())
}
