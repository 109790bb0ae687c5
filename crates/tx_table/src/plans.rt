// The columns of a table, and the pads of its cells.
ghost use Rattle.std.specs.Prelude.{◌≡◌, ◌≤◌, IfOk, OnOk};
ghost use Rattle.tx_table.specs.Columns.{wider, column_widths, left_pad, right_pad, row_pads, all_pads, plan_of};

use crate::rows::{SideRow, WidthRow, WidthRows};
use crate::settings::Side;
use std::alloc::Global;
use tx_base::Memory;

/// The widths of the columns of a table, and the pads of its given cells.
#[derive(Drop)]
pub struct Plan {
    /// The width of each column.
    pub columns: WidthRow,
    /// The free cells before each cell.
    pub left: WidthRows,
    /// The free cells after each cell.
    pub right: WidthRows,
}

// The free cells before the contents of a cell at this side, of so many.
fn left_pad(side: Side, free: u32) -> u32
    ensures value { result ≡ left_pad side free }
    ensures within { result ≤ free }
{
    match side {
        Side::Left => 0,
        Side::Center => free / 2,
        Side::Right => free,
    }
}

// Makes each column as wide as the cell of this row in it.
#[tactic(auto)]
fn widen(columns: &mut Vec<u32>, row: &[u32]) -> Result<(), Memory>
    ensures { OnOk result (columns.new.items ≡ wider columns.old.items row.now) }
{
    for (i, width) in row.iter().enumerate() {
        if i < columns.len() {
            columns[i] = columns[i].max(*width);
        } else {
            columns.push(*width)?;
        }
    }
    Ok(())
}

// The width of each column.
#[tactic(auto, using(crate::proofs::Widening::widths_more, crate::proofs::Widening::widths_end, std::proofs::lemmas::Grind::common_steps))]
fn column_widths(alloc: Global, rows: &[WidthRow]) -> Result<Vec<u32>, Memory>
    ensures { IfOk result (λ v. v.items ≡ column_widths rows.now) }
{
    let mut columns = Vec::new(alloc);
    for row in rows {
        widen(&mut columns, row.all())?;
    }
    Ok(columns)
}

// The pads before and after the cells of a row.
fn row_pads(
    alloc: Global,
    columns: &[u32],
    sides: &[Side],
    widths: &[u32],
) -> Result<(WidthRow, WidthRow), Memory>
    ensures left { IfOk result (λ p. p.0 ≡ row_pads left_pad columns.now sides.now widths.now) }
    ensures right { IfOk result (λ p. p.1 ≡ row_pads right_pad columns.now sides.now widths.now) }
{
    let mut left = Vec::new(alloc);
    let mut right = Vec::new(alloc);
    for i in 0..columns.len().min(sides.len()).min(widths.len()) {
        let free = columns[i].saturating_sub(widths[i]);
        let before = left_pad(sides[i], free);
        left.push(before)?;
        right.push(free - before)?;
    }
    Ok((WidthRow::new(left), WidthRow::new(right)))
}

// The pads before and after the cells of all rows.
fn all_pads(
    alloc: Global,
    columns: &[u32],
    sides: &[SideRow],
    widths: &[WidthRow],
) -> Result<(WidthRows, WidthRows), Memory>
    ensures left { IfOk result (λ p. p.0 ≡ all_pads left_pad columns.now sides.now widths.now) }
    ensures right { IfOk result (λ p. p.1 ≡ all_pads right_pad columns.now sides.now widths.now) }
{
    let mut left = Vec::new(alloc);
    let mut right = Vec::new(alloc);
    for i in 0..sides.len().min(widths.len()) {
        let (before, after) = row_pads(alloc, columns, sides[i].all(), widths[i].all())?;
        left.push(before)?;
        right.push(after)?;
    }
    Ok((WidthRows::new(left), WidthRows::new(right)))
}

/// The columns of cells with these natural widths, row by row, and the pads of the cells at these sides.
pub fn plan_of(alloc: Global, widths: &[WidthRow], sides: &[SideRow]) -> Result<Plan, Memory>
    ensures { IfOk result (λ p. p ≡ plan_of widths.now sides.now) }
{
    let columns = column_widths(alloc, widths)?;
    let (left, right) = all_pads(alloc, &columns, sides, widths)?;
    Ok(Plan {
        columns: WidthRow::new(columns),
        left,
        right,
    })
}
