// The sides of cells, row by row.
ghost use Rattle.std.specs.Prelude.{◌≡◌, ◌+◌, ◌<◌, drop, length, IfOk};
ghost use Rattle.tx_table.specs.Settings.{row_sides, sides_of};
ghost use Rattle.tx_table.specs.Painting.{last_set, Painted};

use crate::rows::{CellRow, SideRow, SideRows};
use crate::settings::{Setting, Side};
use std::alloc::Global;
use tx_base::Memory;

// Sets the side of the cells of a row that setting i gives one, but for those that a later setting gave one.
fn paint(sides: &mut [Side], next: &mut [usize], settings: &[Setting], i: usize, row: usize)
    requires there { i < length settings.now }
    requires later { Painted (last_set (drop (i + 1) settings.now) row) sides.old next.old }
    ensures { Painted (last_set (drop i settings.now) row) sides.new next.new }
{
    let setting = settings[i];
    if row < setting.top || setting.bottom < row {
        return;
    }
    let mut at = setting.first;
    while at <= setting.last && at < sides.len() {
        let after = next[at];
        if after == at {
            sides[at] = setting.side;
            next[at] = at + 1;
            at += 1;
        } else {
            if after < sides.len() {
                next[at] = next[after];
            }
            at = after;
        }
    }
}

// The sides of a row of so many cells. It takes a step for each setting, and `paint` passes by what is set.
#[tactic(auto, using(crate::proofs::Coloring::range_push, std::proofs::lemmas::Grind::common_steps))]
fn row_sides(
    alloc: Global,
    settings: &[Setting],
    row: usize,
    count: usize,
) -> Result<SideRow, Memory>
    ensures { IfOk result (λ s. s ≡ row_sides settings.now row count) }
{
    let mut sides = Vec::with_capacity(alloc, count)?;
    let mut next = Vec::with_capacity(alloc, count)?;
    for column in 0..count {
        sides.push(Side::Left)?;
        next.push(column)?;
    }
    let mut left = settings.len();
    while left > 0 {
        left -= 1;
        paint(&mut sides, &mut next, settings, left, row);
    }
    Ok(SideRow::new(sides))
}

// A side for each cell.
pub(crate) fn sides_of(
    alloc: Global,
    settings: &[Setting],
    rows: &[CellRow],
) -> Result<SideRows, Memory>
    ensures { IfOk result (λ s. s ≡ sides_of settings.now rows.now) }
{
    let mut sides = Vec::with_capacity(alloc, rows.len())?;
    for (i, row) in rows.iter().enumerate() {
        sides.push(row_sides(alloc, settings, i, row.all().len())?)?;
    }
    Ok(SideRows::new(sides))
}
