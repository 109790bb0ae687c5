// Rows and errors by their numbers: the unit that holds each.
ghost use Rattle.std.specs.Prelude.{◌≡◌, ◌≤◌, ◌<◌, ◌^◌, ℕ, List, All, length, slice_index, IfOk};
ghost use Rattle.tx_view_form.specs.Views.{lines_of};
ghost use Rattle.tx_view_form.specs.Errors.{errors_of};
ghost use Rattle.tx_view.specs.Units.{unit_views, sums_from, row_counts, error_counts, place_among};
ghost use Rattle.tx_view.specs.Units.{IsBelow};
ghost use Rattle.tx_unit_layout.specs.Views.{unit_view};
ghost use Rattle.tx_view.specs.Rows.{IsRowOfUnit, IsError};

use std::alloc::Global;
use tx_base::Memory;
use tx_unit_layout::Shown;

/// How many rows come before each unit, and how many there are.
pub(crate) fn first_rows(alloc: Global, units: &[Shown]) -> Result<Vec<u32>, Memory>
    requires few { length (lines_of (unit_views units.now)) < 2 ^ 32 }
    requires below { All IsBelow units.now }
    ensures { IfOk result (λ firsts. firsts.items ≡ sums_from 0 (row_counts (unit_views units.now))) }
{
    let mut firsts = Vec::with_capacity(alloc, units.len() + 1)?;
    let mut count = 0u32;
    for unit in units {
        firsts.push(count)?;
        count += unit.line_count() as u32;
    }
    firsts.push(count)?;
    Ok(firsts)
}

/// How many errors come before those of each unit, and how many there are.
pub(crate) fn first_errors(alloc: Global, units: &[Shown]) -> Result<Vec<u32>, Memory>
    requires { length (errors_of (unit_views units.now)) < 2 ^ 32 }
    ensures { IfOk result (λ firsts. firsts.items ≡ sums_from 0 (error_counts (unit_views units.now))) }
{
    let mut firsts = Vec::with_capacity(alloc, units.len() + 1)?;
    let mut count = 0u32;
    for unit in units {
        firsts.push(count)?;
        count += unit.errors.len() as u32;
    }
    firsts.push(count)?;
    Ok(firsts)
}

/// How many rows there are.
pub(crate) fn row_count(firsts: &[u32], units: &[Shown]) -> u32
    requires { firsts.now ≡ sums_from 0 (row_counts (unit_views units.now)) }
    ensures { result ≡ length (lines_of (unit_views units.now)) }
{
    firsts[firsts.len() - 1]
}

/// How many errors there are.
pub(crate) fn error_count(firsts: &[u32], units: &[Shown]) -> u32
    requires { firsts.now ≡ sums_from 0 (error_counts (unit_views units.now)) }
    ensures { result ≡ length (errors_of (unit_views units.now)) }
{
    firsts[firsts.len() - 1]
}

// The unit that holds the thing of this number, by how many come before each unit, and its number there.
fn unit_of(firsts: &[u32], number: u32) -> Option<(usize, usize)>
    requires some { 1 ≤ length firsts.now }
    requires first { slice_index firsts.now 0 ≡ 0 }
    ensures { (counts : List ℕ) → firsts.now ≡ sums_from 0 counts → result ≡ place_among counts number }
{
    let last = firsts.len() - 1;
    if number >= firsts[last] {
        return None;
    }
    let mut low = 0;
    let mut high = last;
    while high - low > 1 {
        let middle = low + (high - low) / 2;
        if firsts[middle] <= number {
            low = middle;
        } else {
            high = middle;
        }
    }
    Some((low, (number - firsts[low]) as usize))
}

/// The number of the unit that holds a row, and the number of the row there.
pub(crate) fn row_in(firsts: &[u32], units: &[Shown], row: u32) -> Option<(usize, usize)>
    requires { firsts.now ≡ sums_from 0 (row_counts (unit_views units.now)) }
    ensures { IsRowOfUnit units.now row result }
{
    unit_of(firsts, row)
}

/// The number of the unit that holds an error, and the number of the error there.
pub(crate) fn error_in(firsts: &[u32], units: &[Shown], number: u32) -> Option<(usize, usize)>
    requires { firsts.now ≡ sums_from 0 (error_counts (unit_views units.now)) }
    ensures { IsError units.now number result }
{
    unit_of(firsts, number)
}
