// The grid of a `tabular`.
ghost use Rattle.std.specs.Prelude.{◌≡◌, IfOk};
ghost use Rattle.tx_table.specs.Grids.{grid_with, table_grid, format_grid, grid_of};

use crate::cells::{column_count, only_part, parts_if, table_rows};
use crate::rows::{CellRows, SideRows};
use crate::settings::settings_in;
use crate::sides::sides_of;
use std::alloc::Global;
use tx_base::Memory;
use tx_origin::Value;

/// The cells of a table, and the side of each.
#[derive(Drop)]
pub struct Grid {
    /// The values of the cells, row by row; a row may have fewer than another.
    pub rows: CellRows,
    /// A side for each given cell.
    pub sides: SideRows,
}

// The grid of these rows, in which these values set sides.
fn grid_with(alloc: Global, values: &[Value], rows: CellRows) -> Result<Grid, Memory>
    ensures { IfOk result (λ g. g ≡ grid_with values.now rows) }
{
    let settings = settings_in(alloc, rows.all().len(), column_count(rows.all()), values)?;
    let sides = sides_of(alloc, &settings, rows.all())?;
    Ok(Grid { rows, sides })
}

// The grid of a `table`, in which these values set sides.
fn table_grid(alloc: Global, values: &[Value], table: &Value) -> Result<Option<Grid>, Memory>
    ensures { IfOk result (λ g. g ≡ table_grid values.now table.now) }
{
    let Some(rows) = table_rows(alloc, table)? else {
        return Ok(None);
    };
    let grid = grid_with(alloc, values, rows)?;
    Ok(Some(grid))
}

// The grid of the child of a `tabular`.
fn format_grid(alloc: Global, value: &Value) -> Result<Option<Grid>, Memory>
    ensures { IfOk result (λ g. g ≡ format_grid value.now) }
{
    let Some(parts) = parts_if(value, b"tformat".as_slice()) else {
        return table_grid(alloc, &[], value);
    };
    let Some(table) = parts.last() else {
        return Ok(None);
    };
    table_grid(alloc, &parts[..parts.len() - 1], table)
}

/// The grid of a `tabular`, or None where the value isn't a `tabular` of the asked form.
pub fn grid_of(alloc: Global, value: &Value) -> Result<Option<Grid>, Memory>
    ensures { IfOk result (λ g. g ≡ grid_of value.now) }
{
    let Some(child) = only_part(value, b"tabular".as_slice()) else {
        return Ok(None);
    };
    format_grid(alloc, child)
}
