// The cells of a `table`, row by row.
ghost use Rattle.std.specs.Prelude.{◌≡◌, IfOk, MatchOption, None, Some, codes};
ghost use Rattle.tx_table.specs.Settings.{parts_if};
ghost use Rattle.tx_table.specs.Grids.{one_of, some_of, only_part, some_parts, row_cells, table_rows, column_count};

use crate::rows::{CellRow, CellRows};
use std::alloc::Global;
use tx_base::Memory;
use tx_origin::Value;

// The parts of a node with this label, or None for any other value.
pub(crate) fn parts_if<'a>(value: &'a Value, label: &[u8]) -> Option<&'a [Value]>
    ensures { MatchOption result (parts_if label.now value.now ≡ None)
        (λ ps. parts_if label.now value.now ≡ Some ps.now) }
{
    let own = value.label()?;
    if own.bytes() == label {
        Some(value.parts())
    } else {
        None
    }
}

// The one of these values.
fn one_of(values: &[Value]) -> Option<&Value>
    ensures { MatchOption result (one_of values.now ≡ None) (λ v. one_of values.now ≡ Some v.now) }
{
    if values.len() == 1 {
        Some(&values[0])
    } else {
        None
    }
}

// The values, if there is one.
fn some_of(values: &[Value]) -> Option<&[Value]>
    ensures { MatchOption result (some_of values.now ≡ None) (λ vs. some_of values.now ≡ Some vs.now) }
{
    if values.is_empty() {
        None
    } else {
        Some(values)
    }
}

// The one part of a node with this label.
pub(crate) fn only_part<'a>(value: &'a Value, label: &[u8]) -> Option<&'a Value>
    ensures { MatchOption result (only_part label.now value.now ≡ None)
        (λ v. only_part label.now value.now ≡ Some v.now) }
{
    let parts = parts_if(value, label)?;
    one_of(parts)
}

// The parts of a node with this label that has one or more.
fn some_parts<'a>(value: &'a Value, label: &[u8]) -> Option<&'a [Value]>
    ensures { MatchOption result (some_parts label.now value.now ≡ None)
        (λ vs. some_parts label.now value.now ≡ Some vs.now) }
{
    let parts = parts_if(value, label)?;
    some_of(parts)
}

// The cells of a `row`.
fn row_cells(alloc: Global, value: &Value) -> Result<Option<CellRow>, Memory>
    ensures { IfOk result (λ r. r ≡ row_cells value.now) }
{
    let Some(parts) = some_parts(value, b"row".as_slice()) else {
        return Ok(None);
    };
    let mut cells = Vec::with_capacity(alloc, parts.len())?;
    for part in parts {
        let Some(cell) = only_part(part, b"cell".as_slice()) else {
            return Ok(None);
        };
        cells.push(cell.share()?)?;
    }
    Ok(Some(CellRow::new(cells)))
}

// The rows of a `table`.
pub(crate) fn table_rows(alloc: Global, value: &Value) -> Result<Option<CellRows>, Memory>
    ensures { IfOk result (λ r. r ≡ table_rows value.now) }
{
    let Some(parts) = some_parts(value, b"table".as_slice()) else {
        return Ok(None);
    };
    let mut rows = Vec::with_capacity(alloc, parts.len())?;
    for part in parts {
        let Some(row) = row_cells(alloc, part)? else {
            return Ok(None);
        };
        rows.push(row)?;
    }
    Ok(Some(CellRows::new(rows)))
}

// The greatest number of cells of a row.
pub(crate) fn column_count(rows: &[CellRow]) -> usize
    ensures { result ≡ column_count rows.now }
{
    let mut most = 0;
    for row in rows {
        most = most.max(row.all().len());
    }
    most
}
