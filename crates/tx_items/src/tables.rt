// The rows of a table: what its cells show, and the items of a row.
ghost use Rattle.std.specs.Prelude.{◌≡◌, ◌+◌, ◌≤◌, ◌++◌, ◌∷◌, [], length, map, IfOk, OnOk};
ghost use Rattle.tx_items.specs.Cells.{cells_across};
ghost use Rattle.tx_items.specs.Tables.{missing_gap, gap_before, row_widths};
ghost use Rattle.tx_items.specs.Running.{padded_from, gaps_and_columns};
ghost use Rattle.tx_items.specs.declared.drawing.Item.TheVariants.{Gap};

use crate::attributes::Attrs;
use crate::cells::item_cells;
use crate::drawing::Item;
use std::alloc::Global;
use std::marker::Model;
use tx_base::Memory;
use tx_table::WidthRow;

// The free cells between two cells.
const BETWEEN: u32 = 2;

// What a cell shows.
#[derive(Drop)]
pub(crate) struct CellItems {
    all: Vec<Item>,
}

impl Model for CellItems {
    ghost use Rattle.std.specs.Prelude.{List};
    ghost use Rattle.tx_items.specs.declared.drawing.Item.{Item};

    ghost Value = { List Item };

    ghost view = { λ c. c.all.items };
}

impl CellItems {
    // These items.
    pub(crate) fn new(all: Vec<Item>) -> CellItems
        ensures { result ≡ all.items }
    {
        CellItems { all }
    }

    // Moves them after others.
    fn move_to(self, items: &mut Vec<Item>) -> Result<(), Memory>
        ensures { OnOk result (items.new.items ≡ items.old.items ++ self) }
    {
        let CellItems { mut all } = self;
        items.append(&mut all)?;
        Ok(())
    }
}

// What the cells of a row show.
#[derive(Drop)]
pub(crate) struct RowCells {
    all: Vec<CellItems>,
}

impl Model for RowCells {
    ghost use Rattle.std.specs.Prelude.{List};
    ghost use Rattle.tx_items.specs.declared.drawing.Item.{Item};

    ghost Value = { List (List Item) };

    ghost view = { λ r. r.all.items };
}

impl RowCells {
    // These cells.
    pub(crate) fn new(all: Vec<CellItems>) -> RowCells
        ensures { result ≡ all.items }
    {
        RowCells { all }
    }

    // Their natural widths.
    fn widths(&self, alloc: Global) -> Result<WidthRow, Memory>
        ensures { IfOk result (λ w. w ≡ map cells_across self.now) }
    {
        let mut widths = Vec::with_capacity(alloc, self.all.len())?;
        for cell in &self.all {
            widths.push(width_of(&cell.all)?)?;
        }
        Ok(WidthRow::new(widths))
    }

    // The row with these pads, in columns of these widths.
    pub(crate) fn padded(
        self,
        alloc: Global,
        columns: &[u32],
        left: &[u32],
        right: &[u32],
    ) -> Result<Vec<Item>, Memory>
        requires columns { length self ≤ length columns.now }
        requires left { length left.now ≡ length self }
        requires right { length right.now ≡ length self }
        ensures { IfOk result (λ items. items.items ≡ padded_from 0 columns.now left.now right.now self) }
    {
        let RowCells { all } = self;
        let mut items = Vec::new(alloc);
        let mut at = 0;
        for cell in all {
            add_between(&mut items, at)?;
            items.push(Item::Gap(left[at]))?;
            cell.move_to(&mut items)?;
            items.push(Item::Gap(right[at]))?;
            at += 1;
        }
        add_missing(&mut items, &columns[at..])?;
        Ok(items)
    }
}

// The attributes before a row, and what its cells show.
pub(crate) type TableRow = (Attrs, RowCells);

// The cells that items take. No value within the limits has 2^32.
fn width_of(items: &[Item]) -> Result<u32, Memory>
    ensures { IfOk result (λ n. n ≡ cells_across items.now) }
{
    let mut cells: u32 = 0;
    for item in items {
        let Some(more) = cells.checked_add(item_cells(item)) else {
            return Err(Memory);
        };
        cells = more;
    }
    Ok(cells)
}

// The natural widths of rows of cells.
pub(crate) fn widths_of(alloc: Global, rows: &[TableRow]) -> Result<Vec<WidthRow>, Memory>
    ensures { IfOk result (λ w. w.items ≡ row_widths rows.now) }
{
    let mut widths = Vec::with_capacity(alloc, rows.len())?;
    for row in rows {
        widths.push(row.1.widths(alloc)?)?;
    }
    Ok(widths)
}

// Adds the gap before a cell that isn't the first.
fn add_between(items: &mut Vec<Item>, at: usize) -> Result<(), Memory>
    ensures { OnOk result (items.new.items ≡ items.old.items ++ gap_before at) }
{
    if at == 0 {
        return Ok(());
    }
    items.push(Item::Gap(BETWEEN))?;
    Ok(())
}

// The cells of columns, with the gap before each of them.
#[tactic(auto, using(crate::proofs::RowsShown::columns, std::proofs::lemmas::Grind::common_steps))]
fn cells_of_columns(columns: &[u32]) -> Result<u32, Memory>
    ensures { IfOk result (λ n. n ≡ gaps_and_columns columns.now) }
{
    let mut cells: u32 = 0;
    for column in columns {
        let Some(wider) = cells.checked_add(*column) else {
            return Err(Memory);
        };
        let Some(more) = wider.checked_add(BETWEEN) else {
            return Err(Memory);
        };
        cells = more;
    }
    Ok(cells)
}

// Adds one gap for the columns that a row lacks.
#[tactic(auto, using(crate::proofs::RowsShown::columns, std::proofs::lemmas::Grind::common_steps))]
fn add_missing(items: &mut Vec<Item>, columns: &[u32]) -> Result<(), Memory>
    ensures { OnOk result (items.new.items ≡ items.old.items ++ missing_gap columns.now) }
{
    if columns.is_empty() {
        return Ok(());
    }
    items.push(Item::Gap(cells_of_columns(columns)?))?;
    Ok(())
}
