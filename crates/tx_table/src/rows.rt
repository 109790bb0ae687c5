// Rows of cells, of their sides and of widths, each a list that is made from a `Vec`.
ghost use Rattle.std.specs.Prelude.{◌≡◌};

use crate::settings::Side;
use std::marker::Model;
use tx_origin::Value;

/// The values of the cells of a row. Contracts see the list.
#[derive(Drop)]
pub struct CellRow {
    all: Vec<Value>,
}

impl Model for CellRow {
    ghost use Rattle.std.specs.Prelude.{List};
    ghost use Rattle.std.specs.Coded.{coded_list};
    ghost use Rattle.tx_origin.specs.Values.{WideValue, coded_WideValue};

    ghost Value = { List WideValue };

    ghost coded = { coded_list coded_WideValue };

    ghost view = { λ r. r.all.items };
}

impl CellRow {
    /// These cells.
    pub fn new(all: Vec<Value>) -> CellRow
        ensures { result ≡ all.items }
    {
        CellRow { all }
    }

    /// The cells.
    pub fn all(&self) -> &[Value]
        ensures { result.now ≡ self.now }
    {
        &self.all
    }
}

/// Rows of cells. Contracts see a list of lists.
#[derive(Drop)]
pub struct CellRows {
    all: Vec<CellRow>,
}

impl Model for CellRows {
    ghost use Rattle.std.specs.Prelude.{List};
    ghost use Rattle.std.specs.Coded.{coded_list};
    ghost use Rattle.tx_origin.specs.Values.{WideValue, coded_WideValue};

    ghost Value = { List (List WideValue) };

    ghost coded = { coded_list (coded_list coded_WideValue) };

    ghost view = { λ r. r.all.items };
}

impl CellRows {
    /// These rows.
    pub fn new(all: Vec<CellRow>) -> CellRows
        ensures { result ≡ all.items }
    {
        CellRows { all }
    }

    /// The rows.
    pub fn all(&self) -> &[CellRow]
        ensures { result.now ≡ self.now }
    {
        &self.all
    }
}

/// The sides of the cells of a row. Contracts see the list.
#[derive(Drop)]
pub struct SideRow {
    all: Vec<Side>,
}

impl Model for SideRow {
    ghost use Rattle.std.specs.Prelude.{List};
    ghost use Rattle.tx_table.specs.declared.settings.Side.{Side};

    ghost Value = { List Side };

    ghost view = { λ r. r.all.items };
}

impl SideRow {
    /// These sides.
    pub fn new(all: Vec<Side>) -> SideRow
        ensures { result ≡ all.items }
    {
        SideRow { all }
    }

    /// The sides.
    pub fn all(&self) -> &[Side]
        ensures { result.now ≡ self.now }
    {
        &self.all
    }
}

/// The sides of cells row by row. Contracts see a list of lists.
#[derive(Drop)]
pub struct SideRows {
    all: Vec<SideRow>,
}

impl Model for SideRows {
    ghost use Rattle.std.specs.Prelude.{List};
    ghost use Rattle.tx_table.specs.declared.settings.Side.{Side};

    ghost Value = { List (List Side) };

    ghost view = { λ r. r.all.items };
}

impl SideRows {
    /// These rows.
    pub fn new(all: Vec<SideRow>) -> SideRows
        ensures { result ≡ all.items }
    {
        SideRows { all }
    }

    /// The rows.
    pub fn all(&self) -> &[SideRow]
        ensures { result.now ≡ self.now }
    {
        &self.all
    }
}

/// Numbers of cells, one for each column or each cell of a row. Contracts see the list.
#[derive(Drop)]
pub struct WidthRow {
    all: Vec<u32>,
}

impl Model for WidthRow {
    ghost use Rattle.std.specs.Prelude.{List, ℕ};

    ghost Value = { List ℕ };

    ghost view = { λ r. r.all.items };
}

impl WidthRow {
    /// These numbers.
    pub fn new(all: Vec<u32>) -> WidthRow
        ensures { result ≡ all.items }
    {
        WidthRow { all }
    }

    /// The numbers.
    pub fn all(&self) -> &[u32]
        ensures { result.now ≡ self.now }
    {
        &self.all
    }
}

/// Numbers of cells row by row. Contracts see a list of lists.
#[derive(Drop)]
pub struct WidthRows {
    all: Vec<WidthRow>,
}

impl Model for WidthRows {
    ghost use Rattle.std.specs.Prelude.{List, ℕ};

    ghost Value = { List (List ℕ) };

    ghost view = { λ r. r.all.items };
}

impl WidthRows {
    /// These rows.
    pub fn new(all: Vec<WidthRow>) -> WidthRows
        ensures { result ≡ all.items }
    {
        WidthRows { all }
    }

    /// The rows.
    pub fn all(&self) -> &[WidthRow]
        ensures { result.now ≡ self.now }
    {
        &self.all
    }
}
