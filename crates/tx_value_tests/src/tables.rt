// The sides of the cells of tables, and the widths and pads of their columns.
use std::alloc::Global;
use std::marker::Brand;
use std::sync::ledger::{Blank, Ledger};
use tx_base::Steps;
use tx_origin::Value;
use tx_samples::{Row, first_untrue, tree_of};
use tx_table::{Side, SideRow, WidthRow, grid_of, plan_of};

// A value, and a letter for the side of each of its cells, with `/` between rows. `-` is no grid.
struct GridRow(&'static str, &'static str);

const GRIDS: &[GridRow] = &[
    GridRow("(tabular (table (row (cell \"a\"))))", "l"),
    GridRow(
        "(tabular (tformat (cwith \"1\" \"-1\" \"2\" \"2\" \"cell-halign\" \"r\") (table (row (cell \"a\") \
         (cell \"12\")) (row (cell \"bcd\") (cell \"7\")))))",
        "lr/lr",
    ),
    // later ones count
    GridRow(
        "(tabular (tformat (cwith \"1\" \"1\" \"1\" \"3\" \"cell-halign\" \"c\") (cwith \"1\" \"1\" \"2\" \"-1\" \
         \"cell-halign\" \"r\") (cwith \"1\" \"1\" \"1\" \"2\" \"cell-halign\" \"l\") (table (row (cell \"a\") \
         (cell \"b\") (cell \"c\") (cell \"d\")))))",
        "llrr",
    ),
    GridRow(
        "(tabular (tformat (cwith \"1\" \"3\" \"1\" \"1\" \"cell-halign\" \"r\") (cwith \"2\" \"2\" \"1\" \"1\" \
         \"cell-halign\" \"c\") (table (row (cell \"a\")) (row (cell \"b\")) (row (cell \"c\")))))",
        "r/c/r",
    ),
    // a column that a row lacks is there, and one that all rows lack isn't
    GridRow(
        "(tabular (tformat (cwith \"1\" \"-1\" \"2\" \"3\" \"cell-halign\" \"r\") (cwith \"1\" \"1\" \"1\" \"4\" \
         \"cell-halign\" \"c\") (table (row (cell \"a\")) (row (cell \"a\") (cell \"b\") (cell \"c\")))))",
        "l/lrr",
    ),
    // numbers that count, and others
    GridRow(
        "(tabular (tformat (cwith \"01\" \"-2\" \"1\" \"1\" \"cell-halign\" \"r\") (cwith \"0\" \"1\" \"1\" \"1\" \
         \"cell-halign\" \"c\") (cwith \"-0\" \"1\" \"1\" \"1\" \"cell-halign\" \"c\") (cwith \"-9\" \"1\" \"1\" \"1\" \
         \"cell-halign\" \"c\") (cwith \"2\" \"1\" \"1\" \"1\" \"cell-halign\" \"c\") (cwith \"1\" \"3\" \"1\" \"1\" \
         \"cell-halign\" \"c\") (table (row (cell \"a\")) (row (cell \"b\")))))",
        "r/l",
    ),
    // other children of a `tformat`
    GridRow(
        "(tabular (tformat \"x\" (cwith \"1\" \"1\" \"1\" \"1\" \"cell-halign\" \"x\") (cwith \"1\" \"1\" \"1\" \"1\" \
         \"cell-halign \" \"r\") (cwith \"1\" \"1\" \"1\" (g \"1\") \"cell-halign\" \"r\") (cwith \"1\" \"1\" \"1\" \
         \"cell-halign\" \"r\") (cwith \"1\" \"1\" \"1\" \"1\" \"cell-halign\" \"r\" \"\") (table (row (cell \"a\")))))",
        "l",
    ),
    // no tables
    GridRow("(tabular \"x\")", "-"),
    GridRow("(tabular)", "-"),
    GridRow("(tabular (tformat))", "-"),
    GridRow("(tabular (table))", "-"),
    GridRow("(tabular (table (row)))", "-"),
    GridRow("(tabular (table (row (cell))))", "-"),
    GridRow("(tabular (table (row (cell \"a\" \"b\"))))", "-"),
    GridRow("(tabular (table (row \"a\")))", "-"),
    GridRow("(tabular (table (row (cell \"a\")) (cell \"b\")))", "-"),
    GridRow("(tabular (tformat (table (row (cell \"a\"))) \"x\"))", "-"),
    GridRow("(tabular (table (row (cell \"a\"))) \"x\")", "-"),
    GridRow("(table (row (cell \"a\")))", "-"),
    GridRow("\"tabular\"", "-"),
];

// The letter of a side.
fn letter(side: Side) -> &'static str {
    match side {
        Side::Left => "l",
        Side::Center => "c",
        Side::Right => "r",
    }
}

// The letters of rows of sides.
fn told_sides(alloc: Global, rows: &[SideRow]) -> Option<String> {
    let mut told = String::new(alloc);
    for (i, row) in rows.iter().enumerate() {
        if i > 0 {
            told.push_str("/").ok()?;
        }
        for side in row.all() {
            told.push_str(letter(*side)).ok()?;
        }
    }
    Some(told)
}

impl Row for GridRow {
    fn holds<L: Ledger>(&self, alloc: Global, steps: &mut Steps<L>) -> Option<bool> {
        let tree = tree_of(alloc, self.0, steps)?;
        let value = Value::whole(alloc, &tree, &None).ok()?;
        let Some(grid) = grid_of(alloc, &value).ok()? else {
            return Some(self.1 == "-");
        };
        let told = told_sides(alloc, grid.sides.all())?;
        Some(told.as_str() == self.1 && grid.rows.all().len() == grid.sides.all().len())
    }
}

// The natural widths of cells, their sides, the columns, and the pads before and after each cell.
struct PlanRow {
    widths: &'static str,
    sides: &'static str,
    columns: &'static str,
    left: &'static str,
    right: &'static str,
}

const PLANS: &[PlanRow] = &[
    PlanRow {
        widths: "1 2/3 1",
        sides: "lr/lr",
        columns: "3 2",
        left: "0 0/0 1",
        right: "2 0/0 0",
    },
    PlanRow {
        widths: "1 1 1/4/1 5",
        sides: "ccc/c/cc",
        columns: "4 5 1",
        left: "1 2 0/0/1 0",
        right: "2 2 0/0/2 0",
    },
    PlanRow {
        widths: "0/7",
        sides: "r/c",
        columns: "7",
        left: "7/0",
        right: "0/0",
    },
];

// The rows of numbers that the text gives.
fn widths_of(alloc: Global, told: &str) -> Option<Vec<WidthRow>> {
    let mut rows = Vec::new(alloc);
    for part in told.split('/') {
        let mut row = Vec::new(alloc);
        for word in part.split(' ') {
            row.push(word.parse::<u32>().ok()?).ok()?;
        }
        rows.push(WidthRow::new(row)).ok()?;
    }
    Some(rows)
}

// The rows of sides that the text gives.
fn sides_of(alloc: Global, told: &str) -> Option<Vec<SideRow>> {
    let mut rows = Vec::new(alloc);
    for part in told.split('/') {
        let mut row = Vec::new(alloc);
        for byte in part.bytes() {
            let side = match byte {
                b'l' => Side::Left,
                b'c' => Side::Center,
                _ => Side::Right,
            };
            row.push(side).ok()?;
        }
        rows.push(SideRow::new(row)).ok()?;
    }
    Some(rows)
}

// Whether these rows of numbers are the ones that the text gives.
fn are_widths(alloc: Global, rows: &[WidthRow], told: &str) -> Option<bool> {
    let want = widths_of(alloc, told)?;
    if want.len() != rows.len() {
        return Some(false);
    }
    for (row, wanted) in rows.iter().zip(want.iter()) {
        if row.all() != wanted.all() {
            return Some(false);
        }
    }
    Some(true)
}

impl Row for PlanRow {
    fn holds<L: Ledger>(&self, alloc: Global, _steps: &mut Steps<L>) -> Option<bool> {
        let widths = widths_of(alloc, self.widths)?;
        let sides = sides_of(alloc, self.sides)?;
        let plan = plan_of(alloc, &widths, &sides).ok()?;
        let columns = widths_of(alloc, self.columns)?;
        Some(
            columns.len() == 1
                && plan.columns.all() == columns[0].all()
                && are_widths(alloc, plan.left.all(), self.left)?
                && are_widths(alloc, plan.right.all(), self.right)?,
        )
    }
}

#[test]
fn sides_of_cells(rt: HostRuntime) {
    let first = first_untrue::<Brand, _>(rt.alloc(), GRIDS, Blank::new(1));
    assert_eq!(rt; first, None);
}

#[test]
fn columns_and_pads(rt: HostRuntime) {
    let first = first_untrue::<Brand, _>(rt.alloc(), PLANS, Blank::new(1));
    assert_eq!(rt; first, None);
}
