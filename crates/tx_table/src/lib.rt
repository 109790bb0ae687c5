//! Tables: the cells of a `tabular` row by row, the side of each, and the widths and pads that follow from them.
//!
//! [`grid_of`] reads a value, and [`plan_of`] computes columns from the natural widths of cells. What a cell shows is
//! not known here.
#![tactic(auto)]

mod cells;
mod grids;
mod plans;
mod rows;
mod settings;
mod sides;

pub use grids::{Grid, grid_of};
pub use plans::{Plan, plan_of};
pub use rows::{CellRow, CellRows, SideRow, SideRows, WidthRow, WidthRows};
pub use settings::Side;
