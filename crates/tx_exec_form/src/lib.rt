//! Evaluation of trees: its definition, and its laws.
//!
//! `evaluated` of `specs/Evaluated.antt` is what a tree evaluates to in an environment. `specs/Rows.antt` is its table.
#![tactic(auto)]

mod laws;
mod rows;

pub use laws::{frame_laws, label_law, limit_laws, origin_law, run_laws, size_law, trace_laws};
pub use rows::{Row, Taking, Unary, row_for};

/// How many levels an evaluation has.
pub const MOST_LEVELS: u32 = 400;

/// How many turns a `while` has at most.
pub const MOST_TURNS: u32 = 65_535;
