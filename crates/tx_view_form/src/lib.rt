//! What a document shows, from nothing: its units with their outcomes, their lines, the pages, errors, and places.
//!
//! `IsView` of `specs/Views.antt` is the view of buffers on pages of some width and height. It speaks of the present
//! buffers alone.
#![tactic(auto)]

mod laws;
mod tables;

pub use laws::{limit_laws, one_view, place_law, short_law, weight_laws};
pub use tables::{cell_law, table_place_law};

/// How many steps the evaluation of one unit may take.
pub const MOST_UNIT_STEPS: u64 = 1_000_000;

/// How many steps the evaluations of all units may take together.
pub const MOST_VIEW_STEPS: u64 = 16_000_000;
