//! How many lines, items and errors a view has.
#![tactic(auto)]

mod laws;

pub use laws::line_count_law;
