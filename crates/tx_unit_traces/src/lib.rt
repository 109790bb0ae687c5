//! Units evaluated in order: the moment before each, the trace of each, and how traces go with their units through an
//! edit.
#![tactic(auto)]

mod cached_unit;
mod carrying;
mod laws;
mod moments;
mod unit_trace;

pub use cached_unit::{CachedUnit, without_traces};
pub use carrying::{carry_units, keep_units};
pub use laws::{carried_units_law, unit_list_laws};
pub use moments::Moment;
pub use unit_trace::{UnitTrace, over_value};
