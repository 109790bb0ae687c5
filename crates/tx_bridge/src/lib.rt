//! The cache of evaluations: of each unit the trace that it evaluated to last, which is used again where it still fits.
//!
//! After [`Bridges::refresh`] the outcomes are those of evaluating all units from nothing. Contracts of the crates
//! above cite the names of `specs/Names.antt` and don't open them.
#![tactic(auto)]

mod arriving;
mod bridge;
mod bridges;
mod carry_laws;
mod course;
mod fitting;
mod giving;
mod in_place;
mod keeping;
mod laws;
mod lost;
mod moments;
mod paths_after;
mod refreshing;
mod replacing;
mod strays;
mod unit_layers;
mod unit_parts;
mod within;

pub use bridges::Bridges;
pub use carry_laws::{carry_paths_law, in_place_law};
pub use course::{Course, PartMove};
pub use fitting::is_silent;
pub use keeping::all_keep_place;
pub use laws::{bound_law, keeping_law, spare_law, staying_law, staying_parts_law, unit_list_laws};
pub use moments::{Moment, over_value};
pub use paths_after::places_after;
pub use tx_walk::{Closed, Layer, Opener, Part, Shell};
pub use unit_parts::has_parts;
