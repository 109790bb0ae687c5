//! Evaluation by parts: the value of an open tree is made of those of its inner trees, each evaluated alone.
#![tactic(auto)]

mod laws;
mod recomposition;
mod shell_laws;

pub use laws::{
    atop_law, composition_law, cost_law, fitting_law, frame_law, looks_law, part_law, past_law,
    standing_law,
};
pub use recomposition::recomposition_law;
pub use shell_laws::{
    layers_law, macro_law, opened_composition_law, opened_cost_law, opened_fitting_law,
    opened_standing_law, opener_law,
};
