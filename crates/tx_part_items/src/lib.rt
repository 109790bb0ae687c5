//! What the parts of a nested paragraph show, each by itself.
#![tactic(auto)]

mod laws;

pub use laws::{items_under_law, parts_shown_law};
