//! Where the parts of an evaluated tree come from: inverse paths, and values whose nodes have origins.
#![tactic(auto)]

mod base;
mod paths;
mod places;
mod tagged;
mod values;

pub use base::Base;
pub use paths::Ip;
pub use places::{At, Spot};
pub use tagged::{Tagged, share_origin};
pub use values::{Value, under_law};
