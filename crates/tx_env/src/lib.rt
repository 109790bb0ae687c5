//! The environment: what names have, with scopes that can be left again.
#![tactic(auto)]

mod environment;
mod name_hash;
mod pairs;
mod scoped;
mod writes;

pub use environment::{Env, Mark};
pub use pairs::Pairs;
pub use writes::Writes;
