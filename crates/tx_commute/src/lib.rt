//! Taking one modification past another: what is left of both when the first is left out.
#![tactic(auto)]

mod carrying;
mod known;
mod laws;
mod leaving;
mod many;
mod midway;
mod numbers;
mod pairs;
mod placing;

pub use laws::{carried_back_law, leave_law, past_law};
pub use leaving::{Left, leave};
pub use pairs::past_of;
