//! What is typed at a terminal: the keys that its bytes stand for, and the item of a text that a typed character
//! becomes.
#![tactic(auto)]

mod reading;
mod sequences;
mod typing;

pub use reading::{key_laws, read_keys};
pub use sequences::{Begun, Key};
pub use typing::push_typed;
