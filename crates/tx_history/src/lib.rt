//! The undo history: what was done, and what was undone and can be done again.
//!
//! Contracts see a history as two lists of entries with the newest last, and the greatest number of entries
//! (`specs/Lists.antt`). Both lists together never have more. All memory is taken in `History::new`.
#![tactic(auto)]

mod history;

pub use history::{History, Nothing};
