//! The reader of TM: one pass over the bytes, with a stack of open tags, and where they are refused the fault of
//! `tx_tm_faults`.
//!
//! What bytes spell is defined in `tx_tm_form` (`specs/Forms.antt`). The reader is its machine (`specs/Machine.antt`),
//! with trees that are made as soon as their ends are read.
#![tactic(auto)]

mod heads;
mod plain_tags;
mod reader;
mod tags;
mod taking;
mod walk;

pub use reader::read;
