//! The Scheme syntax of trees: a reader, a writer, and a plain recogniser.
//!
//! A tree is written as a string, or as a bracket with a label and the children. Which bytes spell which tree is
//! `Spells` (`specs/Spelling.antt`), and the writer's text is `scheme_text` (`specs/Canonical.antt`).
#![tactic(auto)]

mod kinds;
mod laws;
mod lengths;
mod measures;
mod names;
mod reader;
mod recogniser;
mod spots;
mod states;
mod strings;
mod writer;

pub use laws::{
    canonical_laws, fault_laws, fronts_go_on_by_bytes, scan_goes_on_along_fronts, spelling_laws,
};
pub use lengths::length;
pub use reader::read;
pub use recogniser::spells;
pub use writer::write;
