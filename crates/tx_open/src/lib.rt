//! The files that the words of the command line name, loaded and read, or the document that they ask to generate.
//!
//! The outcome of words and files is `ComesTo` of `specs/Outcomes.antt`. The words are read by `tx_words`, and each
//! file by `tx_scm` or `tx_tm_read`, as its name says.
#![tactic(auto)]

mod buffers;
mod failure;
mod file;
mod generating;
mod laws;
mod opening;

pub use buffers::Buffers;
pub use laws::{loads_are_counted, one_outcome};
pub use opening::{Opened, Opening, open};
