//! The words of the command line, `tmx [--width N] [--height N] FILE [STYLE]...`, read by `clap`.
//!
//! What words ask for is `Ask` of `specs/Words.antt`. Contracts see words as lists of their bytes.
#![tactic(auto)]

mod asked;
mod faults;
mod generators;
mod laws;
mod limits;
mod names;
mod parsing;
mod reading;
mod reasons;
mod sizes;

pub use asked::{FileWord, FileWords, Source, Words};
pub use faults::WordsFault;
pub use laws::{one_asking, plain_words};
pub use limits::limit_law;
pub use names::buffer_name;
pub use reading::read_words;
pub use reasons::faulty_because;

/// The most files that words ask for.
pub const MOST_FILES: usize = 64;
