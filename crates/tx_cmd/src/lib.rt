//! Command lines: which line of a script is which command, and why a line is none.
//!
//! What spells a command is `IsCommand` (`specs/Commands.antt`), and the causes of a refusal are `IsCmdFault`
//! (`specs/Refusals.antt`). The words, what is after them, and the loose grammar that decides the place of
//! `CmdFault::Args` are in `specs/Words.antt`. A line comes without the newline that ends it and without the one
//! return before that.
#![tactic(auto)]

mod command;
mod laws;
mod limits;
mod line;
mod pieces;
mod reading;
mod words;

pub use command::{CmdFault, Command};
pub use laws::{one_answer, one_command};
pub use limits::line_limit_laws;
pub use line::parse;
pub use pieces::first_word;
pub use words::{ArgumentKind, ModWord, Word};

/// The most bytes of a line.
pub const MOST_LINE: usize = 1_048_576;
/// The most bytes of a name.
pub const MOST_NAME: usize = 255;
