//! Lines of commands for what is done on a screen: for characters that are typed or pasted, for a place to which the
//! cursor goes, and for names.
//!
//! Each line is its command by `IsCommand` of `tx_cmd`, so a session that is told the line does exactly that command.
#![tactic(auto)]

mod changing;
mod naming;
mod places;
#[cfg(test)]
mod tests;
mod typing;

pub use changing::{join_line, remove_line};
pub use naming::{at_line, save_line};
pub use places::go_line;
pub use typing::{text_line, typed_line};

/// Of so many characters or fewer, those that can be typed have room in one line.
pub const SURE_CHARACTERS: usize = 2_000;
