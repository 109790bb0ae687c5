//! The words of TM: a lexer that takes the bytes one by one, and bytes at the front that are taken at once.
//!
//! The words that bytes are cut into are defined in `tx_tm_form` (`specs/Tokens.antt`, `specs/Machine.antt`).
#![tactic(auto)]

mod bytes;
mod lexer;
mod runs;

pub use bytes::{is_collection, is_digit, longer, same_bytes};
pub use lexer::{LabelFront, Lexed, Lexer, TmWord, header_place, is_dropped};
pub use runs::{MOST_RUN, white_front, words_len};
