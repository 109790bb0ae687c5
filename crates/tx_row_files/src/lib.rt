//! Files of rows, which programs of tests read: [`try_all`] tries each row of the files that the command line names, and
//! prints each one that differs. What kinds of rows there are, and what the result of a row is, a program says by
//! [`RowKind`].
//!
//! The README of `tx_rows` says how a row is written.
#![tactic(auto)]

mod escapes;
mod files;
mod kind;
mod lines;
mod report;
mod row;
mod table;

pub use files::{exit_code, try_all};
pub use kind::RowKind;
pub use lines::Mark;
pub use report::{push_number, push_text};
pub use row::{Lines, Row, command_words, push_files, store_of};
