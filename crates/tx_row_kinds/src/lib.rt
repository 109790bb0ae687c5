//! Kinds of rows that need no session: a row of [`CallKind`] tries one call of a library, as a reader or the evaluator.
//!
//! The README of `tx_rows` says how a row is written.
#![tactic(auto)]

mod applying;
mod clustering;
mod evaluating;
mod kinds;
mod opening;
mod reading;
mod writing;

pub use kinds::CallKind;
