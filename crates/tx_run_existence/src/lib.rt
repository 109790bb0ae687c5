//! There is an outcome of opening for all words and files, and a run for all scripts, however much memory there is.
//!
//! `tx_open` says that there is at most one outcome, and `tx_session` that there is at most one run. The functions that
//! find them may run out of memory, so that their contracts don't say that there is one. It is said here, by
//! [`some_outcome`] and [`some_run`].
#![tactic(auto)]

mod laws;

pub use laws::{some_outcome, some_run};
