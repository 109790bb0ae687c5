//! There are lines of each paragraph, pages of all lines, and a view of all buffers, however much memory there is.
//!
//! `tx_layout` and `tx_view_form` say that there is at most one of each. The functions that compute them may run out of
//! memory, so that their contracts don't say that there is one. It is said here, by [`some_shape`], [`some_paging`] and
//! [`some_view`].
#![tactic(auto)]

mod laws;

pub use laws::{some_paging, some_shape, some_view};
