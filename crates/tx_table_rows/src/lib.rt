//! What a table shows, from its grid to the rows of a page: one law.
#![tactic(auto)]

mod laws;

pub use laws::shown_rows_law;
