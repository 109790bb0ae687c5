//! The lines of a page, and texts of one line, as rows of characters for a terminal.
//!
//! [`line_row`] makes the row that shows a line, and [`text_row`] one that shows a text, cut at a width. By
//! [`row_law`] the row of a line takes the cells that the line has on its page, and by [`text_law`] that of a text fits.
//! [`cut_row`] cuts a row at a width.
#![tactic(auto)]

mod clusters;
mod cutting;
mod inks;
mod lines;
mod texts;

pub use cutting::cut_row;
pub use lines::{line_row, row_law};
pub use texts::{text_law, text_row};
