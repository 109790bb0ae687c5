//! Lines of pieces that are side by side, filled first-fit.
//!
//! [`fill`] cuts a list of pieces into lines. Which cuts these are is `IsFirstFit` of
//! `specs/FirstFit.antt`: it speaks of finished lines and their widths, and not of how lines are found. By
//! [`one_filling`] at most one list of lines meets it, by [`some_filling`] one does where the pieces are
//! narrow enough, and by [`nothing_lost`] such lines hold the pieces, each once and in order.
#![tactic(auto)]

mod cut;
mod first_fit;

pub use cut::Cut;
pub use first_fit::{Piece, fill, nothing_lost, one_filling, some_filling};
