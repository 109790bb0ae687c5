//! The view of a document: its pages, its errors, and the places of its cells.
//!
//! What a view is says `IsView` of `tx_view_form`. [`View::refresh`] makes it from the present buffers, and uses again
//! what was evaluated and laid out before, where it still fits.
#![tactic(auto)]

mod around;
mod arriving;
mod base;
mod beside;
mod carrying;
mod cells;
mod ends;
mod evaluating;
mod laying;
mod lone;
mod marks;
mod moves;
mod paging;
mod places;
mod refreshing;
mod searching;
mod spots;
mod starts;
mod stops;
mod view;

pub use cells::drawn_in;
pub use view::View;
