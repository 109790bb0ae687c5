//! The lines of a paragraph of items, and the pages of lines.
//!
//! [`lines`] gives the lines of a paragraph on a page of some width. Which lines these are is `IsShape` of
//! `specs/Shapes.antt`, over the first-fit relation of `tx_lines`: it speaks of finished lines, and not of how they are
//! found. By [`one_shape`] at most one list of lines meets it, by [`items_kept`] these lines hold every glyph and every
//! chance once and in order, by [`within_page`] none reaches beyond its page, and by [`spread_full`] a line that is
//! spread has exactly its width. [`pages`] cuts lines into pages, and a
//! [`Paginator`] those of lines in several slices; [`one_paging`] and [`lines_kept`] say that there is one way to do
//! so, which leaves nothing out.
#![tactic(auto)]

mod layout;
mod measures;
mod paging;
mod pieces;
mod segments;
mod shapes;

pub use layout::{
    Line, LineItems, items_kept, lines, one_line_law, one_shape, spread_full, within_page,
};
pub use measures::{Frame, Side, line_frame};
pub use paging::{Paginator, lines_kept, one_paging, pages};
pub use pieces::Span;
pub use tx_items::item_cells;
pub use tx_lines::Cut;
