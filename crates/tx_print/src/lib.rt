//! What is printed of a view, of a place and of a count of steps, without memory.
//!
//! The texts are definitions of `specs/` over what the view shows: pages in `Pages.antt`, errors in `Errors.antt`, the
//! place at a cell in `Places.antt`, and the attributes of a row in `Runs.antt`. That of a count is in `Work.antt`. The
//! result of printing is `IsPrinted` of `specs/Writing.antt`: the text is written, or after a fault of the sink a part
//! of it, from its start on.
#![tactic(auto)]

mod attributes;
mod errors;
mod lines;
mod pages;
mod pieces;
mod places;
mod printer;
mod work;

pub use attributes::print_attrs;
pub use errors::print_errors;
pub use pages::{print_page, print_pages};
pub use places::{print_cursor, print_place};
pub use work::print_work;
