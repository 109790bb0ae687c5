//! Where a place of the document is drawn, and to which place a vertical move goes: definitions, and laws about them.
#![tactic(auto)]

mod paging;
mod rows;
mod stops;

pub use paging::{page_law, page_of};
pub use rows::row_laws;
pub use stops::stop_laws;
