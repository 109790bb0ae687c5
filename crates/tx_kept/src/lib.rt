//! Values stored by paths of a document: one map in the order of the document, which an edit carries in place.
#![tactic(auto)]

mod carrying;
mod course;
mod finding;
mod laws;
mod path_map;

pub use course::trees_before;
pub use finding::are_in_order;
pub use laws::carry_law;
pub use path_map::{Entry, PathMap};
