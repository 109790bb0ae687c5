//! The canonical TM text of a block, its length, and the law that it spells its block alone.
//!
//! A block is a `document` with a child, or a `collection` whose children are all nodes. Which form a tree has is
//! said in `specs/Shapes.antt`, and the text in `specs/Canonical.antt`.
#![tactic(auto)]

mod items;
mod laws;
mod lengths;
mod shapes;
mod writer;

pub use laws::canonical_laws;
pub use lengths::length;
pub use shapes::is_block;
pub use writer::write;
