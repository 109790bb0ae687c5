//! Content of TM that grows, with trees that are made as soon as their ends are read: arguments, blocks, and what may
//! be the block of a collection.
//!
//! What content stands for is in `tx_tm_form` (`specs/Growing.antt`). Each function is one of its equations, or returns
//! None where it can lead to no tree within the limits (`specs/ContentFits.antt`).
#![tactic(auto)]

mod blocks;
mod lines;
mod making;
mod rows;
mod shared_labels;
mod tag_rows;

pub use blocks::{Body, Paragraphs, TagList};
pub use lines::OpenLine;
pub use making::{make_leaf, make_node, raw_data_label};
pub use rows::{Siblings, make_room};
pub use shared_labels::Labels;
pub use tag_rows::{TagEntry, TagRow};
