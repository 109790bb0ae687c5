//! What an evaluated tree shows: paragraphs of items with their attributes, and errors.
#![tactic(auto)]

mod attributes;
mod cells;
mod drawing;
mod flat;
mod laws;
mod plans;
mod rows;
mod showing;
mod tables;
mod units;
mod words;

pub use attributes::Attrs;
pub use cells::item_cells;
pub use drawing::{Drawn, ErrorAt, Item, Items, Look, Paragraph};
pub use laws::row_law;
pub use units::{PartItems, after, items, part_items};
