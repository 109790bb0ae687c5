//! A nested paragraph is laid out by its parts. The former layout of a part is reused where it still holds.
#![tactic(auto)]

mod attributes;
mod finding;
mod laid;
mod laying;
mod line_list;
mod part;
mod placing;
mod settings;
mod slots;
mod under;
mod unit;

pub use attributes::same_attrs;
pub use laid::{LaidPart, LaidUnit, PlacedPart};
pub use line_list::LineList;
pub use part::{item_count, lines_of};
pub use under::lines_under_law;
pub use unit::lay_parts;
