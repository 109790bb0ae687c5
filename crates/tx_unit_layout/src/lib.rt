//! What is shown of a unit. A paragraph of the body is laid out by its parts, and the former layout of a part is used
//! again where it still holds.
#![tactic(auto)]

mod again;
mod by_parts;
mod laid_parts;
mod laying;
mod shown;
mod stretches;
mod whole;

pub use laid_parts::LaidParts;
pub use laying::lay_unit;
pub use shown::Shown;
pub use stretches::Stretch;
pub use whole::outcome_weight_law;
