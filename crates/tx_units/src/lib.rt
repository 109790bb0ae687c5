//! The units of a document: the trees that are evaluated in order to show it.
//!
//! They are, in this order, those of the base style, those of the styles that the document names, those of its initial
//! environment, and the paragraphs of its body. Contracts see units as records, and the whole list is `units` of
//! `specs/Units.antt`; how many nodes it takes to make it is `made` there. The base style is in `specs/BaseStyle.antt`,
//! and where a document has its styles, its initial environment and its paragraphs is in `specs/Documents.antt`.
#![tactic(auto)]

mod base;
mod bodies;
mod documents;
mod initial;
mod inside;
mod kinds;
mod laws;
mod lists;
mod styles;
mod tags;

pub use base::{BASE_UNITS, base_units};
pub use inside::leaves_others;
pub use kinds::{Unit, UnitKind};
pub use laws::{base_law, body_laws, inside_law, unit_count_law};
pub use lists::{units, units_over};
