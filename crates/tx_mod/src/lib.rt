//! Modifications of a tree: the eight kinds, what each makes of a tree, and the modification that undoes it.
//!
//! What a modification makes of a tree, or why it makes nothing of it, is `changed` of `specs/Changes.antt`, and the
//! modification that gives the tree back is `inverse_of` of `specs/Inverses.antt`.
#![tactic(auto)]

mod applying;
mod carrying;
mod faults;
mod laws;
mod list;
mod making;
mod measures;
mod mods;
mod moving;
mod parts;
mod remaking;
mod undoing;
mod walks;
mod ways;

pub use applying::{applicable, apply, apply_and_inverse, inverse};
pub use carrying::{carried, carried_by_remove, carried_by_unwrap, carry_in_place, some_path};
pub use faults::{ApplyFault, ModFault};
pub use laws::{
    carried_law, carried_list_law, carried_place_law, inverse_law, list_inverse_law, moved_law,
    order_law, sound, well_formed_law,
};
pub use list::ModList;
pub use mods::Mod;
pub use moving::moved;
pub use ways::{Way, first_step, path_below, rest_behind};
