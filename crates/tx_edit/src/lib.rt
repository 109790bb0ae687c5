//! What a key makes of a tree at the cursor: modifications and the cursor afterwards, or another cursor alone.
//!
//! What typing, backspace and enter make of a tree at a place is in `specs/Keys.antt`, and where the keys left and
//! right lead among the stops of a view is in `specs/Stops.antt`. Nothing is changed here: what is returned is still to
//! be applied, which a limit may refuse.
#![tactic(auto)]

mod faults;
mod keys;
mod moves;
mod paths;
mod stops;

pub use faults::EditFault;
pub use keys::{backspace, enter, type_text};
pub use moves::Move;
pub use stops::{left, right};
