//! The state of an editing session: the buffers, the cursor, and the edits that can be undone and redone.
//!
//! Contracts see whole former moments, and the edits between them (`specs/States.antt`). What edits, undo, redo, moves
//! of the cursor and a choice of a buffer make of a state is in `specs/Edits.antt`. Edits, undo and redo are prepared
//! first and then put in place (`specs/Ready.antt`). The code keeps the modifications that lead from moment to moment.
#![tactic(auto)]

mod backward;
mod changing;
mod cursors;
mod edits;
mod faults;
mod laws;
mod leaving;
mod limits;
mod preparing;
mod state;

pub use edits::{Edit, Entry, Prepared};
pub use faults::{GoFault, LeaveFault, NoBuffer, UndoFault};
pub use laws::undo_law;
pub use limits::limit_law;
pub use state::EditorState;

/// The most buffers.
pub const MOST_BUFFERS: usize = 64;

/// The most edits that can be undone.
pub const MOST_UNDO: usize = 1000;
