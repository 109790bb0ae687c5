//! Documents: buffers, each a tree under a name, the syntax of a file, and where the body of a document is.
//!
//! Contracts see a buffer as the record of its name and its tree, and a name as the list of its bytes. The syntax by a
//! file's name is `form_of` of `specs/Forms.antt`, and the path to the body is `body_of` of `specs/Bodies.antt`. What
//! is said of all buffers of a session is in `specs/Buffers.antt`: that their names differ, their trees, and one tree
//! put in place of another.
#![tactic(auto)]

mod bodies;
mod buffer;
mod forms;
mod older;
mod versions;

pub use bodies::{body, is_labelled};
pub use buffer::{Buffer, Name, formed_law, number_of, share_buffers};
pub use forms::{Form, form_of};
pub use older::{modern, modern_law};
