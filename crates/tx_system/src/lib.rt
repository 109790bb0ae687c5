//! The edge to the system: the store over files, the standard input and the standard output, as implementations of the
//! traits of `tx_outside`.
//!
//! The adapters report no contents, since no contract knows what a real file or terminal holds. They keep a count for
//! each kind of fault and raise it at each fault that they return, apart from running out of memory. What contracts do
//! say of bytes holds for a reader or a writer whose bytes they know (`remaining` and `contents` of std).
//!
//! A save never writes into the file that it saves. It makes a new file beside it and renames that over the
//! name (`saving.rt`), so a save that fails or is cut off leaves the old bytes whole.
#![tactic(auto)]

mod counts;
mod file_store;
mod loading;
mod save_names;
mod saving;
mod spare_name;
mod standard;

pub use file_store::FileStore;
pub use loading::read_to_limit;
pub use saving::write_to_disk;
pub use standard::{StandardInput, StandardOutput};
