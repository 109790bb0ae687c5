//! The outside as values of three traits: a `Source` of bytes, a `Sink` of bytes, and a `Store` of files.
//!
//! Contracts know of an implementation its ghost members: the contents, which it may leave unknown, and counts of what
//! went wrong. What a call does is a relation between the contents before and after it (`append_known` and
//! `prepend_known` of std, `WithFile` and `OthersKept` of `specs/Files.antt`). The cause of a fault is a count that
//! rose (`Rose` of `specs/Counts.antt`). `write_all` writes a whole piece. `MemSource`, `MemSink` and `MemStore` are
//! the three in memory: they report all contents, and fail exactly where they are asked to.
#![tactic(auto)]

mod byte_sink;
mod byte_source;
mod faults;
mod file_store;
mod in_memory;
mod limits;

pub use byte_sink::{Sink, parts_compose, write_all};
pub use byte_source::Source;
pub use faults::{Failed, LoadFault, SaveFault, WriteFault};
pub use file_store::{MOST_FILE, Store};
pub use in_memory::{MemSink, MemSource, MemStore, StoredFile};
pub use limits::file_limit_law;
