// A source, a sink and a store in memory. They report all their contents, and fail at the calls whose numbers they are
// given.
mod call_numbers;
mod file_list;
mod mem_sink;
mod mem_source;
mod mem_store;
mod stored_file;

pub use mem_sink::MemSink;
pub use mem_source::MemSource;
pub use mem_store::MemStore;
pub use stored_file::StoredFile;
