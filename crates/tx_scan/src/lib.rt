//! Byte search by lanes: where a run of plain bytes ends, and how many places hold a byte.
//!
//! Both calls look at 32 bytes at a time and then at the rest one by one. What they return is said without that:
//! `is_stop` tests one byte, `first_stop_from` is the least place that passes it, and a count is `count_by` of std.
//! Nothing here takes memory.
#![tactic(auto)]

mod count;
mod search;
mod stop_set;

pub use count::count_of;
pub use search::first_stop;
pub use stop_set::Stops;
