//! What every crate of the editor uses: the error for out of memory, and a count of steps.
//!
//! `Memory` is the one error that no contract ties to a cause. `Steps` is a number that only proofs see: it has no
//! bytes when the program runs.
#![tactic(auto)]

mod out_of_memory;
mod step_count;

pub use out_of_memory::Memory;
pub use step_count::Steps;
