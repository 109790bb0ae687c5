//! What the program `tmx` does, as one function of the runtime: `run_program`. It lends `run` of `tx_session` the real
//! files, input and output, says on the standard error why words or a file were refused, and ends with the number of
//! the status. `main` of `tmx` calls nothing else.
#![tactic(auto)]

mod program;
mod reasons;
mod spots;

pub use program::{exit_code, run_program, words};
pub use reasons::{refused_because, unopened_because};
