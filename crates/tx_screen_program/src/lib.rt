//! What the program `tmx_screen` does, as one function of the runtime: `run_screen_program`. It lends `run_screen` of
//! `tx_screen` the real files, input and output, says on the standard error why words or a file were refused, and ends
//! with the number of the ending. `main` of `tmx_screen` calls nothing else.
#![tactic(auto)]

mod program;

pub use program::{exit_code, run_screen_program};
