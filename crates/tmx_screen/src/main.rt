//! The program `tmx_screen`: what it does is `run_screen_program` of `tx_screen_program`.
#![tactic(auto)]

use std::process::ExitCode;
use tx_screen_program::run_screen_program;

fn main(rt: HostRuntime) -> ExitCode {
    run_screen_program(&rt)
}
