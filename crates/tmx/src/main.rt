//! The program `tmx`: what it does is `run_program` of `tx_program`.
#![tactic(auto)]

use std::process::ExitCode;
use tx_program::run_program;

fn main(rt: HostRuntime) -> ExitCode {
    run_program(&rt)
}
