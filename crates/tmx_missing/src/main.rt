//! The program `tmx` once more, for its stored run: over a file that isn't there, which ends with the status 3.
#![tactic(auto)]

use std::process::ExitCode;
use tx_program::run_program;

fn main(rt: HostRuntime) -> ExitCode {
    run_program(&rt)
}
