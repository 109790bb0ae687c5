//! The program `tx_rows`: it tries the rows of the files that its command line names. It prints each row that differs,
//! with the file, the line, what is wanted and what came, and after each file how many rows it has and how many differ.
//! README.md says how a row is written.
#![tactic(auto)]

mod kinds;
mod running;

use crate::kinds::Kind;
use std::marker::Brand;
use std::process::ExitCode;
use std::sync::ledger::Blank;
use tx_row_files::{exit_code, try_all};

fn main(rt: HostRuntime) -> ExitCode {
    exit_code(try_all::<Kind, HostRuntime, Brand>(&rt, Blank::new(1)))
}
