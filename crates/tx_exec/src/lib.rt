//! The evaluator: the trace of a tree in an environment.
//!
//! What a tree evaluates to is `evaluated` of `tx_exec_form`, and `eval` returns exactly that.
#![tactic(auto)]

mod arg_rows;
mod argument;
mod assigning;
mod binding;
mod calls;
mod children;
mod errors;
mod evaluator;
mod flow;
mod frame;
mod looking;
mod looks;
mod macros;
mod mapping;
mod names;
mod numbers;
mod outcome;
mod picks;
mod primitives;
mod progress;
mod stop;
mod storing;
mod tuples;
mod withs;

pub use looks::Looks;
pub use names::{looks_of, writes_of};
pub use outcome::{Outcome, Trace, eval};
