//! Why bytes spell no tree within the limits: one pass over them for the place of the fault, or two for a limit and the
//! number there. No tree is made.
//!
//! Faults are defined in `tx_tm_form` (`specs/Faults.antt`). The passes are its machines with places and with measures
//! in place of trees (`specs/Marks.antt`, `specs/Measures.antt`).
#![tactic(auto)]

mod faults;
mod marking;
mod measuring;
mod opens;
mod scan;
mod sums;

pub use faults::fault_of;
