//! The session: the top call `run` of the program, over a store of files, an input and an output, and `Session`, which
//! executes one command at a time.
//!
//! The outcome of opening is `ComesTo` of `tx_open`. A line's reply is `IsLineReply` (`specs/Replies.antt`). The lines
//! of a script, and how they are executed, are in `specs/Scripts.antt`. A whole run is `IsRun` (`specs/Runs.antt`), a
//! relation between words, files, script, status and the bytes written.
#![tactic(auto)]

mod fault_lines;
mod fixed_script;
mod kept_line;
mod limits;
mod no_files;
mod printing;
mod replies;
mod runs;
mod saving;
mod script;
mod session;
mod status;
mod unopened;

pub use limits::script_limit_law;
pub use replies::replies_tell_marks;
pub use runs::{failures_counted, numbers_determined, one_run, run};
pub use saving::{saved_in_a_session, saved_opens_again, saved_spells_alone};
pub use session::{Next, Session};
pub use status::Status;

/// The most bytes of a script: 2^24.
pub const MOST_SCRIPT: usize = 16_777_216;
