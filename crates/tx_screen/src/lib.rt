//! A screen to edit on: what keys do to a session, and what a terminal shows of it.
//!
//! A [`Screen`] has a session, and only gives it lines of commands. So the document, its history, its cursor and its
//! files are those of a script with these lines.
#![tactic(auto)]

mod desk;
mod editing;
mod ending;
mod errors;
mod finding;
mod frames;
mod help;
mod lines;
mod messages;
mod modes;
mod moving;
mod prompts;
mod run;
mod saving;
mod screen;
mod status;

pub use ending::Ending;
pub use modes::Size;
pub use run::{open_screen, run_screen};
pub use screen::Screen;
