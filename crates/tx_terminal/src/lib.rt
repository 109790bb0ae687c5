//! What is written to a terminal to show a row, and what a terminal makes of it.
//!
//! [`paint_row`] and [`paint_rows`] write the bytes that show rows of characters, and [`move_to`] those that place the
//! cursor. A [`Painter`] writes only the rows that differ from those that it painted before.
//! `specs/Terminals.antt` defines what a terminal shows after any bytes, and an [`Emulator`] is such a terminal.
#![tactic(auto)]

mod begun;
mod cells;
mod characters;
mod emulator;
mod inks;
mod numbers;
mod painter;
mod painting;

pub use characters::{Character, Row};
pub use emulator::Emulator;
pub use inks::{Color, Ink};
pub use painter::{Painter, painter_laws};
pub use painting::{move_to, paint_row, paint_rows, set_cursor_shown, terminal_laws};
