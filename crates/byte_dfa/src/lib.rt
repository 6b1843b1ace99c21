//! Runs over bytes by a table of moves: the running half of a deterministic automaton.
//!
//! [`Cells`] are the table. A *row* is a number and has one cell for each byte: that of a byte stands at [`UNIT`] times the row plus the
//! byte. A cell is the row to which its byte leads. The rows up to [`STOP`] are stops: a run ends where a cell is one of them. A row
//! *accepts* the bytes before it where it is odd, so that a run sees by the row alone what it has to note. Who makes rows and fills
//! cells, and what they mean, is the caller's matter.
//!
//! [`Cells::run_to_end`] goes by windows and [`Cells::run_by_four`] makes four runs at once. Both come where single moves come: that is
//! their clause, `Follows` of `specs/Moves.antt`. [`Guesses`] cost time alone where they are wrong.
//!
//! It stands on the standard library alone. `Cells` and `Guesses` take memory where their rows and guesses are made.
#![tactic(auto)]

mod cells;
mod four_runs;
mod moves;
mod windows;

pub use crate::cells::{Cells, FIRST_ROW, ROW, UNKNOWN_CELL};
pub use crate::moves::{Cursor, STOP, UNIT, come_to};
pub use crate::windows::Guesses;
