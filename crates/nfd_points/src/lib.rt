//! Points: the code points of a text in NFD (UAX #15), each with the byte offset where it comes from.
//!
//! A `Reorder` takes the code points of a text one at a time and gives its points as soon as no later code point can go
//! before them. `points_of_character` gives those of one code point by itself. Both stand on the decompositions and
//! classes of `unicode_normalization`.
#![tactic(auto)]

pub use crate::character::points_of_character;
pub use crate::faults::PointFault;
pub use crate::limits::{MOST_DECOMPOSITION, MOST_GIVEN, MOST_WAITING};
pub use crate::points::Point;
pub use crate::reordering::Reorder;

mod character;
mod decomposing;
mod faults;
pub mod laws;
mod limits;
mod points;
mod reordering;
