//! Safe offsets: where in a text a search may begin (UTS #10, section 11).
//!
//! A safe offset is a boundary of every text that has these bytes there, whatever stands before them and whatever follows. So a search
//! that begins there finds the ranges that the text has from there on ([`answers_from_safe_offsets`]), and what stands before need not be
//! read. [`next_safe`] and [`previous_safe`] find the nearest one, forth and back. Which characters are safe the table alone says: one
//! that begins with a starter which stands in no contraction behind the first place, and with which no unit begins without a primary
//! weight. ICU has the same notion of a character that is not "unsafe backward".
//!
//! No call takes memory. Offsets are in bytes, from the beginning of the bytes that are given.
#![tactic(auto)]

mod character;
mod laws;
mod offsets;
pub mod worked;

pub use crate::character::is_safe;
pub use crate::laws::{answers_from_safe_offsets, safe_offsets_are_boundaries};
pub use crate::offsets::{next_safe, previous_safe};
