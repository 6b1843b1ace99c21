//! Passes by text in which a pattern can't match.
//!
//! Most text can't match, and then nothing need be known of it but that. The letters of a pattern make an automaton over bytes: a
//! state says how many of the pattern's first keys have matched, and what of the last characters may still matter; each byte is one
//! look-up, without a branch on script, length of a character, marks or contractions. An [`Automaton`] makes its states and moves
//! when they are first met, by the letters of `collation_letters`, and keeps them: it belongs to one table, pattern and weighting,
//! never to a text. It stops where as many of the pattern's first keys have matched as it follows, or where a letter is left to the
//! steps of the search.
//!
//! [`Automaton::pass`] answers how much of a piece may be passed by: no match ends there, and behind it no key waits. What that
//! means stands in `specs/Passed.antt`, what a state means in `specs/Reached.antt`, and what the table says in `specs/Rows.antt`.
//!
//! Where a text is of ASCII, or of characters of one and of two bytes, blocks of sixteen bytes pass in its place
//! ([`AsciiBlocks`]), and where most moves are new, characters one by one. [`Skip`] chooses, and all these ways answer alike.
#![tactic(auto)]

mod ascii;
mod automaton;
mod begun;
mod blocks;
mod classes;
mod depth;
mod foreign;
mod kinds;
mod moves;
mod pace;
mod passed;
mod rows;
mod skip;
mod state;
mod two_byte_blocks;
mod two_byte_sets;

pub use crate::ascii::AsciiBlocks;
pub use crate::automaton::Automaton;
pub use crate::pace::{Pace, WORTH};
pub use crate::passed::Passed;
pub use crate::skip::Skip;
