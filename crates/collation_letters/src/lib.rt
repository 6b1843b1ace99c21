//! Letters: what a character is to a search for a pattern.
//!
//! To a search a character is only what it does to the automaton of the pattern's keys and to the units around it. The keys of a
//! pattern are its symbols, numbered by where they stand in it; every other key is one more symbol, 0. A [`Letter`] says of a
//! character, or of one with marks behind it, which symbols its keys are, whether it begins a cluster, whether a unit may reach
//! into it or out of it, and what it does to variable weighting; or that nothing is known, and that it is left to the steps of the
//! search. [`Letters`] finds it, by the table's own calls, and that of two characters which are one mapped string, and keeps those that
//! it found; [`Letter::with_mark`] joins a mark to the letter before it, and [`Cluster::with_mark`] also one that goes before its last two.
//! What a letter means stands in `specs/Letters.antt`.
//! [`is_next`] says before which character the units of a letter end (`specs/Apart.antt`).
#![tactic(auto)]

mod apart;
mod cluster;
mod finding;
mod joining;
mod laws;
mod letter;
mod pair_places;
mod pairs;
mod places;
mod store;
mod symbols;

pub use crate::apart::is_next;
pub use crate::cluster::Cluster;
pub use crate::laws::{laws_of_characters, laws_of_symbols};
pub use crate::letter::{Letter, Role, UNKNOWN};
pub use crate::store::Letters;
pub use crate::symbols::{FIRST, FOREIGN, NO_SYMBOL, Symbols, advance, symbol_in, symbol_of};
